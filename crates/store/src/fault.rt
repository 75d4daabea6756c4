// Why a store refuses a call.
ghost use Rattle.std.specs.Prelude.{◌≡◌};
ghost use Rattle.std.specs.Option.{option_map};
ghost use Rattle.store.specs.Meaning.{up};
ghost use Rattle.store.specs.Faults.{number, level, raise, lowered};

// A level counts the layers from 0 at the top.
#[derive(Clone, Copy, PartialEq, Eq, Debug)]
pub enum StoreFault {
    // a key buffer has less than 96 bytes
    ShortBuffer,
    // open or remove with a draft; append, keep or drop without one
    DraftState,
    NoSuchKey,
    KeyExists,
    NoSpace(u8),
    Held(u8),
    // read or append past the size, keep before it
    WrongSize,
    // a key does not have 1 to 96 bytes
    BadKey,
}

impl StoreFault {
    // The number under which a store gives this refusal; a match, since variants with a level cannot carry it as a discriminant.
    pub fn number(&self) -> u8
        ensures { result ≡ number self.now }
    {
        match self {
            StoreFault::ShortBuffer => 3,
            StoreFault::DraftState => 23,
            StoreFault::NoSuchKey => 24,
            StoreFault::KeyExists => 25,
            StoreFault::NoSpace(_) => 26,
            StoreFault::Held(_) => 27,
            StoreFault::WrongSize => 28,
            StoreFault::BadKey => 31,
        }
    }

    // The level of the layer that lacks space or holds; none where a fault has none.
    pub fn level(&self) -> Option<u8>
        ensures { result ≡ level self.now }
    {
        match self {
            StoreFault::NoSpace(level) | StoreFault::Held(level) => Some(*level),
            _ => None,
        }
    }
}

// A fault of the store below a layer. The `?` that passes it up raises its level by one, to 255 at most.
#[derive(Clone, Copy, PartialEq, Eq, Debug)]
pub struct Lower(pub StoreFault);

// By hand, since it raises the level on the way.
impl From<Lower> for StoreFault {
    ghost from_gives = { λ l f. f ≡ raise l.0 };

    fn from(lower: Lower) -> StoreFault {
        match lower.0 {
            StoreFault::NoSpace(level) => StoreFault::NoSpace(level.saturating_add(1)),
            StoreFault::Held(level) => StoreFault::Held(level.saturating_add(1)),
            fault => fault,
        }
    }
}

// What the store below answered, for a layer's `?`.
pub fn from_below<T>(answer: Result<T, StoreFault>) -> Result<T, Lower>
    ensures { result ≡ lowered answer }
{
    answer.map_err(Lower)
}

// The level that the store below told, as a layer tells it.
pub fn raised_level(level: Option<u8>) -> Option<u8>
    ensures { result ≡ option_map up level }
{
    level.map(|level| level.saturating_add(1))
}
