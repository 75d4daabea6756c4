// The nine causes, their numbers and their words.
ghost use Rattle.std.specs.Prelude.{◌≡◌};
ghost use Rattle.causes.specs.Causes.{number, word, cause_of_word, numbered, worded};

use octets::equal;

// Each stands with the number under which it is given.
#[derive(Clone, Copy, PartialEq, Eq, Debug)]
pub enum Cause {
    // the store has no space left
    NoSpace = 26,
    // its retention keeps it from being removed
    Held = 27,
    BadName = 31,
    PathTooLong = 32,
    NoSuchName = 33,
    AlreadyThere = 34,
    // the directory is not empty
    NotEmpty = 35,
    // there is no directory above
    AtTop = 36,
    ListTooLong = 37,
}

// A number that is of no cause.
#[derive(Clone, Copy, PartialEq, Eq, Debug)]
pub struct UnknownCause(pub u8);

// Words that say no cause.
#[derive(Clone, Copy, PartialEq, Eq, Debug)]
pub struct UnknownWords;

impl Cause {
    const ALL: [Cause; 9] = [
        Cause::NoSpace,
        Cause::Held,
        Cause::BadName,
        Cause::PathTooLong,
        Cause::NoSuchName,
        Cause::AlreadyThere,
        Cause::NotEmpty,
        Cause::AtTop,
        Cause::ListTooLong,
    ];

    // The number under which it is given.
    pub fn number(self) -> u8
        ensures { result ≡ number self }
    {
        self as u8
    }

    // The words that say it, as the bytes of a field, since nothing is printed here.
    pub fn word(self) -> &'static [u8]
        ensures { word self ≡ result.now }
    {
        match self {
            Cause::NoSpace => b"no space",
            Cause::Held => b"held",
            Cause::BadName => b"bad name",
            Cause::PathTooLong => b"path too long",
            Cause::NoSuchName => b"no such name",
            Cause::AlreadyThere => b"already there",
            Cause::NotEmpty => b"not empty",
            Cause::AtTop => b"already at the top",
            Cause::ListTooLong => b"list too long",
        }
    }
}

// The cause of a number.
impl TryFrom<u8> for Cause {
    type Error = UnknownCause;

    ghost try_from_gives = { λ n r. r ≡ numbered n };

    fn try_from(number: u8) -> Result<Cause, UnknownCause> {
        match number {
            26 => Ok(Cause::NoSpace),
            27 => Ok(Cause::Held),
            31 => Ok(Cause::BadName),
            32 => Ok(Cause::PathTooLong),
            33 => Ok(Cause::NoSuchName),
            34 => Ok(Cause::AlreadyThere),
            35 => Ok(Cause::NotEmpty),
            36 => Ok(Cause::AtTop),
            37 => Ok(Cause::ListTooLong),
            _ => Err(UnknownCause(number)),
        }
    }
}

// The cause whose words these are: by the chain that finds a command's word too, which is shorter than a trait that both could share.
fn cause_of_word(words: &[u8]) -> Option<Cause>
    ensures { result ≡ cause_of_word words.now }
{
    Cause::ALL
        .iter()
        .copied()
        .find(|cause| equal(words, cause.word()))
}

// The cause that some words say.
impl TryFrom<&[u8]> for Cause {
    type Error = UnknownWords;

    ghost try_from_gives = { λ t r. r ≡ worded t.now };

    fn try_from(words: &[u8]) -> Result<Cause, UnknownWords> {
        cause_of_word(words).ok_or(UnknownWords)
    }
}
