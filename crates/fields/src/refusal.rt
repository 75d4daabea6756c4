// Why a text is not read or not written.
ghost use Rattle.std.specs.Prelude.{◌≡◌};
ghost use Rattle.fields.specs.Refusals.{wrong_number, number};
ghost use Rattle.fields.specs.Takes.{wrong};

// The first wrong field of a text: its number, from 1, and the place of its first byte, from 0.
#[derive(Clone, Copy, PartialEq, Eq, Debug)]
pub struct WrongField {
    pub field: u8,
    pub place: usize,
}

impl WrongField {
    pub(crate) fn at(field: u8, place: usize) -> WrongField
        ensures { result ≡ wrong field place }
    {
        WrongField { field, place }
    }

    // The number under which both ends give this refusal, the only one of a wrong field.
    pub fn number(&self) -> u8
        ensures { result ≡ wrong_number self.now }
    {
        13
    }
}

#[derive(Clone, Copy, PartialEq, Eq, Debug)]
pub enum TextRefusal {
    // the text does not fit the lent buffer
    Buffer = 3,
    // the values do not make a well-formed text of at most 4,096 bytes
    Form = 5,
}

impl TextRefusal {
    // The number under which both ends give this refusal.
    pub fn number(&self) -> u8
        ensures { result ≡ number self.now }
    {
        *self as u8
    }
}
