// What is known of a received message.
use kinds::Kind;

// Past type and number: kind, number, and where its tag ends.
#[derive(Clone, Copy)]
pub(crate) struct Admitted {
    pub(crate) kind: Kind,
    pub(crate) number: u16,
    pub(crate) end: usize,
}

// Opened: kind, number, and the length of the payload, which stands at the front of the text.
#[derive(Clone, Copy, PartialEq, Eq, Debug)]
pub struct Received {
    pub kind: Kind,
    pub number: u16,
    // no slice of the text: a contract could not say then what the text holds, as that a refusal leaves it untouched
    pub length: usize,
}
