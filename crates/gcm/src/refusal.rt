// Why a body is not decrypted.

// The tag is not the body's own.
#[derive(Clone, Copy, PartialEq, Eq, Debug)]
pub struct WrongTag;

// Into a text that is lent.
#[derive(Clone, Copy, PartialEq, Eq, Debug)]
pub enum Undecrypted {
    // the tag is not the body's own
    WrongTag,
    // it is, and the text is shorter than the body
    NoRoom,
}
