// A response, whose fields are parts of the text that it was read from.
use fields::Place;
use words::Word;

// What a response says after its status.
#[derive(Clone, Copy, PartialEq, Eq, Debug)]
pub enum Outcome<'a> {
    // the command was done, and there is nothing to tell
    Done,
    Path(&'a [u8]),
    // in Base64
    Listing(&'a [u8]),
    File { size: u32, digest: &'a [u8] },
    // failure or reject, with the cause's word
    Refused(&'a [u8]),
}

// The command's word, the digest of its payload in 64 characters, and what came of it.
#[derive(Clone, Copy, PartialEq, Eq, Debug)]
pub struct Response<'a> {
    pub word: Word,
    pub request: &'a [u8],
    pub outcome: Outcome<'a>,
}

// Where the fields of a response stand.
#[derive(Clone, Copy, PartialEq, Eq, Debug)]
pub struct Places {
    pub word: Place,
    pub request: Place,
    pub status: Place,
    pub first: Option<Place>,
    pub second: Option<Place>,
}

// A response as it was read, with the places of its fields.
#[derive(Clone, Copy, PartialEq, Eq, Debug)]
pub struct PlacedResponse<'a> {
    pub response: Response<'a>,
    pub places: Places,
}

// What is said, with the places of its fields.
#[derive(Clone, Copy)]
pub(crate) struct Results<'a> {
    pub(crate) outcome: Outcome<'a>,
    pub(crate) first: Option<Place>,
    pub(crate) second: Option<Place>,
}
