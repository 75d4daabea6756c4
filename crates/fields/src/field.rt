// A field of a text, and the fields of a text that are still to be read.

// Where a field of a text starts and ends.
#[derive(Clone, Copy, PartialEq, Eq, Debug)]
pub struct Place {
    pub start: usize,
    pub end: usize,
}

// A field: where it stands in its text, and its bytes.
#[derive(Clone, Copy, PartialEq, Eq, Debug)]
pub struct Field<'a> {
    pub place: Place,
    pub bytes: &'a [u8],
}

// The fields of a text from a place on; none is left where there is no place. A place and no rest of the text, since a missing field
// is wrong where the text ends.
#[derive(Clone, Copy, PartialEq, Eq, Debug)]
pub struct Fields<'a> {
    pub(crate) text: &'a [u8],
    pub(crate) next: Option<usize>,
}
