// A command, whose parameters are parts of the text that it was read from.
#[derive(Clone, Copy, PartialEq, Eq, Debug)]
pub enum Command<'a> {
    Pwd,
    Lst,
    Chd(&'a [u8]),
    Mkd(&'a [u8]),
    Del(&'a [u8]),
    Upl {
        name: &'a [u8],
        size: u32,
        digest: &'a [u8],
    },
    Dnl(&'a [u8]),
}
