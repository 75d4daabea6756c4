// The receiving side: what has come of a file, and how far it is.
use fragments::{Fragment, Progress};

#[derive(Drop)]
pub struct Receiver {
    pub(crate) progress: Progress,
    pub(crate) bytes: Vec<u8>,
}

// A fragment that was taken, and the size of the message that brought it.
#[derive(Clone, Copy, PartialEq, Eq, Debug)]
pub struct Taken {
    pub fragment: Fragment,
    pub size: usize,
}
