// Texts that are read and written: what all kinds of them have in common.
use crate::answer::Answered;
use crate::lent::Lent;
use cases::Fault;
use fields::{WriteText, WrongField};
use std::alloc::Global;
use std::fmt;

// What a text says: it can be shown in words and written as its text.
pub trait Text: WriteText {
    fn show<W: fmt::Write>(&self, f: &mut fmt::Formatter<W>) -> fmt::Result;
}

// In words.
#[derive(Drop)]
pub struct Shown<'a, T: Text>(pub &'a T);

impl<T: Text> fmt::Display for Shown<'_, T> {
    fn fmt<W: fmt::Write>(&self, f: &mut fmt::Formatter<W>) -> fmt::Result {
        self.0.show(f)
    }
}

// Characters as they are.
#[derive(Clone, Copy, PartialEq, Eq, Debug)]
pub struct Ascii<'a>(pub &'a [u8]);

impl fmt::Display for Ascii<'_> {
    fn fmt<W: fmt::Write>(&self, f: &mut fmt::Formatter<W>) -> fmt::Result {
        for byte in self.0 {
            f.write_char(char::from(*byte))?;
        }
        Ok(())
    }
}

// What a text was read as, if that is written, in as many bytes as the text has, as that text.
fn in_words<T: Text>(heap: Global, text: &[u8], said: &T) -> Result<Answered, Fault> {
    let mut out = Lent::new(heap, text.len())?;
    if said.write(&mut out.bytes) != Ok(text.len()) || out.bytes.as_slice() != text {
        return Ok(Answered::NotWrittenBack);
    }
    let shown = Shown(said);
    Ok(Answered::Read(format!(in heap; "{shown}")?))
}

// What reading a text gave.
pub(crate) fn told<T: Text + Drop>(
    heap: Global,
    text: &[u8],
    read: Result<T, WrongField>,
) -> Result<Answered, Fault> {
    match read {
        Ok(said) => in_words(heap, text, &said),
        Err(wrong) => Ok(Answered::Wrong(wrong)),
    }
}

// The text that is written, into a buffer of as many bytes as a word says.
pub(crate) fn written<T: Text>(heap: Global, room: &str, said: &T) -> Result<Answered, Fault> {
    let mut out = Lent::sized(heap, room)?;
    match said.write(&mut out.bytes) {
        Ok(size) => Ok(out.front(size)),
        Err(refusal) => Ok(out.unwritten(Answered::Refused(refusal))),
    }
}
