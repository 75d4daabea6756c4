// Commands.
use crate::answer::Answered;
use crate::text::{Ascii, Text, written};
use cases::{Fault, Hex, bytes, number};
use commands::Command;
use std::alloc::Global;
use std::fmt;
use std::fmt::Display;

impl Text for Command<'_> {
    fn show<W: fmt::Write>(&self, f: &mut fmt::Formatter<W>) -> fmt::Result {
        Ascii(self.word().text()).fmt(f)?;
        match self {
            Command::Pwd | Command::Lst => Ok(()),
            Command::Chd(name) | Command::Mkd(name) | Command::Del(name) | Command::Dnl(name) =>
                write!(f, " {}", Hex(name)),
            Command::Upl { name, size, digest } => {
                write!(f, " {} {size} {}", Hex(name), Hex(digest))
            }
        }
    }
}

// By the number of words, which no conversion of one word would know.
fn unnamed(word: &str) -> Result<Command<'static>, Fault> {
    match word {
        "pwd" => Ok(Command::Pwd),
        "lst" => Ok(Command::Lst),
        _ => Err(Fault::Form),
    }
}

fn named<'a>(word: &str, name: &'a [u8]) -> Result<Command<'a>, Fault> {
    match word {
        "chd" => Ok(Command::Chd(name)),
        "mkd" => Ok(Command::Mkd(name)),
        "del" => Ok(Command::Del(name)),
        "dnl" => Ok(Command::Dnl(name)),
        _ => Err(Fault::Form),
    }
}

// The words are a name, a size and a digest.
fn write_upload(heap: Global, room: &str, words: &[&str]) -> Result<Answered, Fault> {
    let [name, size, digest] = words else {
        return Err(Fault::Count);
    };
    let name = bytes(heap, name)?;
    let digest = bytes(heap, digest)?;
    let command = Command::Upl {
        name: &name,
        size: number(size)?,
        digest: &digest,
    };
    written(heap, room, &command)
}

pub(crate) fn write_command(heap: Global, room: &str, words: &[&str]) -> Result<Answered, Fault> {
    match words {
        ["upl", rest @ ..] => write_upload(heap, room, rest),
        [word] => written(heap, room, &unnamed(word)?),
        [word, name] => written(heap, room, &named(word, &bytes(heap, name)?)?),
        _ => Err(Fault::Count),
    }
}
