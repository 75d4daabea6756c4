// What a case gives.
use base64_text::Undecoded;
use cases::Hex;
use fields::{TextRefusal, WrongField};
use std::fmt;
use std::fmt::Display;

#[derive(Drop)]
pub enum Answered {
    // what was read, in words
    Read(String),
    Bytes(Vec<u8>),
    Number(u64),
    Truth(bool),
    Nothing,
    Wrong(WrongField),
    Refused(TextRefusal),
    Undecoded(Undecoded),
    // what was read is not written again as the text that it was read from
    NotWrittenBack,
    // bytes of a lent buffer have changed that must not
    Touched,
}

// A truth prints otherwise by itself.
fn yes_or_no(truth: bool) -> &'static str {
    if truth { "yes" } else { "no" }
}

// The words are this program's, and no `Display` of the error.
fn reason(undecoded: Undecoded) -> &'static str {
    match undecoded {
        Undecoded::NotCanonical => "not canonical",
        Undecoded::NoRoom => "no room",
    }
}

impl fmt::Display for Answered {
    fn fmt<W: fmt::Write>(&self, f: &mut fmt::Formatter<W>) -> fmt::Result {
        match self {
            Answered::Read(words) => write!(f, "{words}"),
            Answered::Bytes(bytes) => Hex(bytes).fmt(f),
            Answered::Number(number) => write!(f, "{number}"),
            Answered::Truth(truth) => f.write_str(yes_or_no(*truth)),
            Answered::Nothing => f.write_str("none"),
            Answered::Wrong(wrong) => write!(
                f,
                "refused {} {} {}",
                wrong.number(),
                wrong.field,
                wrong.place
            ),
            Answered::Refused(refusal) => write!(f, "refused {}", refusal.number()),
            Answered::Undecoded(undecoded) => f.write_str(reason(*undecoded)),
            Answered::NotWrittenBack => f.write_str("not written back"),
            Answered::Touched => f.write_str("touched"),
        }
    }
}
