// What a case gives: 32 bytes, written in hexadecimal, or whether two strings are the same.
use octets::hexadecimal;
use std::fmt;

#[derive(Drop)]
pub enum Answered {
    Digest([u8; 32]),
    Same(bool),
}

impl fmt::Display for Answered {
    fn fmt<W: fmt::Write>(&self, f: &mut fmt::Formatter<W>) -> fmt::Result {
        match self {
            Answered::Digest(digest) => {
                let text = hexadecimal(digest);
                f.write_str(str::from_utf8(&text).map_err(|_| fmt::Error)?)
            }
            Answered::Same(same) => write!(f, "{same}"),
        }
    }
}
