// What a case gives.
use cases::Hex;
use std::fmt;

#[derive(Drop)]
pub enum Answered {
    Encrypted { body: Vec<u8>, tag: [u8; 12] },
    Decrypted(Vec<u8>),
    // the body as it stands afterwards
    WrongTag(Vec<u8>),
}

impl fmt::Display for Answered {
    fn fmt<W: fmt::Write>(&self, f: &mut fmt::Formatter<W>) -> fmt::Result {
        match self {
            Answered::Encrypted { body, tag } => write!(f, "{} {}", Hex(body), Hex(tag)),
            Answered::Decrypted(text) => write!(f, "true {}", Hex(text)),
            Answered::WrongTag(body) => write!(f, "false {}", Hex(body)),
        }
    }
}
