// Statuses, and what a response tells.
ghost use Rattle.std.specs.Prelude.{◌≡◌, option_map};
ghost use Rattle.words.specs.Statuses.{status_text, granting, refusing, grants, status_read, granted, tells};

use crate::word::Word;
use octets::equal;

// Of a word's family, one status grants and one refuses.
#[derive(Clone, Copy, PartialEq, Eq, Debug)]
pub enum Status {
    Success,
    Failure,
    Accept,
    Reject,
}

// What a response tells where the command was granted.
#[derive(Clone, Copy, PartialEq, Eq, Debug)]
pub enum Tells {
    Nothing,
    Path,
    Listing,
    File,
}

impl Status {
    // Its text, as the bytes of a field, since nothing is printed here.
    pub fn text(self) -> &'static [u8]
        ensures { result.now ≡ status_text self }
    {
        match self {
            Status::Success => b"success",
            Status::Failure => b"failure",
            Status::Accept => b"accept",
            Status::Reject => b"reject",
        }
    }

    // The status that grants a command.
    pub fn granting(word: Word) -> Status
        ensures { result ≡ granting word }
    {
        match word {
            Word::Upl | Word::Dnl => Status::Accept,
            _ => Status::Success,
        }
    }

    // The status that refuses it: apart from the one that grants, since a flag that says which is no plainer than two names.
    pub fn refusing(word: Word) -> Status
        ensures { result ≡ refusing word }
    {
        match word {
            Word::Upl | Word::Dnl => Status::Reject,
            _ => Status::Failure,
        }
    }

    // The status of a word's family that a field is, if it is one of the two: by a chain of its own, which is shorter than a trait that
    // words and causes could share with it.
    pub fn of(word: Word, field: &[u8]) -> Option<Status>
        ensures status { result ≡ status_read word field.now }
        ensures grants { option_map grants result ≡ granted word field.now }
    {
        [Status::granting(word), Status::refusing(word)]
            .iter()
            .copied()
            .find(|status| equal(field, status.text()))
    }

    // Whether it grants a command.
    pub fn grants(self) -> bool
        ensures { result ≡ grants self }
    {
        matches!(self, Status::Success | Status::Accept)
    }
}

// What is told of a command.
impl From<Word> for Tells {
    ghost from_gives = { λ word told. told ≡ tells word };

    fn from(word: Word) -> Tells {
        match word {
            Word::Pwd => Tells::Path,
            Word::Lst => Tells::Listing,
            Word::Dnl => Tells::File,
            _ => Tells::Nothing,
        }
    }
}
