// A command written as its text.
ghost use Rattle.std.specs.Prelude.{◌≡◌, [], ◌∷◌, length, is_some};
ghost use Rattle.fields.specs.Takes.{writing, buffer_after};
ghost use Rattle.numerals.specs.Digests.{digest_of};
ghost use Rattle.commands.specs.Orders.{meant, word_meant, formed, order_fields};

use crate::command::Command;
use fields::{TextRefusal, WriteText, write_fields};
use numerals::Decimal;
use words::Word;

impl Command<'_> {
    // Its word.
    pub fn word(&self) -> Word
        ensures { result ≡ word_meant (meant self.now) }
    {
        match self {
            Command::Pwd => Word::Pwd,
            Command::Lst => Word::Lst,
            Command::Chd(_) => Word::Chd,
            Command::Mkd(_) => Word::Mkd,
            Command::Del(_) => Word::Del,
            Command::Upl { .. } => Word::Upl,
            Command::Dnl(_) => Word::Dnl,
        }
    }
}

impl<'a> WriteText for Command<'a> {
    ghost fields = { λ c. order_fields (meant c) };

    ghost formed = { λ c. formed (meant c) };

    fn write(&self, out: &mut [u8]) -> Result<usize, TextRefusal> {
        let word: &'a [u8] = self.word().text();
        match self {
            Command::Pwd | Command::Lst => write_fields(&[word], true, out),
            Command::Chd(name) | Command::Mkd(name) | Command::Del(name) | Command::Dnl(name) =>
                write_fields(&[word, *name], true, out),
            Command::Upl { name, size, digest } => {
                let size = Decimal::new(u64::from(*size));
                write_upload(word, name, size.as_bytes(), digest, out)
            }
        }
    }
}

// An upload, with its size in digits: a function that names one lifetime, since no array is proved of fields that live for several.
fn write_upload<'a>(
    word: &'a [u8],
    name: &'a [u8],
    size: &'a [u8],
    digest: &'a [u8],
    out: &mut [u8],
) -> Result<usize, TextRefusal>
    ensures answer { result ≡ writing (word.now ∷ name.now ∷ size.now ∷ digest.now ∷ []) (is_some (digest_of digest.now)) (length out.old) }
    ensures output { out.new ≡ buffer_after (word.now ∷ name.now ∷ size.now ∷ digest.now ∷ []) (is_some (digest_of digest.now)) out.old }
{
    let formed = numerals::digest(digest).is_some();
    write_fields(&[word, name, size, digest], formed, out)
}
