// A command read from its text.
ghost use Rattle.std.specs.Prelude.{◌≡◌, length};
ghost use Rattle.fields.specs.Takes.{left, ending, shown};
ghost use Rattle.commands.specs.Orders.{meant, name_of, upload_of, order_of};

use crate::command::Command;
use fields::{Fields, WrongField};
use words::Word;

// The only parameter of a command, a name.
fn name_of<'a>(fields: Fields<'a>) -> Result<&'a [u8], WrongField>
    ensures { shown (λ x. x.now) result ≡ name_of (ending fields.entry) (left fields.entry) }
{
    let (name, rest) = fields.take(2)?;
    rest.end(3)?;
    Ok(name.bytes)
}

// The parameters of an upload: name, size, digest.
fn upload_of<'a>(fields: Fields<'a>) -> Result<Command<'a>, WrongField>
    ensures { shown meant result ≡ upload_of (ending fields.entry) (left fields.entry) }
{
    let (name, rest) = fields.take(2)?;
    let (size, rest) = rest.take(3)?;
    let n = numerals::decimal(size.bytes).ok_or(size.wrong(3))?;
    let (digest, rest) = rest.take(4)?;
    numerals::digest(digest.bytes).ok_or(digest.wrong(4))?;
    rest.end(5)?;
    Ok(Command::Upl {
        name: name.bytes,
        size: n,
        digest: digest.bytes,
    })
}

impl<'a> Command<'a> {
    // The command that a text is, or its first wrong field: refusal 13. A name is not judged here.
    pub fn read(text: &'a [u8]) -> Result<Command<'a>, WrongField>
        ensures { shown meant result ≡ order_of text.now }
    {
        let (first, rest) = Fields::of(text).take(1)?;
        let word = Word::try_from(first.bytes).or(Err(first.wrong(1)))?;
        match word {
            Word::Pwd => {
                rest.end(2)?;
                Ok(Command::Pwd)
            }
            Word::Lst => {
                rest.end(2)?;
                Ok(Command::Lst)
            }
            Word::Chd => Ok(Command::Chd(name_of(rest)?)),
            Word::Mkd => Ok(Command::Mkd(name_of(rest)?)),
            Word::Del => Ok(Command::Del(name_of(rest)?)),
            Word::Upl => upload_of(rest),
            Word::Dnl => Ok(Command::Dnl(name_of(rest)?)),
        }
    }
}
