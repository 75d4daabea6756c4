// A go-ahead, read from its text and written as it.
ghost use Rattle.std.specs.Prelude.{◌≡◌, true, [], ◌∷◌};
ghost use Rattle.payloads.specs.Signals.{signal_text, signal, signal_of};

use fields::{Fields, TextRefusal, WriteText, WrongField, write_fields};
use octets::equal;

#[derive(Clone, Copy, PartialEq, Eq, Debug)]
pub enum GoAhead {
    // the transfer may begin
    Ready,
    // the transfer is called off
    Cancel,
}

impl GoAhead {
    // The go-ahead that a text is, or its first wrong field: refusal 13.
    pub fn read(text: &[u8]) -> Result<GoAhead, WrongField>
        ensures { result ≡ signal_of text.now }
    {
        let (word, rest) = Fields::of(text).take(1)?;
        let go_ahead = of(word.bytes).ok_or(word.wrong(1))?;
        rest.end(2)?;
        Ok(go_ahead)
    }

    // Its text, as the bytes of a field, since nothing is printed here.
    fn text(self) -> &'static [u8]
        ensures { result.now ≡ signal_text self }
    {
        match self {
            GoAhead::Ready => b"ready",
            GoAhead::Cancel => b"cancel",
        }
    }
}

impl WriteText for GoAhead {
    ghost fields = { λ g. signal_text g ∷ [] };

    ghost formed = { λ _. true };

    // As all texts are, though one of six bytes could be written faster by itself.
    fn write(&self, out: &mut [u8]) -> Result<usize, TextRefusal> {
        write_fields(&[self.text()], true, out)
    }
}

// The go-ahead that a field is, if it is one: no conversion, since callers have `read`. By its two texts, which the compiler then knows.
fn of(field: &[u8]) -> Option<GoAhead>
    ensures { result ≡ signal field.now }
{
    match field {
        text if equal(text, b"ready") => Some(GoAhead::Ready),
        text if equal(text, b"cancel") => Some(GoAhead::Cancel),
        _ => None,
    }
}
