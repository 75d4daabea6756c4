// Fields taken one by one.
ghost use Rattle.std.specs.Prelude.{◌≡◌, ◌==◌, ◌+◌, ◌^◌, ◌<◌, ◌∷◌, length, drop, position, IfOk};
ghost use Rattle.fields.specs.Cuts.{cut, placed, fields};
ghost use Rattle.fields.specs.Takes.{piece, place, from, left, ending, wrong, cut_off, shown, starts, taken, taken_closed, ended, ended_closed};

use crate::field::{Field, Fields, Place};
use crate::refusal::WrongField;

impl Field<'_> {
    // Where it stands.
    pub fn place(&self) -> Place
        ensures { result ≡ place (piece self.now) }
    {
        self.place
    }

    // This field is wrong, which is number `number`.
    pub fn wrong(&self, number: u8) -> WrongField
        ensures { result ≡ wrong number (piece self.now).start }
    {
        WrongField::at(number, self.place.start)
    }
}

impl<'a> Fields<'a> {
    // All fields of a text.
    pub fn of(text: &'a [u8]) -> Fields<'a>
        ensures left { left result ≡ fields text.now }
        ensures ending { ending result ≡ length text.now }
    {
        Fields {
            text,
            next: Some(0),
        }
    }

    // The next field, which is number `number`, and those after it; a missing field is at the text's end.
    pub fn take(self, number: u8) -> Result<(Field<'a>, Fields<'a>), WrongField>
        ensures value { shown cut_off result ≡ taken (ending self.entry) number (left self.entry) }
        ensures ending { IfOk result (λ x. ending x.1 ≡ ending self.entry) }
    {
        match self.next {
            Some(at) => Ok(field_at(self.text, at)),
            None => Err(WrongField::at(number, self.text.len())),
        }
    }

    // The end of the text; a field that is left, which would be number `number`, is wrong.
    pub fn end(self, number: u8) -> Result<(), WrongField>
        ensures { result ≡ ended number (left self.entry) }
    {
        match self.first() {
            Some(place) => Err(WrongField::at(number, place)),
            None => Ok(()),
        }
    }

    // The next field, which byte 10 must follow, and what comes after that byte.
    pub fn take_closed(self, number: u8) -> Result<(Field<'a>, Fields<'a>), WrongField>
        ensures value { shown cut_off result ≡ taken_closed (ending self.entry) number (left self.entry) }
        ensures ending { IfOk result (λ x. ending x.1 ≡ ending self.entry) }
    {
        let (field, rest) = self.take(number)?;
        if rest.first().is_none() {
            return Err(field.wrong(number));
        }
        Ok((field, rest))
    }

    // The end of the text after the byte 10 of its last field; what is left, which would be field number `number`, is wrong.
    pub fn end_closed(self, number: u8) -> Result<(), WrongField>
        ensures { result ≡ ended_closed (ending self.entry) number (left self.entry) }
    {
        let (field, rest) = self.take(number)?;
        if field.bytes.is_empty() && rest.first().is_none() {
            return Ok(());
        }
        Err(field.wrong(number))
    }
}

impl Fields<'_> {
    // Where the next field starts, if there is one.
    fn first(&self) -> Option<usize>
        ensures { result ≡ starts (left self.now) }
    {
        self.next
    }
}

// Where the next byte 10 is.
fn separator(text: &[u8]) -> Option<usize>
    ensures { result ≡ position (λ b. b == 10) text.now }
{
    text.iter().position(|b| *b == 10)
}

// What a text has from a place on; nothing past its end.
fn rest(text: &[u8], at: usize) -> &[u8]
    ensures { result.now ≡ drop at text.now }
{
    text.get(at..).unwrap_or(&[])
}

// The field that starts at a place, and those after it; past the text's end it is empty, and the last.
fn field_at<'a>(text: &'a [u8], at: usize) -> (Field<'a>, Fields<'a>)
    ensures cuts { placed at (cut (drop at text.now)) ≡ piece result.0 ∷ left result.1 }
    ensures ending { ending result.1 ≡ length text.now }
{
    let rest = rest(text, at);
    match separator(rest) {
        Some(size) => cut_off(text, at, &rest[..size], Some(at + size + 1)),
        None => cut_off(text, at, rest, None),
    }
}

// A field that starts at a place, and the fields from another place on.
fn cut_off<'a>(
    text: &'a [u8],
    start: usize,
    bytes: &'a [u8],
    next: Option<usize>,
) -> (Field<'a>, Fields<'a>)
    requires { start + length bytes.now < 2 ^ 64 }
    ensures field { piece result.0 ≡ record { start = start; end = start + length bytes.now; bytes = bytes.now } }
    ensures left { left result.1 ≡ from text.now next }
    ensures ending { ending result.1 ≡ length text.now }
{
    let end = start + bytes.len();
    let place = Place { start, end };
    (Field { place, bytes }, Fields { text, next })
}
