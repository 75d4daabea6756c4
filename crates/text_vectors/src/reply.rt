// Responses to commands.
use crate::answer::Answered;
use crate::text::{Ascii, Shown, Text, written};
use cases::{Fault, Hex, bytes, number};
use fields::Place;
use responses::{Outcome, PlacedResponse, Response};
use std::alloc::Global;
use std::fmt;
use std::fmt::Display;
use words::Word;

// What is said after the status.
#[derive(Clone, Copy, PartialEq, Eq, Debug)]
pub struct Said<'a>(Outcome<'a>);

// Start and end of a field, after a space; a field that is not there is not shown.
#[derive(Clone, Copy, PartialEq, Eq, Debug)]
pub struct Span(Option<Place>);

impl fmt::Display for Said<'_> {
    fn fmt<W: fmt::Write>(&self, f: &mut fmt::Formatter<W>) -> fmt::Result {
        match self.0 {
            Outcome::Done => f.write_str("done"),
            Outcome::Path(path) => write!(f, "path {}", Hex(path)),
            Outcome::Listing(text) => write!(f, "listing {}", Hex(text)),
            Outcome::File { size, digest } => write!(f, "file {size} {}", Hex(digest)),
            Outcome::Refused(cause) => write!(f, "refused {}", Hex(cause)),
        }
    }
}

impl fmt::Display for Span {
    fn fmt<W: fmt::Write>(&self, f: &mut fmt::Formatter<W>) -> fmt::Result {
        match self.0 {
            Some(place) => write!(f, " {}-{}", place.start, place.end),
            None => Ok(()),
        }
    }
}

impl Text for Response<'_> {
    fn show<W: fmt::Write>(&self, f: &mut fmt::Formatter<W>) -> fmt::Result {
        let word = Ascii(self.word.text());
        let status = Ascii(self.status().text());
        write!(
            f,
            "{word} {} {status} {}",
            Hex(self.request),
            Said(self.outcome)
        )
    }
}

// With the place of each field.
impl Text for PlacedResponse<'_> {
    fn show<W: fmt::Write>(&self, f: &mut fmt::Formatter<W>) -> fmt::Result {
        let places = self.places;
        self.response.show(f)?;
        for place in [
            Some(places.word),
            Some(places.request),
            Some(places.status),
            places.first,
            places.second,
        ] {
            Span(place).fmt(f)?;
        }
        Ok(())
    }
}

// What is said in no field, in one and in two.
fn in_none(said: &str) -> Result<Outcome<'static>, Fault> {
    match said {
        "done" => Ok(Outcome::Done),
        _ => Err(Fault::Form),
    }
}

fn in_one<'a>(said: &str, field: &'a [u8]) -> Result<Outcome<'a>, Fault> {
    match said {
        "path" => Ok(Outcome::Path(field)),
        "listing" => Ok(Outcome::Listing(field)),
        "refused" => Ok(Outcome::Refused(field)),
        _ => Err(Fault::Form),
    }
}

fn in_two<'a>(said: &str, size: u32, digest: &'a [u8]) -> Result<Outcome<'a>, Fault> {
    match said {
        "file" => Ok(Outcome::File { size, digest }),
        _ => Err(Fault::Form),
    }
}

fn response<'a>(word: Word, request: &'a [u8], outcome: Outcome<'a>) -> Response<'a> {
    Response {
        word,
        request,
        outcome,
    }
}

// The words are the command's word, a digest, and what is said.
pub(crate) fn write_response(heap: Global, room: &str, words: &[&str]) -> Result<Answered, Fault> {
    let [word, request, said, rest @ ..] = words else {
        return Err(Fault::Count);
    };
    let word = Word::try_from(word.as_bytes()).map_err(|_| Fault::Form)?;
    let request = bytes(heap, request)?;
    match rest {
        [] => written(heap, room, &response(word, &request, in_none(said)?)),
        [field] => {
            let field = bytes(heap, field)?;
            written(heap, room, &response(word, &request, in_one(said, &field)?))
        }
        [size, digest] => {
            let size = number(size)?;
            let digest = bytes(heap, digest)?;
            written(
                heap,
                room,
                &response(word, &request, in_two(said, size, &digest)?),
            )
        }
        _ => Err(Fault::Count),
    }
}
