// A response read from its text.
ghost use Rattle.std.specs.Prelude.{◌≡◌};
ghost use Rattle.fields.specs.Takes.{piece, left, ending, shown, must};
ghost use Rattle.words.specs.Statuses.{grants};
ghost use Rattle.words.specs.Words.{word_of};
ghost use Rattle.responses.specs.Replies.{placed_meant, saying, told, one_told, one_field, listing_told, file_told, granted_told, told_of, reply_of};

use crate::response::{Outcome, PlacedResponse, Places, Response, Results};
use fields::{Field, Fields, WrongField};
use words::{Status, Tells, Word};

impl<'a> Results<'a> {
    // What one field says.
    fn one(outcome: Outcome<'a>, field: Field<'a>) -> Results<'a>
        ensures { told result ≡ one_told (saying outcome.entry) (piece field.entry) }
    {
        Results {
            outcome,
            first: Some(field.place()),
            second: None,
        }
    }
}

// The only field that is left, which is number 4.
fn one_field<'a>(fields: Fields<'a>) -> Result<Field<'a>, WrongField>
    ensures { shown piece result ≡ one_field (ending fields.entry) (left fields.entry) }
{
    let (field, rest) = fields.take(4)?;
    rest.end(5)?;
    Ok(field)
}

fn listing<'a>(fields: Fields<'a>) -> Result<Results<'a>, WrongField>
    ensures { shown told result ≡ listing_told (ending fields.entry) (left fields.entry) }
{
    let (field, rest) = fields.take(4)?;
    if !base64_text::is_canonical(field.bytes) {
        return Err(field.wrong(4));
    }
    rest.end(5)?;
    Ok(Results::one(Outcome::Listing(field.bytes), field))
}

fn file<'a>(fields: Fields<'a>) -> Result<Results<'a>, WrongField>
    ensures { shown told result ≡ file_told (ending fields.entry) (left fields.entry) }
{
    let (size, rest) = fields.take(4)?;
    let n = numerals::decimal(size.bytes).ok_or(size.wrong(4))?;
    let (digest, rest) = rest.take(5)?;
    numerals::digest(digest.bytes).ok_or(digest.wrong(5))?;
    rest.end(6)?;
    Ok(Results {
        outcome: Outcome::File {
            size: n,
            digest: digest.bytes,
        },
        first: Some(size.place()),
        second: Some(digest.place()),
    })
}

fn granted<'a>(tells: Tells, fields: Fields<'a>) -> Result<Results<'a>, WrongField>
    ensures { shown told result ≡ granted_told tells (ending fields.entry) (left fields.entry) }
{
    match tells {
        Tells::Nothing => {
            fields.end(4)?;
            Ok(Results {
                outcome: Outcome::Done,
                first: None,
                second: None,
            })
        }
        Tells::Path => {
            let field = one_field(fields)?;
            Ok(Results::one(Outcome::Path(field.bytes), field))
        }
        Tells::Listing => listing(fields),
        Tells::File => file(fields),
    }
}

// The word that the first field is.
fn word(first: &Field<'_>) -> Result<Word, WrongField>
    ensures { result ≡ must 1 (piece first.now) (word_of first.now.bytes.now) }
{
    Word::try_from(first.bytes).or(Err(first.wrong(1)))
}

fn results<'a>(word: Word, status: Status, fields: Fields<'a>) -> Result<Results<'a>, WrongField>
    ensures { shown told result ≡ told_of (grants status) word (ending fields.entry) (left fields.entry) }
{
    if status.grants() {
        granted(Tells::from(word), fields)
    } else {
        let field = one_field(fields)?;
        Ok(Results::one(Outcome::Refused(field.bytes), field))
    }
}

impl<'a> Response<'a> {
    // The response that a text is, with the places of its fields, or its first wrong field: refusal 13.
    pub fn read(text: &'a [u8]) -> Result<PlacedResponse<'a>, WrongField>
        ensures { shown placed_meant result ≡ reply_of text.now }
    {
        let (first, rest) = Fields::of(text).take(1)?;
        let word = word(&first)?;
        let (request, rest) = rest.take(2)?;
        numerals::digest(request.bytes).ok_or(request.wrong(2))?;
        let (status, rest) = rest.take(3)?;
        let given = Status::of(word, status.bytes).ok_or(status.wrong(3))?;
        let results = results(word, given, rest)?;
        Ok(PlacedResponse {
            response: Response {
                word,
                request: request.bytes,
                outcome: results.outcome,
            },
            places: Places {
                word: first.place(),
                request: request.place(),
                status: status.place(),
                first: results.first,
                second: results.second,
            },
        })
    }
}
