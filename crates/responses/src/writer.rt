// A response written as its text.
ghost use Rattle.std.specs.Prelude.{◌≡◌, [], ◌∷◌, length};
ghost use Rattle.fields.specs.Takes.{writing, buffer_after};
ghost use Rattle.responses.specs.Replies.{saying, meant, status_of, suits, reply_fields, formed};

use crate::response::{Outcome, PlacedResponse, Response};
use fields::{TextRefusal, WriteText, write_fields};
use numerals::Decimal;
use words::{Status, Tells};

// Whether what is said suits what is to be told.
fn does_suit(tells: Tells, outcome: &Outcome) -> bool
    ensures { result ≡ suits tells (saying outcome.now) }
{
    match (tells, outcome) {
        (_, Outcome::Refused(_)) => true,
        (Tells::Nothing, Outcome::Done) => true,
        (Tells::Path, Outcome::Path(_)) => true,
        (Tells::Listing, Outcome::Listing(text)) => base64_text::is_canonical(text),
        (Tells::File, Outcome::File { digest, .. }) => numerals::digest(digest).is_some(),
        _ => false,
    }
}

impl Response<'_> {
    // Its status.
    pub fn status(&self) -> Status
        ensures { result ≡ status_of (meant self.now).word (meant self.now).said }
    {
        match self.outcome {
            Outcome::Refused(_) => Status::refusing(self.word),
            _ => Status::granting(self.word),
        }
    }

    fn is_formed(&self) -> bool
        ensures { result ≡ formed (meant self.now) }
    {
        numerals::digest(self.request).is_some() && does_suit(Tells::from(self.word), &self.outcome)
    }
}

impl<'a> WriteText for Response<'a> {
    ghost fields = { λ r. reply_fields (meant r) };

    ghost formed = { λ r. formed (meant r) };

    fn write(&self, out: &mut [u8]) -> Result<usize, TextRefusal> {
        let word: &'a [u8] = self.word.text();
        let request = self.request;
        let status: &'a [u8] = self.status().text();
        let formed = self.is_formed();
        match self.outcome {
            Outcome::Done => write_fields(&[word, request, status], formed, out),
            Outcome::Path(result) | Outcome::Listing(result) | Outcome::Refused(result) => {
                write_fields(&[word, request, status, result], formed, out)
            }
            Outcome::File { size, digest } => {
                let size = Decimal::new(u64::from(size));
                write_file(word, request, status, size.as_bytes(), digest, formed, out)
            }
        }
    }
}

// A response that was read is written as what it says.
impl WriteText for PlacedResponse<'_> {
    ghost fields = { λ p. reply_fields (meant p.response) };

    ghost formed = { λ p. formed (meant p.response) };

    fn write(&self, out: &mut [u8]) -> Result<usize, TextRefusal> {
        self.response.write(out)
    }
}

// A file's size in digits, and its digest: a function that names one lifetime, since no array is proved of fields that live for several.
fn write_file<'a>(
    word: &'a [u8],
    request: &'a [u8],
    status: &'a [u8],
    size: &'a [u8],
    digest: &'a [u8],
    formed: bool,
    out: &mut [u8],
) -> Result<usize, TextRefusal>
    ensures answer { result ≡ writing (word.now ∷ request.now ∷ status.now ∷ size.now ∷ digest.now ∷ []) formed (length out.old) }
    ensures output { out.new ≡ buffer_after (word.now ∷ request.now ∷ status.now ∷ size.now ∷ digest.now ∷ []) formed out.old }
{
    write_fields(&[word, request, status, size, digest], formed, out)
}
