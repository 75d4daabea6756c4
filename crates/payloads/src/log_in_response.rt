// The response to a log-in, read from its text and written as it.
ghost use Rattle.std.specs.Prelude.{◌≡◌};
ghost use Rattle.fields.specs.Takes.{shown};
ghost use Rattle.payloads.specs.Receipts.{answered, answer_fields, formed_answer, answer_of};

use fields::{Fields, TextRefusal, WriteText, WrongField, write_fields};

// The digest of the request's payload, in 64 hexadecimal characters.
#[derive(Clone, Copy, PartialEq, Eq, Debug)]
pub struct LogInResponse<'a> {
    pub request: &'a [u8],
}

impl<'a> LogInResponse<'a> {
    // The response that a text is, or its first wrong field: refusal 13.
    pub fn read(text: &'a [u8]) -> Result<LogInResponse<'a>, WrongField>
        ensures { shown answered result ≡ answer_of text.now }
    {
        let (request, rest) = Fields::of(text).take(1)?;
        numerals::digest(request.bytes).ok_or(request.wrong(1))?;
        rest.end(2)?;
        Ok(LogInResponse {
            request: request.bytes,
        })
    }
}

impl WriteText for LogInResponse<'_> {
    ghost fields = { λ x. answer_fields (answered x) };

    ghost formed = { λ x. formed_answer (answered x) };

    fn write(&self, out: &mut [u8]) -> Result<usize, TextRefusal> {
        let formed = numerals::digest(self.request).is_some();
        write_fields(&[self.request], formed, out)
    }
}
