// The response to an upload, read from its text and written as it.
ghost use Rattle.std.specs.Prelude.{◌≡◌};
ghost use Rattle.fields.specs.Takes.{shown};
ghost use Rattle.payloads.specs.Receipts.{meant, receipt_fields, formed_receipt, receipt_of};

use crate::writer::write_receipt;
use fields::{Fields, TextRefusal, WriteText, WrongField};
use numerals::Decimal;

// The digest of what was stored, in 64 hexadecimal characters, and its size.
#[derive(Clone, Copy, PartialEq, Eq, Debug)]
pub struct UploadResponse<'a> {
    pub digest: &'a [u8],
    pub size: u32,
}

impl<'a> UploadResponse<'a> {
    // The response that a text is, or its first wrong field: refusal 13.
    pub fn read(text: &'a [u8]) -> Result<UploadResponse<'a>, WrongField>
        ensures { shown meant result ≡ receipt_of text.now }
    {
        let (digest, rest) = Fields::of(text).take(1)?;
        numerals::digest(digest.bytes).ok_or(digest.wrong(1))?;
        let (size, rest) = rest.take(2)?;
        let n = numerals::decimal(size.bytes).ok_or(size.wrong(2))?;
        rest.end(3)?;
        Ok(UploadResponse {
            digest: digest.bytes,
            size: n,
        })
    }
}

impl WriteText for UploadResponse<'_> {
    ghost fields = { λ x. receipt_fields (meant x) };

    ghost formed = { λ x. formed_receipt (meant x) };

    fn write(&self, out: &mut [u8]) -> Result<usize, TextRefusal> {
        let formed = numerals::digest(self.digest).is_some();
        let size = Decimal::new(u64::from(self.size));
        write_receipt(self.digest, size.as_bytes(), formed, out)
    }
}
