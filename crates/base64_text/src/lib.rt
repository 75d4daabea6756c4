// Base64 with padding (RFC 4648, section 4), written into lent buffers.
#![tactic(auto)]

ghost use Rattle.std.specs.Prelude.{◌≡◌, is_some, Some, Decides};
ghost use Rattle.octets.specs.Fronts.{placed};
ghost use Rattle.base64_text.specs.Base64.{encode, decode};
ghost use Rattle.base64_text.specs.Calls.{encoded, decoded};
ghost use Rattle.base64_text.specs.Laws.{Canonical};

mod decoding;
mod encoding;
mod laws;
mod letters;

pub use decoding::Undecoded;
use decoding::{decoded_length, write_bytes};
use encoding::{encoded_length, write_text};
pub use laws::{decodes_what_was_encoded, encoding_of_what_it_decodes_to, worked_texts};

// Writes the text of `bytes` at the front of `out` and answers its length; None, and nothing written, where there is no room. What stands
// at the front is said here and in `decode` by one definition: a type for two functions would say no more.
pub fn encode(bytes: &[u8], out: &mut [u8]) -> Option<usize>
    ensures answer { result ≡ encoded bytes.now out.old }
    ensures buffer { out.new ≡ placed (Some (encode bytes.now)) out.old }
{
    let size = encoded_length(bytes);
    if out.len() < size {
        return None;
    }
    write_text(bytes, out);
    Some(size)
}

// Whether a text is the encoding of some bytes.
pub fn is_canonical(text: &[u8]) -> bool
    ensures value { result ≡ is_some (decode text.now) }
    ensures law { Decides result (Canonical text.now) }
{
    decoded_length(text).is_some()
}

// Writes the bytes of a text at the front of `out` and answers their number. The text is checked before the room, and a refusal leaves
// `out` as it was.
pub fn decode(text: &[u8], out: &mut [u8]) -> Result<usize, Undecoded>
    ensures answer { result ≡ decoded (decode text.now) out.old }
    ensures buffer { out.new ≡ placed (decode text.now) out.old }
{
    let count = decoded_length(text).ok_or(Undecoded::NotCanonical)?;
    if out.len() < count {
        return Err(Undecoded::NoRoom);
    }
    write_bytes(text, out);
    Ok(count)
}
