// Bytes to text.
ghost use Rattle.std.specs.Prelude.{◌≡◌, ◌≤◌, length};
ghost use Rattle.octets.specs.Fronts.{at_front};
ghost use Rattle.base64_text.specs.Base64.{encode};
ghost use Rattle.base64_text.specs.Groups.{quad};

use crate::letters::letter_of;

// The letters of the first three bytes, or of fewer.
fn quad_of(bytes: &[u8]) -> [u8; 4]
    ensures { result ≡ quad bytes.now }
{
    match bytes {
        [] => [b'='; 4],
        [a] => [letter_of(*a / 4), letter_of(*a % 4 * 16), b'=', b'='],
        [a, b] => [
            letter_of(*a / 4),
            letter_of(*a % 4 * 16 + *b / 16),
            letter_of(*b % 16 * 4),
            b'=',
        ],
        [a, b, c, ..] => [
            letter_of(*a / 4),
            letter_of(*a % 4 * 16 + *b / 16),
            letter_of(*b % 16 * 4 + *c / 64),
            letter_of(*c % 64),
        ],
    }
}

// The number of letters that bytes take.
pub(crate) fn encoded_length(bytes: &[u8]) -> usize
    ensures { result ≡ length (encode bytes.now) }
{
    bytes.len().div_ceil(3) * 4
}

// Writes the text of bytes, which has room.
pub(crate) fn write_text(bytes: &[u8], out: &mut [u8])
    requires { length (encode bytes.now) ≤ length out.old }
    ensures { out.new ≡ at_front (encode bytes.now) out.old }
{
    // into places of the buffer, since of chunks that are lent for writing the library says their length alone
    for (i, part) in bytes.chunks(3).enumerate() {
        out[4 * i..4 * i + 4].copy_from_slice(&quad_of(part));
    }
}
