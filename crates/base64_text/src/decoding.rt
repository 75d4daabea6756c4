// Text to bytes.
ghost use Rattle.std.specs.Prelude.{◌≡◌, true, option_map};
ghost use Rattle.octets.specs.Fronts.{fits, placed};
ghost use Rattle.base64_text.specs.Base64.{value, one_byte, two_bytes, three_bytes, group, decode};
ghost use Rattle.base64_text.specs.Groups.{counted, held};

use crate::letters::value_of;

// Why a text was not decoded: it is no encoding, or the buffer is shorter than its bytes.
#[derive(Clone, Copy, PartialEq, Eq, Debug)]
pub enum Undecoded {
    NotCanonical,
    NoRoom,
}

// The bytes of four characters.
#[derive(Clone, Copy)]
enum Group {
    One([u8; 1]),
    Two([u8; 2]),
    Three([u8; 3]),
}

impl Group {
    fn bytes(&self) -> &[u8]
        ensures { result.now ≡ held self.now }
    {
        match self {
            Group::One(bytes) => bytes,
            Group::Two(bytes) => bytes,
            Group::Three(bytes) => bytes,
        }
    }
}

// Three functions and none over a count of letters, since each count has its own rule for the bits that are left over.
fn one_byte(a: u8, b: u8) -> Option<[u8; 1]>
    ensures { result ≡ one_byte (value a) (value b) }
{
    let x = value_of(a)?;
    let y = value_of(b)?;
    if y % 16 != 0 {
        return None;
    }
    Some([x * 4 + y / 16])
}

fn two_bytes(a: u8, b: u8, c: u8) -> Option<[u8; 2]>
    ensures { result ≡ two_bytes (value a) (value b) (value c) }
{
    let x = value_of(a)?;
    let y = value_of(b)?;
    let z = value_of(c)?;
    if z % 4 != 0 {
        return None;
    }
    Some([x * 4 + y / 16, y % 16 * 16 + z / 4])
}

fn three_bytes(a: u8, b: u8, c: u8, d: u8) -> Option<[u8; 3]>
    ensures { result ≡ three_bytes (value a) (value b) (value c) (value d) }
{
    let x = value_of(a)?;
    let y = value_of(b)?;
    let z = value_of(c)?;
    let w = value_of(d)?;
    Some([x * 4 + y / 16, y % 16 * 16 + z / 4, z % 4 * 64 + w])
}

// The bytes of the last four characters, which may be padded.
fn last_group(a: u8, b: u8, c: u8, d: u8) -> Option<Group>
    ensures { option_map held result ≡ group true a b c d }
{
    match (c, d) {
        (b'=', b'=') => Some(Group::One(one_byte(a, b)?)),
        (_, b'=') => Some(Group::Two(two_bytes(a, b, c)?)),
        _ => Some(Group::Three(three_bytes(a, b, c, d)?)),
    }
}

// The number of a text's bytes; None where it is no encoding.
pub(crate) fn decoded_length(text: &[u8]) -> Option<usize>
    ensures { result ≡ counted (decode text.now) }
{
    let (quads, rest) = text.as_chunks::<4>();
    if !rest.is_empty() {
        return None;
    }
    let Some(([a, b, c, d], front)) = quads.split_last() else {
        return Some(0);
    };
    for [a, b, c, d] in front {
        three_bytes(*a, *b, *c, *d)?;
    }
    let last = last_group(*a, *b, *c, *d)?;
    Some(3 * front.len() + last.bytes().len())
}

// Writes the bytes of a text, which fit: a second walk, since a text that is refused leaves the buffer as it was.
pub(crate) fn write_bytes(text: &[u8], out: &mut [u8])
    requires { fits (decode text.now) out.old ≡ true }
    ensures { out.new ≡ placed (decode text.now) out.old }
{
    let (quads, _) = text.as_chunks::<4>();
    let Some(([a, b, c, d], front)) = quads.split_last() else {
        return;
    };
    // into places of the buffer, since of chunks that are lent for writing the library says their length alone
    for (i, [a, b, c, d]) in front.iter().enumerate() {
        let Some(bytes) = three_bytes(*a, *b, *c, *d) else {
            unreachable!();
        };
        out[3 * i..3 * i + 3].copy_from_slice(&bytes);
    }
    let Some(last) = last_group(*a, *b, *c, *d) else {
        unreachable!();
    };
    let at = 3 * front.len();
    let bytes = last.bytes();
    out[at..at + bytes.len()].copy_from_slice(bytes);
}
