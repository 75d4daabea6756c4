// A digest's text, two characters for each byte.
ghost use Rattle.std.specs.Prelude.{◌≡◌};
ghost use Rattle.numerals.specs.Digests.{digit_of, byte_of, sized, digest_of};

use crate::digit;

// The byte of two digits.
fn byte(high: u8, low: u8) -> Option<u8>
    ensures { result ≡ byte_of (digit_of high) (digit_of low) }
{
    let h = digit(high as char)?;
    let l = digit(low as char)?;
    Some(h * 16 + l)
}

// As long as a digest's text.
fn is_sized(text: &[u8]) -> bool
    ensures { result ≡ sized text.now }
{
    text.len() == 64
}

// The digest that 64 hexadecimal digits stand for: two characters at a time, to the first that are no digits.
pub fn digest(text: &[u8]) -> Option<[u8; 32]>
    ensures { result ≡ digest_of text.now }
{
    if !is_sized(text) {
        return None;
    }
    let (pairs, _) = text.as_chunks::<2>();
    let mut bytes = [0; 32];
    for (i, [high, low]) in pairs.iter().enumerate() {
        bytes[i] = byte(*high, *low)?;
    }
    Some(bytes)
}
