// GHASH over additional data and text.
ghost use Rattle.std.specs.Prelude.{◌≡◌, ◌+◌, ◌*◌, ◌%◌, ◌^◌};
ghost use Rattle.gcm.specs.Gcm.{absorb, ghash, blocks};

use crate::blocks::padded;
use ghash::Multiplier;

fn absorb_bytes(hash: &Multiplier, xs: &[u8], y: u128) -> u128
    ensures { result ≡ absorb hash.now.h xs.now (blocks xs.now) y }
{
    let (full, rest) = xs.as_chunks::<16>();
    let mut z = y;
    for block in full {
        z = hash.times(z ^ u128::from_be_bytes(*block));
    }
    if !rest.is_empty() {
        z = hash.times(z ^ padded(rest));
    }
    z
}

// Both lengths in bits, modulo 2^64.
fn length_block(a: usize, b: usize) -> u128
    ensures { result ≡ (8 * a) % 2 ^ 64 * 2 ^ 64 + (8 * b) % 2 ^ 64 }
{
    let x = a.wrapping_mul(8) as u128;
    let y = b.wrapping_mul(8) as u128;
    (x << 64) + y
}

pub(crate) fn hash_all(hash: &Multiplier, added: &[u8], text: &[u8]) -> u128
    ensures { result ≡ ghash hash.now.h added.now text.now }
{
    let begun = absorb_bytes(hash, added, 0);
    let y = absorb_bytes(hash, text, begun);
    hash.times(y ^ length_block(added.len(), text.len()))
}
