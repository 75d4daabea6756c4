// A key as a block, and the block with each of the two masks.
ghost use Rattle.std.specs.Prelude.{◌≡◌};
ghost use Rattle.mac.specs.Hmac.{key_block, masked};

use digest::sha256;
use std::array;

pub(crate) fn key_block(key: &[u8]) -> [u8; 64]
    ensures { result ≡ key_block key.now }
{
    let mut block = [0u8; 64];
    if key.len() > 64 {
        block[0..32].copy_from_slice(&sha256(key));
    } else {
        block[0..key.len()].copy_from_slice(key);
    }
    block
}

// By its places: `map` moves each byte through a cell of its own, and a key took half as long again.
pub(crate) fn masked(block: &[u8; 64], mask: u8) -> [u8; 64]
    ensures { result ≡ masked mask block.now }
{
    array::from_fn(|i| block[i] ^ mask)
}
