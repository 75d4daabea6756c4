// AES-256 (FIPS 197): the expansion of a key, and the encryption of one block.
#![tactic(auto)]

ghost use Rattle.std.specs.Prelude.{◌≡◌};
ghost use Rattle.aes.specs.Cipher.{aes256};
ghost use Rattle.aes.specs.Under.{under};

mod key;
mod mixed;
mod state;

use key::expanded;
use state::{begun, joined, last_round, mixing_rounds};

// A key made ready: its 60 words. Seen through `under` and not by a model, since no view that is a cipher can be turned back into words.
#[derive(Clone, Copy)]
pub struct Aes256 {
    words: [u32; 60],
}

impl Aes256 {
    pub fn new(key: &[u8; 32]) -> Aes256
        ensures { under result ≡ aes256 key.now }
    {
        let words = expanded(key);
        Aes256 { words }
    }

    // The encryption of a block, a number whose highest byte is the block's first.
    pub fn encrypt(&self, block: u128) -> u128
        ensures { result ≡ under self.now block }
    {
        let first = begun(&self.words, block);
        let mixed = mixing_rounds(&self.words, first);
        let last = last_round(&self.words, mixed);
        joined(last)
    }
}
