// An authentication code under way: `update` takes the message in pieces of any length, `finish` gives its code.
ghost use Rattle.std.specs.Prelude.{◌≡◌, ℕ, List, [], ◌++◌};
ghost use Rattle.mac.specs.Codes.{coding, keyed, take_in, code, Authenticates};
ghost use Rattle.mac.specs.Hmac.{hmac};
ghost use Rattle.mac.specs.Parts.{joined};

use crate::key::{key_block, masked};
use digest::Hasher;

// Seen through `coding` and not by a model, as its hashers are.
#[derive(Clone, Copy)]
pub struct Hmac {
    inner: Hasher,
    outer: Hasher,
}

impl Hmac {
    // Under a key of any length.
    pub fn new(key: &[u8]) -> Hmac
        ensures value { coding result ≡ keyed key.now }
        ensures law { Authenticates result key.now [] }
    {
        let block = key_block(key);
        let mut inner = Hasher::new();
        inner.update(&masked(&block, 0x36));
        let mut outer = Hasher::new();
        outer.update(&masked(&block, 0x5c));
        Hmac { inner, outer }
    }

    pub fn update(&mut self, piece: &[u8])
        ensures after { coding self.new ≡ take_in (coding self.old) piece.now }
        ensures law { (k m : List ℕ) → Authenticates self.old k m → Authenticates self.new k (m ++ piece.now) }
    {
        self.inner.update(piece);
    }

    pub fn finish(self) -> [u8; 32]
        ensures value { result ≡ code (coding self) }
        ensures law { (k m : List ℕ) → Authenticates self k m → result ≡ hmac k m }
    {
        let mut outer = self.outer;
        outer.update(&self.inner.finish());
        outer.finish()
    }

    // Each part in turn.
    pub(crate) fn take_all(&mut self, parts: &[&[u8]])
        ensures { (k m : List ℕ) → Authenticates self.old k m → Authenticates self.new k (m ++ joined parts.now) }
    {
        for part in parts {
            self.update(part);
        }
    }
}
