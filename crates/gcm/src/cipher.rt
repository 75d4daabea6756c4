// Authenticated encryption and decryption under one key.
ghost use Rattle.std.specs.Prelude.{◌≡◌, ◌+◌, ◌%◌, ◌^◌, ◌<◌, is_ok, is_some, Some};
ghost use Rattle.aes.specs.Cipher.{aes256};
ghost use Rattle.aes.specs.Under.{under};
ghost use Rattle.gcm.specs.Gcm.{gctr, encrypted, tag_of, decrypted};
ghost use Rattle.gcm.specs.Refusals.{placing};
ghost use Rattle.octets.specs.Fronts.{placed};
ghost use Rattle.std.specs.Option.{unwrap_or};

use crate::blocks::{add_block, add_stream, iv_block};
use crate::hash::hash_all;
use crate::refusal::{Undecrypted, WrongTag};
use aes::Aes256;
use ghash::Multiplier;
use octets::equal;

// A key made ready: its expansion, and the products of the hash key, which is the block 0 enciphered.
#[derive(Drop)]
pub struct Gcm {
    aes: Aes256,
    hash: Multiplier,
    ghost tied: { hash.h ≡ under aes 0 },
}

impl Gcm {
    pub fn new(key: &[u8; 32]) -> Gcm
        ensures { under result.aes ≡ aes256 key.now }
    {
        let aes = Aes256::new(key);
        let hash = Multiplier::new(aes.encrypt(0));
        Gcm { aes, hash }
    }

    // Encrypts the text in place, and answers its tag. IV and additional data go in apart, as in the standard: a struct of both would be
    // made for one call and taken apart in it.
    pub fn encrypt(&self, iv: &[u8; 12], added: &[u8], text: &mut [u8]) -> [u8; 12]
        ensures body { text.new ≡ encrypted (under self.now.aes) iv.now text.old }
        ensures tag { result ≡ tag_of (under self.now.aes) iv.now added.now text.new }
    {
        self.stream(iv, 2, text);
        self.tag(iv, added, text)
    }

    // Decrypts the body in place where the tag is its own; else leaves it as it is.
    pub fn decrypt(
        &self,
        iv: &[u8; 12],
        added: &[u8],
        body: &mut [u8],
        tag: &[u8; 12],
    ) -> Result<(), WrongTag>
        ensures answer { is_ok result ≡ is_some (decrypted (under self.now.aes) iv.now added.now body.old tag.now) }
        ensures text { body.new ≡ unwrap_or (decrypted (under self.now.aes) iv.now added.now body.old tag.now) body.old }
    {
        let own = self.tag(iv, added, body);
        if !equal(tag, &own) {
            return Err(WrongTag);
        }
        self.stream(iv, 2, body);
        Ok(())
    }

    // Decrypts the body into the front of the text where the tag is the body's own and the text has room; else leaves the text as it is.
    // The clause on the text stands in `Seal::open` too, which is above and knows no GCM.
    pub fn decrypt_to(
        &self,
        iv: &[u8; 12],
        added: &[u8],
        body: &[u8],
        tag: &[u8; 12],
        text: &mut [u8],
    ) -> Result<(), Undecrypted>
        ensures answer { result ≡ placing (decrypted (under self.now.aes) iv.now added.now body.now tag.now) text.old }
        ensures text { text.new ≡ placed (decrypted (under self.now.aes) iv.now added.now body.now tag.now) text.old }
    {
        let right = self.tag(iv, added, body);
        if !equal(tag, &right) {
            return Err(Undecrypted::WrongTag);
        }
        self.stream_to(iv, body, text)
    }

    // The body with the key stream added, at the front of the text, where it has room: a worker of `decrypt_to`, with its clauses.
    fn stream_to(&self, iv: &[u8; 12], body: &[u8], text: &mut [u8]) -> Result<(), Undecrypted>
        ensures answer { result ≡ placing (Some (gctr (under self.now.aes) iv.now 2 body.now)) text.old }
        ensures text { text.new ≡ placed (Some (gctr (under self.now.aes) iv.now 2 body.now)) text.old }
    {
        if text.len() < body.len() {
            return Err(Undecrypted::NoRoom);
        }
        let front = &mut text[..body.len()];
        front.copy_from_slice(body);
        self.stream(iv, 2, front);
        Ok(())
    }

    // The cipher's block at counter n under an IV that fills the high 96 bits of base.
    fn counter_block(&self, base: u128, n: usize) -> u128
        requires { base % 2 ^ 32 ≡ 0 }
        ensures { result ≡ under self.now.aes (base + n % 2 ^ 32) }
    {
        self.aes.encrypt(base + (n % 0x1_0000_0000) as u128)
    }

    // Adds the key stream to the bytes, in place, from the counter block of that number on.
    fn stream(&self, iv: &[u8; 12], first: usize, text: &mut [u8])
        requires { first < 2 ^ 32 }
        ensures { text.new ≡ gctr (under self.now.aes) iv.now first text.old }
    {
        let base = iv_block(iv);
        let full = text.len() / 16;
        // by index: tried by chunks, of which the library does not say what the text is after they are written
        for i in 0..full {
            let block = self.counter_block(base, i + first);
            add_block(&mut text[16 * i..16 * i + 16], block);
        }
        let ks = self.counter_block(base, full + first).to_be_bytes();
        add_stream(&mut text[16 * full..], ks);
    }

    fn tag(&self, iv: &[u8; 12], added: &[u8], body: &[u8]) -> [u8; 12]
        ensures { result ≡ tag_of (under self.now.aes) iv.now added.now body.now }
    {
        let mask = self.counter_block(iv_block(iv), 1);
        let full = (mask ^ hash_all(&self.hash, added, body)).to_be_bytes();
        let mut tag = [0; 12];
        tag.copy_from_slice(&full[0..12]);
        tag
    }
}
