// The closed seal: payloads are encrypted and authenticated.
ghost use Rattle.std.specs.Prelude.{◌≡◌, [], ◌++◌};
ghost use Rattle.aes.specs.Cipher.{aes256};
ghost use Rattle.aes.specs.Under.{under};
ghost use Rattle.seals.specs.Closed.{iv_of, closed_sealing, closed_opening};
ghost use Rattle.gcm.proofs.Law.{decrypts, lengths-kept};
ghost use Rattle.gcm.specs.Gcm.{encrypted};
ghost use Rattle.seals.specs.Laws;

use gcm::Gcm;
use message::{Seal, Unopened};

#[derive(Drop)]
pub struct ClosedSeal {
    gcm: Gcm,
    session: [u8; 16],
}

impl ClosedSeal {
    pub fn new(key: &[u8; 32], session: &[u8; 16]) -> ClosedSeal
        ensures key { under result.gcm.aes ≡ aes256 key.now }
        ensures session { result.session ≡ session.now }
    {
        let gcm = Gcm::new(key);
        ClosedSeal {
            gcm,
            session: *session,
        }
    }

    fn iv(&self, h: &[u8; 16]) -> [u8; 12]
        ensures { result ≡ iv_of h.now self.now.session }
    {
        let s = &self.session;
        [
            h[2], h[3], h[6], h[7], h[8], h[9], h[10], h[11], h[12], h[13], s[0], s[1],
        ]
    }

    // Header and session ID, the additional data; its length is no sum that a type could name, so the trailer of a log-in is made apart.
    fn added(&self, header: &[u8; 16]) -> [u8; 32]
        ensures { result ≡ header.now ++ self.now.session }
    {
        let mut added = [0u8; 32];
        let (front, rest) = added.split_at_mut(16);
        front.copy_from_slice(header);
        rest.copy_from_slice(&self.session);
        added
    }
}

impl Seal for ClosedSeal {
    ghost sealing = { λ s. closed_sealing (under s.gcm.aes) s.session };

    ghost opening = { λ s. closed_opening (under s.gcm.aes) s.session };

    ghost reopens = { λ k h p. decrypts (under k.gcm.aes) (iv_of h k.session) (h ++ k.session) p };

    ghost level = { λ k h p. (lengths-kept (under k.gcm.aes) (iv_of h k.session) [] p).0 };

    ghost twelve = { λ k h p. (lengths-kept (under k.gcm.aes) (iv_of h k.session) (h ++ k.session) (encrypted (under k.gcm.aes) (iv_of h k.session) p)).1 };

    ghost leveled = { λ k h b t p e. Laws.leveled (under k.gcm.aes) (iv_of h k.session) (h ++ k.session) b t p e };

    fn seal(&self, header: &[u8; 16], payload: &mut [u8]) -> [u8; 12] {
        self.gcm
            .encrypt(&self.iv(header), &self.added(header), payload)
    }

    fn open(
        &self,
        header: &[u8; 16],
        body: &[u8],
        tag: &[u8; 12],
        text: &mut [u8],
    ) -> Result<(), Unopened> {
        self.gcm
            .decrypt_to(&self.iv(header), &self.added(header), body, tag, text)
            .map_err(|_| Unopened)
    }
}
