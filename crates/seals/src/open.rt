// The open seal: payloads are authenticated and can be read by all.
ghost use Rattle.std.specs.Prelude.{◌≡◌, ◌++◌, is_ok, Some, refl};
ghost use Rattle.mac.specs.Hmac.{hmac};
ghost use Rattle.octets.specs.Fronts.{fits, placed};
ghost use Rattle.seals.specs.Open.{open_tag, open_sealing, open_opening};
ghost use Rattle.seals.specs.Laws;

use mac::Hmac;
use message::{Seal, Unopened};
use octets::equal;

#[derive(Clone, Copy)]
pub struct OpenSeal {
    key: [u8; 32],
    session: [u8; 16],
}

// Puts bytes at the front of the text, which is untouched where they have no room: a worker of `open`, with its clauses.
fn put(bytes: &[u8], text: &mut [u8]) -> Result<(), Unopened>
    ensures answer { is_ok result ≡ fits (Some bytes.now) text.old }
    ensures text { text.new ≡ placed (Some bytes.now) text.old }
{
    if text.len() < bytes.len() {
        return Err(Unopened);
    }
    text[..bytes.len()].copy_from_slice(bytes);
    Ok(())
}

impl OpenSeal {
    pub fn new(key: &[u8; 32], session: &[u8; 16]) -> OpenSeal
        ensures key { result.key ≡ key.now }
        ensures session { result.session ≡ session.now }
    {
        OpenSeal {
            key: *key,
            session: *session,
        }
    }

    // The code over header, session ID and body.
    fn code(&self, header: &[u8; 16], body: &[u8]) -> [u8; 32]
        ensures { result ≡ hmac self.now.key ((header.now ++ self.now.session) ++ body.now) }
    {
        let mut mac = Hmac::new(&self.key);
        mac.update(header);
        mac.update(&self.session);
        mac.update(body);
        mac.finish()
    }

    fn tag(&self, header: &[u8; 16], body: &[u8]) -> [u8; 12]
        ensures { result ≡ open_tag self.now.key self.now.session header.now body.now }
    {
        *self.code(header, body).first_chunk().unwrap()
    }
}

impl Seal for OpenSeal {
    ghost sealing = { λ s. open_sealing s.key s.session };

    ghost opening = { λ s. open_opening s.key s.session };

    ghost reopens = { λ k h p. Laws.reopens k.key k.session h p };

    ghost level = { λ k h p. refl };

    ghost twelve = { λ k h p. Laws.twelve k.key k.session h p };

    ghost leveled = { λ k h b t p e. Laws.open_leveled k.key k.session h b t p e };

    fn seal(&self, header: &[u8; 16], payload: &mut [u8]) -> [u8; 12] {
        self.tag(header, payload)
    }

    fn open(
        &self,
        header: &[u8; 16],
        body: &[u8],
        tag: &[u8; 12],
        text: &mut [u8],
    ) -> Result<(), Unopened> {
        let own = self.tag(header, body);
        if !equal(tag, &own) {
            return Err(Unopened);
        }
        put(body, text)
    }
}
