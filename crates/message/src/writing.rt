// A message written into a lent output.
ghost use Rattle.std.specs.Prelude.{◌≡◌, ◌+◌, ◌≤◌, ◌++◌, length, IfOk};
ghost use Rattle.message.specs.Messages.{sent, size};

use crate::seal::Seal;
use headers::Header;
use kinds::{Kind, MessageRefusal};

// A message to be written. What comes after the tag is for a log-in request alone.
#[derive(Clone, Copy, PartialEq, Eq, Debug)]
pub struct Outgoing<'a> {
    pub kind: Kind,
    pub number: u16,
    pub random: [u8; 6],
    pub payload: &'a [u8],
    pub after: &'a [u8],
}

impl Outgoing<'_> {
    // Writes the message at the front of the output, and answers its length: refusals 3 and 5 leave the output untouched.
    #[tactic(auto, unfolding(crate::specs::Messages::written, crate::specs::Messages::message))]
    pub fn write<S: Seal>(&self, seal: &S, out: &mut [u8]) -> Result<usize, MessageRefusal>
        ensures answer { result ≡ (sent (S.sealing seal.now) self.now out.old).answer }
        ensures output { out.new ≡ (sent (S.sealing seal.now) self.now out.old).output }
    {
        if out.len() < 4124 {
            return Err(MessageRefusal::Buffer);
        }
        let size = self.size()?;
        let heading = Header {
            code: self.kind.code(),
            length: size as u16,
            number: self.number,
            random: self.random,
        };
        let header = heading.write();
        let (front, rest) = out.split_at_mut(16);
        let (body, rest) = rest.split_at_mut(self.payload.len());
        let (tag, rest) = rest.split_at_mut(12);
        front.copy_from_slice(&header);
        body.copy_from_slice(self.payload);
        tag.copy_from_slice(&seal.seal(&header, body));
        rest[..self.after.len()].copy_from_slice(self.after);
        Ok(size)
    }

    // The message's length: refusal 5.
    fn size(&self) -> Result<usize, MessageRefusal>
        ensures value { result ≡ size self.now }
        ensures long { IfOk result (λ n. n ≡ 28 + length self.now.payload.now + length self.now.after.now) }
        ensures one { IfOk result (λ n. n ≤ 4124) }
    {
        let (payload, after) = (self.payload.len(), self.after.len());
        if payload > 4096 || after > 4096 - payload {
            return Err(MessageRefusal::Payload);
        }
        Ok(28 + payload + after)
    }
}

// What follows the tag of a log-in request: not one function with the seals' additional data, since no length of an array can be worked
// out of two others.
pub fn log_in_trailer(public_key: &[u8; 91], session: &[u8; 16]) -> [u8; 107]
    ensures { result ≡ public_key.now ++ session.now }
{
    let mut trailer = [0u8; 107];
    let (key, rest) = trailer.split_at_mut(91);
    key.copy_from_slice(public_key);
    rest.copy_from_slice(session);
    trailer
}
