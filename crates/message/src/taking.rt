// A received message: header, type, number, seal.
ghost use Rattle.std.specs.Prelude.{◌≡◌, ◌≤◌, length, is_ok, IfOk};
ghost use Rattle.octets.specs.Fronts.{fits, placed};
ghost use Rattle.message.specs.Messages.{admitted, opens, received, told, text_after};
ghost use Rattle.message.specs.Trip.{ReadsBack};

use crate::receiving::{Admitted, Received};
use crate::seal::{Seal, Unopened};
use headers::Header;
use kinds::{Kind, MessageRefusal, check_kind, check_number, trailer};

// What is expected: these kinds, after the last accepted number.
#[derive(Clone, Copy, PartialEq, Eq, Debug)]
pub struct Awaited<'a> {
    pub kinds: &'a [Kind],
    pub last: u16,
}

impl Awaited<'_> {
    // Receives an expected message: refusals 3 and 7 to 12 leave the text untouched; else the payload stands at its front. What
    // was written is read back.
    #[tactic(auto, unfolding(crate::specs::Messages::received))]
    pub fn receive<S: Seal>(
        &self,
        seal: &S,
        message: &[u8],
        text: &mut [u8],
    ) -> Result<Received, MessageRefusal>
        ensures answer { result ≡ told (received (S.opening seal.now) self.now.kinds.now self.now.last message.now text.old) }
        ensures text { text.new ≡ text_after (received (S.opening seal.now) self.now.kinds.now self.now.last message.now text.old) text.old }
        ensures back { ReadsBack (S.sealing seal.now) self.now.kinds.now self.now.last message.now text.old result text.new }
    {
        if text.len() < 4096 {
            return Err(MessageRefusal::Buffer);
        }
        let admitted = self.admit(message)?;
        open_part(seal, message, admitted.end, text)?;
        Ok(Received {
            kind: admitted.kind,
            number: admitted.number,
            length: admitted.end - 28,
        })
    }

    // Refusals 7 to 11.
    #[tactic(auto, unfolding(crate::specs::Messages::admitted))]
    fn admit(&self, message: &[u8]) -> Result<Admitted, MessageRefusal>
        ensures value { result ≡ admitted self.now.kinds.now self.now.last message.now }
        ensures bounds { IfOk result (λ a. (28 ≤ a.end) × (a.end ≤ length message.now) × (length message.now ≤ 4124)) }
    {
        let header = Header::read(message)?;
        let kind = check_kind(self.kinds, header.code)?;
        let number = check_number(kind, self.last, header.number)?;
        let end = message.len() - trailer(header.code);
        Ok(Admitted { kind, number, end })
    }
}

// Opens the part of a message from byte 16 to where its tag ends.
fn open_part<S: Seal>(seal: &S, message: &[u8], end: usize, text: &mut [u8]) -> Result<(), Unopened>
    requires low { 28 ≤ end }
    requires high { end ≤ length message.now }
    ensures told { is_ok result ≡ fits (opens (S.opening seal.now) message.now end) text.old }
    ensures text { text.new ≡ placed (opens (S.opening seal.now) message.now end) text.old }
{
    let (header, rest) = message[..end].split_first_chunk::<16>().unwrap();
    let (body, tag) = rest.split_last_chunk::<12>().unwrap();
    seal.open(header, body, tag, text)
}
