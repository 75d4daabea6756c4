// The way of a fragment from end to end: sealed into a message, and opened from it.
ghost use Rattle.std.specs.Prelude.{◌≡◌, length, take, OnOk};

use crate::failure::Failure;
use kinds::Kind;
use message::{Awaited, Outgoing, Seal};
use octets::equal;

// A seal that both ends have, and the buffer that each of them lends.
#[derive(Drop)]
pub struct Line<'a, S> {
    pub seal: &'a S,
    pub message: [u8; 4124],
    pub text: [u8; 4096],
}

// What the host takes from its source of randomness; here fixed, so that the program always writes the same.
const RANDOM: [u8; 6] = [1, 2, 3, 4, 5, 6];

// By the flag that a fragment carries: a conversion would need a type of its own for it.
fn kind_of(last: bool) -> Kind {
    if last {
        Kind::LastUploadFragment
    } else {
        Kind::UploadFragment
    }
}

impl<S: Seal> Line<'_, S> {
    // Seals a fragment into a message of that number and opens it again: what stands at the text's front is then the fragment.
    // Answers the message's size.
    pub fn pass(&mut self, number: u16, last: bool, part: &[u8]) -> Result<usize, Failure>
        ensures { OnOk result (take (length part.now) self.new.text ≡ part.now) }
    {
        let kind = kind_of(last);
        let outgoing = Outgoing {
            kind,
            number,
            random: RANDOM,
            payload: part,
            after: b"",
        };
        let size = outgoing.write(self.seal, &mut self.message)?;
        let message = self.message.get(..size).ok_or(Failure::Altered)?;
        let awaited = Awaited {
            kinds: &[kind],
            last: number.saturating_sub(1),
        };
        let received = awaited.receive(self.seal, message, &mut self.text)?;
        let opened = self.text.get(..received.length).ok_or(Failure::Altered)?;
        if !equal(opened, part) {
            return Err(Failure::Altered);
        }
        Ok(size)
    }
}
