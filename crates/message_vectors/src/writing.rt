// Messages to be written.
use crate::answer::{Answered, FILL, untouched};
use crate::choice::{Sealed, kind_of, number_of, under};
use cases::{Fault, array, bytes};
use kinds::Kind;
use message::{Outgoing, Seal};
use std::alloc::Global;

#[derive(Clone, Copy)]
struct Writing<'a> {
    kind: Kind,
    number: u16,
    random: [u8; 6],
    payload: &'a str,
    after: &'a str,
    room: usize,
}

impl Sealed for Writing<'_> {
    // Writes into an output of that many bytes.
    fn answered<S: Seal>(self, heap: Global, seal: &S) -> Result<Answered, Fault> {
        let payload = bytes(heap, self.payload)?;
        let after = bytes(heap, self.after)?;
        let out = vec![in heap; FILL; self.room]?;
        let outgoing = Outgoing {
            kind: self.kind,
            number: self.number,
            random: self.random,
            payload: &payload,
            after: &after,
        };
        Ok(sealed(&outgoing, seal, out))
    }
}

// The message in that output, or why there is none.
fn sealed<S: Seal>(outgoing: &Outgoing, seal: &S, mut out: Vec<u8>) -> Answered {
    let answer = outgoing.write(seal, &mut out);
    if !untouched(&out, answer.unwrap_or(0)) {
        return Answered::Touched("rest touched");
    }
    match answer {
        Ok(size) => {
            out.truncate(size);
            Answered::Message(out)
        }
        Err(refusal) => Answered::Refused(refusal),
    }
}

pub(crate) fn written(heap: Global, words: &[&str], room: usize) -> Result<Answered, Fault> {
    let [seal, key, session, kind, number, random, payload, after] = words else {
        return Err(Fault::Count);
    };
    let writing = Writing {
        kind: kind_of(heap, kind)?,
        number: number_of(number)?,
        random: array(heap, random)?,
        payload,
        after,
        room,
    };
    under(heap, [seal, key, session], writing)
}
