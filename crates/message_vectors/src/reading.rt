// Messages to be read.
use crate::answer::{Answered, FILL, untouched};
use crate::choice::{Sealed, kinds_of, number_of, under};
use cases::{Fault, bytes};
use message::{Awaited, Seal};
use std::alloc::Global;

#[derive(Clone, Copy)]
struct Reading<'a> {
    expected: &'a str,
    last: u16,
    message: &'a str,
}

impl Sealed for Reading<'_> {
    // Reads into a text of 4,096 bytes.
    fn answered<S: Seal>(self, heap: Global, seal: &S) -> Result<Answered, Fault> {
        let kinds = kinds_of(heap, self.expected)?;
        let message = bytes(heap, self.message)?;
        let text = vec![in heap; FILL; 4096]?;
        let awaited = Awaited {
            kinds: &kinds,
            last: self.last,
        };
        Ok(opened(&awaited, seal, &message, text))
    }
}

// What is read of a message, into that text.
fn opened<S: Seal>(awaited: &Awaited, seal: &S, message: &[u8], mut text: Vec<u8>) -> Answered {
    let answer = awaited.receive(seal, message, &mut text);
    let length = answer.map_or(0, |received| received.length);
    if !untouched(&text, length) {
        return Answered::Touched("text touched");
    }
    match answer {
        Ok(received) => {
            text.truncate(length);
            Answered::Opened {
                kind: received.kind,
                number: received.number,
                payload: text,
            }
        }
        Err(refusal) => Answered::Refused(refusal),
    }
}

pub(crate) fn read(heap: Global, words: &[&str]) -> Result<Answered, Fault> {
    let [seal, key, session, expected, last, message] = words else {
        return Err(Fault::Count);
    };
    let reading = Reading {
        expected,
        last: number_of(last)?,
        message,
    };
    under(heap, [seal, key, session], reading)
}
