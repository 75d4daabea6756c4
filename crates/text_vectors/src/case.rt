// A case: one line of the input, and what it gives.
use crate::answer::Answered;
use crate::kind::{read, write};
use crate::listing::{canonical, decode, decode_in, encode, encode_in};
use crate::value::{cause, cause_word, decimal, digest, name, user};
use cases::{Answer, Fault};
use std::alloc::Global;

// A form that takes one word: by name, since a table of functions would list the same names and say no more.
fn of_one(heap: Global, form: &str, word: &str) -> Result<Answered, Fault> {
    match form {
        "decimal32" => decimal::<u32>(heap, word),
        "decimal64" => decimal::<u64>(heap, word),
        "digest" => digest(heap, word),
        "name" => name(heap, word),
        "user" => user(heap, word),
        "cause" => cause(heap, word),
        "cause-word" => cause_word(heap, word),
        "canonical" => canonical(heap, word),
        "encode" => encode(heap, word),
        "decode" => decode(heap, word),
        _ => Err(Fault::Form),
    }
}

// A form that takes the size of a buffer and one word, by name too.
fn of_two(heap: Global, form: &str, room: &str, word: &str) -> Result<Answered, Fault> {
    match form {
        "encode-in" => encode_in(heap, room, word),
        "decode-in" => decode_in(heap, room, word),
        _ => Err(Fault::Form),
    }
}

impl Answer for Answered {
    fn of_line(heap: Global, line: &str) -> Result<Answered, Fault> {
        let words: Vec<&str> = line.split(' ').collect(heap)?;
        match words.as_slice() {
            ["read", rest @ ..] => read(heap, rest),
            ["write", rest @ ..] => write(heap, rest),
            [form, word] => of_one(heap, form, word),
            [form, room, word] => of_two(heap, form, room, word),
            _ => Err(Fault::Form),
        }
    }
}
