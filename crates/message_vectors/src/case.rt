// A case: one line of the input, and what it gives.
use crate::answer::Answered;
use crate::reading::read;
use crate::writing::written;
use cases::{Answer, Fault};
use std::alloc::Global;

// By name, since a table of functions would list the same names and say no more.
impl Answer for Answered {
    fn of_line(heap: Global, line: &str) -> Result<Answered, Fault> {
        let words: Vec<&str> = line.split(' ').collect(heap)?;
        match words.as_slice() {
            ["write", rest @ ..] => written(heap, rest, 4200),
            ["small", rest @ ..] => written(heap, rest, 4123),
            ["read", rest @ ..] => read(heap, rest),
            _ => Err(Fault::Form),
        }
    }
}
