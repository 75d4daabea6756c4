// The loop of a program that answers cases.
use crate::fault::Fault;
use std::alloc::Global;
use std::io::{BufRead, BufReader};
use std::{fmt, io};

// What a line gives, or why it is refused.
pub trait Answer: fmt::Display + Drop {
    fn of_line(heap: Global, line: &str) -> Result<Self, Fault>;
}

// Reads lines, and writes what each gives, one a line; a malformed line is refused, and the next one read.
pub fn answer_lines<A: Answer>(rt: &HostRuntime) -> io::Result<()> {
    for line in BufReader::new(rt.alloc(), rt.stdin())?.lines(rt.alloc()) {
        match A::of_line(rt.alloc(), &line?) {
            Ok(answer) => println!(rt; "{answer}")?,
            Err(fault) => println!(rt; "refused: {fault}")?,
        }
    }
    Ok(())
}
