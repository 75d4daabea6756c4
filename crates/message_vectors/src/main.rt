// Reads cases, one a line, and writes what each gives, one a line; a malformed line is refused, and the next one read.
//
// Words are separated by one space, bytes are in lower-case hexadecimal, and `-` is the empty string:
//   write SEAL KEY SESSION KIND NUMBER RANDOM PAYLOAD AFTER  the message
//   small SEAL KEY SESSION KIND NUMBER RANDOM PAYLOAD AFTER  the same, into an output that is one byte too small
//   read SEAL KEY SESSION EXPECTED LAST MESSAGE              kind, number and payload
// SEAL is `closed` or `open`; KIND is the code of a kind; EXPECTED is such codes with commas between them, or `-`; NUMBER and LAST are
// decimal. A refusal gives `refused` and its number. Lent buffers are filled with a byte first, and where one was touched that must
// not be, this is told instead.
#![tactic(auto)]

mod answer;
mod case;
mod choice;
mod reading;
mod writing;

use answer::Answered;
use cases::answer_lines;
use std::io;

fn main(rt: HostRuntime) -> io::Result<()> {
    answer_lines::<Answered>(&rt)
}
