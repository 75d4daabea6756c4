// Reads cases, one a line, and writes what each gives, one a line; a malformed line is refused, and the next one read.
//
// Words are separated by one space, bytes are in lower-case hexadecimal, and `-` is the empty string. KEY has 32 bytes, IV
// and TAG have 12:
//   encrypt KEY IV ADDITIONAL TEXT      the body and the tag
//   decrypt KEY IV ADDITIONAL BODY TAG  `true` and the text, or `false` and the body as it stands afterwards
#![tactic(auto)]

mod answer;
mod case;

use answer::Answered;
use cases::answer_lines;
use std::io;

fn main(rt: HostRuntime) -> io::Result<()> {
    answer_lines::<Answered>(&rt)
}
