// Reads cases, one a line, and writes what each gives, one a line; a malformed line is refused, and the next one read.
//
// Words are separated by one space, bytes are in lower-case hexadecimal, and `-` is the empty string:
//   sha256 MESSAGE              the digest in one go
//   pieces PIECE ..             the digest piece by piece
//   repeat COUNT UNIT           the digest of UNIT, COUNT times
//   hmac KEY PIECE ..           the code piece by piece
//   parts KEY A B C             the code of three parts
//   pbkdf2 PASSWORD SALT ROUNDS the derived key
//   equal A B                   whether A and B are the same
#![tactic(auto)]

mod answer;
mod case;

use answer::Answered;
use cases::answer_lines;
use std::io;

fn main(rt: HostRuntime) -> io::Result<()> {
    answer_lines::<Answered>(&rt)
}
