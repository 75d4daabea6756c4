// Reads cases, one a line, and writes what each gives, one a line; a malformed line is refused, and the next one read.
//
// Words are separated by one space, bytes and texts are in lower-case hexadecimal, and `-` is the empty string:
//   read KIND TEXT            what the text says, if it is written again as the same text
//   write KIND ROOM VALUES    the text
//   decimal32 TEXT            the number, or `none`; and so with decimal64
//   digest TEXT               its 32 bytes, or `none`
//   name TEXT                 `yes` or `no`; and so with user and canonical
//   cause NUMBER              the words of the cause, or `none`
//   cause-word TEXT           the number of the cause, or `none`
//   encode BYTES              the bytes in Base64
//   decode TEXT               the bytes, or `not canonical`
//   encode-in ROOM BYTES      the same, or `no room`; and so with decode-in
// ROOM is the size of a lent buffer. A buffer is filled with a byte first, and where one was touched that must not be, `touched` is
// told instead. KIND and VALUES, which are what `read` tells too, are:
//   log-in            STAMP USER PASSWORD
//   log-in-response   DIGEST
//   command           pwd, lst, chd NAME, mkd NAME, del NAME, dnl NAME or upl NAME SIZE DIGEST
//   response          WORD DIGEST and then done, path TEXT, listing TEXT, file SIZE DIGEST or refused TEXT
//   upload-response   DIGEST SIZE
//   go-ahead          ready or cancel
// Of a response `read` also tells the status, after its digest, and the place of every field, START-END, after all else.
// A text that is refused gives `refused 13`, the number of its first wrong field and its place; values that are not written give
// `refused` and the number; what is not written again as it was read, as a text of more than 4,096 bytes, gives `not written back`.
#![tactic(auto)]

mod answer;
mod case;
mod kind;
mod lent;
mod listing;
mod order;
mod payload;
mod reply;
mod text;
mod value;

use answer::Answered;
use cases::answer_lines;
use std::io;

fn main(rt: HostRuntime) -> io::Result<()> {
    answer_lines::<Answered>(&rt)
}
