// Log-ins, the responses to log-ins and uploads, and go-aheads.
use crate::answer::Answered;
use crate::text::{Text, written};
use cases::{Fault, Hex, bytes, number};
use payloads::{GoAhead, LogIn, LogInResponse, UploadResponse};
use std::alloc::Global;
use std::fmt;
use std::fmt::Display;

impl Text for LogIn<'_> {
    fn show<W: fmt::Write>(&self, f: &mut fmt::Formatter<W>) -> fmt::Result {
        write!(
            f,
            "{} {} {}",
            self.stamp,
            Hex(self.user),
            Hex(self.password)
        )
    }
}

impl Text for LogInResponse<'_> {
    fn show<W: fmt::Write>(&self, f: &mut fmt::Formatter<W>) -> fmt::Result {
        Hex(self.request).fmt(f)
    }
}

impl Text for UploadResponse<'_> {
    fn show<W: fmt::Write>(&self, f: &mut fmt::Formatter<W>) -> fmt::Result {
        write!(f, "{} {}", Hex(self.digest), self.size)
    }
}

impl Text for GoAhead {
    fn show<W: fmt::Write>(&self, f: &mut fmt::Formatter<W>) -> fmt::Result {
        f.write_str(match self {
            GoAhead::Ready => "ready",
            GoAhead::Cancel => "cancel",
        })
    }
}

// The words are a stamp, a user and a password.
pub(crate) fn write_log_in(heap: Global, room: &str, words: &[&str]) -> Result<Answered, Fault> {
    let [stamp, user, password] = words else {
        return Err(Fault::Count);
    };
    let user = bytes(heap, user)?;
    let password = bytes(heap, password)?;
    let log_in = LogIn {
        stamp: stamp.parse::<u64>().map_err(|_| Fault::Length(8))?,
        user: &user,
        password: &password,
    };
    written(heap, room, &log_in)
}

// The word is a digest.
pub(crate) fn write_log_in_response(
    heap: Global,
    room: &str,
    words: &[&str],
) -> Result<Answered, Fault> {
    let [request] = words else {
        return Err(Fault::Count);
    };
    let request = bytes(heap, request)?;
    written(heap, room, &LogInResponse { request: &request })
}

// The words are a digest and a size.
pub(crate) fn write_upload_response(
    heap: Global,
    room: &str,
    words: &[&str],
) -> Result<Answered, Fault> {
    let [digest, size] = words else {
        return Err(Fault::Count);
    };
    let digest = bytes(heap, digest)?;
    let response = UploadResponse {
        digest: &digest,
        size: number(size)?,
    };
    written(heap, room, &response)
}

pub(crate) fn write_go_ahead(heap: Global, room: &str, words: &[&str]) -> Result<Answered, Fault> {
    match words {
        ["ready"] => written(heap, room, &GoAhead::Ready),
        ["cancel"] => written(heap, room, &GoAhead::Cancel),
        [_] => Err(Fault::Form),
        _ => Err(Fault::Count),
    }
}
