// The texts of one upload: each is written by the end that says it, and read back as the other end does.
ghost use Rattle.std.specs.Prelude.{◌≡◌, IfOk};
ghost use Rattle.fields.specs.Cuts.{joined};

use crate::shown::Shown;
use crate::text_failure::TextFailure;
use commands::Command;
use digest::sha256;
use fields::WriteText;
use octets::{equal, hexadecimal};
use payloads::{LogIn, LogInResponse, UploadResponse};
use responses::{Outcome, Response};
use words::Word;

// When, who and with which password; here fixed, so that the program always writes the same.
const STAMP: u64 = 1648839091598392000;

const USER: &[u8] = b"alice";

const PASSWORD: &[u8] = b"aaa";

// Writes a text at the front of the buffer, prints it under its name, and answers it.
fn say<'b, T: WriteText>(
    rt: &impl Print,
    name: &str,
    said: &T,
    buffer: &'b mut [u8],
) -> Result<&'b [u8], TextFailure>
    ensures { IfOk result (λ text. text.now ≡ joined (T.fields said.now)) }
{
    let size = said.write(buffer)?;
    let text = buffer.get(..size).ok_or(TextFailure::Unlike)?;
    println!(rt; "{name}: {}", Shown(text))?;
    Ok(text)
}

fn told(rt: &impl Print, is_so: bool, what: &str) -> Result<(), TextFailure> {
    if !is_so {
        return Err(TextFailure::Unlike);
    }
    println!(rt; "  read back: {what}")?;
    Ok(())
}

// The log-in and its response.
pub fn log_in(rt: &impl Print, buffer: &mut [u8]) -> Result<(), TextFailure> {
    let log_in = LogIn {
        stamp: STAMP,
        user: USER,
        password: PASSWORD,
    };
    let text = say(rt, "log-in", &log_in, buffer)?;
    let read = LogIn::read(text)?;
    let user = Shown(read.user);
    let count = read.password.len();
    println!(rt;
        "  read back: stamp {}, user {user}, a password of {count} bytes",
        read.stamp
    )?;
    let digest = hexadecimal(&sha256(text));
    log_in_response(rt, &digest, buffer)
}

fn log_in_response(rt: &impl Print, request: &[u8], buffer: &mut [u8]) -> Result<(), TextFailure> {
    let text = say(rt, "log-in response", &LogInResponse { request }, buffer)?;
    let read = LogInResponse::read(text)?;
    told(rt, equal(read.request, request), "it answers that log-in")
}

// The command to upload the file, and its response.
pub fn upload(
    rt: &impl Print,
    name: &[u8],
    file: &[u8],
    size: u32,
    buffer: &mut [u8],
) -> Result<(), TextFailure> {
    let digest = hexadecimal(&sha256(file));
    let command = Command::Upl {
        name,
        size,
        digest: &digest,
    };
    let text = say(rt, "command", &command, buffer)?;
    let Command::Upl { name, size, .. } = Command::read(text)? else {
        return Err(TextFailure::Unlike);
    };
    let name = Shown(name);
    println!(rt; "  read back: upload of {name}, {size} bytes")?;
    let request = hexadecimal(&sha256(text));
    upload_accepted(rt, &request, buffer)
}

fn upload_accepted(rt: &impl Print, request: &[u8], buffer: &mut [u8]) -> Result<(), TextFailure> {
    let response = Response {
        word: Word::Upl,
        request,
        outcome: Outcome::Done,
    };
    let text = say(rt, "response", &response, buffer)?;
    let read = Response::read(text)?;
    let place = read.places.status;
    let status = Shown(read.response.status().text());
    println!(rt;
        "  read back: {status}, from byte {} to {}",
        place.start, place.end
    )?;
    told(
        rt,
        equal(read.response.request, request),
        "it answers that command",
    )
}

// What the server says of a file that it keeps.
pub fn uploaded(
    rt: &impl Print,
    received: &[u8],
    size: u32,
    buffer: &mut [u8],
) -> Result<(), TextFailure> {
    let digest = hexadecimal(&sha256(received));
    let response = UploadResponse {
        digest: &digest,
        size,
    };
    let text = say(rt, "upload response", &response, buffer)?;
    let read = UploadResponse::read(text)?;
    told(
        rt,
        read.size == size && equal(read.digest, &digest),
        "size and digest of that file",
    )
}
