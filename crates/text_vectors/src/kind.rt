// The kinds of texts.
use crate::answer::Answered;
use crate::order::write_command;
use crate::payload::{write_go_ahead, write_log_in, write_log_in_response, write_upload_response};
use crate::reply::write_response;
use crate::text::told;
use cases::{Fault, bytes};
use commands::Command;
use payloads::{GoAhead, LogIn, LogInResponse, UploadResponse};
use responses::Response;
use std::alloc::Global;
use std::str::FromStr;

#[derive(Clone, Copy, PartialEq, Eq, Debug)]
pub enum Kind {
    LogIn,
    LogInResponse,
    Command,
    Response,
    UploadResponse,
    GoAhead,
}

impl FromStr for Kind {
    type Err = Fault;

    fn from_str(word: &str) -> Result<Kind, Fault> {
        match word {
            "log-in" => Ok(Kind::LogIn),
            "log-in-response" => Ok(Kind::LogInResponse),
            "command" => Ok(Kind::Command),
            "response" => Ok(Kind::Response),
            "upload-response" => Ok(Kind::UploadResponse),
            "go-ahead" => Ok(Kind::GoAhead),
            _ => Err(Fault::Form),
        }
    }
}

// What can be done with each, by a match for each: a type parameter would need the kind before it is read.
impl Kind {
    fn read(self, heap: Global, text: &[u8]) -> Result<Answered, Fault> {
        match self {
            Kind::LogIn => told(heap, text, LogIn::read(text)),
            Kind::LogInResponse => told(heap, text, LogInResponse::read(text)),
            Kind::Command => told(heap, text, Command::read(text)),
            Kind::Response => told(heap, text, Response::read(text)),
            Kind::UploadResponse => told(heap, text, UploadResponse::read(text)),
            Kind::GoAhead => told(heap, text, GoAhead::read(text)),
        }
    }

    fn write(self, heap: Global, room: &str, values: &[&str]) -> Result<Answered, Fault> {
        match self {
            Kind::LogIn => write_log_in(heap, room, values),
            Kind::LogInResponse => write_log_in_response(heap, room, values),
            Kind::Command => write_command(heap, room, values),
            Kind::Response => write_response(heap, room, values),
            Kind::UploadResponse => write_upload_response(heap, room, values),
            Kind::GoAhead => write_go_ahead(heap, room, values),
        }
    }
}

// The words are a kind and a text.
pub(crate) fn read(heap: Global, words: &[&str]) -> Result<Answered, Fault> {
    let [kind, text] = words else {
        return Err(Fault::Count);
    };
    kind.parse::<Kind>()?.read(heap, &bytes(heap, text)?)
}

// The words are a kind, the size of the buffer, and what is to be written. The size goes on as a word, since the first wrong word is told.
pub(crate) fn write(heap: Global, words: &[&str]) -> Result<Answered, Fault> {
    let [kind, room, values @ ..] = words else {
        return Err(Fault::Count);
    };
    kind.parse::<Kind>()?.write(heap, room, values)
}
