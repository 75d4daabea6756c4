// The ten kinds of messages.
ghost use Rattle.std.specs.Prelude.{◌≡◌};
ghost use Rattle.kinds.specs.Kinds.{code, kind_of, kind_or_unknown, writer, opening, trailer};

// By their codes in the header's type field.
#[derive(Clone, Copy, PartialEq, Eq, Debug)]
pub enum Kind {
    LogIn = 0x0000,
    LogInResponse = 0x0010,
    Command = 0x0100,
    Response = 0x0110,
    UploadFragment = 0x0200,
    LastUploadFragment = 0x0201,
    UploadResponse = 0x0210,
    GoAhead = 0x0300,
    DownloadFragment = 0x0310,
    LastDownloadFragment = 0x0311,
}

// A code of no kind.
#[derive(Clone, Copy, PartialEq, Eq, Debug)]
pub struct UnknownKind(pub u16);

// The two ends.
#[derive(Clone, Copy, PartialEq, Eq, Debug)]
pub enum End {
    Client,
    Server,
}

impl Kind {
    // Its code in the header's type field.
    pub fn code(self) -> u16
        ensures { result ≡ code self }
    {
        self as u16
    }

    // The end that writes it.
    pub fn writer(self) -> End
        ensures { result ≡ writer self }
    {
        match self {
            Kind::LogIn
            | Kind::Command
            | Kind::UploadFragment
            | Kind::LastUploadFragment
            | Kind::GoAhead => End::Client,
            _ => End::Server,
        }
    }

    // Whether it is a log-in request or response.
    pub fn opens_session(self) -> bool
        ensures { result ≡ opening self }
    {
        matches!(self, Kind::LogIn | Kind::LogInResponse)
    }
}

// The kind of a code, if it is one.
impl TryFrom<u16> for Kind {
    type Error = UnknownKind;

    ghost try_from_gives = { λ c r. r ≡ kind_or_unknown c };

    fn try_from(code: u16) -> Result<Kind, UnknownKind> {
        match code {
            0x0000 => Ok(Kind::LogIn),
            0x0010 => Ok(Kind::LogInResponse),
            0x0100 => Ok(Kind::Command),
            0x0110 => Ok(Kind::Response),
            0x0200 => Ok(Kind::UploadFragment),
            0x0201 => Ok(Kind::LastUploadFragment),
            0x0210 => Ok(Kind::UploadResponse),
            0x0300 => Ok(Kind::GoAhead),
            0x0310 => Ok(Kind::DownloadFragment),
            0x0311 => Ok(Kind::LastDownloadFragment),
            _ => Err(UnknownKind(code)),
        }
    }
}

// The bytes that follow the tag in a message of that type: public key and session ID of a log-in request.
// By code and not by kind, so that every code has an answer.
pub fn trailer(code: u16) -> usize
    ensures { result ≡ trailer code }
{
    if code == Kind::LogIn.code() { 107 } else { 0 }
}
