// A log-in, read from its text and written as it.
ghost use Rattle.std.specs.Prelude.{◌≡◌};
ghost use Rattle.fields.specs.Takes.{shown};
ghost use Rattle.payloads.specs.Credentials.{meant, credentials_fields, formed_credentials, credentials_of};

use crate::writer::write_credentials;
use fields::{Fields, TextRefusal, WriteText, WrongField};
use names::is_user;
use numerals::Decimal;

// When it was sent, and the user with the password, which are parts of the text that it was read from. Neither printed nor compared, since
// it holds a password.
#[derive(Clone, Copy)]
pub struct LogIn<'a> {
    pub stamp: u64,
    pub user: &'a [u8],
    pub password: &'a [u8],
}

impl<'a> LogIn<'a> {
    // The log-in that a text is, or its first wrong field: refusal 13.
    pub fn read(text: &'a [u8]) -> Result<LogIn<'a>, WrongField>
        ensures { shown meant result ≡ credentials_of text.now }
    {
        let (stamp, rest) = Fields::of(text).take_closed(1)?;
        let n = numerals::decimal(stamp.bytes).ok_or(stamp.wrong(1))?;
        let (user, rest) = rest.take_closed(2)?;
        if !is_user(user.bytes) {
            return Err(user.wrong(2));
        }
        let (password, rest) = rest.take_closed(3)?;
        if password.bytes.len() > 64 {
            return Err(password.wrong(3));
        }
        rest.end_closed(4)?;
        Ok(LogIn {
            stamp: n,
            user: user.bytes,
            password: password.bytes,
        })
    }
}

impl WriteText for LogIn<'_> {
    ghost fields = { λ x. credentials_fields (meant x) };

    ghost formed = { λ x. formed_credentials (meant x) };

    fn write(&self, out: &mut [u8]) -> Result<usize, TextRefusal> {
        let formed = is_user(self.user) && self.password.len() <= 64;
        let stamp = Decimal::new(self.stamp);
        write_credentials(stamp.as_bytes(), self.user, self.password, formed, out)
    }
}
