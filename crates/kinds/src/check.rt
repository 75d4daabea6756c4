// The checks of a received message's type and number.
ghost use Rattle.std.specs.Prelude.{◌≡◌};
ghost use Rattle.kinds.specs.Kinds.{found, numbered};

use crate::kind::Kind;
use crate::refusal::MessageRefusal;

// The type check: the kind among the expected ones whose code it is. By code, since that of no kind is refused here too.
pub fn check_kind(expected: &[Kind], code: u16) -> Result<Kind, MessageRefusal>
    ensures { result ≡ found expected.now code }
{
    expected
        .iter()
        .find(|kind| kind.code() == code)
        .copied()
        .ok_or(MessageRefusal::Unexpected)
}

// The number check: above the last accepted one, and 1 in a log-in.
pub fn check_number(kind: Kind, last: u16, number: u16) -> Result<u16, MessageRefusal>
    ensures { result ≡ numbered kind last number }
{
    if number <= last || kind.opens_session() && number != 1 {
        return Err(MessageRefusal::Number);
    }
    Ok(number)
}
