// Keys: their lengths and their order.
ghost use Rattle.std.specs.Prelude.{◌≡◌};
ghost use Rattle.store.specs.Meaning.{below};
ghost use Rattle.store.specs.Refusals.{bad_key};
ghost use Rattle.store.specs.Calls.{Tells};

use crate::fault::StoreFault;

// Refuses a key that does not have 1 to 96 bytes.
pub fn check_key(key: &[u8]) -> Result<(), StoreFault>
    ensures { Tells (bad_key key.now) result tt }
{
    if (1..=96).contains(&key.len()) {
        Ok(())
    } else {
        Err(StoreFault::BadKey)
    }
}

// Whether a key is strictly below another in byte order.
pub fn is_below(a: &[u8], b: &[u8]) -> bool
    ensures { result ≡ below a.now b.now }
{
    a < b
}
