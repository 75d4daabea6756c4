// The rule for the sizes of fragments.
ghost use Rattle.std.specs.Prelude.{◌≡◌, ℕ, Bool, Some, Decides};
ghost use Rattle.fragments.specs.Rule.{fits, due};

// The bytes of a fragment that is not the last; the last has at most as many.
const FULL: u64 = 1024;

// A fragment to send: how many bytes, and whether it is the last.
#[derive(Clone, Copy, PartialEq, Eq, Debug)]
pub struct Fragment {
    pub length: u32,
    pub last: bool,
}

// Whether a fragment fits, of a file of `size` bytes of which `so_far` have gone before.
pub fn fits(so_far: u32, size: u32, len: usize, last: bool) -> bool
    ensures { result ≡ fits so_far size len last }
{
    if last {
        len as u64 <= FULL && so_far as u64 + len as u64 == size as u64
    } else {
        len as u64 == FULL && so_far as u64 + FULL < size as u64
    }
}

// The fragment that is due, or none where more than `size` bytes have gone. It is the only one that fits.
pub fn due(so_far: u32, size: u32) -> Option<Fragment>
    ensures value { result ≡ due so_far size }
    ensures law { (k : ℕ) (last : Bool) → Decides (fits so_far size k last) (result ≡ Some record { length = k; last = last }) }
{
    if so_far as u64 + FULL < size as u64 {
        Some(Fragment {
            length: 1024,
            last: false,
        })
    } else if so_far <= size {
        Some(Fragment {
            length: size - so_far,
            last: true,
        })
    } else {
        None
    }
}
