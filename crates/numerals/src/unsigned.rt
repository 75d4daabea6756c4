// The types as whose numbers decimals are read.
ghost use Rattle.std.specs.Prelude.{◌≡◌, ℕ, if◌then◌else◌, Some, None, nat_le};

pub trait Unsigned: Sized {
    // Its largest number.
    ghost LARGEST: { ℕ };

    const LARGEST: u64;

    // A number of that type.
    ghost of: { ℕ → Self };

    // The number as one of that type, if it has it.
    fn of(n: u64) -> Option<Self>
        ensures { result ≡ (if nat_le n LARGEST then Some (of n) else None) };
}

impl Unsigned for u32 {
    ghost LARGEST = { 4294967295 };

    const LARGEST: u64 = u32::MAX as u64;

    ghost of = { λ n. n };

    fn of(n: u64) -> Option<u32> {
        u32::try_from(n).ok()
    }
}

impl Unsigned for u64 {
    ghost LARGEST = { 18446744073709551615 };

    const LARGEST: u64 = u64::MAX;

    ghost of = { λ n. n };

    fn of(n: u64) -> Option<u64> {
        Some(n)
    }
}
