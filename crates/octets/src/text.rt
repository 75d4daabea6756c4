// Bytes as hexadecimal text.
ghost use Rattle.std.specs.Prelude.{◌≡◌, ◌<◌};
ghost use Rattle.octets.specs.Hexadecimal.{digit, hexadecimal};

fn digit(value: u8) -> u8
    requires { value < 16 }
    ensures { result ≡ digit value }
{
    if value < 10 {
        b'0' + value
    } else {
        b'a' + (value - 10)
    }
}

// A digest as 64 characters, two for each byte.
pub fn hexadecimal(digest: &[u8; 32]) -> [u8; 64]
    ensures { result ≡ hexadecimal digest.now }
{
    let mut text = [0u8; 64];
    // into places of the array, since of chunks that are lent for writing the library says their length alone
    for (i, byte) in digest.iter().enumerate() {
        text[2 * i] = digit(*byte / 16);
        text[2 * i + 1] = digit(*byte % 16);
    }
    text
}
