// What an upload announces: a file's name, size and digest.
ghost use Rattle.transfer.specs.Carried.{Announced};

use std::fmt;

#[derive(Clone, Copy, PartialEq, Eq, Debug)]
pub struct Announcement<'a> {
    pub name: &'a str,
    pub size: u32,
    pub digest: [u8; 32],
}

// The announcement of a file; none for one of 2^32 bytes or more, whose size no command can carry.
pub fn announce<'a>(name: &'a str, file: &[u8]) -> Option<Announcement<'a>>
    ensures { Announced result name.now file.now }
{
    let size = u32::try_from(file.len()).ok()?;
    Some(Announcement {
        name,
        size,
        digest: digest::sha256(file),
    })
}

// The text of the command: word, name, size and digest, separated by byte 10.
impl fmt::Display for Announcement<'_> {
    fn fmt<W: fmt::Write>(&self, f: &mut fmt::Formatter<W>) -> fmt::Result {
        write!(f, "upl\n{}\n{}\n", self.name, self.size)?;
        let digest = octets::hexadecimal(&self.digest);
        f.write_str(str::from_utf8(&digest).map_err(|_| fmt::Error)?)
    }
}
