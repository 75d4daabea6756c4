// How far a file has come: what the receiving end of an upload or a download keeps of it.
ghost use Rattle.std.specs.Prelude.{◌≡◌};
ghost use Rattle.fragments.specs.Progresses.{standing, begun, verdict, after};

use crate::refusal::FragmentRefusal;
use crate::rule::fits;
use digest::Hasher;
use octets::equal;

// Seen through `standing` and not by a model, as its hasher is.
#[derive(Clone, Copy)]
pub struct Progress {
    so_far: u32,
    size: u32,
    announced: [u8; 32],
    hasher: Hasher,
}

impl Progress {
    // Of a file announced with that size and digest, before its first fragment.
    pub fn new(size: u32, announced: [u8; 32]) -> Progress
        ensures { standing result ≡ begun size announced }
    {
        Progress {
            so_far: 0,
            size,
            announced,
            hasher: Hasher::new(),
        }
    }

    // The number of bytes so far.
    pub fn so_far(&self) -> u32
        ensures { result ≡ (standing self.now).so_far }
    {
        let Progress { so_far, .. } = *self;
        so_far
    }

    // The announced size.
    pub fn size(&self) -> u32
        ensures { result ≡ (standing self.now).size }
    {
        let Progress { size, .. } = *self;
        size
    }

    // Takes the next fragment, and tells whether the file is now whole, by a truth, since a type of two answers would say no more; a
    // refused fragment changes nothing.
    pub fn accept(&mut self, fragment: &[u8], last: bool) -> Result<bool, FragmentRefusal>
        ensures value { result ≡ verdict (standing self.old) fragment.now last }
        ensures after { standing self.new ≡ after (standing self.old) fragment.now last }
    {
        if !fits(self.so_far, self.size, fragment.len(), last) {
            return Err(FragmentRefusal::SizeRule);
        }
        let mut hasher = self.hasher;
        hasher.update(fragment);
        if last && !equal(&hasher.finish(), &self.announced) {
            return Err(FragmentRefusal::Digest);
        }
        self.hasher = hasher;
        self.so_far += fragment.len() as u32;
        Ok(last)
    }
}
