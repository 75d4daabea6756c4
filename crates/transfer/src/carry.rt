// A file goes over in fragments, one at a time.
ghost use Rattle.std.specs.Prelude.{◌≡◌, true, [], IfOk, OnErr, OnOk};
ghost use Rattle.fragments.specs.Progresses.{standing, begun};
ghost use Rattle.transfer.specs.Carried.{Holds, Unmoved};

use crate::failure::Failure;
use crate::line::Line;
use crate::receiver::{Receiver, Taken};
use fragments::{Progress, due};
use message::Seal;
use std::alloc::Global;

impl Receiver {
    // Of a file announced with that size and digest, before its first fragment.
    pub fn new(heap: Global, size: u32, digest: [u8; 32]) -> Receiver
        ensures progress { standing result.progress ≡ begun size digest }
        ensures bytes { result.bytes.items ≡ [] }
    {
        Receiver {
            progress: Progress::new(size, digest),
            bytes: Vec::new(heap),
        }
    }

    // Takes the fragment of the file that is due, sealed and opened again on the way, and tells which it was. A receiver that holds the
    // file's front holds more of it then, and after the last one the whole file; a failure changes nothing.
    pub fn take_next<S: Seal>(
        &mut self,
        line: &mut Line<S>,
        number: u16,
        file: &[u8],
    ) -> Result<Taken, Failure>
        ensures more { Holds self.old file.now → OnOk result (Holds self.new file.now) }
        ensures whole { Holds self.old file.now → IfOk result (λ t. t.fragment.last ≡ true → self.new.bytes.items ≡ file.now) }
        ensures kept { OnErr result (Unmoved self.old self.new) }
    {
        let so_far = self.progress.so_far();
        let fragment = due(so_far, self.progress.size()).ok_or(Failure::NothingDue)?;
        let start = so_far as usize;
        let end = start + fragment.length as usize;
        let part = file.get(start..end).ok_or(Failure::NothingDue)?;
        let size = line.pass(number, fragment.last, part)?;
        let opened = &line.text[..part.len()];
        let mut progress = self.progress;
        progress.accept(opened, fragment.last)?;
        self.bytes.extend_from_slice(opened)?;
        self.progress = progress;
        Ok(Taken { fragment, size })
    }
}
