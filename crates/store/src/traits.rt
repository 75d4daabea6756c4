// The two halves of a store, by their meaning.
ghost use Rattle.std.specs.Prelude.{◌≡◌, List};
ghost use Rattle.store.specs.Meaning.{Entry, State, Lawful};
ghost use Rattle.store.specs.Calls.{Looked, Read, Next, Drafted, Asked, Opened, Appended, Dropped, Kept, Removed};

use crate::fault::StoreFault;
use crate::pending::Pending;

// The reading half: what can be asked of the entries.
pub trait ReadStore {
    // The entries, in the byte order of their keys.
    ghost entries: { Self → List Entry };

    // Their keys rise, and keys, sizes and days keep to their limits; each implementation shows it.
    ghost lawful: { (s : Self) → Lawful (entries s) };

    // Size and day of the entry of a key, as the pair that every store is bound to answer; none where it is absent.
    fn look(&self, key: &[u8]) -> Result<Option<(u32, u32)>, StoreFault>
        ensures { Looked (entries self.now) key.now result };

    // Copies the entry's bytes from an offset on, as many as there are and fit, and answers their number.
    fn read(&self, key: &[u8], offset: u32, buffer: &mut [u8]) -> Result<usize, StoreFault>
        ensures { Read (entries self.now) key.now offset buffer.old result buffer.new };

    // Puts the least key above a given one at the front of a buffer, and answers its length; none where there is no such key.
    fn after(&self, key: &[u8], buffer: &mut [u8]) -> Result<Option<usize>, StoreFault>
        ensures { Next (entries self.now) key.now buffer.old result buffer.new };
}

// The writing half, built on the reading half.
pub trait Store: ReadStore {
    // The draft, and what the tables of space and hold answer.
    ghost state: { Self → State };

    // The draft, its key at the front of a buffer; none where there is no draft.
    fn pending(&self, buffer: &mut [u8]) -> Result<Option<Pending>, StoreFault>
        ensures { Drafted (state self.now) buffer.old result buffer.new };

    // The level that lacks space for a file of that key and size; none where there is space.
    fn space(&self, key: &[u8], size: u32) -> Result<Option<u8>, StoreFault>
        ensures { Asked (state self.now).spaces key.now size result };

    // The level that holds the entry of that key on that day; none where it is free.
    fn hold(&self, key: &[u8], day: u32) -> Result<Option<u8>, StoreFault>
        ensures { Asked (state self.now).holds key.now day result };

    // Begins a draft.
    fn open(&mut self, key: &[u8], size: u32, day: u32) -> Result<(), StoreFault>
        ensures { Opened (Self.ReadStore.entries self.old) (state self.old) key.now size day result (Self.ReadStore.entries self.new) (state self.new) };

    // Adds bytes to the draft.
    fn append(&mut self, bytes: &[u8]) -> Result<(), StoreFault>
        ensures { Appended (Self.ReadStore.entries self.old) (state self.old) bytes.now result (Self.ReadStore.entries self.new) (state self.new) };

    // Makes the draft an entry.
    fn keep(&mut self) -> Result<(), StoreFault>
        ensures { Kept (Self.ReadStore.entries self.old) (state self.old) result (Self.ReadStore.entries self.new) (state self.new) };

    // Ends the draft without an entry.
    fn drop_draft(&mut self) -> Result<(), StoreFault>
        ensures { Dropped (Self.ReadStore.entries self.old) (state self.old) result (Self.ReadStore.entries self.new) (state self.new) };

    // Takes the entry of a key out, on a day.
    fn remove(&mut self, key: &[u8], day: u32) -> Result<(), StoreFault>
        ensures { Removed (Self.ReadStore.entries self.old) (state self.old) key.now day result (Self.ReadStore.entries self.new) (state self.new) };
}
