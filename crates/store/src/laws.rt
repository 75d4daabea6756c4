// The law of the entries.
ghost use Rattle.store.specs.Laws.{EntriesAsAMap};

// What is put in is found, what is taken out is not, and no other key is concerned.
pub fn entries_as_a_map()
    ensures { EntriesAsAMap }
{}
