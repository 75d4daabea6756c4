// The laws over all fragments of a file.
ghost use Rattle.fragments.specs.Cuts.{OneWayToCut, SizesWorked};
ghost use Rattle.fragments.specs.Wholes.{WholeAsAnnounced};

// A file is cut into fragments that fit in one way only.
pub fn one_way_to_cut()
    ensures { OneWayToCut }
{}

// Fragments are taken for a whole file exactly where they are the cut of one that is as announced.
pub fn whole_as_announced()
    ensures { WholeAsAnnounced }
{}

// The fragments of files of 0, 1, 1,024, 1,025, 2,048 and 2,350 bytes.
pub fn sizes_worked()
    ensures { SizesWorked }
{}
