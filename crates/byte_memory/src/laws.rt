// The laws of the memory that a reader comes for, in the words of the contracts: each holds of every memory and every write.

ghost use Rattle.byte_memory.specs.Tested.{InsideIsWithinOneRange};
ghost use Rattle.byte_memory.specs.Writes.{EachByteIsTheLastWritten, ALoadGivesWhatWasStored, AWriteLeavesOtherLoads};

/// After any writes each address holds the byte that was last written there, and else the one that stood there at first.
pub fn each_byte_is_the_last_written()
    ensures { EachByteIsTheLastWritten }
{}

/// A load gives the low bits of the number that was stored at its place: as many as the bytes of the access have.
pub fn a_load_gives_what_was_stored()
    ensures { ALoadGivesWhatWasStored }
{}

/// A write leaves every load of other bytes as it was.
pub fn a_write_leaves_other_loads()
    ensures { AWriteLeavesOtherLoads }
{}

/// An access of one byte or more is inside exactly where one granted range has the address of every byte of it: two ranges
/// that meet do not count as one, and no sum wraps.
pub fn an_access_is_inside_within_one_range()
    ensures { InsideIsWithinOneRange }
{}
