//! The laws of net lists, each the contract of a function that does nothing.
ghost use Rattle.update_tracker.specs.NetLists.{NetListsAfterEntry, NothingLeftOfOwner, NetListsAreShort};

/// The net list of an owner after one more accepted update of its own is what the update's role makes of its own live
/// entries alone; the net lists of all others stay. So an undo log can be kept for each owner by itself.
pub fn net_lists_after_one_more_entry()
    ensures { NetListsAfterEntry }
{}

/// A history without an owner's entries leaves nothing of the owner's net list.
pub fn nothing_is_left_of_an_owner()
    ensures { NothingLeftOfOwner }
{}

/// In a lawful history no owner has more than 9,065 entries in its net list.
pub fn net_lists_are_short()
    ensures { NetListsAreShort }
{}
