//! The laws of histories, each the contract of a function that does nothing.
ghost use Rattle.sd_base.specs.Laws.{LawfulWithoutOwner, NetListsStay};

/// A lawful history stays lawful where all entries of one driver are left out of it: whatever a driver held never decides
/// whether another owner's past updates were allowed. So a failed driver's entries can be dropped, and what the others hold
/// is what they would hold had it never run.
pub fn others_history_is_lawful()
    ensures { LawfulWithoutOwner }
{}

/// To leave one owner out of a history takes nothing from another owner's net list.
pub fn others_net_lists_stay()
    ensures { NetListsStay }
{}
