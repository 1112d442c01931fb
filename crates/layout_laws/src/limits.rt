//! The limits that a table keeps.
ghost use Rattle.layout_laws.specs.Limits.{EachIsWithinLimits};

/// A table has at most 256 structs of at most 64 fields and 65,536 bytes, and its image at most 1,024 blocks; its text has at most 4,096 functions with bodies.
pub fn a_table_keeps_the_limits()
    ensures { EachIsWithinLimits }
{}
