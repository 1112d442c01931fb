//! The members of a struct, among which an assignment has its siblings.
ghost use Rattle.std.specs.Prelude.{◌≡◌};
ghost use Rattle.deputy_types.specs.Table as table;

use checked_tree::Member;
use deputy_types::TypeTable;
use sqlite_items::at;

/// The members of a struct; none where there is no such struct.
pub fn members_of(types: &TypeTable, structure: u32) -> &[Member]
    ensures { result.now ≡ table.members_of types.now structure }
{
    match at(types.structs(), structure as usize) {
        Some(found) => found.members.as_slice(),
        None => &[],
    }
}
