//! What is found by a name.
ghost use Rattle.layout_laws.specs.Lookups.{EachGlobalIsFound, EachStringIsFound, EachStructIsFound};
ghost use Rattle.layout_laws.specs.MemberLookups.{EachMemberIsFound};

/// The number of a struct's name is its place among the structs of the text; no other struct has the name, and what has a number was declared.
pub fn a_struct_is_found_by_its_name()
    ensures { EachStructIsFound }
{}

/// The block of a global's name is its place among the globals of the text, and it is an array where it was declared as one; no other global has the name, and
/// what has a block was declared. The text has less than 2^32 - 1 items, as each that was read.
pub fn a_global_is_found_by_its_name()
    ensures { EachGlobalIsFound }
{}

/// The k-th string of the text has the block behind those of the globals and of the strings before it; there are no other strings. The text has less than
/// 2^32 - 1 items.
pub fn a_string_is_found_by_its_place()
    ensures { EachStringIsFound }
{}

/// In each struct the number of a field's name, of an arm's name in its union and of a union's name is its place in the declaration, and nothing else in the
/// struct has the name. A struct has as many members as were declared, less than 2^32.
pub fn a_member_is_found_by_its_name()
    ensures { EachMemberIsFound }
{}
