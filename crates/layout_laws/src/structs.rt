//! The structs of a table, the types of its elements, and zero bytes.
ghost use Rattle.layout_laws.specs.Elements.{EachHasElements};
ghost use Rattle.layout_laws.specs.MemberShapes.{EachMemberHasItsType};
ghost use Rattle.layout_laws.specs.StructTable.{EachStructIsDeclared, StructsAreNested};
ghost use Rattle.layout_laws.specs.ZeroBytes.{ZeroIsValid};

/// The structs of a table are those that the text declares, in its order: each is the layout of its own declaration with the extents of all, those declared
/// behind it included, and its extent is the one that the declarations before it had already given.
pub fn structs_are_those_declared()
    ensures { EachStructIsDeclared }
{}

/// Each member of a struct of a table lies within the struct, with as many bytes as its type has in the table.
pub fn structs_lie_within_one_another()
    ensures { StructsAreNested }
{}

/// Zero bytes fit every type of a table, each of its structs included, whatever blocks are granted: each pointer in them is null.
pub fn zero_is_valid()
    ensures { ZeroIsValid }
{}

/// A table has a shape for each type of its elements, `char` first, and the bytes that are looked up for an element are those that values of its shape take.
pub fn each_element_has_the_bytes_of_its_shape()
    ensures { EachHasElements }
{}

/// What a member that is a pointer points to is an element of the table, and a member that is a struct is one that is declared before its own.
pub fn each_member_has_its_type()
    ensures { EachMemberHasItsType }
{}
