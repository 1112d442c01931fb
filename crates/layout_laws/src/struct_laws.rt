//! What holds of all structs and of zero bytes.
ghost use Rattle.std.specs.Prelude.{◌≡◌, ℕ, List, Ok, Some, slice_get};
ghost use Rattle.c_tree.specs.declared.items.StructItem.{StructItem};
ghost use Rattle.checked_tree.specs.declared.shapes.Shape.{Shape};
ghost use Rattle.checked_tree.specs.declared.shapes.StructShape.{StructShape};
ghost use Rattle.deputy_types.specs.declared.extent.Extent.{Extent};
ghost use Rattle.deputy_types.specs.declared.laying.Laid.{Laid};
ghost use Rattle.deputy_types.specs.declared.types.Types.{Types};
ghost use Rattle.deputy_types.specs.Extents.{AreExtents};
ghost use Rattle.deputy_types.specs.Fitting.{shape_size, AreNested, AreZero, BytesFit};
ghost use Rattle.deputy_types.specs.StructLaws.{AgreeBelow, IsLaidOut, IsStruct};
ghost use Rattle.deputy_types.specs.StructLayout.{struct_laid as laid_of};
ghost use Rattle.sd_base.specs.Blocks.{Block};

/// A struct that stands is laid out: each member lies at a multiple of its alignment, behind those before it and within the struct, whose size is a multiple of
/// its own alignment. No two members share a byte but arms of one union.
pub fn a_struct_is_laid_out()
    ensures { (types : Types) (extents : List Extent) (number : ℕ) (s : StructItem) (laid : Laid) → AreExtents extents → laid_of types extents number s ≡ Ok laid → IsLaidOut extents laid }
{}

/// A struct has the same extent whatever structs are declared behind it.
pub fn a_struct_keeps_its_extent()
    ensures { (types : Types) (before now : List Extent) (number : ℕ) (s : StructItem) (a b : Laid) → AgreeBelow number before now → laid_of types before number s ≡ Ok a → laid_of types now number s ≡ Ok b → a.extent ≡ b.extent }
{}

/// Structs that were laid out with the extents of all lie within one another.
pub fn structs_are_nested()
    ensures { (extents : List Extent) (structs : List StructShape) → ((s : ℕ) (t : StructShape) → slice_get structs s ≡ Some t → IsStruct extents s t) → AreNested structs }
{}

/// Zero bytes fit every type: each pointer in them is null.
pub fn zero_bytes_fit()
    ensures { (blocks : List Block) (elems : List Shape) (structs : List StructShape) (bytes : List ℕ) (at : ℕ) (x : Shape) → AreNested structs → AreZero bytes at (shape_size structs x) → BytesFit blocks elems structs bytes at x }
{}
