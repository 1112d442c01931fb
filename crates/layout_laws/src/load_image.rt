//! The load image of a table.
ghost use Rattle.layout_laws.specs.FirstFits.{EachBlockFitsAtFirst};
ghost use Rattle.layout_laws.specs.LoadImage.{EachHasImage};

/// The load image has a block for each global and then one for each string, in text order, and no other. The first lies at 16, each next at the next multiple of
/// 16 behind the one before, and the last ends by 524,288. A global's block has as many elements of its type as were declared, and holds its number, converted to
/// its type, or zeros; a string's has its bytes and a 0.
pub fn each_global_and_string_has_its_block()
    ensures { EachHasImage }
{}

/// In a memory that holds the load image each element of each block fits its type, whatever blocks are granted: a driver is loaded with valid memory.
pub fn each_block_fits_at_first()
    ensures { EachBlockFitsAtFirst }
{}
