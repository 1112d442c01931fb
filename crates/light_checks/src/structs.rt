//! The two passes over the structs of a short unit.
ghost use Rattle.light_checks.specs.SecondPass.{StructsAreLaidOutAgain};

/// Structs are laid out in text order, with the extents of those before them, and again with the extents of all. In a short unit, where the declarations meet the rules, the
/// second time refuses none: no number of an annotation comes near the bound on them, whatever the sizes of structs.
pub fn structs_are_laid_out_again()
    ensures { StructsAreLaidOutAgain }
{}
