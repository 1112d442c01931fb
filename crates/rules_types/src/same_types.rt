//! When two types that a pointer points to are one.
ghost use Rattle.std.specs.Prelude.{◌≡◌};
ghost use Rattle.deputy_rules.specs.Operators as spec;
ghost use Rattle.deputy_types.specs.Types as types;

use deputy_types::Element;

/// Whether two types of elements are equal.
pub fn same_element(a: Element, b: Element) -> bool
    ensures { result ≡ types.same_element a b }
{
    a == b
}

/// Whether two truth values are equal.
pub fn same_truth(a: bool, b: bool) -> bool
    ensures { result ≡ spec.same_truth a b }
{
    if a { b } else { !b }
}
