//! No sum of a check, or of a pointer's bounds, reaches the limit of the machine's numbers.
ghost use Rattle.std.specs.Prelude.{◌≡◌, ℕ, List, All, Ok};
ghost use Rattle.c_tree.specs.declared.expressions.Expr.{Expr};
ghost use Rattle.c_tree.specs.declared.items.Function.{Function};
ghost use Rattle.c_tree.specs.declared.items.Unit.{Unit as TextUnit};
ghost use Rattle.checked_tree.specs.declared.expressions.CheckedExpr.{CheckedExpr};
ghost use Rattle.checked_tree.specs.declared.units.CheckedUnit.{CheckedUnit};
ghost use Rattle.checked_tree.specs.Conditions.{State, form_value};
ghost use Rattle.checked_tree.specs.Operands.{sum_value};
ghost use Rattle.dep_expr.specs.Linear.{LinearForm};
ghost use Rattle.deputy_rules.specs.declared.handed.Handed.{Handed};
ghost use Rattle.deputy_rules.specs.declared.signature.Returned.{Returned};
ghost use Rattle.deputy_rules.specs.Functions.{checked, context_of};
ghost use Rattle.deputy_rules.specs.Numbering.{Numbered};
ghost use Rattle.deputy_rules.specs.Statements.{statement_context};
ghost use Rattle.deputy_types.specs.Table.{Table};
ghost use Rattle.light_checks.specs.PointerBounds.{HandsOver};
ghost use Rattle.light_checks.specs.ShortUnits.{IsFunctionOf};
ghost use Rattle.light_checks.specs.SumLimits.{AtomsFit, IsSmallCheck, IsSmallForm, PartsFit, free_form_value, free_sum_value};

/// Each check of a unit that the rules derive is small: its forms' coefficients come to less than 2^62 together, and their constants are below 2^100.
pub fn derived_checks_are_small()
    ensures { (u : TextUnit) (t : Table) (c : CheckedUnit) → checked t u ≡ Ok c → All (λ f. All IsSmallCheck f.checks) c.functions }
{}

/// So in a state whose atoms have values of 32 bits no sum of such a check reaches the machine's limit: a form has the value that it has where nothing is limited.
pub fn a_small_form_reaches_no_limit()
    ensures { (atoms : List CheckedExpr) (s : State) (l : LinearForm) → AtomsFit atoms s → IsSmallForm l → form_value atoms s l ≡ free_form_value atoms s l }
{}

/// Nor does a sum that bounds a pointer: one that a short expression hands over, or gives back, in a function of a short unit whose declarations stand, wherever the
/// expression stands in it.
pub fn a_pointers_bounds_reach_no_limit()
    ensures { (u : TextUnit) (t : Table) (f : Function) (r : Returned) (line : ℕ) (before : Numbered) (e : Expr) (h : Handed) (s : State) → IsFunctionOf u t f r
        → HandsOver (statement_context (context_of t f) line before) e h → PartsFit s h.low.parts → PartsFit s h.high.parts
        → (sum_value s h.low ≡ free_sum_value s h.low) × (sum_value s h.high ≡ free_sum_value s h.high) }
{}
