//! First rule: checks that are true of constants alone.
ghost use Rattle.std.specs.Prelude.{◌≡◌, option_copied};
ghost use Rattle.std.specs.List.{list_all};
ghost use Rattle.checked_tree.specs.Conditions as meaning;
ghost use Rattle.checked_tree.specs.Redundant as spec;
ghost use Rattle.check_elim.specs.Tables.{is_multiple_term};

use checked_tree::Cond;
use dep_expr::Lin;

/// Whether a form is a number alone.
fn has_no_atoms(l: &Lin) -> bool
    ensures { result ≡ spec.has_no_atoms l.now }
{
    match l.terms() {
        [] => true,
        [_, ..] => false,
    }
}

/// Whether a guard is there and is 0.
fn is_zero_constant(guard: Option<&Lin>) -> bool
    ensures { result ≡ spec.is_zero_constant (option_copied guard.entry) }
{
    match guard {
        None => false,
        Some(guard) => has_no_atoms(guard) && guard.constant() == 0,
    }
}

/// Whether a number is a multiple of a size. Of 0 only 0 is.
fn is_multiple(number: i128, size: u32) -> bool
    ensures { result ≡ meaning.is_multiple number size }
{
    if size == 0 {
        number == 0
    } else {
        number % i128::from(size) == 0
    }
}

/// Whether each coefficient is a multiple of a size.
fn are_multiples(terms: &[(i64, usize)], size: u32) -> bool
    ensures { result ≡ list_all (is_multiple_term size) terms.now }
{
    for term in terms {
        if !is_multiple(i128::from(term.0), size) {
            return false;
        }
    }
    true
}

/// Whether a condition is true of constants alone.
#[tactic(auto, unfolding(checked_tree::specs::Redundant::is_constant))]
pub(crate) fn is_constant(cond: &Cond) -> bool
    ensures { result ≡ spec.is_constant cond.now }
{
    match cond {
        Cond::Le(i) => has_no_atoms(&i.left)
            && (i.left.constant() <= 0 || is_zero_constant(i.guard.as_ref())),
        Cond::Aligned {
            gap,
            size,
            guard: _,
        } => are_multiples(gap.terms(), *size) && is_multiple(gap.constant(), *size),
        Cond::NonZero(l) => has_no_atoms(l) && l.constant() != 0,
        Cond::Equal(_, _) => false,
        Cond::Term { at: _, new: _ } => false,
        Cond::Kept {
            tag: _,
            new: _,
            at: _,
            size: _,
        } => false,
    }
}
