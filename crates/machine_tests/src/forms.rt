//! Linear forms: a form has its value; a stronger constant implies.
ghost use Rattle.std.specs.Prelude.{◌≡◌, ◌∷◌, [], pos, negsuc, IfOk};

use dep_expr::{Ineq, Lin};
use std::alloc::{AllocError, Global};
use std::test::Fail;

/// 6x - 4y + 5, x being the atom 0 and y the atom 1.
fn worked(alloc: Global) -> Result<Lin, AllocError>
    ensures { IfOk result (λ form. form ≡ record { terms = (pos 6, 0) ∷ (negsuc 3, 1) ∷ []; constant = pos 5 }) }
{
    let mut form = Lin::number(alloc, 5);
    form.add_atom(6, 0)?;
    form.add_atom(-4, 1)?;
    Ok(form)
}

#[test]
fn a_form_has_its_value(rt: HostRuntime) -> Result<(), Fail> {
    let form = worked(rt.alloc())?;
    assert_eq!(rt; form.value(&[7, -10]), 87);
    Ok(())
}

/// An inequality of a constant, with a guard or none.
fn constant(alloc: Global, constant: i128, guarded: bool) -> Ineq {
    Ineq {
        left: Lin::number(alloc, constant),
        guard: if guarded {
            Some(Lin::atom(alloc, 0))
        } else {
            None
        },
    }
}

#[test]
fn a_stronger_constant_implies(rt: HostRuntime) -> Result<(), Fail> {
    let strong = constant(rt.alloc(), 2, false);
    let weak = constant(rt.alloc(), 1, false);
    let guarded = constant(rt.alloc(), 2, true);
    assert!(rt; strong.implies(&weak) && strong.implies(&guarded) && guarded.implies(&guarded));
    assert!(rt; !weak.implies(&strong) && !guarded.implies(&strong));
    Ok(())
}
