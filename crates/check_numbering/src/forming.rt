//! `Forming`: a linear form that is being added up from the parts of sums, and how far it weighs.
ghost use Rattle.std.specs.Prelude.{◌≡◌, ◌≤◌, ◌^◌, ◌*ℤ◌, unsigned_abs, IfOk};
ghost use Rattle.dep_expr.specs.Merged.{merged};
ghost use Rattle.deputy_rules.specs.Deriving.{Yields};
ghost use Rattle.deputy_rules.specs.Numbering as spec;
ghost use Rattle.deputy_rules.specs.Numbering.{Leaves};

use crate::Atoms;
use checked_tree::{Part, Sum};
use dep_expr::Lin;
use deputy_rules::DerivingRefusal;
use sd_base::Memory;
use std::alloc::Global;
use std::marker::Model;

/// The coefficients of a light form are below this together.
const COEFFICIENTS: u128 = 1 << 62;

/// The constants of a light form are below this together.
const CONSTANTS: u128 = 1 << 100;

/// A linear form that is being added up, with the sum of the sizes of its coefficients and that of its constants. It is light.
#[derive(Drop)]
pub(crate) struct Forming {
    form: Lin,
    coefficients: u128,
    constants: u128,
}

impl Model for Forming {
    ghost use Rattle.deputy_rules.specs.Numbering.{Forming};
    ghost use Rattle.check_numbering.specs.Weighed.{IsWeighed};

    ghost Value = { Forming };

    ghost view = { λ f. record { form = f.form; coefficients = f.coefficients; constants = f.constants } };

    ghost invariant = { λ f. IsWeighed (record { form = f.form; coefficients = f.coefficients; constants = f.constants }) };
}

impl Forming {
    /// Nothing yet.
    fn new(alloc: Global) -> Forming
        ensures { result ≡ spec.unformed }
    {
        Forming {
            form: Lin::number(alloc, 0),
            coefficients: 0,
            constants: 0,
        }
    }

    /// A number more. `NoRule` where the form is not light then.
    #[tactic(auto, unfolding(deputy_rules::specs::Numbering::with_number))]
    fn with_number(mut self, z: i128) -> Result<Forming, DerivingRefusal>
        requires { unsigned_abs z ≤ 2 ^ 126 }
        ensures { Yields (spec.with_number z self) result }
    {
        let constants = self.constants + z.unsigned_abs();
        if constants >= CONSTANTS {
            return Err(DerivingRefusal::NoRule);
        }
        self.form.add_number(z);
        self.constants = constants;
        Ok(self)
    }

    /// So many times an atom more. `NoRule` where the form is not light then.
    #[tactic(auto, unfolding(deputy_rules::specs::Numbering::with_term))]
    fn with_term(mut self, k: i128, atom: usize) -> Result<Forming, DerivingRefusal>
        requires { unsigned_abs k ≤ 2 ^ 63 }
        ensures { Yields (spec.with_term k atom self) result }
    {
        let coefficients = self.coefficients + k.unsigned_abs();
        if coefficients >= COEFFICIENTS {
            return Err(DerivingRefusal::NoRule);
        }
        self.form.add_atom(k as i64, atom)?;
        self.coefficients = coefficients;
        Ok(self)
    }

    /// The merged form.
    fn merged(&self) -> Result<Lin, Memory>
        ensures { IfOk result (λ form. form ≡ merged self.now.form) }
    {
        self.form.merged()
    }
}

/// A number of the left side, or of the right one, which is taken away.
fn signed(right: bool, z: i128) -> i128
    requires { unsigned_abs z ≤ 2 ^ 126 }
    ensures { result ≡ spec.signed right z }
{
    if right { -z } else { z }
}

/// The product of a part's two numbers.
fn product(times: i64, value: i64) -> i128
    ensures product { result ≡ times *ℤ value }
    ensures size { unsigned_abs result ≤ 2 ^ 126 }
{
    i128::from(times) * i128::from(value)
}

/// One part more, of the left side or of the right one.
#[tactic(auto, unfolding(deputy_rules::specs::Numbering::with_part))]
fn with_part(
    atoms: &mut Atoms,
    right: bool,
    form: Forming,
    part: &Part,
) -> Result<Forming, DerivingRefusal>
    ensures { Leaves (spec.with_part right part.now form atoms.old) result atoms.new }
{
    match part {
        Part::Constant { times, value } => form.with_number(signed(right, product(*times, *value))),
        Part::Atom { times, atom } => {
            let number = atoms.number(atom.get())?;
            form.with_term(signed(right, i128::from(*times)), number)
        }
    }
}

/// The parts of a side, one after another.
fn with_parts(
    atoms: &mut Atoms,
    right: bool,
    form: Forming,
    parts: &[Part],
) -> Result<Forming, DerivingRefusal>
    ensures { Leaves (spec.with_parts right parts.now form atoms.old) result atoms.new }
{
    let mut form = form;
    for part in parts {
        form = with_part(atoms, right, form, part)?;
    }
    Ok(form)
}

/// The left sum minus the right one, in merged form.
#[tactic(auto, unfolding(deputy_rules::specs::Numbering::difference))]
pub(crate) fn difference(
    alloc: Global,
    atoms: &mut Atoms,
    left: &Sum,
    right: &Sum,
) -> Result<Lin, DerivingRefusal>
    ensures { Leaves (spec.difference left.now right.now atoms.old) result atoms.new }
{
    let form = with_parts(atoms, false, Forming::new(alloc), left.parts.as_slice())?;
    let form = with_parts(atoms, true, form, right.parts.as_slice())?;
    let merged = form.merged()?;
    Ok(merged)
}

/// One sum, in merged form.
#[tactic(auto, unfolding(deputy_rules::specs::Numbering::whole))]
pub(crate) fn whole(alloc: Global, atoms: &mut Atoms, sum: &Sum) -> Result<Lin, DerivingRefusal>
    ensures { Leaves (spec.whole sum.now atoms.old) result atoms.new }
{
    let form = with_parts(atoms, false, Forming::new(alloc), sum.parts.as_slice())?;
    let merged = form.merged()?;
    Ok(merged)
}

/// One part, in merged form.
#[tactic(auto, unfolding(deputy_rules::specs::Numbering::single))]
pub(crate) fn single(alloc: Global, atoms: &mut Atoms, part: &Part) -> Result<Lin, DerivingRefusal>
    ensures { Leaves (spec.single part.now atoms.old) result atoms.new }
{
    let form = with_part(atoms, false, Forming::new(alloc), part)?;
    let merged = form.merged()?;
    Ok(merged)
}
