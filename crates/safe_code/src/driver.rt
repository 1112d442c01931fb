//! `SafeDriver`: a driver whose checked unit the rules derive.
ghost use Rattle.std.specs.Prelude.{◌≡◌, ◌≤◌, bytes_eq, length};
ghost use Rattle.safe_code.specs.DerivedUnit.{IsDerivedUnit};
ghost use Rattle.safe_code.specs.Lookup as spec;

use checked_tree::{CheckedFn, CheckedUnit};
use sd_base::Name;
use std::marker::Model;

/// A driver: the number of its file, and its checked unit, which the rules derive from some text (`IsDerivedUnit`). No other unit
/// makes one.
#[derive(Debug, Drop)]
pub struct SafeDriver {
    file: u8,
    unit: CheckedUnit,
}

impl Model for SafeDriver {
    ghost use Rattle.safe_code.specs.DerivedUnit.{IsDerivedUnit};
    ghost use Rattle.safe_code.specs.Drivers.{Driver};
    ghost use Rattle.checked_tree.specs.contracts.units.CheckedUnit as checked;
    ghost use Rattle.std.specs.Coded.{codes};

    ghost Value = { Driver };

    ghost coded = { Prim.hlevel (codes, checked.the_row.coded) };

    ghost view = { λ a. record { file = a.file; unit = a.unit } };

    ghost invariant = { λ a. IsDerivedUnit a.unit };
}

/// Whether a function has this name.
fn is_named(function: &CheckedFn, name: &Name) -> bool
    ensures { result ≡ bytes_eq function.now.name name.now }
{
    function.name.bytes() == name.bytes()
}

/// The place of the first function with this name.
fn place_of(functions: &[CheckedFn], name: &Name) -> Option<usize>
    ensures { result ≡ spec.place_of functions.now name.now }
{
    functions
        .iter()
        .position(|function| is_named(function, name))
}

impl SafeDriver {
    /// The driver of this file with this checked unit.
    pub fn join(file: u8, unit: CheckedUnit) -> SafeDriver
        requires { IsDerivedUnit unit }
        ensures file { result.file ≡ file }
        ensures unit { result.unit ≡ unit }
    {
        SafeDriver { file, unit }
    }

    /// The number of the function with this name, in text order from 0; of two the first. None where no function has the name.
    pub fn function(&self, name: &Name) -> Option<u32>
        ensures { result ≡ spec.function_named self.now.unit name.now }
    {
        match place_of(self.unit.functions.as_slice(), name) {
            Some(place) => Some(place as u32),
            None => None,
        }
    }

    /// The number of its file, as it was given to `join`.
    pub fn file(&self) -> u8
        ensures { result ≡ self.now.file }
    {
        self.file
    }

    /// Its checked unit.
    pub fn unit(&self) -> &CheckedUnit
        ensures unit { result.now ≡ self.now.unit }
        ensures derived { IsDerivedUnit result.now }
    {
        &self.unit
    }
}
