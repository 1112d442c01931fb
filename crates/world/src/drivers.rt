//! `Drivers`: the drivers of a run, by their numbers.
ghost use Rattle.std.specs.Prelude.{◌≡◌, option_copied, slice_get};
ghost use Rattle.world.specs.Standing.{driver_at};

use checked_tree::CheckedFn;
use run_report::Functions;
use safe_code::SafeDriver;
use sd_base::Name;

/// The drivers of a run, `d1` first.
#[derive(Drop)]
pub struct Drivers {
    pub list: Vec<SafeDriver>,
}

impl Drivers {
    /// The driver with this number, from 1; None where there is none.
    pub fn get(&self, owner: u8) -> Option<&SafeDriver>
        ensures { option_copied result ≡ driver_at self.now.list.items owner }
    {
        if owner == 0 {
            return None;
        }
        self.list.as_slice().get(usize::from(owner) - 1)
    }
}

/// The function with this number.
fn function_at(functions: &[CheckedFn], number: u32) -> Option<&CheckedFn>
    ensures { option_copied result ≡ slice_get functions.now number }
{
    functions.get(number as usize)
}

impl Functions for Drivers {
    ghost use Rattle.world.specs.Standing.{names_in, units_of};

    ghost names = { λ drivers. names_in (units_of drivers.list.items) };

    fn name(&self, owner: u8, function: u32) -> Name {
        let Some(driver) = self.get(owner) else {
            return Name::new(b"");
        };
        match function_at(driver.unit().functions.as_slice(), function) {
            Some(found) => found.name,
            None => Name::new(b""),
        }
    }
}
