//! The names of the functions that owners hand to the kernel.
ghost use Rattle.std.specs.Prelude.{◌≡◌, ℕ, List};

use sd_base::Name;

/// Who tells the names of the owners' functions.
pub trait Functions {
    /// The name of an owner's function by its number.
    ghost names: { Self → ℕ → ℕ → List ℕ };

    /// The name of an owner's function by its number, as it is printed.
    fn name(&self, owner: u8, function: u32) -> Name
        ensures { result ≡ names self.now owner function };
}
