//! From where a kernel call may be made, as a set of contexts: tasks and handlers.
ghost use Rattle.std.specs.Prelude.{⊤, ◌≡◌, [], ◌∷◌, codes};
ghost use Rattle.checked_tree.specs.KernelTable.{kernel_row as row_of};
ghost use Rattle.wrappers.specs.Contexts.{context_bits, context_bit, may_call as is_allowed};

use bitflags::{Flag, Flags, bitflag_items};
use checked_tree::{Callers, KernelName, kernel_row};

/// A set of contexts.
#[derive(Clone, Copy, PartialEq, Eq, Debug)]
pub struct Contexts(u8);

bitflag_items! {
    impl Contexts: u8 {
        const TASK = 1;
        const HANDLER = 2;
    }
}

impl Flags for Contexts {
    type Bits = u8;

    ghost exact = { ⊤ };

    ghost table = { (codes "TASK", 1) ∷ (codes "HANDLER", 2) ∷ [] };

    ghost set_of = { λ c. c.0 };

    fn flags<'a>() -> &'a [Flag<Contexts>] {
        Contexts::FLAGS
    }

    fn bits(&self) -> u8 {
        self.0
    }

    fn from_bits_retain(bits: u8) -> Contexts {
        Contexts(bits)
    }
}

/// The contexts of these callers.
fn contexts_for(callers: Callers) -> Contexts
    ensures { result.0 ≡ context_bits callers }
{
    match callers {
        Callers::All => Contexts::TASK.union(Contexts::HANDLER),
        Callers::Tasks => Contexts::TASK,
    }
}

/// The contexts from which a call may be made, by its row of the table of kernel calls.
pub fn contexts_of(name: KernelName) -> Contexts
    ensures { result.0 ≡ context_bits (row_of name).callers }
{
    contexts_for(kernel_row(name).callers)
}

/// The context of a task, whose number 0 stands for handlers.
fn context_of(task: u8) -> Contexts
    ensures { result.0 ≡ context_bit task }
{
    if task == 0 {
        Contexts::HANDLER
    } else {
        Contexts::TASK
    }
}

/// Whether a task may make a call, or for the number 0 a handler.
pub fn may_call(name: KernelName, task: u8) -> bool
    ensures { result ≡ is_allowed name task }
{
    contexts_of(name).contains(context_of(task))
}
