//! `TypeRefusal`: why the types of a text are refused.
use c_tree::LimitKind;
use sd_base::Memory as OutOfMemory;

/// Why the declarations of a text are refused. Of two refusals the one that stands earlier in the text is given, and at one declaration `NoDecl` first.
#[derive(Clone, Copy, PartialEq, Eq, Debug, Drop)]
pub enum TypeRefusal {
    /// The struct, field, arm or global on this line stands against a rule of declarations: its name is taken, its type or its annotation is none, its
    /// array has no elements or more than 65,536, its initialiser has no place, or its tag is not one.
    NoDecl(u32),
    /// The declaration on this line passes a limit: `Structs`, `Fields`, `Functions`, `Globals`, `Size`, or, after all others, `Image`.
    Limit(u32, LimitKind),
    /// Want of memory.
    Memory,
}

impl From<OutOfMemory> for TypeRefusal {
    ghost use Rattle.std.specs.Prelude.{◌≡◌};
    ghost use Rattle.deputy_types.specs.declared.refusal.TypeRefusal.TheVariants.{Memory};

    ghost from_gives = { λ _ refusal. refusal ≡ Memory };

    fn from(_: OutOfMemory) -> TypeRefusal {
        TypeRefusal::Memory
    }
}
