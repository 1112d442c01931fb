//! The slots of a function.
ghost use Rattle.c_tree.specs.declared.items.Function.{Function};
ghost use Rattle.deputy_rules.specs.SlotLaws.{AreSlots};

/// The slots of a function, as they are listed, are those that are looked up by name and by number (`auto_bounds` of dep_infer answers these): each parameter and local
/// has its place there, and a local pointer without bounds of its own has two hidden slots, one behind the other.
pub fn slots_are_those_listed()
    ensures { (f : Function) → AreSlots f }
{}
