//! The bounds of a pointer that the rules write as sums are those that its annotation gives.
ghost use Rattle.std.specs.Prelude.{IsTrue, ℕ, ℤ};
ghost use Rattle.checked_tree.specs.declared.expressions.CheckedExpr.{CheckedExpr};
ghost use Rattle.checked_tree.specs.declared.shapes.Edge.{Edge};
ghost use Rattle.checked_tree.specs.declared.shapes.StructShape.{StructShape};
ghost use Rattle.checked_tree.specs.declared.sums.Sum.{Sum};
ghost use Rattle.checked_tree.specs.Conditions.{State};
ghost use Rattle.checked_tree.specs.Edges.{edge_value};
ghost use Rattle.checked_tree.specs.Numbers.{is_value};
ghost use Rattle.deputy_rules.specs.declared.naming.Naming.{Naming};
ghost use Rattle.deputy_rules.specs.Context.{Context};
ghost use Rattle.deputy_rules.specs.NameValues.{AreNamed, HaveNames, IsStructPlace, local_at};
ghost use Rattle.deputy_rules.specs.SumValues.{HasValue};
ghost use Rattle.deputy_rules.specs.Values.{edge_sum, of_slots, of_struct};
ghost use Rattle.deputy_types.specs.Fitting.{member_value};

/// Whatever names stand for: where they have the values of the siblings, the sum that the rules write for one side of a pointer's bounds has the value that the
/// annotation gives from the pointer's value and those of its siblings.
pub fn a_bound_has_the_value_of_its_annotation()
    ensures { (st : State) (ctx : Context) (n : Naming) (sibling : ℕ → ℤ) (at : Sum) (v : ℤ) (e : Edge) → HaveNames st ctx n sibling e → HasValue st at v → HasValue st (edge_sum ctx n at e) (edge_value sibling v e) }
{}

/// So it is among the slots of a function, each of which has a value of 32 bits.
pub fn a_bound_has_its_value_among_slots()
    ensures { (st : State) (ctx : Context) (at : Sum) (v : ℤ) (e : Edge) → ((k : ℕ) → IsTrue (is_value (local_at st k))) → HasValue st at v → HasValue st (edge_sum ctx of_slots at e) (edge_value (local_at st) v e) }
{}

/// And so it is in a struct place, where the members that the annotation names are integers and pointers that lie inside the memory.
pub fn a_bound_has_its_value_in_a_struct()
    ensures { (st : State) (ctx : Context) (place : CheckedExpr) (a s : ℕ) (t : StructShape) (at : Sum) (v : ℤ) (e : Edge) → IsStructPlace st ctx.table place a s t → AreNamed st a t e → HasValue st at v → HasValue st (edge_sum ctx (of_struct place s) at e) (edge_value (member_value st.memory.bytes a t) v e) }
{}
