//! `read_unit`: the items that the words of a text spell.
ghost use Rattle.std.specs.Prelude.{◌≡◌, ℕ, ◌⊎◌, IfOk, IfErr};
ghost use Rattle.c_tree.specs.declared.items.Unit.{Unit as TextUnit};
ghost use Rattle.c_tree.specs.Bytes.{Text};
ghost use Rattle.c_tree.specs.Division.{IsDivision};
ghost use Rattle.c_tree.specs.ShortUnit.{IsShortUnit};
ghost use Rattle.c_tree.specs.Units.{IsUnit, HasNoItem};
ghost use Rattle.c_decl.specs.Answers.{IsUnlessMemory};

use crate::UnitRefusal;
use crate::items::item_at;
use crate::lines::line_of;
use c_tree::{Token, Unit};
use sqlite_items::Items;
use std::alloc::Global;

/// The unit that the words of a divided text spell.
///
/// Refused with `NoItem` exactly where, behind some items, words are left that begin with no item: the line is that of
/// the first of them. Refused with `Memory` where memory is wanting.
pub fn read_unit(alloc: Global, words: &[Token]) -> Result<Unit, UnitRefusal>
    requires divided { (text : Text) × IsDivision text words.now }

    // What is answered is so.
    ensures unit { IfOk result (λ unit. IsUnit words.now unit) }
    ensures no_item { IfErr result (λ refusal. ((line : ℕ) × HasNoItem words.now line × (refusal ≡ UnitRefusal.NoItem line)) ⊎ (refusal ≡ UnitRefusal.Memory)) }
    ensures short { IfOk result (λ unit. IsShortUnit unit) }

    // What is so is answered, unless memory is wanting.
    ensures units { (unit : TextUnit) → IsUnit words.now unit → IfOk result (λ answer. answer ≡ unit) × IfErr result (λ refusal. refusal ≡ UnitRefusal.Memory) }
    ensures stops { (line : ℕ) → HasNoItem words.now line → IsUnlessMemory result (UnitRefusal.NoItem line) }
{
    let mut items = Items::new(alloc);
    let mut rest = words;
    while !rest.is_empty() {
        let Some((item, after)) = item_at(alloc, rest)? else {
            return Err(UnitRefusal::NoItem(line_of(rest)));
        };
        items.push(item)?;
        rest = after;
    }
    Ok(Unit { items })
}
