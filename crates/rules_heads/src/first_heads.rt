//! The first head of each name, found by the hash of the name, whatever the number of items.
ghost use Rattle.std.specs.Prelude.{◌≡◌, IfOk, OnOk, option_copied, slice_get};
ghost use Rattle.dep_infer.specs.Found.{NotesFirst};
ghost use Rattle.deputy_rules.specs.Heads as spec;
ghost use Rattle.deputy_types.specs.Options.{and_then};
ghost use Rattle.rules_heads.specs.Places.{FindsHeads, NotesHead};

use c_tree::{Head, Item};
use indexmap::IndexMap;
use sd_base::{Memory, Name};
use sqlite_items::at;
use std::alloc::Global;

/// The head that an item has.
fn head_in(item: &Item) -> Option<&Head>
    ensures { option_copied result ≡ spec.head_in item.now }
{
    match item {
        Item::Struct(_) => None,
        Item::Global(_) => None,
        Item::Function(f) => Some(&f.head),
        Item::Prototype(h) => Some(h),
    }
}

/// Notes the place of a head with this name, unless the name has one already. The only refusal is want of memory.
fn note_place(places: &mut IndexMap<Name, usize>, name: &Name, place: usize) -> Result<(), Memory>
    ensures { OnOk result (NotesFirst places.old.entries name.now place places.new.entries) }
{
    if !places.contains_key(name) {
        places.insert(*name, place)?;
    }
    Ok(())
}

/// Notes the place of an item that has a head, unless the head's name has one already. The only refusal is want of memory.
#[tactic(auto, using(crate::proofs::HeadPlaces::head_noted, crate::proofs::HeadPlaces::nothing_noted))]
fn note_head(places: &mut IndexMap<Name, usize>, item: &Item, place: usize) -> Result<(), Memory>
    ensures { OnOk result (NotesHead places.old.entries item.now place places.new.entries) }
{
    match head_in(item) {
        Some(h) => note_place(places, &h.name, place),
        None => Ok(()),
    }
}

/// The place of the first item with a head of each name. The only refusal is want of memory.
pub(crate) fn head_places(alloc: Global, items: &[Item]) -> Result<IndexMap<Name, usize>, Memory>
    ensures { IfOk result (λ places. FindsHeads places.entries items.now) }
{
    let mut places = IndexMap::new(alloc);
    for (i, item) in items.iter().enumerate() {
        note_head(&mut places, item, i)?;
    }
    Ok(places)
}

/// The head of the item at this place.
pub(crate) fn head_at(items: &[Item], k: usize) -> Option<&Head>
    ensures { option_copied result ≡ and_then (slice_get items.now k) spec.head_in }
{
    match at(items, k) {
        Some(item) => head_in(item),
        None => None,
    }
}
