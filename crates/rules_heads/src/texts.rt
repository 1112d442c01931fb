//! `SeenText`: a text, as its functions see it.
ghost use Rattle.std.specs.Prelude.{◌≡◌, ◌<◌, ◌^◌, ◌++◌, ◌∷◌, List, length, map, position, IfOk, option_copied};
ghost use Rattle.c_tree.specs.declared.items.Item.{Item as Spec};
ghost use Rattle.deputy_rules.specs.Functions as spec;
ghost use Rattle.deputy_rules.specs.Heads as heads;
ghost use Rattle.deputy_types.specs.UnitLayout as layout;
ghost use Rattle.rules_heads.specs.AreFewItems.{AreFewItems};

use crate::declared::signature_of;
use crate::first_heads::{head_at, head_places};
use crate::functions::Functions;
use c_tree::{Head, Item};
use deputy_types::TypeTable;
use indexmap::IndexMap;
use sd_base::{Memory, Name};
use std::alloc::Global;
use std::marker::Model;

/// A text, as its functions see it: its types, its items, and its functions with bodies.
///
/// Functions, and the first head of each name, are found by hash.
#[derive(Drop)]
pub struct SeenText<'a> {
    pub table: &'a TypeTable,
    pub items: &'a [Item],
    pub functions: Functions,
    /// Each name with the place of the first item that has a head of this name.
    places: IndexMap<Name, usize>,
}

impl<'a> Model for SeenText<'a> {
    ghost use Rattle.deputy_rules.specs.Heads.{SeenText as Spec};
    ghost use Rattle.c_tree.specs.contracts.items.Item as item;
    ghost use Rattle.std.specs.Coded.{codes};
    ghost use Rattle.rules_heads.specs.Places.{FindsHeads};

    ghost Value = { Spec };

    ghost coded = { Prim.hlevel (codes, item.the_row.coded) };

    ghost view = { λ t. record { table = t.table.now; items = t.items.now; functions = t.functions } };

    ghost invariant = { λ t. FindsHeads t.places.entries t.items.now };
}

/// What calls see of an item, behind the functions that are there.
fn with_item(
    alloc: Global,
    table: &TypeTable,
    functions: Functions,
    item: &Item,
) -> Result<Functions, Memory>
    requires { length functions < 2 ^ 32 }
    ensures { IfOk result (λ more. (rest : List Spec) →
        more ++ map (heads.signature_of table.now) (layout.functions_of rest) ≡ functions ++ map (heads.signature_of table.now) (layout.functions_of (item.now ∷ rest))) }
{
    match item {
        Item::Struct(_) => Ok(functions),
        Item::Global(_) => Ok(functions),
        Item::Function(f) => {
            let mut more = functions;
            more.declare(signature_of(alloc, table, f)?)?;
            Ok(more)
        }
        Item::Prototype(_) => Ok(functions),
    }
}

/// What calls see of the functions of a text with bodies.
fn functions_of(alloc: Global, table: &TypeTable, items: &[Item]) -> Result<Functions, Memory>
    requires { AreFewItems table.now items.now }
    ensures { IfOk result (λ functions. functions ≡ map (heads.signature_of table.now) (layout.functions_of items.now)) }
{
    let mut functions = Functions::new(alloc);
    for item in items {
        functions = with_item(alloc, table, functions, item)?;
    }
    Ok(functions)
}

impl<'a> SeenText<'a> {
    /// The text of these items with these types. The only refusal is want of memory.
    #[tactic(auto, unfolding(deputy_rules::specs::Functions::text_of))]
    pub fn new(
        alloc: Global,
        table: &'a TypeTable,
        items: &'a [Item],
    ) -> Result<SeenText<'a>, Memory>
        requires { AreFewItems table.now items.now }
        ensures { IfOk result (λ text. text ≡ spec.text_of table.now items.now) }
    {
        let functions = functions_of(alloc, table, items)?;
        let places = head_places(alloc, items)?;
        Ok(SeenText {
            table,
            items,
            functions,
            places,
        })
    }

    /// The place of the first item with a head of this name.
    fn head_place(&self, name: &Name) -> Option<usize>
        ensures { result ≡ position (heads.heads_name name.now) self.now.items }
    {
        self.places.get(name).copied()
    }

    /// The first head with this name. None where there is none.
    #[tactic(auto, unfolding(deputy_rules::specs::Heads::first_head))]
    pub(crate) fn first_head(&self, name: &Name) -> Option<&Head>
        ensures { option_copied result ≡ heads.first_head self.now.items name.now }
    {
        match self.head_place(name) {
            Some(k) => head_at(self.items, k),
            None => None,
        }
    }
}
