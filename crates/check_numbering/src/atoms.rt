//! `Atoms`: the expressions that the checks of a function test, by number.
ghost use Rattle.std.specs.Prelude.{◌≡◌, [], IfOk, OnOk};
ghost use Rattle.deputy_rules.specs.Numbering.{number_of, with_atom};

use checked_tree::{CheckedExpr, bare, code};
use indexmap::IndexSet;
use sd_base::Memory;
use sqlite_items::Items;
use std::alloc::Global;
use std::marker::Model;

/// The atoms of a function: distinct expressions in the order of their first use, as bare forms. It is seen as their list.
///
/// An expression is found by the hash of its code, whatever the number of atoms.
#[derive(Drop)]
pub struct Atoms {
    alloc: Global,
    codes: IndexSet<Vec<u64>>,
    forms: Vec<CheckedExpr>,
}

impl Model for Atoms {
    ghost use Rattle.std.specs.Prelude.{◌≡◌, List, map};
    ghost use Rattle.checked_tree.specs.declared.expressions.CheckedExpr.{CheckedExpr};
    ghost use Rattle.checked_tree.specs.Codes.{code};
    ghost use Rattle.checked_tree.specs.contracts.expressions.CheckedExpr as expression;
    ghost use Rattle.std.specs.Coded.{coded_list};

    ghost Value = { List CheckedExpr };

    ghost coded = { coded_list expression.the_row.coded };

    ghost view = { λ a. a.forms.items };

    ghost invariant = { λ a. map (λ numbers. numbers.items) a.codes.keys ≡ map code a.forms.items };
}

impl Atoms {
    /// None.
    pub fn new(alloc: Global) -> Atoms
        ensures { result ≡ [] }
    {
        Atoms {
            alloc,
            codes: IndexSet::new(alloc),
            forms: Vec::new(alloc),
        }
    }

    /// The number of an expression, which is added behind the atoms where none is equal to it. The only refusal is want of memory.
    #[tactic(auto, unfolding(deputy_rules::specs::Numbering::number_of, deputy_rules::specs::Numbering::with_atom))]
    pub(crate) fn number(&mut self, e: &CheckedExpr) -> Result<usize, Memory>
        ensures number { IfOk result (λ k. k ≡ number_of self.old e.now) }
        ensures atoms { OnOk result (self.new ≡ with_atom self.old e.now) }
    {
        let numbers = code(self.alloc, e)?;
        if let Some(k) = self.codes.get_index_of(&numbers) {
            return Ok(k);
        }
        let k = self.forms.len();
        let form = bare(self.alloc, e)?;
        self.forms.reserve(1)?;
        self.codes.insert(numbers)?;
        self.forms.push_reserved(form);
        Ok(k)
    }

    /// The atoms by number.
    pub fn forms(&self) -> &[CheckedExpr]
        ensures { result.now ≡ self.now }
    {
        self.forms.as_slice()
    }

    /// The atoms by number.
    pub fn into_forms(self) -> Items<CheckedExpr>
        ensures { result ≡ self }
    {
        Items::from_vec(self.forms)
    }
}
