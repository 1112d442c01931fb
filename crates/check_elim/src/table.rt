//! The facts of a function: what its checks give, what is taken, and the number of each check's own fact.
ghost use Rattle.std.specs.Prelude.{◌≡◌, option_copied};
ghost use Rattle.check_elim.specs.Sets.{asked_at, class_of, size_in};

use dep_expr::Ineq;

/// What a check gives, and its own fact.
#[derive(Drop)]
pub(crate) struct CheckFact {
    /// Its inequality as inequalities are compared, if it is one.
    pub(crate) inequality: Option<Ineq>,
    /// The number of that inequality among the facts, if it is over locals.
    pub(crate) own: Option<usize>,
}

/// The distinct inequalities over locals that the checks of a function test, in order.
#[derive(Drop)]
pub(crate) struct Inequalities {
    /// How many words a set of facts has.
    pub(crate) size: usize,
    /// By their terms, then by their constants.
    pub(crate) facts: Vec<Ineq>,
    /// Of each check, by its place.
    pub(crate) checks: Vec<CheckFact>,
    /// Of each slot the set of facts that speak of it. A slot past the last has none.
    pub(crate) masks: Vec<Vec<u64>>,
}

/// The classes of equal checks of a function: of the same kind and condition.
#[derive(Drop)]
pub(crate) struct Classes {
    /// How many words a set of classes has.
    pub(crate) size: usize,
    /// The class of each check, by its place.
    pub(crate) numbers: Vec<usize>,
}

/// What the facts of an analysis are.
#[derive(Drop)]
pub(crate) enum Table {
    /// That an inequality over locals holds: the third rule.
    Inequalities(Inequalities),
    /// That an equal check was tested since the statement began: the second rule.
    Classes(Classes),
}

impl Table {
    /// How many words a set of facts has.
    pub(crate) fn size(&self) -> usize
        ensures { result ≡ size_in self.now }
    {
        match self {
            Table::Inequalities(inequalities) => inequalities.size,
            Table::Classes(classes) => classes.size,
        }
    }
}

impl Inequalities {
    /// The inequality of a check, by its number, if it is one.
    pub(crate) fn inequality(&self, id: usize) -> Option<&Ineq>
        ensures { option_copied result ≡ asked_at self.now id }
    {
        if id == 0 {
            return None;
        }
        match self.checks.get(id - 1) {
            Some(check) => check.inequality.as_ref(),
            None => None,
        }
    }
}

impl Classes {
    /// The class of a check, by its number.
    pub(crate) fn class(&self, id: usize) -> Option<usize>
        ensures { result ≡ class_of self.now id }
    {
        if id == 0 {
            return None;
        }
        match self.numbers.get(id - 1) {
            Some(number) => Some(*number),
            None => None,
        }
    }
}
