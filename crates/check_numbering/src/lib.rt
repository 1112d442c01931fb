//! The checks that the rules ask for, as checks over numbered atoms: equal expressions are one atom, and each condition is a linear form, merged.
#![tactic(auto)]

mod atoms;
mod build;
mod conditions;
mod forming;
mod numbering;
mod refusal;

pub use atoms::Atoms;
pub use build::Build;
pub use numbering::number_checks;
pub use refusal::{RuleRefusal, at_line};
