//! Linear forms over atoms, and the inequalities that run-time checks test: sums, multiples, substitution, the merged and the normed
//! form, values, and implication. All over whole numbers; nothing wraps.
#![tactic(auto)]

mod divide;
mod inequality;
mod linear;
mod merge;
mod terms;

pub use inequality::Ineq;
pub use linear::Lin;
