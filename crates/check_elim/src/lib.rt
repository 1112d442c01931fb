//! Which checks of a function are redundant.
#![tactic(auto)]

mod classes;
mod constants;
mod edges;
mod following;
mod inequalities;
mod locals;
mod lost;
mod over_atoms;
mod removing;
mod rounds;
mod runs;
mod statements;
mod table;
mod walk;
mod words;

pub use removing::kept;
