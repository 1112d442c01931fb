//! The rules of the language, as definitions that compute: what expressions, statements, heads and whole texts derive, with every run-time check that a rule asks
//! for. The crate has the data that the definitions speak of; each file of `specs/` is headed by the row of the language that it states. The code of the rules
//! stands in the crates above, one function for each definition.
#![tactic(auto)]

mod asked;
mod derived;
mod families;
mod handed;
mod kernel_arguments;
mod laws;
mod naming;
mod signature;
mod slot_laws;

pub use asked::{Asked, AskedCond};
pub use derived::{
    ArrayPlace, Derived, DerivingRefusal, FoundArm, Place, Pointed, Source, UnionPlace, Value,
    Whole, Written,
};
pub use families::Family;
pub use handed::{Handed, Passed};
pub use kernel_arguments::KernelArguments;
pub use laws::{
    a_bound_has_its_value_among_slots, a_bound_has_its_value_in_a_struct,
    a_bound_has_the_value_of_its_annotation,
};
pub use naming::{Change, Names, Naming};
pub use signature::{Returned, Signature};
pub use slot_laws::slots_are_those_listed;
