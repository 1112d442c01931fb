//! The rules of values: what the names of annotations, members, places and integers come to, and how a check is asked for.
#![tactic(auto)]

mod asking;
mod context;
mod copies;
mod forms;
mod ids;
mod integers;
mod members;
mod names;
mod sums;
mod values;

pub use asking::ask;
pub use context::Context;
pub use copies::boxed_copy;
pub use forms::{
    address_form, binary_form, block_form, compare_form, element_form, field_form, load_form,
    logical_form, moved_form, null_form, through_form, unary_form,
};
pub use ids::{Ids, joined, one, with_id};
pub use integers::{cast, character, computed, minus, not_of, number, on_integer, size_constant};
pub use members::dotted;
pub use names::{high_sum, low_sum, name_sum, of_slots};
pub use sums::{
    atom_part, beyond, constant, constant_of, constant_part, is_written, side, sum_of, times,
    with_part,
};
pub use values::{container, integer_of, is_nullterm, pointer_of, value_of};
