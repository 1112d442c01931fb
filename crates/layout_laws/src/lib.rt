//! What the table of a text's types says, as laws over every text whose declarations stand: its structs, what zero bytes hold, its load image, its look-ups
//! and its limits. Each law is a function without code, whose contract is the law.
#![tactic(auto)]

mod limits;
mod load_image;
mod lookups;
mod struct_laws;
mod structs;

pub use limits::a_table_keeps_the_limits;
pub use load_image::{each_block_fits_at_first, each_global_and_string_has_its_block};
pub use lookups::{
    a_global_is_found_by_its_name, a_member_is_found_by_its_name, a_string_is_found_by_its_place,
    a_struct_is_found_by_its_name,
};
pub use struct_laws::{
    a_struct_is_laid_out, a_struct_keeps_its_extent, structs_are_nested, zero_bytes_fit,
};
pub use structs::{
    each_element_has_the_bytes_of_its_shape, each_member_has_its_type, structs_are_those_declared,
    structs_lie_within_one_another, zero_is_valid,
};
