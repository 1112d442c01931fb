//! The table of a driver text's types, made: `layouts` reads the declarations of a text in turn, lays out its structs and makes its load image, or answers the
//! first refusal. What a table is, and what is looked up in it, is deputy_types.
#![tactic(auto)]

mod arms;
mod elem_shapes;
mod fields;
mod found;
mod found_forms;
mod found_types;
mod load_image;
mod member_types;
mod struct_layout;
mod struct_siblings;
mod unions;
mod unit_globals;
mod unit_items;
mod unit_layout;

pub use arms::const_value;
pub use fields::element_count;
pub use unit_layout::layouts;
