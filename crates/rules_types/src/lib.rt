//! The types of the language as the rules ask for them: integer types and their conversions, and when two types are one.
#![tactic(auto)]

mod integer_types;
mod same_types;
mod value_shapes;

pub use integer_types::{common, integer_type, is_plain, is_unsigned, promoted, suffix_scalar};
pub use same_types::{same_element, same_truth};
pub use value_shapes::value_shape;
