//! The rules of heads and declarations: which functions, parameters and locals of a driver text stand, what calls see of a function, and its slots and result.
#![tactic(auto)]

mod agreement;
mod declared;
mod first_heads;
mod functions;
mod head_parameters;
mod heads;
mod results;
mod shape_copies;
mod texts;

pub use declared::{Shapes, parameter_shapes, result_of, slot_shapes};
pub use functions::Functions;
pub use head_parameters::wrong_in_head;
pub use heads::{function_stands, head_stands, wrong_declaration};
pub use results::{result_scalar, shapes_of};
pub use texts::SeenText;
