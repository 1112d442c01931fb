//! A driver that the rules derive, and what holds of every such driver.
#![tactic(auto)]

mod driver;
mod laws;

pub use driver::SafeDriver;
pub use laws::{each_function_is_runnable, functions_are_few};
