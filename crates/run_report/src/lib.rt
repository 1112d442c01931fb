//! Every line that SafeDrive prints: what a line tells as a type, its bytes, and the report that gathers lines and writes them to a sink.
#![tactic(auto)]

mod functions;
mod item;
mod laws;
mod lines;
mod page;
mod report;
mod rows;
mod tables;
mod undone;
mod words;

pub use functions::Functions;
pub use item::{Excerpt, Item, Obstacle, Operands, Order, UndoneItem};
pub use laws::all_rows_are_told;
pub use report::Report;
