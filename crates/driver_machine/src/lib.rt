//! The machine that runs checked functions. What an expression, a check and a statement come to is what the definitions of checked_tree say, over a
//! tested memory: an access that no granted range contains answers `Wild`.
#![tactic(auto)]

mod actions;
mod arguments;
mod busy;
mod checks;
mod evaluation;
mod frame;
mod machine;
mod memory;
mod numbers;
mod operands;
mod parameters;
mod places;
mod position;
mod results;
mod state;
mod statements;
mod step_out;
mod sums;
mod task;
mod turn;
mod unchecked;

pub use actions::{act, set_pointer};
pub use arguments::collect;
pub use busy::Busy;
pub use checks::test_all;
pub use evaluation::eval;
pub use frame::Frame;
pub use machine::Machine;
pub use memory::{clear, is_clear, load, store};
pub use numbers::{arithmetic, comparison, unary};
pub use operands::{argument, bounded, operand, optional_argument, optional_operand, taken};
pub use parameters::converted_arguments;
pub use position::{Path, Place, Position};
pub use results::{take_answer, take_result};
pub use state::State;
pub use statements::{line_of, target_of};
pub use step_out::StepOut;
pub use sums::sum_value;
pub use turn::Turn;
pub use unchecked::peek;
