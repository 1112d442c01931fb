//! The checked forms of a driver: expressions and statements with slots for names, offsets for fields and the numbers of their run-time
//! checks, the shapes of memory, and the checks themselves.
//!
//! The crate has types and definitions. `specs` gives the forms their meaning: evaluation, the step of a frame, which checks are
//! redundant, and what is known at a node.
#![tactic(auto)]

mod bare_forms;
mod checks;
mod codes;
mod copies;
mod expressions;
mod kernel;
mod kernel_table;
mod laws;
mod numbers;
mod shapes;
mod statements;
mod stops;
mod sums;
mod units;

pub use bare_forms::bare;
pub use checks::{Check, Cond};
pub use codes::code;
pub use copies::{copied, copied_part, copied_sum};
pub use expressions::{Arithmetic, CheckedExpr, Comparison, Logic, PointerSum, Unary};
pub use kernel::{Answer, KernelCall, KernelName};
pub use kernel_table::{
    Callers, KERNEL_CALLS, KernelResult, KernelRow, ParameterKind, is_by_name, kernel_named,
    kernel_row,
};
pub use laws::{
    light_sums_have_values, redundant_checks_hold, values_have_32_bits,
    what_is_known_moves_with_control, what_is_known_survives_a_call,
    what_is_told_is_the_evaluation,
};
pub use numbers::{converted, has_all, low_bits};
pub use shapes::{Bounds, Edge, Member, Scalar, Shape, StructShape, UnionShape};
pub use statements::{Argument, CheckedStmt, PointerOperand, Target};
pub use stops::Stop;
pub use sums::{Part, Sum};
pub use units::{CheckedFn, CheckedUnit, ImageBlock};
