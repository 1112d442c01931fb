//! What is seen of a statement by its form: its line, and the local that takes its result.
ghost use Rattle.std.specs.Prelude.{◌≡◌};
ghost use Rattle.checked_tree.specs.declared.statements.CheckedStmt.{out-CheckedStmt};
ghost use Rattle.checked_tree.specs.Step as spec;

use checked_tree::{CheckedStmt, Target};

/// The line of a statement.
pub fn line_of(statement: &CheckedStmt) -> u32
    ensures { result ≡ spec.line_of (out-CheckedStmt statement.now) }
{
    match statement {
        CheckedStmt::Empty { line } => *line,
        CheckedStmt::Assign { line, .. } => *line,
        CheckedStmt::AssignAutomatic { line, .. } => *line,
        CheckedStmt::Store { line, .. } => *line,
        CheckedStmt::Zero { line, .. } => *line,
        CheckedStmt::Call { line, .. } => *line,
        CheckedStmt::Kernel { line, .. } => *line,
        CheckedStmt::Return { line, .. } => *line,
        CheckedStmt::If { line, .. } => *line,
        CheckedStmt::While { line, .. } => *line,
    }
}

/// The local that takes the result of a call, if there is one.
pub fn target_of(statement: &CheckedStmt) -> Option<Target>
    ensures { result ≡ spec.target_of (out-CheckedStmt statement.now) }
{
    match statement {
        CheckedStmt::Call { target, .. } => *target,
        CheckedStmt::Kernel { target, .. } => *target,
        _ => None,
    }
}
