//! Why a scenario is not read.

/// A limit that a scenario passes.
#[derive(Clone, Copy, Debug, PartialEq, Eq)]
pub enum ScenarioLimit {
    /// More than 65,536 lines, blank ones included.
    Lines,
    /// More than 262,144 values on the `answer` lines.
    Answers,
}

/// Why a scenario is not read. Lines are counted from 1.
#[derive(Clone, Copy, Debug, PartialEq, Eq)]
pub enum ScenarioRefusal {
    /// The first line that is refused has no reading.
    NoLine(u32),
    /// With the first line that is refused a limit is passed.
    Limit(u32, ScenarioLimit),
    /// Want of memory.
    Memory,
}
