//! What a command line asks for, and why it asks for nothing.

/// What the words of a command line ask for. No file is named twice.
#[derive(Drop)]
pub enum Command {
    /// Run drivers under a scenario.
    Run {
        /// The name of the scenario's text.
        scenario: String,
        /// The names of one to four drivers' texts, the first of them `d1`.
        drivers: Vec<String>,
        /// The most steps of the run, at most 10,000,000.
        steps: u32,
    },
    /// Say which drivers' texts are accepted.
    Check {
        /// The names of one to four drivers' texts.
        files: Vec<String>,
    },
}

/// Why the words gave no command.
#[derive(Clone, Copy, PartialEq, Eq, Debug)]
pub enum WordsFault {
    /// The words are no command.
    NoCommand,
    /// Memory was wanting.
    Memory,
}
