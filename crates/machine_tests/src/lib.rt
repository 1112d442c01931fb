//! Tests of what runs checked drivers, by public calls: linear forms, the operators of C99 on numbers, the memory of a driver, the table of kernel calls.
//!
//! What contracts say of every input is not said again of one. Here are values worked by hand after C99 and the written rules, faults in turn, and calls that
//! succeed.
#![tactic(auto)]

#[cfg(test)]
mod forms;
#[cfg(test)]
mod kernel_calls;
#[cfg(test)]
mod memory;
#[cfg(test)]
mod numbers;
#[cfg(test)]
mod runs;
