//! Tests of the kernel calls, over their public call alone.
//!
//! What the contract says of every call is not said again here. Each test is a table of calls with what the written rules give for them, and
//! one function that goes over its lines.
#![tactic(auto)]

#[cfg(test)]
mod calls;
#[cfg(test)]
mod history;
#[cfg(test)]
mod table;
