//! Tests of the crates from the small types to the tracked tables, over their public calls alone.
//!
//! What the contracts say of every input is not said again here. Each test is a table of calls with what the written rules give
//! for them, and one function that goes over its lines.
#![tactic(auto)]

#[cfg(test)]
mod answers;
#[cfg(test)]
mod caps;
#[cfg(test)]
mod devices;
#[cfg(test)]
mod histories;
#[cfg(test)]
mod readings;
#[cfg(test)]
mod tables;
#[cfg(test)]
mod tracking;
#[cfg(test)]
mod undoing;
#[cfg(test)]
mod updates;
#[cfg(test)]
mod words;
