//! Tests of the public calls around a run: what is read from outside and written to it, scenarios, and printed lines.
#![tactic(auto)]

#[cfg(test)]
mod outside;
#[cfg(test)]
mod printed;
#[cfg(test)]
mod reports;
#[cfg(test)]
mod scenarios;
