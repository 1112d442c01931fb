//! Tests of the top call: worked runs, words, texts, scenarios, and faults in turn.
#![tactic(auto)]

#[cfg(test)]
mod tests;
