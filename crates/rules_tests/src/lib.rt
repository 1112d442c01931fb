//! Tests of the rules by public calls: texts with what becomes of each, from `deputy_types` to `driver_front`.
#![tactic(auto)]

#[cfg(test)]
mod tests;
