//! The words of the C profile: a text divided into gaps and longest words, or where that fails.
#![tactic(auto)]

mod bytes;
mod counts;
mod gaps;
mod lexemes;
mod names;
mod numbers;
mod quotes;
mod refusal;
mod reserved;
mod signs;
mod tokenizer;
mod words;

pub use refusal::WordRefusal;
pub use tokenizer::{one_division, some_end, tokens};
