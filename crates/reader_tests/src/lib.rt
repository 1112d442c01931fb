//! Tests of the readers of driver texts, by public calls: words, expressions, items; and of the generator's texts.
//!
//! What contracts say of every text is not said again of one. Here are texts whose words and trees were worked by hand, and calls that succeed.
#![tactic(auto)]

#[cfg(test)]
mod driver;
#[cfg(test)]
mod expressions;
#[cfg(test)]
mod generated;
#[cfg(test)]
mod items;
#[cfg(test)]
mod printed;
#[cfg(test)]
mod texts;
#[cfg(test)]
mod words;
