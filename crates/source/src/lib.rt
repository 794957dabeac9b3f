// What a read takes its words from: texts, tapes, and a layer that skips a code of any source below it.
#![tactic(auto)]

pub mod drains;
pub mod faults;
pub mod lends;
pub mod skips;
pub mod sources;
pub mod tapes;
#[cfg(test)]
mod tests;
pub mod texts;
