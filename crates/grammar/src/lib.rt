// The construction: relations of a book, useful symbols, lookahead policies.
#![tactic(auto)]

pub mod growing;
pub mod items;
pub mod laws;
pub mod lookaheads;
pub mod relations;
pub mod sets;
#[cfg(test)]
mod tests;
pub mod useful;
