// The states of a book, and its action tables.
#![tactic(auto)]

pub mod actions;
pub mod building;
mod builds;
pub mod closing;
pub mod encoding;
pub mod expanding;
pub mod kernels;
pub mod moving;
pub mod states;
#[cfg(test)]
mod tests;
