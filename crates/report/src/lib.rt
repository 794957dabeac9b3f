// Reports: the texts of answers, written into a lent buffer, byte for byte.
#![tactic(auto)]

mod lines;
pub mod reports;
mod steps;
#[cfg(test)]
mod tests;
mod writers;
