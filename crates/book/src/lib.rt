// The rule book of a translator card: rules, the book that holds them, its file.
#![tactic(auto)]

pub mod books;
pub mod files;
pub mod rules;
pub mod symbols;
#[cfg(test)]
mod tests;
