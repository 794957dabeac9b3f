// The translator card: a book of rules, and the tables by which it reads.
#![tactic(auto)]

pub mod card;
pub mod refusals;
