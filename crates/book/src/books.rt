// The book: rules in order of entry, numbered from 1, no two equal.
ghost use Rattle.std.specs.Prelude.{◌≡◌, ◌<◌, min, true, [], ◌∷◌, ◌++◌, length, take, OnErr};
ghost use Rattle.book.specs.Answers.{said};
ghost use Rattle.book.specs.Held.{production_of, productions_of, rules_of};
ghost use Rattle.book.specs.Refusals.{enter_refusal, strike_refusal};
ghost use Rattle.book.specs.Symbols.{most_rules};
ghost use Rattle.book.specs.Rules.{◌⟶◌, enter_says, entered, strike_says, struck, is_well_formed, Keeps, TestIsExact};

use crate::rules::{EnterError, Rule};
use std::error::Error;
use std::fmt;

// How many rules a book has at the most.
pub const MOST_RULES: usize = 100;

// How many of the book's places hold a rule.
#[derive(Clone, Copy)]
pub struct Counts {
    rules: usize,
}

// Stays an array with a count beside it: memory is fixed, and a later guard is to hold the count alone.
#[derive(Drop)]
pub struct Book {
    rules: [Rule; MOST_RULES],
    count: Counts,
}

#[derive(Clone, Copy, PartialEq, Debug)]
pub enum StrikeError {
    Missing,
}

// The number of the refusal.
impl From<StrikeError> for u8 {
    ghost use Rattle.std.specs.Prelude.{◌≡◌};
    ghost use Rattle.book.specs.Refusals.{strike_refusal, number_of};

    ghost from_gives = { λ error number. number ≡ number_of (strike_refusal error) };

    fn from(error: StrikeError) -> u8 {
        match error {
            StrikeError::Missing => 6,
        }
    }
}

impl fmt::Display for StrikeError {
    ghost use Rattle.std.specs.Prelude.{Some};
    ghost use Rattle.book.specs.Refusals.{strike_refusal};
    ghost use Rattle.book.specs.Texts.{refusal_text};

    ghost output = { λ e. Some (refusal_text (strike_refusal e)) };

    fn fmt<W: fmt::Write>(&self, f: &mut fmt::Formatter<W>) -> fmt::Result {
        match self {
            StrikeError::Missing => f.write_str("6, there is no rule of that number"),
        }
    }
}

impl Error for StrikeError {}

impl Book {
    // A book with no rules.
    pub fn new() -> Book
        ensures rules { rules_of result ≡ [] }
        ensures sound { is_well_formed (rules_of result) ≡ true }
        ensures exact { TestIsExact }
    {
        Book {
            rules: [Rule::filler(); MOST_RULES],
            count: Counts { rules: 0 },
        }
    }

    // The rules, in order of entry.
    pub fn rules(&self) -> &[Rule]
        ensures value { productions_of result.now ≡ rules_of self.now }
        ensures len { length result.now ≡ length (rules_of self.now) }
        ensures few { length result.now ≡ min self.now.count.rules most_rules }
        ensures list { result.now ≡ take self.now.count.rules self.now.rules }
    {
        let n = self.count.rules.min(MOST_RULES);
        &self.rules[..n]
    }

    // Adds a rule at the end.
    fn push(&mut self, rule: Rule)
        requires { self.old.count.rules < most_rules }
        ensures { rules_of self.new ≡ rules_of self.old ++ production_of rule ∷ [] }
    {
        let n = self.count.rules;
        self.rules[n] = rule;
        self.count.rules = n + 1;
    }

    // Adds the rule with these sides at the end.
    pub fn enter(&mut self, left: u8, right: &[u8]) -> Result<(), EnterError>
        ensures answer { said enter_refusal result ≡ enter_says (rules_of self.old) (left ⟶ right.now) }
        ensures rules { rules_of self.new ≡ entered (rules_of self.old) (left ⟶ right.now) }
        ensures kept { Keeps (rules_of self.old) (rules_of self.new) }
        ensures same { OnErr result (self.new ≡ self.old) }
    {
        if self.rules().len() >= MOST_RULES {
            return Err(EnterError::Full);
        }
        let rule = Rule::new(left, right)?;
        if self.rules().contains(&rule) {
            return Err(EnterError::Duplicate);
        }
        self.push(rule);
        Ok(())
    }

    // Takes out the rule of this number; later rules move down one number.
    pub fn strike(&mut self, number: usize) -> Result<(), StrikeError>
        ensures answer { said strike_refusal result ≡ strike_says (rules_of self.old) number }
        ensures rules { rules_of self.new ≡ struck (rules_of self.old) number }
        ensures kept { Keeps (rules_of self.old) (rules_of self.new) }
        ensures same { OnErr result (self.new ≡ self.old) }
    {
        let n = self.rules().len();
        if !(1..=n).contains(&number) {
            return Err(StrikeError::Missing);
        }
        self.rules[number - 1..n].rotate_left(1);
        self.count.rules = n - 1;
        Ok(())
    }
}
