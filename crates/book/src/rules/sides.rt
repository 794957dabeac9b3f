// Making a rule, and its two sides.
ghost use Rattle.std.specs.Prelude.{◌≡◌, length};
ghost use Rattle.book.specs.Answers.{said_of};
ghost use Rattle.book.specs.Held.{production_of};
ghost use Rattle.book.specs.Refusals.{enter_refusal};
ghost use Rattle.book.specs.Rules.{rule_says, ◌⟶◌};

use super::{EnterError, LONGEST_RIGHT, Rule};
use crate::symbols::{FIRST_NONTERMINAL, is_nonterminal, is_symbol};

impl Rule {
    // The rule with these sides, if they keep the bounds.
    pub fn new(left: u8, right: &[u8]) -> Result<Rule, EnterError>
        ensures { said_of production_of enter_refusal result ≡ rule_says (left ⟶ right.now) }
    {
        if !is_nonterminal(left) {
            return Err(EnterError::Left);
        }
        let len = right.len();
        if !(1..=LONGEST_RIGHT).contains(&len) {
            return Err(EnterError::Length);
        }
        if let Some(i) = right.iter().position(|code| !is_symbol(*code)) {
            return Err(EnterError::Code(i));
        }
        let mut codes = [0; LONGEST_RIGHT];
        codes[..len].copy_from_slice(right);
        Ok(Rule {
            left,
            len: len as u8,
            right: codes,
        })
    }

    // What lies in the places of a book that hold no rule.
    pub(crate) fn filler() -> Rule {
        Rule {
            left: FIRST_NONTERMINAL,
            len: 1,
            right: [1, 0, 0, 0, 0, 0],
        }
    }

    pub fn left(&self) -> u8
        ensures { result ≡ (production_of self.now).lhs }
    {
        self.left
    }

    pub fn right(&self) -> &[u8]
        ensures value { result.now ≡ (production_of self.now).rhs }
        ensures len { length result.now ≡ self.now.len }
    {
        let n = self.len as usize;
        &self.right[..n]
    }
}
