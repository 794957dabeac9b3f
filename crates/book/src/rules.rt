// A rule: a nonterminal on its left, one to six symbols on its right. No other rule can exist.
ghost use Rattle.std.specs.Prelude.{◌≡◌, ◌-◌, ◌≤◌, true, length, replicate, take, drop};
ghost use Rattle.book.specs.Rules.{is_bounded, ◌⟶◌};
ghost use Rattle.book.specs.Symbols.{longest_right};

use std::error::Error;
use std::fmt;

mod sides;

// How many symbols a right side has at the most.
pub const LONGEST_RIGHT: usize = 6;

// The places past the right side are 0, so that equal fields are equal sides.
// Stays an array with a length: a rule has fixed memory.
#[derive(Clone, Copy, PartialEq, Eq, Debug)]
pub struct Rule {
    left: u8,
    len: u8,
    right: [u8; LONGEST_RIGHT],
    ghost short: { len ≤ longest_right },
    ghost bounded: { is_bounded (left ⟶ take len right) ≡ true },
    ghost whole: { length right ≡ longest_right },
    ghost padded: { drop len right ≡ replicate (longest_right - len) 0 },
}

#[derive(Clone, Copy, PartialEq, Debug)]
pub enum EnterError {
    Full,
    Left,
    Length,
    Code(usize),
    Duplicate,
}

// The number of the refusal.
impl From<EnterError> for u8 {
    ghost use Rattle.std.specs.Prelude.{◌≡◌};
    ghost use Rattle.book.specs.Refusals.{enter_refusal, number_of};

    ghost from_gives = { λ error number. number ≡ number_of (enter_refusal error) };

    fn from(error: EnterError) -> u8 {
        match error {
            EnterError::Full => 1,
            EnterError::Left => 2,
            EnterError::Length => 3,
            EnterError::Code(_) => 4,
            EnterError::Duplicate => 5,
        }
    }
}

impl fmt::Display for EnterError {
    ghost use Rattle.std.specs.Prelude.{Some};
    ghost use Rattle.book.specs.Refusals.{enter_refusal};
    ghost use Rattle.book.specs.Texts.{refusal_text};

    ghost output = { λ e. Some (refusal_text (enter_refusal e)) };

    fn fmt<W: fmt::Write>(&self, f: &mut fmt::Formatter<W>) -> fmt::Result {
        match self {
            EnterError::Full => f.write_str("1, the book is full"),
            EnterError::Left => f.write_str("2, the left code is no nonterminal"),
            EnterError::Length => f.write_str("3, the right side has no symbol or more than 6"),
            EnterError::Code(i) => write!(f, "4, right code at index {i} is no symbol"),
            EnterError::Duplicate => f.write_str("5, an equal rule is in the book"),
        }
    }
}

impl Error for EnterError {}
