// Item sets, as a row of dots for each numbered rule, the outer rule's first.
ghost use Rattle.std.specs.Prelude.{◌≡◌, MatchOption};
ghost use Rattle.book.specs.Held.{production_of, productions_of};
ghost use Rattle.grammar.specs.Items.{read_row, reads, is_complete};
ghost use Rattle.grammar.specs.Numbered.{outer, numbered, line_at};

use crate::sets::{SYMBOLS, SymbolSet, flag_at, insert};
use book::rules::Rule;
use book::symbols::FIRST_NONTERMINAL;

// How many places a dot can have.
pub const DOTS: usize = 7;

pub type DotRow = [bool; DOTS];

// The book's rule of a number from 1 up. The outer rule stands for all others.
fn rule_at(rules: &[Rule], number: usize) -> Option<&Rule>
    ensures { let line = line_at (numbered (productions_of rules.now)) number in MatchOption result (line ≡ outer) (λ r. line ≡ production_of r.now) }
{
    rules.get(number.checked_sub(1)?)
}

// The left side of a numbered rule; that of the outer rule is the end mark.
pub fn left_of(rules: &[Rule], number: usize) -> u8
    ensures { result ≡ (line_at (numbered (productions_of rules.now)) number).lhs }
{
    rule_at(rules, number).map_or(0, |rule| rule.left())
}

// The right side of a numbered rule; that of the outer rule is the start symbol alone.
pub fn right_of(rules: &[Rule], number: usize) -> &[u8]
    ensures { result.now ≡ (line_at (numbered (productions_of rules.now)) number).rhs }
{
    match rule_at(rules, number) {
        Some(rule) => rule.right(),
        None => &[FIRST_NONTERMINAL],
    }
}

// Puts the symbols behind the dots of one rule in.
fn read_row(set: &mut SymbolSet, right: &[u8], row: &DotRow)
    ensures { set.new ≡ read_row set.old right.now row.now }
{
    for (symbol, has_dot) in right.iter().zip(row) {
        if *has_dot {
            insert(set, *symbol);
        }
    }
}

// The symbols behind dots.
pub fn reads(rules: &[Rule], items: &[DotRow]) -> SymbolSet
    ensures { result ≡ reads (numbered (productions_of rules.now)) items.now }
{
    let mut set = [false; SYMBOLS];
    for (number, row) in items.iter().enumerate() {
        if number > rules.len() {
            break;
        }
        read_row(&mut set, right_of(rules, number), row);
    }
    set
}

// Whether a rule is in with its dot at the end.
pub fn is_complete(rules: &[Rule], items: &[DotRow], number: usize) -> bool
    ensures { result ≡ is_complete (numbered (productions_of rules.now)) items.now number }
{
    let end = right_of(rules, number).len();
    items.get(number).is_some_and(|row| flag_at(row, end))
}
