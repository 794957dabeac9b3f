// Useful symbols: those that are reached from the start symbol through rules and yield a line of terminals.
ghost use Rattle.std.specs.Prelude.{◌≡◌, false};
ghost use Rattle.book.specs.Held.{productions_of};
ghost use Rattle.grammar.specs.Laws.{LowestUseless};
ghost use Rattle.grammar.specs.Sets.{has, codes, every};
ghost use Rattle.grammar.specs.Useful.{insert_all, reach_step, yield_step, reached_in, yielding_in, occurring_in, terminals, lowest, is_useless, useless_in};

use crate::growing::{Growth, saturate};
use crate::sets::{SYMBOLS, SymbolSet, contains, insert, only};
use book::rules::Rule;
use book::symbols::{FIRST_NONTERMINAL, is_terminal};
use std::array;

// Puts all of these symbols in. Answers whether the set changed.
fn insert_all(set: &mut SymbolSet, symbols: &[u8]) -> bool
    ensures after { set.new ≡ insert_all set.old symbols.now }
    ensures still { result ≡ false → set.new ≡ set.old }
{
    let mut changed = false;
    for symbol in symbols {
        changed |= insert(set, *symbol);
    }
    changed
}

// Whether all of these symbols are in.
fn contains_all(set: &SymbolSet, symbols: &[u8]) -> bool
    ensures { result ≡ every (has set.now) symbols.now }
{
    symbols.iter().all(|symbol| contains(set, *symbol))
}

// A rule for a reached symbol reaches all of its right side.
struct Reach;

impl Growth for Reach {
    ghost grown = { λ _. reach_step };

    fn grow(&self, set: &mut SymbolSet, rule: &Rule) -> bool {
        if !contains(set, rule.left()) {
            return false;
        }
        insert_all(set, rule.right())
    }
}

// A rule of which all right symbols yield makes its left side yield.
struct Yield;

impl Growth for Yield {
    ghost grown = { λ _. yield_step };

    fn grow(&self, set: &mut SymbolSet, rule: &Rule) -> bool {
        if !contains_all(set, rule.right()) {
            return false;
        }
        insert(set, rule.left())
    }
}

fn terminals() -> SymbolSet
    ensures { result ≡ terminals }
{
    array::from_fn(|x| is_terminal(x as u8))
}

fn reached(rules: &[Rule]) -> SymbolSet
    ensures { result ≡ reached_in (productions_of rules.now) }
{
    let mut set = only(FIRST_NONTERMINAL);
    saturate(&Reach, rules, &mut set);
    set
}

fn yielding(rules: &[Rule]) -> SymbolSet
    ensures { result ≡ yielding_in (productions_of rules.now) }
{
    let mut set = terminals();
    saturate(&Yield, rules, &mut set);
    set
}

// The start symbol and every code that stands in the book.
fn occurring(rules: &[Rule]) -> SymbolSet
    ensures { result ≡ occurring_in (productions_of rules.now) }
{
    let mut set = only(FIRST_NONTERMINAL);
    for rule in rules {
        insert(&mut set, rule.left());
        insert_all(&mut set, rule.right());
    }
    set
}

// The lowest code of the first set that is not in both others.
fn lowest_useless(occurring: &SymbolSet, reached: &SymbolSet, yielding: &SymbolSet) -> Option<u8>
    ensures { result ≡ lowest (is_useless occurring.now reached.now yielding.now) codes }
{
    (0..SYMBOLS as u8).find(|x| {
        contains(occurring, *x) && !(contains(reached, *x) && contains(yielding, *x))
    })
}

// The lowest code that occurs and is not useful.
pub fn useless(rules: &[Rule]) -> Option<u8>
    ensures equal { result ≡ useless_in (productions_of rules.now) }
    ensures tell { LowestUseless (productions_of rules.now) result }
{
    lowest_useless(&occurring(rules), &reached(rules), &yielding(rules))
}
