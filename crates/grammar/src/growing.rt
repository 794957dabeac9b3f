// Growing a set of symbols by rules until no rule adds to it.
ghost use Rattle.std.specs.Prelude.{◌≡◌, false};
ghost use Rattle.book.specs.Held.{production_of, productions_of};
ghost use Rattle.book.specs.Rules.{Production};
ghost use Rattle.grammar.specs.Sets.{Flags, through, saturate};

use crate::sets::{SYMBOLS, SymbolSet};
use book::rules::Rule;

// A way in which a rule adds symbols to a set, by what the set holds.
pub trait Growth {
    ghost grown: { Self → Flags → Production → Flags };

    // Answers whether the set changed.
    fn grow(&self, set: &mut SymbolSet, rule: &Rule) -> bool
        ensures after { set.new ≡ grown self.now set.old (production_of rule.now) }
        ensures still { result ≡ false → set.new ≡ set.old };
}

// The rules in turn, each by what the set then holds. Answers whether the set changed.
fn round<G: Growth>(growth: &G, rules: &[Rule], set: &mut SymbolSet) -> bool
    ensures after { set.new ≡ through (G.Growth.grown growth.now) (productions_of rules.now) set.old }
    ensures still { result ≡ false → set.new ≡ set.old }
{
    let mut changed = false;
    for rule in rules {
        changed |= growth.grow(set, rule);
    }
    changed
}

// Stays beside the rounds that close an item set: one function for both would take the set, the step and two laws to save a loop of four lines.
// Rounds until nothing changes: each but the last adds a symbol, so that as many as there are symbols are enough.
pub fn saturate<G: Growth>(growth: &G, rules: &[Rule], set: &mut SymbolSet)
    ensures { set.new ≡ saturate (G.Growth.grown growth.now) (productions_of rules.now) set.old }
{
    for _ in 0..SYMBOLS {
        if !round(growth, rules, set) {
            return;
        }
    }
}
