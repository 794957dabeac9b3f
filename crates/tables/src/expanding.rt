// Expansion: rules that complete rules of a closed set call for are put in.
ghost use Rattle.std.specs.Prelude.{◌≡◌, [], ◌∷◌};
ghost use Rattle.grammar.specs.Lookahead.{leads, expand_for};
ghost use Rattle.grammar.specs.Relating.{related_by};
ghost use Rattle.grammar.specs.Sets.{has};
ghost use Rattle.grammar.specs.States.{items_from};
ghost use Rattle.tables.specs.Kept.{rules_in, relations_in, rows_for, calls_for};

use crate::builds::Build;
use crate::moving::ItemSet;
use book::symbols::FIRST_NONTERMINAL;
use grammar::items::{DotRow, is_complete, left_of, right_of};
use grammar::lookaheads::Lookahead;
use grammar::relations::{RelationSets, related};
use grammar::sets::{SymbolSet, contains};

const SYMBOL_CODES: u8 = 81;

// Whether some nonterminal is a leftmost follower of a and has b as a left corner.
fn leads(sets: &RelationSets, a: u8, b: u8) -> bool
    ensures { result ≡ leads (related_by sets.now []) a b }
{
    (FIRST_NONTERMINAL..SYMBOL_CODES).any(|f| related(&sets.leftmosts, a, f)
        & related(&sets.lefts, f, b))
}

impl<L: Lookahead> Build<'_, L> {
    // Whether a complete rule with this left side and this lookahead calls for rule q.
    fn calls_for(&self, left: u8, ahead: &SymbolSet, q: usize) -> bool
        ensures { result ≡ calls_for (relations_in self.now) left ahead.now q }
    {
        if contains(ahead, right_of(self.related.rules, q)[0]) {
            return false;
        }
        leads(self.related.sets, left, left_of(self.related.rules, q))
    }

    // Puts in the rules that one complete rule with this lookahead calls for.
    fn expand_by(&self, number: usize, ahead: &SymbolSet, items: &mut [DotRow])
        ensures { items.new ≡ expand_for (relations_in self.now) (λ _. has ahead.now) (number ∷ []) items.old }
    {
        let left = left_of(self.related.rules, number);
        // Stays by number, from 1: what is written through `iter_mut().skip(1)` is not known to the proof, and `enumerate` would test each number for the outer rule's.
        for q in 1..items.len() {
            if self.calls_for(left, ahead, q) {
                items[q][0] = true;
            }
        }
    }

    // The items of a state, from its closed kernel.
    pub(crate) fn expanded(&self, closed: &ItemSet) -> ItemSet
        ensures { rows_for (rules_in self.now) result.rows ≡ items_from (L.Lookahead.policy self.now.look.now) (relations_in self.now) (rows_for (rules_in self.now) closed.now.rows) }
    {
        let n = self.related.rules.len() + 1;
        let mut rows = closed.rows;
        // Stays by number: whether a rule is complete and what it looks at are asked by it.
        for number in 1..n {
            if is_complete(self.related.rules, self.rows(closed), number) {
                let ahead = self.look.lookahead(self.related, self.rows(closed), number);
                self.expand_by(number, &ahead, &mut rows[..n]);
            }
        }
        ItemSet { rows }
    }
}
