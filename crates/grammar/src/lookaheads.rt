// Lookahead policies: for a complete rule of a closed item set, the symbols on which it may be reduced by.
ghost use Rattle.std.specs.Prelude.{◌≡◌, map};
ghost use Rattle.grammar.specs.Laws.{Lawful};
ghost use Rattle.grammar.specs.Lookahead.{Policy, slr, leftmost_follow, lookahead_of, meets, slr_conflicting, slr_if_adequate};
ghost use Rattle.grammar.specs.Relating.{related_in};
ghost use Rattle.grammar.specs.Sets.{codes};
ghost use Rattle.grammar.specs.Policies.{slr_lawful, leftmost_follow_lawful, slr_if_adequate_lawful};

use crate::items::{DotRow, is_complete, left_of, reads};
use crate::relations::{RelatedRules, set_of, unite};
use crate::sets::{SymbolSet, only};

pub trait Lookahead {
    // What the policy answers, and its law: every leftmost follower of the rule's left side gets yes.
    ghost policy: { Self → Policy };

    // The lookahead of the complete rule of this number, from 1 up, in a closed set: the symbols to which the policy says yes.
    fn lookahead(&self, related: &RelatedRules, closed: &[DotRow], number: usize) -> SymbolSet
        ensures { result ≡ map (policy self.now (related_in related.now) closed.now number) codes };

    ghost lawful: { (x : Self) → Lawful (policy x) };
}

// The lookahead of a complete rule. That of the outer rule is the end mark alone, and no policy decides it.
pub fn lookahead_of<L: Lookahead>(
    look: &L,
    related: &RelatedRules,
    closed: &[DotRow],
    number: usize,
) -> SymbolSet
    ensures { result ≡ lookahead_of (L.Lookahead.policy look.now (related_in related.now) closed.now) number }
{
    if number == 0 {
        return only(0);
    }
    look.lookahead(related, closed, number)
}

// SLR: the followers of the rule's left side.
#[derive(Clone, Copy)]
pub struct Slr;

impl Lookahead for Slr {
    ghost policy = { λ _. slr };

    ghost lawful = { λ x. slr_lawful };

    fn lookahead(&self, related: &RelatedRules, closed: &[DotRow], number: usize) -> SymbolSet {
        set_of(&related.sets.followers, left_of(related.rules, number))
    }
}

// The leftmost followers of the rule's left side.
// Stays a type beside `Slr`: each is one line over a table of its own, and the laws name both.
#[derive(Clone, Copy)]
pub struct LeftmostFollow;

impl Lookahead for LeftmostFollow {
    ghost policy = { λ _. leftmost_follow };

    ghost lawful = { λ x. leftmost_follow_lawful };

    fn lookahead(&self, related: &RelatedRules, closed: &[DotRow], number: usize) -> SymbolSet {
        set_of(&related.sets.leftmosts, left_of(related.rules, number))
    }
}

// Whether two sets have a symbol in common.
fn meet(one: &SymbolSet, other: &SymbolSet) -> bool
    ensures { result ≡ meets one.now other.now }
{
    one.iter().zip(other).any(|(a, b)| *a && *b)
}

// Whether SLR lookaheads give a closed set a conflict among its own reads and lookaheads.
fn is_conflicting(related: &RelatedRules, closed: &[DotRow]) -> bool
    ensures { result ≡ slr_conflicting (related_in related.now) closed.now }
{
    let mut seen = reads(related.rules, closed);
    // Stays a range: from the outer rule's 0 on, the number is what is asked about.
    for number in 0..=related.rules.len() {
        if is_complete(related.rules, closed, number) {
            let lookahead = lookahead_of(&Slr, related, closed, number);
            if meet(&seen, &lookahead) {
                return true;
            }
            unite(&mut seen, &lookahead);
        }
    }
    false
}

// SLR where that is adequate; elsewhere the policy below.
#[derive(Clone, Copy)]
pub struct SlrIfAdequate<L> {
    pub below: L,
}

impl<L: Lookahead> Lookahead for SlrIfAdequate<L> {
    ghost policy = { λ e. slr_if_adequate (L.Lookahead.policy e.below) };

    ghost lawful = { λ x. slr_if_adequate_lawful (L.Lookahead.policy x.below) (L.Lookahead.lawful x.below) };

    fn lookahead(&self, related: &RelatedRules, closed: &[DotRow], number: usize) -> SymbolSet {
        if is_conflicting(related, closed) {
            return self.below.lookahead(related, closed, number);
        }
        Slr.lookahead(related, closed, number)
    }
}

pub type Lslr = SlrIfAdequate<LeftmostFollow>;

pub const LSLR: Lslr = SlrIfAdequate {
    below: LeftmostFollow,
};
