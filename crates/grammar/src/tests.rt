// Small books: corners, followers, useless codes, reads, and lookaheads under each policy.
ghost use Rattle.grammar.specs.Lookahead.{slr};
ghost use Rattle.grammar.specs.Policies.{slr_lawful};

use crate::items::{DOTS, DotRow, is_complete, left_of, reads, right_of};
use crate::lookaheads::{LSLR, LeftmostFollow, Lookahead, Slr, lookahead_of};
use crate::relations::{End, RelatedRules, RelationSets, corners, related};
use crate::sets::{SYMBOLS, SymbolSet, contains, insert};
use crate::useful::useless;
use book::books::Book;
use std::process::Abort;
use std::test::Fail;

// Two lists of ones, told apart by the word behind them.
fn two_lists() -> Result<Book, Fail> {
    let mut book = Book::new();
    book.enter(41, &[42, 2])?;
    book.enter(41, &[43, 3])?;
    book.enter(42, &[42, 44])?;
    book.enter(42, &[44])?;
    book.enter(43, &[43, 45])?;
    book.enter(43, &[45])?;
    book.enter(44, &[1])?;
    book.enter(45, &[1])?;
    Ok(book)
}

// The set has these codes and no others.
fn has_just(rt: &impl Abort, set: &SymbolSet, codes: &[u8]) {
    let mut wanted = [false; SYMBOLS];
    for code in codes {
        insert(&mut wanted, *code);
    }
    assert_eq!(rt; *set, wanted);
}

#[test]
fn sets_at_their_edge(rt: HostRuntime) {
    let mut set = [false; SYMBOLS];
    assert!(rt; insert(&mut set, 80));
    assert!(rt; !insert(&mut set, 80));
    assert!(rt; !insert(&mut set, 81));
    assert!(rt; contains(&set, 80));
    assert!(rt; !contains(&set, 81));
}

#[test]
fn corners_of_two_lists(rt: HostRuntime) -> Result<(), Fail> {
    let book = two_lists()?;
    let lefts = corners(book.rules(), End::First);
    has_just(&rt, &lefts[41], &[41, 42, 43, 44, 45, 1]);
    has_just(&rt, &lefts[42], &[42, 44, 1]);
    has_just(&rt, &lefts[7], &[7]);
    let rights = corners(book.rules(), End::Last);
    has_just(&rt, &rights[41], &[41, 2, 3]);
    assert!(rt; related(&rights, 42, 1));
    assert!(rt; !related(&rights, 81, 81));
    Ok(())
}

#[test]
fn followers_of_two_lists(rt: HostRuntime) -> Result<(), Fail> {
    let book = two_lists()?;
    let sets = RelationSets::of(book.rules());
    has_just(&rt, &sets.leftmosts[41], &[0]);
    has_just(&rt, &sets.leftmosts[44], &[2, 44]);
    has_just(&rt, &sets.followers[44], &[2, 44, 1]);
    has_just(&rt, &sets.followers[45], &[3, 45, 1]);
    Ok(())
}

#[test]
fn useless_codes(rt: HostRuntime) -> Result<(), Fail> {
    let mut book = Book::new();
    assert_eq!(rt; useless(book.rules()), Some(41));
    book.enter(41, &[1])?;
    assert_eq!(rt; useless(book.rules()), None);
    book.enter(42, &[2])?;
    assert_eq!(rt; useless(book.rules()), Some(2));
    book.enter(41, &[42, 42])?;
    assert_eq!(rt; useless(book.rules()), None);
    book.enter(41, &[1, 80])?;
    assert_eq!(rt; useless(book.rules()), Some(80));
    Ok(())
}

// State 1 of the two lists: both words have been read as a word of either list.
fn after_a_one() -> [DotRow; 9] {
    let mut items = [[false; DOTS]; 9];
    items[7][1] = true;
    items[8][1] = true;
    items
}

#[test]
fn items_by_number(rt: HostRuntime) -> Result<(), Fail> {
    let book = two_lists()?;
    let rules = book.rules();
    assert_eq!(rt; left_of(rules, 0), 0);
    assert_eq!(rt; left_of(rules, 8), 45);
    assert_eq!(rt; left_of(rules, 9), 0);
    assert_eq!(rt; right_of(rules, 0).len(), 1);
    assert_eq!(rt; right_of(rules, 1).len(), 2);
    let mut items = after_a_one();
    assert!(rt; is_complete(rules, &items, 7));
    assert!(rt; !is_complete(rules, &items, 6));
    assert!(rt; !is_complete(rules, &items, 9));
    has_just(&rt, &reads(rules, &items), &[]);
    items[0][0] = true;
    items[3][1] = true;
    has_just(&rt, &reads(rules, &items), &[41, 44]);
    Ok(())
}

// Where SLR has a conflict, the eased policy is the one below; elsewhere it is SLR.
#[test]
fn lookaheads_of_two_lists(rt: HostRuntime) -> Result<(), Fail> {
    let book = two_lists()?;
    let rules = book.rules();
    let sets = RelationSets::of(rules);
    let related = RelatedRules { rules, sets: &sets };
    let both = after_a_one();
    has_just(&rt, &Slr.lookahead(&related, &both, 7), &[2, 44, 1]);
    has_just(&rt, &LeftmostFollow.lookahead(&related, &both, 7), &[2, 44]);
    has_just(&rt, &LSLR.lookahead(&related, &both, 7), &[2, 44]);
    let mut one = both;
    one[8][1] = false;
    has_just(&rt, &LSLR.lookahead(&related, &one, 7), &[2, 44, 1]);
    Ok(())
}

// A policy as another crate may write it. Its early answer is right since no table has a set past the last code; the proof of that needs the tables' sizes.
struct Guarded;

impl Lookahead for Guarded {
    ghost policy = { λ _. slr };

    ghost lawful = { λ x. slr_lawful };

    fn lookahead(&self, related: &RelatedRules, closed: &[DotRow], number: usize) -> SymbolSet {
        let left = left_of(related.rules(), number) as usize;
        if left >= SYMBOLS {
            return [false; SYMBOLS];
        }
        Slr.lookahead(related, closed, number)
    }
}

#[test]
fn lookaheads_of_a_policy_of_ones_own(rt: HostRuntime) -> Result<(), Fail> {
    let book = two_lists()?;
    let rules = book.rules();
    let sets = RelationSets::of(rules);
    let related = RelatedRules { rules, sets: &sets };
    assert_eq!(rt; related.rules().len(), 8);
    let both = after_a_one();
    has_just(
        &rt,
        &lookahead_of(&Guarded, &related, &both, 7),
        &[2, 44, 1],
    );
    has_just(&rt, &lookahead_of(&Guarded, &related, &both, 0), &[0]);
    Ok(())
}
