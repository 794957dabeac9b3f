// Reads and builds at their limits.
use crate::books::{LEFT_LISTS, ONE_LIST};
use crate::builds::{build, states};
use crate::reads::{put, read_tape, read_text};
use card::card::Card;
use reading::outcomes::Step;
use std::io;

// A line of so many ones, by the list of ones.
fn read_ones(rt: &HostRuntime, card: &mut Card, ones: &[u8], list: &mut [Step]) -> io::Result<()> {
    let count = ones.len();
    let answer = read_text(card, ones, list);
    println!(rt; "{count} ones: {answer}")
}

// The lists of ones that a 2 or a 3 settles: with no word, in a short list, and from a tape with a fault.
fn read_short(rt: &HostRuntime, card: &mut Card, list: &mut [Step]) -> io::Result<()> {
    let none = read_text(card, &[], list);
    println!(rt; "no words: {none}")?;
    let mut four = [Step::default(); 4];
    let full = read_text(card, &[1, 1, 2], &mut four);
    let steps = full.steps(&four);
    println!(rt; "1 1 2 into four places: {full}{steps}")?;
    let clean = read_tape(card, &[8, 1, 8, 3, 9], list);
    println!(rt; "tape 8 1 8 3 9: {clean}")?;
    let fault = read_tape(card, &[8, 1, 8, 50, 9], list);
    println!(rt; "tape 8 1 8 50 9: {fault}")
}

// Six times the same word, for 33 words.
// Stays beside its twin in `bench`, which enters them in a book: the programs share no crate but the engine's own.
fn enter_wide(card: &mut Card) {
    for k in 1..34u8 {
        let _ = card.enter(41, &[k; 6]);
    }
}

// The most states, and one more.
fn build_wide(rt: &HostRuntime) -> io::Result<()> {
    let mut card = Card::new();
    enter_wide(&mut card);
    let answer = build(&mut card);
    let most = states(&card, answer);
    let _ = card.enter(41, &[34]);
    let more = build(&mut card);
    println!(rt; "33 words six times: {most}; a word more: {more}")
}

pub(crate) fn limits(rt: &HostRuntime) -> io::Result<()> {
    let mut card = Card::new();
    let mut list = [Step::default(); 1100];
    let unbuilt = read_text(&mut card, &[1], &mut list);
    println!(rt; "not built: {unbuilt}")?;
    if put(rt, &mut card, ONE_LIST)? {
        read_ones(rt, &mut card, &[1; 1000], &mut list)?;
        read_ones(rt, &mut card, &[1; 1001], &mut list)?;
    }
    if put(rt, &mut card, LEFT_LISTS)? {
        read_short(rt, &mut card, &mut list)?;
    }
    build_wide(rt)
}
