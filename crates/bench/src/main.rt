// bench [times]: builds some books, and prints their rules, states and actions; with a word behind it, also how long a build takes.
#![tactic(auto)]

use book::books::Book;
use grammar::lookaheads::LSLR;
use std::time::Instant;
use std::{env, io};
use tables::actions::Row;
use tables::building::Tables;

// How many actions there are in a row.
fn actions_in(row: &Row) -> usize {
    row.actions.iter().filter(|action| action.is_some()).count()
}

// What a build of the book gives.
fn show(rt: &HostRuntime, name: &str, book: &Book) -> io::Result<()> {
    let mut tables = Tables::new();
    if tables.fill(book.rules(), &LSLR).is_err() {
        return println!(rt; "{name}: refused");
    }
    let actions = tables
        .rows()
        .iter()
        .fold(0usize, |sum, row| sum.saturating_add(actions_in(row)));
    let rules = book.rules().len();
    let states = tables.rows().len();
    println!(rt; "{name}: {rules} rules, {states} states, {actions} actions")
}

// How long so many builds take.
fn time(rt: &HostRuntime, name: &str, book: &Book, times: usize) -> io::Result<()> {
    let mut tables = Tables::new();
    let start = Instant::now(rt)?;
    for _ in 0..times {
        let _ = tables.fill(book.rules(), &LSLR);
    }
    let spent = start.elapsed(rt)?.as_micros();
    println!(rt; "{name}: {spent} us for {times} builds")
}

// Six times the same word, for 33 words: 200 states.
// Stays beside its twin in `lines`, which enters the same rules on a card: the programs share no crate but the engine's own.
fn wide() -> Book {
    let mut book = Book::new();
    for k in 1..34u8 {
        let _ = book.enter(41, &[k; 6]);
    }
    book
}

// A chain of 40 nonterminals, and many rules for the last: 100 rules.
fn deep() -> Book {
    let mut book = Book::new();
    for k in 0..39u8 {
        let _ = book.enter(41 + k, &[42 + k, 1 + k, 1 + k]);
        let _ = book.enter(41 + k, &[42 + k, 1 + k]);
    }
    let _ = book.enter(80, &[40]);
    for k in 0..21u8 {
        let _ = book.enter(80, &[k + 1, 40, k + 1]);
    }
    book
}

fn main(rt: HostRuntime) -> io::Result<()> {
    let wide = wide();
    let deep = deep();
    show(&rt, "wide", &wide)?;
    show(&rt, "deep", &deep)?;
    let mut words = env::args(&rt)?;
    let _ = words.next();
    if words.next().is_some() {
        time(&rt, "wide", &wide, 100)?;
        time(&rt, "deep", &deep, 100)?;
    }
    Ok(())
}
