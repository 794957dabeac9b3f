// cases: books with what a build of each answers, under each policy. The books are given as book files.
#![tactic(auto)]

mod books;

use book::books::Book;
use books::BOOKS;
use grammar::lookaheads::{LSLR, LeftmostFollow, Lookahead, Slr};
use std::{fmt, io};
use tables::building::{BuildError, Tables};

// How many states a book has under a policy, or why it has no tables.
#[derive(Clone, Copy)]
struct Built(Result<usize, BuildError>);

impl fmt::Display for Built {
    fn fmt<W: fmt::Write>(&self, f: &mut fmt::Formatter<W>) -> fmt::Result {
        let error = match self.0 {
            Ok(states) => return write!(f, "{states} states"),
            Err(error) => error,
        };
        let number = u8::from(error);
        write!(f, "refused {number}")?;
        match error {
            BuildError::Rules | BuildError::States => Ok(()),
            BuildError::Useless(code) => write!(f, ", code {code}"),
            BuildError::Conflict(state, symbol) => write!(f, ", state {state}, symbol {symbol}"),
        }
    }
}

fn build<L: Lookahead>(book: &Book, look: &L) -> Built {
    let mut tables = Tables::new();
    Built(
        tables
            .fill(book.rules(), look)
            .map(|()| tables.rows().len()),
    )
}

// A book's answers, a line for each policy.
fn show(rt: &HostRuntime, name: &str, file: &[u8]) -> io::Result<()> {
    let mut book = Book::new();
    if book.load(file).is_err() {
        return println!(rt; "{name}: no book file");
    }
    let slr = build(&book, &Slr);
    let leftmost = build(&book, &LeftmostFollow);
    let eased = build(&book, &LSLR);
    println!(rt; "{name}: SLR {slr}; leftmost {leftmost}; LSLR {eased}")
}

fn main(rt: HostRuntime) -> io::Result<()> {
    for (name, file) in BOOKS {
        show(&rt, name, file)?;
    }
    Ok(())
}
