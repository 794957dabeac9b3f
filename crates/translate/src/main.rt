// translate: reads the book `book.dat` and the tape `line.dat`, and prints the report of the read, or of what was refused before it.
#![tactic(auto)]

#[cfg(test)]
mod tests;
mod translations;

use std::io::Write;
use std::{fs, io};
use translations::translate;

// How many bytes are enough for every text.
const MOST_TEXT: usize = 184_114;

// Prints the text of a run, which always finds room.
fn print(rt: &HostRuntime, book: &[u8], tape: &[u8]) -> io::Result<()> {
    let mut out = [0; MOST_TEXT];
    let size = translate(book, tape, &mut out).unwrap();
    rt.stdout().write_all(&out[..size])
}

fn main(rt: HostRuntime) -> io::Result<()> {
    let book = fs::read(&rt, "book.dat")?;
    let tape = fs::read(&rt, "line.dat")?;
    print(&rt, book.as_slice(), tape.as_slice())
}
