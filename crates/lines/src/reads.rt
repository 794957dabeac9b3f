// Lines read by the known books.
use crate::answers::Answer;
use crate::books;
use crate::books::{Known, bytes_of};
use crate::builds::build;
use crate::refusals::Refusal;
use card::card::Card;
use reading::outcomes::Step;
use source::sources::Source;
use source::tapes::Tape;
use source::texts::{Text, code_letters};
use std::io;

// Reads a source, if it was made.
// Stays with the card and the list apart, here and below: the list is lent to a read alone, and its caller looks at it after.
fn read<S: Source + Drop, E: Into<Refusal>>(
    card: &mut Card,
    source: Result<S, E>,
    list: &mut [Step],
) -> Answer {
    match source {
        Ok(mut source) => card.read(&mut source, list).into(),
        Err(error) => Answer::Refused(error.into()),
    }
}

// Reads a text whose bytes are the words.
pub(crate) fn read_text(card: &mut Card, words: &[u8], list: &mut [Step]) -> Answer {
    read(card, Text::new(words, &code_letters()), list)
}

pub(crate) fn read_tape(card: &mut Card, bytes: &[u8], list: &mut [Step]) -> Answer {
    read(card, Tape::new(bytes), list)
}

fn tell(rt: &HostRuntime, name: &str, line: &str, answer: Answer, list: &[Step]) -> io::Result<()> {
    let steps = answer.steps(list);
    println!(rt; "{name}: {line}: {answer}{steps}")
}

// Reads a line by a card, and tells what it answers and the steps.
fn read_line(
    rt: &HostRuntime,
    card: &mut Card,
    name: &str,
    line: &str,
    list: &mut [Step],
) -> io::Result<()> {
    let words = bytes_of(rt.alloc(), line)?;
    let answer = read_text(card, words.as_slice(), list);
    tell(rt, name, line, answer, list)
}

fn read_lines(
    rt: &HostRuntime,
    card: &mut Card,
    name: &str,
    lines: &[&str],
    list: &mut [Step],
) -> io::Result<()> {
    for line in lines {
        read_line(rt, card, name, line, list)?;
    }
    Ok(())
}

// Puts a book on a card and builds it; answers whether that is granted.
pub(crate) fn put(rt: &HostRuntime, card: &mut Card, file: &str) -> io::Result<bool> {
    let bytes = bytes_of(rt.alloc(), file)?;
    if card.load(bytes.as_slice()).is_err() {
        return Ok(false);
    }
    Ok(build(card).is_granted())
}

fn read_book(
    rt: &HostRuntime,
    card: &mut Card,
    known: &Known,
    list: &mut [Step],
) -> io::Result<()> {
    if put(rt, card, known.file)? {
        read_lines(rt, card, known.name, known.derived, list)?;
        read_lines(rt, card, known.name, known.others, list)?;
    }
    Ok(())
}

fn read_books(rt: &HostRuntime, card: &mut Card, list: &mut [Step]) -> io::Result<()> {
    for known in books::all() {
        read_book(rt, card, known, list)?;
    }
    Ok(())
}

// The lines of each book that builds, all on one card.
pub(crate) fn reads(rt: &HostRuntime) -> io::Result<()> {
    read_books(rt, &mut Card::new(), &mut [Step::default(); 100])
}
