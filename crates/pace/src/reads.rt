// Lines of 1,000 words, read.
use crate::lines::{Line, tape_line, text_line};
use card::card::Card;
use grammar::lookaheads::LSLR;
use reading::outcomes::{Outcome, Step, Verdict};
use source::sources::Source;
use source::tapes::Tape;
use source::texts::{Text, code_letters};
use std::io;
use std::time::Instant;

const PLACES: usize = 4000;

const TIMES: usize = 10_000;

// A list that grows to the right: 41 -> 41 1, 41 -> 1.
const LIST: [u8; 9] = [2, 41, 41, 1, 1, 41, 1, 7, 2];

// Ones that belong to one of two lists, which the last word tells.
const LATE: [u8; 30] = [
    2, 41, 42, 2, 2, 41, 43, 3, 2, 42, 42, 44, 1, 42, 44, 2, 43, 43, 45, 1, 43, 45, 1, 44, 1, 1,
    45, 1, 7, 8,
];

// Reads a source that was made; what came of it if it was accepted.
// Stays with the card and the list apart, here and below: no fact binds the two.
fn accepted<S: Source + Drop>(
    card: &mut Card,
    source: Option<S>,
    list: &mut [Step],
) -> Option<Outcome> {
    let mut source = source?;
    let outcome = card.read(&mut source, list).ok()?;
    (outcome.verdict == Verdict::Accepted).then_some(outcome)
}

fn read(card: &mut Card, line: Line, list: &mut [Step]) -> Option<Outcome> {
    match line {
        Line::Tape(bytes) => accepted(card, Tape::new(bytes).ok(), list),
        Line::Text(bytes, letters) => accepted(card, Text::new(bytes, letters).ok(), list),
    }
}

// What a read of a line answers.
pub(crate) fn show(
    rt: &HostRuntime,
    name: &str,
    card: &mut Card,
    line: Line,
    list: &mut [Step],
) -> io::Result<()> {
    match read(card, line, list) {
        Some(Outcome { words, steps, .. }) => {
            println!(rt; "{name}, {line}: {words} words, {steps} steps")
        }
        None => println!(rt; "{name}, {line}: refused"),
    }
}

// How fast a line is read, again and again.
pub(crate) fn time(
    rt: &HostRuntime,
    name: &str,
    card: &mut Card,
    line: Line,
    list: &mut [Step],
) -> io::Result<()> {
    let start = Instant::now(rt)?;
    for _ in 0..TIMES {
        let _ = read(card, line, list);
    }
    let micros = start.elapsed(rt)?.as_micros();
    let words = (TIMES as u128).saturating_mul(1000);
    let rate = words.checked_div(micros).unwrap_or(0);
    println!(rt; "{name}, {line}: {rate} million words a second")
}

// A card with the book of a file, built.
fn card_of(file: &[u8]) -> Option<Card> {
    let mut card = Card::new();
    card.load(file).ok()?;
    card.build(&LSLR).ok()?;
    Some(card)
}

// Takes the line with this last word, as a tape and as a text, by the book of a file.
fn each_line<F>(rt: &HostRuntime, name: &str, file: &[u8], last: u8, step: &F) -> io::Result<()>
where
    F: Fn(&HostRuntime, &str, &mut Card, Line, &mut [Step]) -> io::Result<()>,
    requires { F.IsAlwaysCallable step.now }
{
    let mut list = [Step::default(); PLACES];
    let Some(mut card) = card_of(file) else {
        return println!(rt; "{name}: not built");
    };
    let tape = tape_line(last);
    let text = text_line(last);
    let letters = code_letters();
    for line in [Line::Tape(&tape), Line::Text(&text, &letters)] {
        step(rt, name, &mut card, line, &mut list)?;
    }
    Ok(())
}

// Takes a line of each book by a step: to say what comes of it, or how fast it is.
pub(crate) fn reads<F>(rt: &HostRuntime, step: F) -> io::Result<()>
where
    F: Fn(&HostRuntime, &str, &mut Card, Line, &mut [Step]) -> io::Result<()>,
    requires { F.IsAlwaysCallable step }
{
    each_line(rt, "a list", &LIST, 1, &step)?;
    each_line(rt, "settled by the last word", &LATE, 2, &step)
}
