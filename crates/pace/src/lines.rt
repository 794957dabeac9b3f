// Lines of ones with another last word, as tapes and as texts.
use std::{array, fmt};

const WORDS: usize = 1000;

const TAPE_BYTES: usize = 2001;

// A tape, or a text with its letter table.
#[derive(Clone, Copy)]
pub(crate) enum Line<'a> {
    Tape(&'a [u8]),
    Text(&'a [u8], &'a [u8]),
}

impl fmt::Display for Line<'_> {
    fn fmt<W: fmt::Write>(&self, f: &mut fmt::Formatter<W>) -> fmt::Result {
        match self {
            Line::Tape(_) => write!(f, "tape"),
            Line::Text(_, _) => write!(f, "text"),
        }
    }
}

// The words as bytes that stand for themselves.
pub(crate) fn text_line(last: u8) -> [u8; WORDS] {
    let mut line = [1; WORDS];
    line[WORDS - 1] = last;
    line
}

// The same line as a tape.
pub(crate) fn tape_line(last: u8) -> [u8; TAPE_BYTES] {
    let mut line = array::from_fn(|byte| if byte % 2 == 0 { 8 } else { 1 });
    line[TAPE_BYTES - 2] = last;
    line[TAPE_BYTES - 1] = 9;
    line
}
