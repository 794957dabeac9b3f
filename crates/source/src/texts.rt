// A text: each byte is looked up in a letter table of 256 codes.
ghost use Rattle.std.specs.Prelude.{◌≡◌, ℕ, ◌<◌, drop, slice_index, if◌then◌else◌};
ghost use Rattle.book.specs.Answers.{said_of};
ghost use Rattle.book.specs.Symbols.{is_terminal};
ghost use Rattle.source.specs.Laws.{text_terminals};
ghost use Rattle.source.specs.Refusals.{text_refusal};
ghost use Rattle.source.specs.Texts.{text_from, text_says};

use crate::faults::Fault;
use crate::sources::{Source, Taken};
use book::symbols::{LAST_TERMINAL, is_terminal};
use std::array;

// How many bytes a text or a tape has at the most.
pub const MOST_BYTES: usize = 60_000;

// How many entries a letter table has: one for each byte.
pub const TABLE_SIZE: usize = 256;

#[derive(Clone, Copy, PartialEq, Debug)]
pub enum TextError {
    Long,
    Table,
}

// The number of the refusal.
impl From<TextError> for u8 {
    ghost use Rattle.std.specs.Prelude.{◌≡◌};
    ghost use Rattle.book.specs.Refusals.{number_of};
    ghost use Rattle.source.specs.Refusals.{text_refusal};

    ghost from_gives = { λ error number. number ≡ number_of (text_refusal error) };

    fn from(error: TextError) -> u8 {
        match error {
            TextError::Long => 22,
            TextError::Table => 23,
        }
    }
}

// Stays a slice with a place: the ending names its place too, which an iterator at its end no longer tells.
#[derive(Drop)]
pub struct Text<'a, 'b> {
    bytes: &'a [u8],
    letters: &'b [u8; TABLE_SIZE],
    place: usize,
}

impl<'a, 'b> Text<'a, 'b> {
    // The text of these bytes, by this letter table.
    pub fn new(bytes: &'a [u8], letters: &'b [u8]) -> Result<Text<'a, 'b>, TextError>
        ensures { said_of (λ t. text_from t.letters.now t.place (drop t.place t.bytes.now)) text_refusal result ≡ text_says bytes.now letters.now }
    {
        if bytes.len() > MOST_BYTES {
            return Err(TextError::Long);
        }
        let letters = <&[u8; TABLE_SIZE]>::try_from(letters).map_err(|_| TextError::Table)?;
        Ok(Text {
            bytes,
            letters,
            place: 0,
        })
    }
}

// A terminal's code for the byte that is that code, and no terminal's for any other byte.
fn letter(byte: usize) -> u8
    ensures { result ≡ (if is_terminal byte then byte else 0) }
{
    if byte <= LAST_TERMINAL as usize {
        byte as u8
    } else {
        0
    }
}

// The letter table by which each terminal's code, as a byte, stands for itself.
pub fn code_letters() -> [u8; TABLE_SIZE]
    ensures { (byte : ℕ) → byte < 256 → slice_index result byte ≡ (if is_terminal byte then byte else 0) }
{
    array::from_fn(letter)
}

impl Source for Text<'_, '_> {
    ghost means = { λ t. text_from t.letters.now t.place (drop t.place t.bytes.now) };

    ghost terminals = { λ t. text_terminals t.letters.now t.place (drop t.place t.bytes.now) };

    fn take(&mut self) -> Taken {
        let place = self.place;
        let Some(byte) = self.bytes.get(place) else {
            return Taken::Clean { place };
        };
        let code = self.letters[*byte as usize];
        if !is_terminal(code) {
            let number = Fault::Letter.into();
            return Taken::Fault { number, place };
        }
        self.place = place + 1;
        Taken::Word { code, place }
    }
}
