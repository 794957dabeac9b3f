// Book files loaded and saved, and what is printed of it.
ghost use Rattle.std.specs.Prelude.{◌≡◌, length, IfOk, vec_items, string_bytes, OnOk};
ghost use Rattle.std.specs.Option.{option_map};
ghost use Rattle.book.specs.Answers.{granted, and_then, said};
ghost use Rattle.book.specs.Files.{save_says, load_says, loaded};
ghost use Rattle.book.specs.Held.{rules_of};
ghost use Rattle.book.specs.Refusals.{load_refusal};
ghost use Rattle.revise.specs.Lines.{LoadTold, save_line};
ghost use Rattle.revise.specs.Saves.{most_bytes, saved_file};

use crate::lines::{load_line, save_line};
use book::books::Book;
use book::files::LoadError;
use std::alloc::{AllocError, Global};

// How many bytes a book's file has at the most: 100 rules of 8 bytes, and 2 that close the file.
const MOST_BYTES: usize = 802;

// What came of a load, and the line that says so.
#[derive(Drop)]
pub struct Loaded {
    pub line: String,
    pub outcome: Result<(), LoadError>,
}

// What came of a save, in a line, and the file if it was made.
#[derive(Drop)]
pub struct Saved {
    pub line: String,
    pub file: Option<Vec<u8>>,
}

// Loads a file into the book; a refused load changes nothing.
pub(crate) fn load(
    heap: Global,
    book: &mut Book,
    name: &str,
    bytes: &[u8],
) -> Result<Loaded, AllocError>
    ensures rules { OnOk result (rules_of book.new ≡ loaded (rules_of book.old) bytes.now) }
    ensures outcome { IfOk result (λ t. said load_refusal t.outcome ≡ and_then (load_says bytes.now) (λ _. granted tt)) }
    ensures line { IfOk result (λ t. LoadTold name.now bytes.now (length (rules_of book.new)) (string_bytes t.line)) }
{
    let outcome = book.load(bytes);
    let line = load_line(heap, name, &outcome, book.rules().len())?;
    Ok(Loaded { line, outcome })
}

// The book's file, if it is no longer than the buffer: that of a book that can exist never is.
pub fn save(heap: Global, book: &Book, name: &str) -> Result<Saved, AllocError>
    ensures file { IfOk result (λ t. option_map vec_items t.file ≡ saved_file (rules_of book.now)) }
    ensures line { IfOk result (λ t. string_bytes t.line ≡ save_line name.now (save_says (rules_of book.now) most_bytes)) }
{
    let mut buffer = [0; MOST_BYTES];
    let outcome = book.save(&mut buffer);
    let line = save_line(heap, name, &outcome)?;
    let file = match outcome {
        Ok(size) => Some(Vec::from_slice(heap, &buffer[..size])?),
        Err(_) => None,
    };
    Ok(Saved { line, file })
}
