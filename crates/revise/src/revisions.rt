// A revision: the old file's rules, changed by a script, and their new file.
ghost use Rattle.std.specs.Prelude.{◌≡◌, IfOk, vec_items, string_bytes};
ghost use Rattle.std.specs.Option.{option_map};
ghost use Rattle.revise.specs.Revisions.{revised_file, LoadsRevised, Reported};

use crate::changes::run_script;
use crate::files::{load, save};
use book::books::Book;
use std::alloc::{AllocError, Global};

// What is to be printed, and the new file if the old one loads.
#[derive(Drop)]
pub struct Revision {
    pub report: String,
    pub file: Option<Vec<u8>>,
}

// Loads the bytes of the file `old`, carries out the script, and makes the file `new`.
pub fn revise(
    heap: Global,
    old: &str,
    bytes: &[u8],
    script: &[u8],
    new: &str,
) -> Result<Revision, AllocError>
    ensures file { IfOk result (λ t. option_map vec_items t.file ≡ revised_file bytes.now script.now) }
    ensures loads { IfOk result (λ t. LoadsRevised bytes.now script.now (option_map vec_items t.file)) }
    ensures report { IfOk result (λ t. Reported old.now bytes.now script.now new.now (string_bytes t.report)) }
{
    let mut book = Book::new();
    let loaded = load(heap, &mut book, old, bytes)?;
    let told = loaded.line;
    if loaded.outcome.is_err() {
        return Ok(Revision {
            report: format!(in heap; "{told}\n")?,
            file: None,
        });
    }
    let steps = run_script(heap, &mut book, script)?;
    let saved = save(heap, &book, new)?;
    let line = saved.line;
    let report = format!(in heap; "{told}\n{steps}{line}\n")?;
    Ok(Revision {
        report,
        file: saved.file,
    })
}
