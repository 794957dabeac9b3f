// revise OLD SCRIPT NEW: a setter's change to a rule-book file, start to end.
// Loads OLD, carries out the script's steps, saves NEW, loads it back and lists its rules.
#![tactic(auto)]

mod changes;
mod files;
mod lines;
mod revisions;
mod script;
#[cfg(test)]
mod tests;

use book::books::Book;
use std::{env, fs, io};

// Saves the new file, and prints what it holds when it is read again.
fn save_and_list(rt: &HostRuntime, new: &str, file: &[u8]) -> io::Result<()> {
    let heap = rt.alloc();
    fs::write(rt, new, file)?;
    let mut book = Book::new();
    let loaded = files::load(heap, &mut book, new, fs::read(rt, new)?.as_slice())?;
    rt.println(loaded.line)?;
    rt.print(lines::listing(heap, &book)?)
}

fn run(rt: &HostRuntime, old: &str, script: &str, new: &str) -> io::Result<()> {
    let bytes = fs::read(rt, old)?;
    let steps = fs::read(rt, script)?;
    let revision = revisions::revise(rt.alloc(), old, bytes.as_slice(), steps.as_slice(), new)?;
    rt.print(revision.report)?;
    match revision.file {
        Some(file) => save_and_list(rt, new, file.as_slice()),
        None => Ok(()),
    }
}

fn main(rt: HostRuntime) -> io::Result<()> {
    let mut words = env::args(&rt)?;
    let _ = words.next();
    if let (Some(old), Some(script), Some(new)) = (words.next(), words.next(), words.next()) {
        return run(&rt, old.as_str(), script.as_str(), new.as_str());
    }
    rt.eprintln("revise OLD SCRIPT NEW")
}
