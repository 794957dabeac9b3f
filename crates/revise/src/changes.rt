// A script carried out on a book, step by step, and what is printed of it.
ghost use Rattle.std.specs.Prelude.{◌≡◌, IfOk, string_bytes, OnOk};
ghost use Rattle.book.specs.Held.{rules_of};
ghost use Rattle.book.specs.Rules.{◌⟶◌, entered, struck};
ghost use Rattle.revise.specs.Lines.{strike_line, enter_line};
ghost use Rattle.revise.specs.Runs.{changed, change_line, is_passed, line_leaves, line_text, script_leaves, script_text};
ghost use Rattle.revise.specs.Steps.{change_of};

use crate::lines::{Sides, sides_at};
use crate::script::Step;
use book::books::Book;
use std::alloc::{AllocError, Global};

// Strikes a rule. Its sides are put down first, since they are gone after.
// Stays with the allocator beside the book, here and below: what memory is asked of goes first, as in the library, and no fact binds the two.
fn strike(heap: Global, book: &mut Book, number: usize) -> Result<String, AllocError>
    ensures rules { OnOk result (rules_of book.new ≡ struck (rules_of book.old) number) }
    ensures line { IfOk result (λ s. string_bytes s ≡ strike_line (rules_of book.old) number) }
{
    let sides = sides_at(heap, book, number)?;
    match book.strike(number) {
        Ok(()) => format!(in heap; "strike {number}: {sides}"),
        Err(error) => format!(in heap; "strike {number}: refused {error}"),
    }
}

// Enters a rule, which then has the number after the last.
fn enter(heap: Global, book: &mut Book, left: u8, right: &[u8]) -> Result<String, AllocError>
    ensures rules { OnOk result (rules_of book.new ≡ entered (rules_of book.old) (left ⟶ right.now)) }
    ensures line { IfOk result (λ s. string_bytes s ≡ enter_line (rules_of book.old) (left ⟶ right.now)) }
{
    let sides = Sides { left, right };
    let number = book.rules().len() + 1;
    match book.enter(left, right) {
        Ok(()) => format!(in heap; "enter {number}: {sides}"),
        Err(error) => format!(in heap; "enter {sides}: refused {error}"),
    }
}

// Carries out a step, and says in a line what came of it; a refused step changes nothing.
pub fn change(heap: Global, book: &mut Book, step: &Step) -> Result<String, AllocError>
    ensures rules { OnOk result (rules_of book.new ≡ changed (rules_of book.old) (change_of step.now)) }
    ensures line { IfOk result (λ s. string_bytes s ≡ change_line (rules_of book.old) (change_of step.now)) }
{
    match step {
        Step::Strike(number) => strike(heap, book, *number),
        Step::Enter { left, right } => enter(heap, book, *left, right.as_slice()),
    }
}

// Whether a line asks for no step: it is empty, or a comment.
fn is_passed(line: &[u8]) -> bool
    ensures { result ≡ is_passed line.now }
{
    matches!(line, [] | [b'#', ..])
}

// Carries out a line of a script, and says what came of it.
fn run_line(heap: Global, book: &mut Book, number: usize, line: &[u8]) -> Result<String, AllocError>
    ensures rules { OnOk result (rules_of book.new ≡ line_leaves (rules_of book.old) line.now) }
    ensures text { IfOk result (λ s. string_bytes s ≡ line_text number (rules_of book.old) line.now) }
{
    if is_passed(line) {
        return Ok(String::new(heap));
    }
    match Step::parse(heap, line)? {
        Some(step) => {
            let text = change(heap, book, &step)?;
            format!(in heap; "{text}\n")
        }
        None => format!(in heap; "line {number}: cannot be read\n"),
    }
}

// Carries out a script line by line, and gives all that is to be printed of it.
pub fn run_script(heap: Global, book: &mut Book, script: &[u8]) -> Result<String, AllocError>
    ensures rules { OnOk result (rules_of book.new ≡ script_leaves (rules_of book.old) script.now) }
    ensures text { IfOk result (λ s. string_bytes s ≡ script_text (rules_of book.old) script.now) }
{
    let mut report = String::new(heap);
    for (i, line) in script.split(|byte| *byte == b'\n').enumerate() {
        let text = run_line(heap, book, i + 1, line)?;
        report.push_str(text.as_str())?;
    }
    Ok(report)
}
