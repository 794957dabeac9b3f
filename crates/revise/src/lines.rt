// The lines that the program prints.
ghost use Rattle.std.specs.Prelude.{◌≡◌, IfOk, string_bytes};
ghost use Rattle.book.specs.Answers.{said};
ghost use Rattle.book.specs.Held.{production_of, rules_of};
ghost use Rattle.book.specs.Refusals.{save_refusal};
ghost use Rattle.book.specs.Rules.{◌⟶◌};
ghost use Rattle.revise.specs.Lines.{sides_text, list_text, sides_at, load_line, save_line};

use book::books::Book;
use book::files::{LoadError, SaveError};
use book::rules::Rule;
use std::alloc::{AllocError, Global};
use std::fmt;

// The two sides of a rule, printed as in `41 -> 42 2`.
#[derive(Clone, Copy)]
pub(crate) struct Sides<'a> {
    pub(crate) left: u8,
    pub(crate) right: &'a [u8],
}

impl<'a> Sides<'a> {
    pub(crate) fn of(rule: &'a Rule) -> Sides<'a>
        ensures { result.left ⟶ result.right.now ≡ production_of rule.now }
    {
        Sides {
            left: rule.left(),
            right: rule.right(),
        }
    }
}

impl fmt::Display for Sides<'_> {
    ghost use Rattle.std.specs.Prelude.{Some};

    ghost output = { λ s. Some (sides_text (s.left ⟶ s.right.now)) };

    fn fmt<W: fmt::Write>(&self, f: &mut fmt::Formatter<W>) -> fmt::Result {
        let left = self.left;
        write!(f, "{left} ->")?;
        for code in self.right {
            write!(f, " {code}")?;
        }
        Ok(())
    }
}

// The sides of the rule of a number, or no text where there is none.
pub(crate) fn sides_at(heap: Global, book: &Book, number: usize) -> Result<String, AllocError>
    ensures { IfOk result (λ s. string_bytes s ≡ sides_at (rules_of book.now) number) }
{
    let rules = book.rules();
    match number.checked_sub(1).and_then(|index| rules.get(index)) {
        Some(rule) => Sides::of(rule).to_string(heap),
        None => Ok(String::new(heap)),
    }
}

// A line for each rule of a book.
pub(crate) fn listing(heap: Global, book: &Book) -> Result<String, AllocError>
    ensures { IfOk result (λ s. string_bytes s ≡ list_text 1 (rules_of book.now)) }
{
    let rules = book.rules();
    let mut text = String::new(heap);
    for (i, rule) in rules.iter().enumerate() {
        let number = i + 1;
        let sides = Sides::of(rule);
        writeln!(text, "{number}: {sides}")?;
    }
    Ok(text)
}

// What came of a load, after which the book has so many rules.
pub(crate) fn load_line(
    heap: Global,
    name: &str,
    outcome: &Result<(), LoadError>,
    count: usize,
) -> Result<String, AllocError>
    ensures { IfOk result (λ s. string_bytes s ≡ load_line name.now outcome.now count) }
{
    match outcome {
        Ok(()) => format!(in heap; "load {name}: {count} rules"),
        Err(error) => format!(in heap; "load {name}: refused {error}"),
    }
}

// What came of a save.
pub(crate) fn save_line(
    heap: Global,
    name: &str,
    outcome: &Result<usize, SaveError>,
) -> Result<String, AllocError>
    ensures { IfOk result (λ s. string_bytes s ≡ save_line name.now (said save_refusal outcome.now)) }
{
    match outcome {
        Ok(size) => format!(in heap; "save {name}: {size} bytes"),
        Err(error) => format!(in heap; "save {name}: refused {error}"),
    }
}
