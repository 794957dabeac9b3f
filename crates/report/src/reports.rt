// The reports: each answers how many bytes it wrote.
ghost use Rattle.std.specs.Prelude.{◌≡◌, ℕ, ◌≤◌, List, length, codes};
ghost use Rattle.book.specs.Answers.{Refusal};
ghost use Rattle.book.specs.Refusals.{load_refusal};
ghost use Rattle.source.specs.Refusals.{tape_refusal};
ghost use Rattle.tables.specs.Built.{build_refusal};
ghost use Rattle.report.specs.Buffers.{Reports, line_room, read_room};
ghost use Rattle.report.specs.Texts.{read_text, outcome_text, refused_read_text, refusal_fields, refused_text, tape_text};

use crate::lines::report_line;
use crate::steps::report_accepted;
use book::files::LoadError;
use book::rules::EnterError;
use card::refusals::ReadError;
use reading::outcomes::{Outcome, Step, Verdict};
use source::tapes::TapeError;
use tables::building::BuildError;

#[derive(Clone, Copy, PartialEq, Debug)]
pub enum ReportError {
    Short,
}

// The report of a refused read.
fn report_refused(
    outcome: &Outcome,
    number: usize,
    fault: usize,
    out: &mut [u8],
) -> Result<usize, ReportError>
    ensures { Reports (refused_read_text number outcome.now.steps outcome.now.words outcome.now.place fault) line_room out.old out.new result }
{
    report_line(
        b"refused",
        &[number, outcome.steps, outcome.words, outcome.place, fault],
        out,
    )
}

// The report of a read on a built card.
fn report_outcome(outcome: &Outcome, list: &[Step], out: &mut [u8]) -> Result<usize, ReportError>
    ensures { Reports (outcome_text outcome.now list.now) (read_room (length list.now)) out.old out.new result }
{
    // Stays with its numbers: a verdict that is no refusal has none, and each is told beside the last field of its line.
    match outcome.verdict {
        Verdict::Accepted => report_accepted(outcome.steps, outcome.words, list, out),
        Verdict::Fault { number, place: _ } => report_refused(outcome, 11, number as usize, out),
        Verdict::TooLong => report_refused(outcome, 12, 0, out),
        Verdict::NoTree => report_refused(outcome, 13, 0, out),
        Verdict::ListFull => report_refused(outcome, 14, 0, out),
    }
}

// The report of a read: one line if it is refused, else a line more for each step, as far as the list goes.
pub fn report_read(
    outcome: &Result<Outcome, ReadError>,
    list: &[Step],
    out: &mut [u8],
) -> Result<usize, ReportError>
    ensures { Reports (read_text outcome.now list.now) (read_room (length list.now)) out.old out.new result }
{
    match outcome {
        Ok(o) => report_outcome(o, list, out),
        Err(error) => report_line(b"refused", &[u8::from(*error) as usize, 0, 0, 0, 0], out),
    }
}

// An error whose report is one line: the call's word, the refusal's number, and the two values that it names, 0 for one that it lacks.
pub trait Refused {
    ghost word: { List ℕ };

    ghost refusal: { Self → Refusal };

    fn word() -> &'static [u8]
        ensures same { result.now ≡ word }
        ensures short { length word ≤ 8 };

    fn fields(&self) -> [usize; 3]
        ensures { result ≡ refusal_fields (refusal self.now) };
}

// A load: the place, and the number of the enter's refusal.
impl Refused for LoadError {
    ghost word = { codes "load" };

    ghost refusal = { load_refusal };

    fn word() -> &'static [u8] {
        b"load"
    }

    fn fields(&self) -> [usize; 3] {
        let number = u8::from(*self) as usize;
        match *self {
            LoadError::Kind(place)
            | LoadError::Ended(place)
            | LoadError::Count(place)
            | LoadError::Trailing(place) => [number, place, 0],
            LoadError::Enter(place, cause) => [number, place, u8::from(cause) as usize],
        }
    }
}

// A build: the useless code or the state in conflict, and the symbol in conflict.
impl Refused for BuildError {
    ghost word = { codes "build" };

    ghost refusal = { build_refusal };

    fn word() -> &'static [u8] {
        b"build"
    }

    fn fields(&self) -> [usize; 3] {
        let number = u8::from(*self) as usize;
        match *self {
            BuildError::Rules | BuildError::States => [number, 0, 0],
            BuildError::Useless(code) => [number, code as usize, 0],
            BuildError::Conflict(state, symbol) => [number, state as usize, symbol as usize],
        }
    }
}

// The report of a refused load or build.
pub fn report_error<E: Refused>(error: &E, out: &mut [u8]) -> Result<usize, ReportError>
    ensures { Reports (refused_text E.word (E.refusal error.now)) line_room out.old out.new result }
{
    report_line(E::word(), &error.fields(), out)
}

// The report of a refused tape: its number.
// Stays beside `report_error`: its line has one field, and a number of fields for each error takes a const parameter on `Refused` for this call alone.
pub fn report_tape(error: &TapeError, out: &mut [u8]) -> Result<usize, ReportError>
    ensures { Reports (tape_text (tape_refusal error.now)) line_room out.old out.new result }
{
    report_line(b"tape", &[u8::from(*error) as usize], out)
}
