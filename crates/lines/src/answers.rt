// What calls answered, as it is printed.
use crate::refusals::Refusal;
use reading::outcomes::{Outcome, Step, Verdict};
use std::fmt;

// Stays an enum: it prints itself, as a `Result` of the library could not.
#[derive(Clone, Copy)]
pub(crate) enum Answer {
    Granted,
    States(usize),
    Read(Outcome),
    Refused(Refusal),
}

impl From<()> for Answer {
    fn from(_granted: ()) -> Answer {
        Answer::Granted
    }
}

impl From<Outcome> for Answer {
    fn from(outcome: Outcome) -> Answer {
        Answer::Read(outcome)
    }
}

impl<T: Into<Answer>, E: Into<Refusal>> From<Result<T, E>> for Answer {
    fn from(call: Result<T, E>) -> Answer {
        match call {
            Ok(value) => value.into(),
            Err(error) => Answer::Refused(error.into()),
        }
    }
}

impl Answer {
    pub(crate) fn is_granted(&self) -> bool {
        matches!(self, Answer::Granted)
    }

    // The steps that were written at the front of a list.
    pub(crate) fn steps<'a>(&self, list: &'a [Step]) -> Steps<'a> {
        let count = match self {
            Answer::Read(outcome) => outcome.steps,
            _ => 0,
        };
        Steps(list.get(..count).unwrap_or(list))
    }
}

impl fmt::Display for Answer {
    fn fmt<W: fmt::Write>(&self, f: &mut fmt::Formatter<W>) -> fmt::Result {
        match self {
            Answer::Granted => write!(f, "granted"),
            Answer::States(count) => write!(f, "{count} states"),
            Answer::Read(outcome) => show(outcome, f),
            Answer::Refused(refusal) => write!(f, "{refusal}"),
        }
    }
}

fn show<W: fmt::Write>(outcome: &Outcome, f: &mut fmt::Formatter<W>) -> fmt::Result {
    let words = Count(outcome.words, "word");
    let steps = Count(outcome.steps, "step");
    // Stays with its numbers, as in the crate `report`: a verdict that is no refusal has none.
    match outcome.verdict {
        Verdict::Accepted => write!(f, "accepted, {steps}"),
        Verdict::Fault { number, place } => write!(
            f,
            "refused 11, fault {number}, place {place}, {words}, {steps}"
        ),
        Verdict::TooLong => write!(f, "refused 12, {words}, {steps}"),
        Verdict::NoTree => write!(f, "refused 13, {words}, {steps}"),
        Verdict::ListFull => write!(f, "refused 14, {words}, {steps}"),
    }
}

// So many of these.
#[derive(Clone, Copy)]
pub(crate) struct Count(pub usize, pub &'static str);

impl fmt::Display for Count {
    fn fmt<W: fmt::Write>(&self, f: &mut fmt::Formatter<W>) -> fmt::Result {
        let Count(number, unit) = *self;
        let plural = if number == 1 { "" } else { "s" };
        write!(f, "{number} {unit}{plural}")
    }
}

// Each behind a blank: rule, first word, number of words.
#[derive(Clone, Copy)]
pub(crate) struct Steps<'a>(&'a [Step]);

impl fmt::Display for Steps<'_> {
    fn fmt<W: fmt::Write>(&self, f: &mut fmt::Formatter<W>) -> fmt::Result {
        for step in self.0 {
            let Step { rule, first, width } = *step;
            write!(f, " ({rule},{first},{width})")?;
        }
        Ok(())
    }
}
