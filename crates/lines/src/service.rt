// A service of many calls on one card.
use crate::answers::{Answer, Count};
use crate::books::{LEFT_LISTS, bytes_of};
use crate::builds::build;
use crate::reads::read_text;
use card::card::Card;
use reading::outcomes::Step;
use std::{fmt, io};

// A call on a card; files, right sides and lines are given as numbers.
enum Call {
    Load(&'static str),
    Enter(u8, &'static str),
    Strike(usize),
    Build,
    Read(&'static str),
}

impl fmt::Display for Call {
    fn fmt<W: fmt::Write>(&self, f: &mut fmt::Formatter<W>) -> fmt::Result {
        match self {
            Call::Load(file) => write!(f, "load {file}"),
            Call::Enter(left, right) => write!(f, "enter {left} -> {right}"),
            Call::Strike(number) => write!(f, "strike {number}"),
            Call::Build => write!(f, "build"),
            Call::Read(line) => write!(f, "read {line}"),
        }
    }
}

// A card reads only when it is built, and a refused change leaves it as it was.
const BUILT: &[Call] = &[
    Call::Read("1 1 3"),
    Call::Load(LEFT_LISTS),
    Call::Read("1 1 3"),
    Call::Build,
    Call::Read("1 1 3"),
    Call::Enter(41, "42 2"),
    Call::Enter(40, "1"),
    Call::Strike(9),
    Call::Load("2 41 42"),
    Call::Read("1 1 3"),
];

// The list that ends in 3 is struck: what it allowed is gone.
const STRUCK: &[Call] = &[
    Call::Strike(8),
    Call::Read("1 1 3"),
    Call::Build,
    Call::Read("1 1 3"),
    Call::Strike(6),
    Call::Strike(5),
    Call::Strike(2),
    Call::Build,
    Call::Read("1 1 3"),
    Call::Read("1 1 2"),
];

// A rule with a conflict, and one that allows a line: struck, both are gone.
const CHANGED: &[Call] = &[
    Call::Enter(42, "1"),
    Call::Build,
    Call::Read("1 1 2"),
    Call::Strike(5),
    Call::Build,
    Call::Read("1 1 3"),
    Call::Read("1 1 2"),
    Call::Enter(41, "3"),
    Call::Build,
    Call::Read("3"),
    Call::Read("1 1 2"),
    Call::Strike(5),
    Call::Build,
    Call::Read("3"),
    Call::Read("1 1 2"),
];

// The numbers that a call is given.
fn numbers(call: &Call) -> &'static str {
    match call {
        Call::Load(numbers) | Call::Enter(_, numbers) | Call::Read(numbers) => numbers,
        Call::Strike(_) | Call::Build => "",
    }
}

// Makes a call with its numbers.
fn make(card: &mut Card, call: &Call, numbers: &[u8], list: &mut [Step]) -> Answer {
    match call {
        Call::Load(_) => card.load(numbers).into(),
        Call::Enter(left, _) => card.enter(*left, numbers).into(),
        Call::Strike(number) => card.strike(*number).into(),
        Call::Build => build(card),
        Call::Read(_) => read_text(card, numbers, list),
    }
}

// Tells a call, its answer, and how many rules there are then.
fn tell(
    rt: &HostRuntime,
    call: &Call,
    answer: Answer,
    list: &[Step],
    rules: usize,
) -> io::Result<()> {
    let steps = answer.steps(list);
    let rules = Count(rules, "rule");
    println!(rt; "{call}: {answer}{steps}; {rules}")
}

fn serve_one(rt: &HostRuntime, card: &mut Card, call: &Call, list: &mut [Step]) -> io::Result<()> {
    let numbers = bytes_of(rt.alloc(), numbers(call))?;
    let answer = make(card, call, numbers.as_slice(), list);
    tell(rt, call, answer, list, card.rules().len())
}

fn serve(rt: &HostRuntime, card: &mut Card, calls: &[Call], list: &mut [Step]) -> io::Result<()> {
    for call in calls {
        serve_one(rt, card, call, list)?;
    }
    Ok(())
}

pub(crate) fn service(rt: &HostRuntime) -> io::Result<()> {
    let mut card = Card::new();
    let mut list = [Step::default(); 10];
    serve(rt, &mut card, BUILT, &mut list)?;
    serve(rt, &mut card, STRUCK, &mut list)?;
    serve(rt, &mut card, CHANGED, &mut list)
}
