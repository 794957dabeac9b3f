// A tape: records of kind 8, a word with its code, until one of kind 9, the end.
ghost use Rattle.std.specs.Prelude.{◌≡◌, IfOk, IfErr};
ghost use Rattle.book.specs.Answers.{said_of};
ghost use Rattle.source.specs.Faults.{fault_number};
ghost use Rattle.source.specs.Kinds.{Decodes};
ghost use Rattle.source.specs.Laws.{tape_terminals};
ghost use Rattle.source.specs.Refusals.{tape_refusal};
ghost use Rattle.source.specs.Streams.{drawn, remaining, ends, fault};
ghost use Rattle.source.specs.Taking.{drawn_by};
ghost use Rattle.source.specs.Tapes.{tape_says};
ghost use Rattle.source.specs.States.{tape_means};

use crate::faults::Fault;
use crate::sources::{Source, Taken};
use crate::texts::MOST_BYTES;
use book::symbols::is_terminal;

// What a record's first byte says that it is.
#[derive(Clone, Copy)]
enum Kind {
    Word,
    End,
}

impl TryFrom<u8> for Kind {
    type Error = Fault;

    ghost try_from_gives = { Decodes };

    fn try_from(byte: u8) -> Result<Kind, Fault> {
        match byte {
            8 => Ok(Kind::Word),
            9 => Ok(Kind::End),
            _ => Err(Fault::Kind),
        }
    }
}

#[derive(Clone, Copy)]
pub enum State {
    Open,
    Ended,
    Faulted(Fault),
}

#[derive(Clone, Copy, PartialEq, Debug)]
pub enum TapeError {
    Long,
}

// The number of the refusal.
impl From<TapeError> for u8 {
    ghost use Rattle.std.specs.Prelude.{◌≡◌};
    ghost use Rattle.book.specs.Refusals.{number_of};
    ghost use Rattle.source.specs.Refusals.{tape_refusal};

    ghost from_gives = { λ error number. number ≡ number_of (tape_refusal error) };

    fn from(error: TapeError) -> u8 {
        match error {
            TapeError::Long => 22,
        }
    }
}

// Stays a slice with a place, as a text does.
#[derive(Drop)]
pub struct Tape<'a> {
    bytes: &'a [u8],
    place: usize,
    state: State,
}

impl<'a> Tape<'a> {
    pub fn new(bytes: &'a [u8]) -> Result<Tape<'a>, TapeError>
        ensures { said_of (λ t. tape_means t.state t.bytes.now t.place) tape_refusal result ≡ tape_says bytes.now }
    {
        if bytes.len() > MOST_BYTES {
            return Err(TapeError::Long);
        }
        Ok(Tape {
            bytes,
            place: 0,
            state: State::Open,
        })
    }

    // Takes the record at the place of an open tape.
    fn record(&mut self) -> Result<Taken, Fault>
        requires { self.old.state ≡ State.Open }
        ensures taken { IfOk result (λ t. drawn_by t ≡ drawn (tape_means self.old.state self.old.bytes.now self.old.place)) }
        ensures rest { IfOk result (λ _. tape_means self.new.state self.new.bytes.now self.new.place ≡ remaining (tape_means self.old.state self.old.bytes.now self.old.place)) }
        ensures faulted { IfErr result (λ f. tape_means self.old.state self.old.bytes.now self.old.place ≡ ends (fault (fault_number f) self.old.place)) }
        ensures place { IfErr result (λ _. self.new.place ≡ self.old.place) }
    {
        let place = self.place;
        let kind = self.bytes.get(place).copied().ok_or(Fault::Short)?;
        match Kind::try_from(kind)? {
            Kind::Word => {
                let code = self.bytes.get(place + 1).copied().ok_or(Fault::Short)?;
                if !is_terminal(code) {
                    return Err(Fault::Code);
                }
                self.place = place + 2;
                Ok(Taken::Word { code, place })
            }
            Kind::End => {
                self.state = State::Ended;
                Ok(Taken::Clean { place })
            }
        }
    }
}

impl Source for Tape<'_> {
    ghost means = { λ t. tape_means t.state t.bytes.now t.place };

    ghost terminals = { λ t. tape_terminals t.state t.bytes.now t.place };

    fn take(&mut self) -> Taken {
        let place = self.place;
        let fault = match self.state {
            State::Ended => return Taken::Clean { place },
            State::Faulted(fault) => fault,
            State::Open => match self.record() {
                Ok(taken) => return taken,
                Err(fault) => fault,
            },
        };
        self.state = State::Faulted(fault);
        let number = fault.into();
        Taken::Fault { number, place }
    }
}
