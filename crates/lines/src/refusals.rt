// Refused calls, by their errors, as they are printed.
use book::books::StrikeError;
use book::files::LoadError;
use book::rules::EnterError;
use card::refusals::ReadError;
use source::tapes::TapeError;
use source::texts::TextError;
use std::fmt;
use tables::building::BuildError;

#[derive(Clone, Copy)]
pub(crate) enum Refusal {
    Enter(EnterError),
    Strike(StrikeError),
    Build(BuildError),
    Read(ReadError),
    Load(LoadError),
    Text(TextError),
    Tape(TapeError),
}

// Stays an impl for each error: one by a macro of the repository's own is no choice.
impl From<EnterError> for Refusal {
    fn from(error: EnterError) -> Refusal {
        Refusal::Enter(error)
    }
}

impl From<StrikeError> for Refusal {
    fn from(error: StrikeError) -> Refusal {
        Refusal::Strike(error)
    }
}

impl From<BuildError> for Refusal {
    fn from(error: BuildError) -> Refusal {
        Refusal::Build(error)
    }
}

impl From<ReadError> for Refusal {
    fn from(error: ReadError) -> Refusal {
        Refusal::Read(error)
    }
}

impl From<LoadError> for Refusal {
    fn from(error: LoadError) -> Refusal {
        Refusal::Load(error)
    }
}

impl From<TextError> for Refusal {
    fn from(error: TextError) -> Refusal {
        Refusal::Text(error)
    }
}

impl From<TapeError> for Refusal {
    fn from(error: TapeError) -> Refusal {
        Refusal::Tape(error)
    }
}

impl Refusal {
    fn number(&self) -> u8 {
        match *self {
            Refusal::Enter(error) => error.into(),
            Refusal::Strike(error) => error.into(),
            Refusal::Build(error) => error.into(),
            Refusal::Read(error) => error.into(),
            Refusal::Load(error) => error.into(),
            Refusal::Text(error) => error.into(),
            Refusal::Tape(error) => error.into(),
        }
    }
}

// The number, and what the refusal names.
// Stays beside the same words for builds in `cases`: the programs share no crate but the engine's own.
impl fmt::Display for Refusal {
    fn fmt<W: fmt::Write>(&self, f: &mut fmt::Formatter<W>) -> fmt::Result {
        let number = self.number();
        match *self {
            Refusal::Load(
                LoadError::Kind(byte)
                | LoadError::Ended(byte)
                | LoadError::Enter(byte, _)
                | LoadError::Count(byte)
                | LoadError::Trailing(byte),
            ) => write!(f, "refused {number}, byte {byte}"),
            Refusal::Build(BuildError::Useless(code)) => write!(f, "refused {number}, code {code}"),
            Refusal::Build(BuildError::Conflict(state, symbol)) => write!(
                f,
                "refused {number}, state {state}, symbol {symbol}"
            ),
            _ => write!(f, "refused {number}"),
        }
    }
}
