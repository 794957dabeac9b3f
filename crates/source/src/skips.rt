// The skip layer: the words of the source below without one code, at the same places and with the same ending.
ghost use Rattle.std.specs.Prelude.{◌≡◌, IfErr};
ghost use Rattle.book.specs.Answers.{said_of};
ghost use Rattle.source.specs.Laws.{without_terminals};
ghost use Rattle.source.specs.Refusals.{skip_refusal};
ghost use Rattle.source.specs.Streams.{skipping, skip_says};

use crate::sources::{Source, Taken};
use book::symbols::is_terminal;

#[derive(Drop)]
pub struct Skip<S> {
    below: S,
    code: u8,
}

// The code is no terminal; the source is handed back as it was.
#[derive(Drop)]
pub struct SkipError<S> {
    pub source: S,
}

impl<S: Source> Skip<S> {
    // The words of a source without this code.
    pub fn new(source: S, code: u8) -> Result<Skip<S>, SkipError<S>>
        ensures answer { said_of (λ s. skipping s.code (S.Source.means s.below)) skip_refusal result ≡ skip_says code (S.Source.means source) }
        ensures back { IfErr result (λ e. e.source ≡ source) }
    {
        if is_terminal(code) {
            Ok(Skip {
                below: source,
                code,
            })
        } else {
            Err(SkipError { source })
        }
    }
}

impl<S: Source> Source for Skip<S> {
    ghost means = { λ s. skipping s.code (S.Source.means s.below) };

    ghost terminals = { λ s. without_terminals s.code (S.Source.means s.below).tokens (S.Source.terminals s.below) };

    fn take(&mut self) -> Taken {
        loop {
            match self.below.take() {
                Taken::Word { code, .. } if code == self.code => {}
                taken => return taken,
            }
        }
    }
}
