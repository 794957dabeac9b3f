// A source means a list of words, each with its place, then an ending with a place.
ghost use Rattle.std.specs.Prelude.{◌≡◌, true};
ghost use Rattle.source.specs.Streams.{Stream, drawn, remaining, all_terminals};
ghost use Rattle.source.specs.Taking.{drawn_by};

// What a take answers.
// Stays one enum: each case has its place, the clean end too, so that a `Result` would take a type for words and one for endings to say the same.
#[derive(Clone, Copy, PartialEq, Debug)]
pub enum Taken {
    Word { code: u8, place: usize },
    Clean { place: usize },
    // Stays a number: a source of a caller's own faults by numbers of its own, for which an enum would have no case.
    Fault { number: u8, place: usize },
}

pub trait Source {
    ghost means: { Self → Stream };

    // Every word is a terminal, 1 to 40.
    ghost terminals: { (x : Self) → all_terminals (means x).tokens ≡ true };

    // Takes the first word away; where none is left, answers the ending, the same each time.
    fn take(&mut self) -> Taken
        ensures answer { drawn_by result ≡ drawn (means self.old) }
        ensures rest { means self.new ≡ remaining (means self.old) };
}
