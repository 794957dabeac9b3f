// What a read writes and what it answers.
ghost use Rattle.std.specs.Prelude.{◌≡◌};

// What a read writes for each reduce: the number of the rule, how many words stand left of its words, and how many they are.
#[derive(Clone, Copy, PartialEq, Debug, Default)]
pub struct Step {
    pub rule: u8,
    pub first: usize,
    pub width: usize,
}

// Stays one enum: as a `Result`, a turn would answer one within an `Option`, and the same counts stand beside it, granted or not.
#[derive(Clone, Copy, PartialEq, Debug)]
pub enum Verdict {
    Accepted,
    // Stays a number, as in what a source answers.
    Fault { number: u8, place: usize },
    TooLong,
    NoTree,
    ListFull,
}

// The verdict, how many words were taken, the place of the last word or ending taken, and how many steps were written.
#[derive(Clone, Copy, PartialEq, Debug)]
pub struct Outcome {
    pub verdict: Verdict,
    pub words: usize,
    pub place: usize,
    pub steps: usize,
}

// How far a read has come: as in the outcome.
#[derive(Clone, Copy, Default)]
pub struct Progress {
    pub words: usize,
    pub place: usize,
    pub steps: usize,
}

impl Progress {
    // The outcome of a read that has come so far, with this verdict.
    pub(crate) fn outcome(self, verdict: Verdict) -> Outcome
        ensures { result ≡ record { verdict = verdict; words = self.words; place = self.place; steps = self.steps } }
    {
        Outcome {
            verdict,
            words: self.words,
            place: self.place,
            steps: self.steps,
        }
    }
}
