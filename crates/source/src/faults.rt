// The faults of texts and tapes.
ghost use Rattle.std.specs.Prelude.{◌≡◌};
ghost use Rattle.source.specs.Faults.{fault_number};

// Each with the number by which a take answers it.
#[derive(Clone, Copy, PartialEq, Debug)]
pub enum Fault {
    // A byte of a text whose entry in the letter table is no terminal.
    Letter = 1,
    // A record of a tape that is neither a word nor the end.
    Kind = 2,
    // A word of a tape that is no terminal.
    Code = 3,
    // A tape that stops before its end.
    Short = 4,
}

impl From<Fault> for u8 {
    ghost from_gives = { λ fault number. number ≡ fault_number fault };

    fn from(fault: Fault) -> u8 {
        fault as u8
    }
}
