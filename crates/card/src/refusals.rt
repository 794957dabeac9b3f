// What only a card refuses: tables are wanted, and it is not built.
use tables::building::RowError;

#[derive(Clone, Copy, PartialEq, Debug)]
pub enum CardRowError {
    NotBuilt,
    Row(RowError),
}

#[derive(Clone, Copy, PartialEq, Debug)]
pub enum ReadError {
    NotBuilt,
}

// The number of the refusal.
impl From<ReadError> for u8 {
    ghost use Rattle.std.specs.Prelude.{◌≡◌};
    ghost use Rattle.book.specs.Refusals.{number_of};
    ghost use Rattle.card.specs.Wanting.{not_built};

    ghost from_gives = { λ error number. number ≡ number_of not_built };

    fn from(error: ReadError) -> u8 {
        match error {
            ReadError::NotBuilt => 10,
        }
    }
}
