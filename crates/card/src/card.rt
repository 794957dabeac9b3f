// The card: its calls are in the module below, whose contracts name what a card stands for.
ghost use Rattle.std.specs.Prelude.{◌≡◌, true};
ghost use Rattle.book.specs.Held.{rules_of};
ghost use Rattle.book.specs.Rules.{is_well_formed};
ghost use Rattle.card.specs.Belongs.{Belongs};

use book::books::Book;
use reading::piles::Stacks;
use tables::building::Tables;

pub mod calls;

// A book, the tables of its rules if it is built, and the reader's stacks, which a read lends.
#[derive(Drop)]
pub struct Card {
    book: Book,
    tables: Option<Tables>,
    stacks: Stacks,
    ghost sound: { is_well_formed (rules_of book) ≡ true },
    ghost belongs: { Belongs book tables },
}
