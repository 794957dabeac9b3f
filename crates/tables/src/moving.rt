// The next kernel: dots moved over a symbol.
ghost use Rattle.std.specs.Prelude.{◌≡◌, ◌+◌, false, ◌∷◌, length, take};
ghost use Rattle.book.specs.Symbols.{longest_right};
ghost use Rattle.grammar.specs.Items.{before, onward};
ghost use Rattle.tables.specs.Kept.{rules_in, lines_of, rows_for};

use crate::builds::Build;
use book::rules::LONGEST_RIGHT;
use grammar::items::{DOTS, DotRow, right_of};

// How many numbered rules there are at the most.
pub const MOST_NUMBERED: usize = 101;

// A row for each numbered rule; rows past the last rule have no meaning.
// Stays an array without a length: memory is fixed, and the rules of a build say how many rows count in all its sets.
#[derive(Clone, Copy)]
pub struct ItemSet {
    pub(crate) rows: [DotRow; MOST_NUMBERED],
}

// The dots of one rule that stand before the symbol, moved over it.
fn move_row(right: &[u8], row: &DotRow, symbol: u8) -> DotRow
    ensures { result ≡ false ∷ before symbol right.now (take longest_right row.now) }
{
    let mut moved = [false; DOTS];
    let n = right.len().min(LONGEST_RIGHT);
    // Stays an index: a dot is moved to the next place.
    for (d, word) in right[..n].iter().enumerate() {
        moved[d + 1] = row[d] & (*word == symbol);
    }
    moved
}

impl<L> Build<'_, L> {
    // The rows that belong to rules.
    pub(crate) fn rows<'b>(&self, items: &'b ItemSet) -> &'b [DotRow]
        ensures value { result.now ≡ rows_for (rules_in self.now) items.now.rows }
        ensures len { length result.now ≡ length (rules_in self.now) + 1 }
    {
        &items.rows[..=self.related.rules.len()]
    }

    // The kernel over a symbol.
    pub(crate) fn onward(&self, items: &ItemSet, symbol: u8) -> ItemSet
        ensures { rows_for (rules_in self.now) result.rows ≡ onward symbol (lines_of (rules_in self.now)) (rows_for (rules_in self.now) items.now.rows) }
    {
        let mut rows = [[false; DOTS]; MOST_NUMBERED];
        for (k, row) in self.rows(items).iter().enumerate() {
            rows[k] = move_row(right_of(self.related.rules, k), row, symbol);
        }
        ItemSet { rows }
    }
}
