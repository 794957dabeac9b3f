// Actions as numbers.
ghost use Rattle.std.specs.Prelude.{◌≡◌, map, length};
ghost use Rattle.grammar.specs.Sets.{symbol_count};
ghost use Rattle.tables.specs.Acts.{act_of, acts_of, word_of};

use crate::actions::{Action, Row};

const ACCEPT: u16 = 1;

const SHIFT: u16 = 1000;

const REDUCE: u16 = 2000;

// 0 for none, 1 for accept, 1000 and the state for a shift, 2000 and the rule for a reduction.
pub fn word_of(action: Option<Action>) -> u16
    ensures { result ≡ word_of (act_of action) }
{
    match action {
        None => 0,
        Some(Action::Accept) => ACCEPT,
        Some(Action::Shift(state)) => SHIFT + state as u16,
        Some(Action::Reduce(rule)) => REDUCE + rule as u16,
    }
}

// Writes the actions of a row as numbers, one for each symbol.
pub(crate) fn encode(row: &Row, out: &mut [u16])
    requires { length out.old ≡ symbol_count }
    ensures { out.new ≡ map word_of (acts_of row.now) }
{
    // Stays an index into the other array, as in `settle`: mapped into an array of its own, a row took four times as long.
    for (x, action) in row.actions.iter().enumerate() {
        out[x] = word_of(*action);
    }
}
