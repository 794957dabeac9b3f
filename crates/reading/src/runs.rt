// A read of a whole source.
ghost use Rattle.std.specs.Prelude.{◌≡◌, ◌≤◌, length, drop, Some};
ghost use Rattle.book.specs.Held.{productions_of};
ghost use Rattle.tables.specs.Built.{table_of};
ghost use Rattle.reading.specs.Tables.{next_in, action_in};
ghost use Rattle.reading.specs.Reading.{codes_of, read_says};
ghost use Rattle.reading.specs.Promise.{Kept};
ghost use Rattle.reading.specs.Building.{Belonging};
ghost use Rattle.reading.specs.Told.{answer_of, after_words};

use crate::outcomes::{Outcome, Step};
use crate::piles::Stacks;
use crate::turns::Read;
use book::rules::Rule;
use source::sources::Source;
use tables::building::Tables;

// Reads a source by the tables of these rules. The steps go to the front of the list.
pub fn run<S: Source>(
    tables: &Tables,
    rules: &[Rule],
    stacks: &mut Stacks,
    source: &mut S,
    steps: &mut [Step],
) -> Outcome
    requires built { Belonging (productions_of rules.now) (table_of tables.now) }
    ensures answer { read_says (productions_of rules.now) 0 (next_in (table_of tables.now)) (action_in (table_of tables.now)) (length steps.old) (S.Source.means source.old) ≡ Some (answer_of result steps.new) }
    ensures kept { ∥ Kept (productions_of rules.now) (codes_of (S.Source.means source.old).tokens) (S.Source.means source.old).ending (length steps.old) (answer_of result steps.new) ∥₁ }
    ensures within { result.steps ≤ length steps.old }
    ensures back { drop result.steps steps.new ≡ drop result.steps steps.old }
    ensures rest { S.Source.means source.new ≡ after_words result.words (S.Source.means source.old) }
{
    let mut read = Read::new(tables, rules, stacks, source, steps);
    loop {
        if let Some(verdict) = read.turn() {
            return read.progress.outcome(verdict);
        }
    }
}
