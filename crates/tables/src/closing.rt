// Closing item sets: rules for the symbols behind dots are put in.
ghost use Rattle.std.specs.Prelude.{◌≡◌, ◌+◌, false, length};
ghost use Rattle.grammar.specs.Items.{opened, close};
ghost use Rattle.tables.specs.Kept.{lines_of};

use book::rules::Rule;
use grammar::items::{DotRow, left_of, reads};
use grammar::sets::{SymbolSet, contains};

// Puts every rule for a symbol of the set in at dot 0. Answers whether that changed the items.
fn open(set: &SymbolSet, rules: &[Rule], items: &mut [DotRow]) -> bool
    requires rows { length items.old ≡ length rules.now + 1 }
    ensures after { items.new ≡ opened set.now (lines_of rules.now) items.old }
    ensures still { result ≡ false → items.new ≡ items.old }
{
    let mut changed = false;
    for (k, row) in items.iter_mut().enumerate() {
        if contains(set, left_of(rules, k)) & !row[0] {
            row[0] = true;
            changed = true;
        }
    }
    changed
}

// Rounds until nothing changes: each but the last puts a rule in, so that as many as there are rules are enough.
pub(crate) fn close(rules: &[Rule], items: &mut [DotRow])
    requires rows { length items.old ≡ length rules.now + 1 }
    ensures { items.new ≡ close (lines_of rules.now) items.old }
{
    let n = items.len();
    for _ in 0..n {
        let set = reads(rules, items);
        if !open(&set, rules, items) {
            return;
        }
    }
}
