// Draining any source.
ghost use Rattle.std.specs.Prelude.{◌≡◌, ◌-◌, ◌^◌, min, length};
ghost use Rattle.source.specs.Streams.{ends};

use crate::sources::{Source, Taken};

// Takes every word of a source, and answers how many there were (of more than a usize can count, the largest number).
pub fn drain<S: Source>(source: &mut S) -> usize
    ensures count { result ≡ min (length (S.Source.means source.old).tokens) (2 ^ 64 - 1) }
    ensures rest { S.Source.means source.new ≡ ends (S.Source.means source.old).ending }
{
    let mut count = 0usize;
    while let Taken::Word { .. } = source.take() {
        count = count.saturating_add(1);
    }
    count
}
