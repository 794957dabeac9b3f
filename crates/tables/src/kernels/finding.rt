// Finding kernels: each is put behind those that are found, unless it is among them.
ghost use Rattle.std.specs.Prelude.{◌≡◌, ℕ, ◌<◌, ◌≤◌, [], ◌∷◌, length, take};
ghost use Rattle.grammar.specs.States.{same_items, number_of, with_kernel};
ghost use Rattle.tables.specs.Kept.{most_numbered, kernels_in, Found};

use crate::kernels::{Full, Kernels, MOST_STATES};
use crate::moving::{ItemSet, MOST_NUMBERED};
use grammar::items::{DOTS, DotRow};

// Whether two item sets are the same, where row k is the likeliest to differ.
// Stays beside `==`, for speed: see `number_of`.
fn same_by(a: &[DotRow], b: &[DotRow], k: usize) -> bool
    requires rows { length a.now ≡ length b.now }
    requires row { k < length b.now }
    ensures { result ≡ same_items a.now b.now }
{
    a[k] == b[k] && a == b
}

// The first row with a dot; the first of all if none has one.
fn first_dotted(items: &[DotRow]) -> usize
    requires { 0 < length items.now }
    ensures { result < length items.now }
{
    items
        .iter()
        .position(|row| row.contains(&true))
        .unwrap_or(0)
}

impl Kernels {
    // No kernels.
    pub(crate) fn new() -> Kernels {
        let none = ItemSet {
            rows: [[false; DOTS]; MOST_NUMBERED],
        };
        Kernels {
            sets: [none; MOST_STATES],
            count: 0,
        }
    }

    // One kernel alone: what was found before is forgotten.
    pub(crate) fn start(&mut self, first: &ItemSet)
        ensures { (n : ℕ) → kernels_in n self.new ≡ take n first.now.rows ∷ [] }
    {
        self.sets[0] = *first;
        self.count = 1;
    }

    // The kernels in order.
    pub(crate) fn found(&self) -> &[ItemSet]
        ensures { result.now ≡ take self.now.count self.now.sets }
    {
        &self.sets[..self.count]
    }

    // The number of the first kernel that is this one; as many as there are if none is.
    // Few kernels have a dot where this one has its first: that row is compared before the others.
    pub(crate) fn number_of(&self, fresh: &[DotRow]) -> usize
        requires some { 0 < length fresh.now }
        requires room { length fresh.now ≤ most_numbered }
        ensures value { result ≡ number_of (kernels_in (length fresh.now) self.now) fresh.now }
        ensures within { result ≤ self.now.count }
    {
        let n = fresh.len();
        let k = first_dotted(fresh);
        self.found()
            .iter()
            .position(|kernel| same_by(&kernel.rows[..n], fresh, k))
            .unwrap_or(self.count)
    }

    // A kernel of n rows is found.
    pub(crate) fn find(&mut self, n: usize, fresh: &ItemSet) -> Result<(), Full>
        requires some { 0 < n }
        requires room { n ≤ most_numbered }
        ensures { Found n (with_kernel (kernels_in n self.old) (take n fresh.now.rows)) self.new result }
    {
        if self.number_of(&fresh.rows[..n]) < self.count {
            return Ok(());
        }
        if self.count == MOST_STATES {
            return Err(Full);
        }
        self.sets[self.count] = *fresh;
        self.count += 1;
        Ok(())
    }
}
