// The kernels of the states, numbered as found.
ghost use Rattle.std.specs.Prelude.{◌≤◌};
ghost use Rattle.grammar.specs.States.{most_states};

use crate::moving::ItemSet;

mod finding;

// How many states there may be.
pub const MOST_STATES: usize = 200;

// There is no room for one more kernel.
#[derive(Clone, Copy, PartialEq, Debug)]
pub struct Full;

// The kernels that are found so far.
// Stays an array with a count, and no stack as a read has: a build has fixed memory, and finds and reads its kernels in order.
#[derive(Clone, Copy)]
pub struct Kernels {
    sets: [ItemSet; MOST_STATES],
    count: usize,
    ghost few: { count ≤ most_states },
}
