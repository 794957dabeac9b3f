// A stack in an array of a fixed size.
ghost use Rattle.std.specs.Prelude.{◌≡◌, ◌<◌, [], ◌∷◌, length, drop, MatchOption};

use std::marker::Model;

// The first so many places of the array are the stack. What the others hold doesn't matter.
// Stays an array with a count: a read has fixed memory.
#[derive(Drop)]
pub(crate) struct Stack<T, const N: usize> {
    held: [T; N],
    count: usize,
}

// Clauses see what is stacked, the top first.
impl<T, const N: usize> Model for Stack<T, N> {
    ghost use Rattle.std.specs.Prelude.{◌≤◌, List};
    ghost use Rattle.reading.specs.Down.{down_from};

    ghost Value = { List T };

    ghost view = { λ s. down_from s.count s.held };

    ghost invariant = { λ s. s.count ≤ N };
}

impl<T: Copy, const N: usize> Stack<T, N> {
    // An empty stack; its array is filled with this value.
    pub(crate) fn new(fill: T) -> Self
        ensures { result ≡ [] }
    {
        Stack {
            held: [fill; N],
            count: 0,
        }
    }

    // Forgets what is stacked.
    pub(crate) fn clear(&mut self)
        ensures { self.new ≡ [] }
    {
        self.count = 0;
    }

    // What is on top, if anything is.
    pub(crate) fn top(&self) -> Option<T>
        ensures { MatchOption result (self.now ≡ []) (λ x. self.now ≡ x ∷ drop 1 self.now) }
    {
        let top = self.count.checked_sub(1)?;
        Some(self.held[top])
    }

    // Puts a value on top.
    pub(crate) fn push(&mut self, item: T)
        requires { length self.old < N }
        ensures { self.new ≡ item ∷ self.old }
    {
        self.held[self.count] = item;
        self.count += 1;
    }

    // Takes off what is on top, if anything is.
    pub(crate) fn pop(&mut self) -> Option<T>
        ensures { MatchOption result ((self.old ≡ []) × (self.new ≡ [])) (λ x. self.old ≡ x ∷ self.new) }
    {
        let top = self.count.checked_sub(1)?;
        self.count = top;
        Some(self.held[top])
    }
}
