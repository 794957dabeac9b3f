// The reader's two stacks: symbols that are stacked, each with the state above it, and symbols that are pending.
ghost use Rattle.std.specs.Prelude.{◌≡◌, ◌+◌, ◌<◌, ◌≤◌, [], ◌∷◌, length};
ghost use Rattle.reading.specs.Reading.{most_words, top_state, covered};
ghost use Rattle.reading.specs.Held.{symbol_of, stacked_of, stack_of, pending_of, Next, most_held, words_under};

use crate::stack::Stack;

// How many symbols each stack holds: one for each word that a read may take, and the end mark.
pub const MOST_HELD: usize = 1001;

// A part of the line: how many words stand left of it, and how many it has.
#[derive(Clone, Copy, Default)]
pub struct Span {
    pub first: usize,
    pub width: usize,
}

// A symbol, with the words that it covers.
#[derive(Clone, Copy, Default)]
pub struct Symbol {
    pub code: u8,
    pub span: Span,
}

// A stacked symbol, with the state above it.
#[derive(Clone, Copy, Default)]
pub struct Stacked {
    pub symbol: Symbol,
    pub state: u8,
}

// The caller lends them, so that a read neither clears nor copies them.
#[derive(Drop)]
pub struct Stacks {
    stacked: Stack<Stacked, MOST_HELD>,
    pending: Stack<Symbol, MOST_HELD>,
}

impl Stacks {
    // Stacks that hold nothing.
    pub fn new() -> Stacks
        ensures stack { stack_of result ≡ [] }
        ensures pending { pending_of result ≡ [] }
    {
        Stacks {
            stacked: Stack::new(Stacked::default()),
            pending: Stack::new(Symbol::default()),
        }
    }

    // Forgets what they hold.
    pub fn clear(&mut self)
        ensures stack { stack_of self.new ≡ [] }
        ensures pending { pending_of self.new ≡ [] }
    {
        self.stacked.clear();
        self.pending.clear();
    }

    // The state on top; that of the empty stack is 0.
    pub(crate) fn state(&self) -> u8
        ensures { result ≡ top_state 0 (stack_of self.now) }
    {
        match self.stacked.top() {
            Some(top) => top.state,
            None => 0,
        }
    }

    // Stacks a symbol, under this state.
    pub(crate) fn push(&mut self, symbol: Symbol, state: u8)
        requires room { length (stack_of self.old) < most_held }
        ensures stack { stack_of self.new ≡ stacked_of (record { symbol = symbol; state = state }) ∷ stack_of self.old }
        ensures pending { pending_of self.new ≡ pending_of self.old }
    {
        self.stacked.push(Stacked { symbol, state });
    }

    // Puts a symbol before those that are pending.
    pub(crate) fn wait(&mut self, symbol: Symbol)
        requires room { length (pending_of self.old) < most_held }
        ensures stack { stack_of self.new ≡ stack_of self.old }
        ensures pending { pending_of self.new ≡ symbol_of symbol ∷ pending_of self.old }
    {
        self.pending.push(symbol);
    }

    // Takes the first pending symbol off.
    pub(crate) fn next(&mut self) -> Option<Symbol>
        ensures stack { stack_of self.new ≡ stack_of self.old }
        ensures pending { Next result (pending_of self.old) (pending_of self.new) }
    {
        self.pending.pop()
    }

    // Unstacks a symbol, if there is one. Its words go in front of those given.
    fn pop(&mut self, right: Span) -> Span
        requires few { words_under (stack_of self.old) + right.width ≤ most_words }
        ensures span { covered 1 (stack_of self.old) right.first right.width ≡ (stack_of self.new, result.first, result.width) }
        ensures few { words_under (stack_of self.new) + result.width ≤ most_words }
        ensures pending { pending_of self.new ≡ pending_of self.old }
    {
        match self.stacked.pop() {
            Some(top) => Span {
                first: top.symbol.span.first,
                width: top.symbol.span.width + right.width,
            },
            None => right,
        }
    }

    // Unstacks so many symbols; the words that they cover.
    pub(crate) fn covered(&mut self, count: usize) -> Span
        requires few { words_under (stack_of self.old) ≤ most_words }
        ensures span { covered count (stack_of self.old) 0 0 ≡ (stack_of self.new, result.first, result.width) }
        ensures pending { pending_of self.new ≡ pending_of self.old }
    {
        let mut span = Span::default();
        for _ in 0..count {
            span = self.pop(span);
        }
        span
    }
}
