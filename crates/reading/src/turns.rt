// A read under way, and its turns.
ghost use Rattle.std.specs.Prelude.{◌≡◌, ◌+◌, ◌≤◌, [], ◌∷◌, length, Some};
ghost use Rattle.source.specs.Streams.{Stream};
ghost use Rattle.grammar.specs.Meaning.{reduces};
ghost use Rattle.tables.specs.Built.{table_of};
ghost use Rattle.reading.specs.Reading.{most_words};
ghost use Rattle.reading.specs.Held.{symbol_of, stack_of, pending_of, most_held, words_under};
ghost use Rattle.reading.specs.Told.{after_words, Ready};

use crate::outcomes::{Progress, Step, Verdict};
use crate::piles::{Span, Stacks, Symbol};
use book::rules::Rule;
use grammar::items::{left_of, right_of};
use source::sources::{Source, Taken};
use tables::actions::Action;
use tables::building::Tables;

// How many words a read takes at the most.
pub const MOST_WORDS: usize = 1000;

// A read under way: what it goes by, what it was lent, and how far it has come.
#[derive(Drop)]
pub(crate) struct Read<'a, S> {
    tables: &'a Tables,
    rules: &'a [Rule],
    stacks: &'a mut Stacks,
    source: &'a mut S,
    steps: &'a mut [Step],
    pub(crate) progress: Progress,
    ghost within: { progress.steps ≤ length steps.now },
}

impl<'a, S: Source> Read<'a, S> {
    ghost use Rattle.reading.specs.Underway.{turn_of, act_of, action_of, led_to, Onward};

    // A read that has taken nothing.
    pub(crate) fn new(
        tables: &'a Tables,
        rules: &'a [Rule],
        stacks: &'a mut Stacks,
        source: &'a mut S,
        steps: &'a mut [Step],
    ) -> Self
        ensures tables { result.tables.now ≡ tables.now }
        ensures rules { result.rules.now ≡ rules.now }
        ensures stack { stack_of result.stacks.now ≡ [] }
        ensures pending { pending_of result.stacks.now ≡ [] }
        ensures source { result.source.now ≡ source.old }
        ensures steps { result.steps.now ≡ steps.old }
        ensures progress { result.progress ≡ record { words = 0; place = 0; steps = 0 } }
        ensures lent { (result.stacks.ghost_name ≡ stacks.entry.ghost_name) × (result.source.ghost_name ≡ source.entry.ghost_name) × (result.steps.ghost_name ≡ steps.entry.ghost_name) }
    {
        stacks.clear();
        Read {
            tables,
            rules,
            stacks,
            source,
            steps,
            progress: Progress::default(),
        }
    }

    // One turn. It leads to a verdict, or the read goes on.
    pub(crate) fn turn(&mut self) -> Option<Verdict>
        requires ready { Ready (table_of self.old.tables.now) (stack_of self.old.stacks.now) (pending_of self.old.stacks.now) self.old.progress.words }
        ensures moved { led_to result self.new (S.Source.means self.new.source.now) ≡ turn_of self.old (S.Source.means self.old.source.now) }
        ensures left { (s : Stream) → S.Source.means self.old.source.now ≡ after_words self.old.progress.words s → S.Source.means self.new.source.now ≡ after_words self.new.progress.words s }
        ensures onward { Onward self.old self.new }
    {
        match self.stacks.next() {
            Some(symbol) => self.act(symbol),
            None => self.take_word(),
        }
    }

    // With no symbol pending a word is taken, or the ending, which counts as the end mark if it is clean.
    fn take_word(&mut self) -> Option<Verdict>
        requires none { pending_of self.old.stacks.now ≡ [] }
        requires few { self.old.progress.words ≤ most_words }
        ensures moved { led_to result self.new (S.Source.means self.new.source.now) ≡ turn_of self.old (S.Source.means self.old.source.now) }
        ensures left { (s : Stream) → S.Source.means self.old.source.now ≡ after_words self.old.progress.words s → S.Source.means self.new.source.now ≡ after_words self.new.progress.words s }
        ensures onward { Onward self.old self.new }
    {
        match self.source.take() {
            Taken::Word { code, place } => {
                let first = self.progress.words;
                self.progress.words = first + 1;
                self.progress.place = place;
                if first >= MOST_WORDS {
                    return Some(Verdict::TooLong);
                }
                self.stacks.wait(Symbol {
                    code,
                    span: Span { first, width: 1 },
                });
                None
            }
            Taken::Clean { place } => {
                self.progress.place = place;
                self.stacks.wait(Symbol {
                    code: 0,
                    span: Span {
                        first: self.progress.words,
                        width: 0,
                    },
                });
                None
            }
            Taken::Fault { number, place } => {
                self.progress.place = place;
                Some(Verdict::Fault { number, place })
            }
        }
    }

    // The action of the top state at a symbol is done.
    fn act(&mut self, symbol: Symbol) -> Option<Verdict>
        requires ready { Ready (table_of self.old.tables.now) (stack_of self.old.stacks.now) (symbol_of symbol ∷ pending_of self.old.stacks.now) self.old.progress.words }
        ensures moved { led_to result self.new (S.Source.means self.new.source.now) ≡ act_of self.old (S.Source.means self.old.source.now) (action_of self.old symbol.code) (symbol_of symbol) }
        ensures source { self.new.source.now ≡ self.old.source.now }
        ensures words { self.new.progress.words ≡ self.old.progress.words }
        ensures onward { Onward self.old self.new }
    {
        match self
            .tables
            .action(self.stacks.state() as usize, symbol.code)
        {
            None => Some(Verdict::NoTree),
            Some(Action::Accept) => Some(Verdict::Accepted),
            Some(Action::Shift(state)) => {
                self.stacks.push(symbol, state);
                None
            }
            Some(Action::Reduce(rule)) => self.reduce(symbol, rule),
        }
    }

    // A reduce: the symbols of a right side are unstacked, the left side is pending before the symbol, and the step is written if the list has a place left.
    fn reduce(&mut self, symbol: Symbol, rule: u8) -> Option<Verdict>
        requires room { length (pending_of self.old.stacks.now) + 2 ≤ most_held }
        requires under { words_under (stack_of self.old.stacks.now) ≤ most_words }
        ensures moved { led_to result self.new (S.Source.means self.new.source.now) ≡ act_of self.old (S.Source.means self.old.source.now) (Some (reduces rule)) (symbol_of symbol) }
        ensures source { self.new.source.now ≡ self.old.source.now }
        ensures words { self.new.progress.words ≡ self.old.progress.words }
        ensures onward { Onward self.old self.new }
    {
        let at = self.progress.steps;
        if at >= self.steps.len() {
            return Some(Verdict::ListFull);
        }
        let number = rule as usize;
        let span = self.stacks.covered(right_of(self.rules, number).len());
        self.stacks.wait(symbol);
        self.stacks.wait(Symbol {
            code: left_of(self.rules, number),
            span,
        });
        self.steps[at] = Step {
            rule,
            first: span.first,
            width: span.width,
        };
        self.progress.steps = at + 1;
        None
    }
}
