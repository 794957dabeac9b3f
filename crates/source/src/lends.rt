// A lent source is a source: what is taken from it is taken from the lender's.
use crate::sources::{Source, Taken};

#[derive(Drop)]
pub struct Lent<'a, S> {
    pub source: &'a mut S,
}

impl<S: Source> Source for Lent<'_, S> {
    ghost means = { λ l. S.Source.means l.source.now };

    ghost terminals = { λ l. S.Source.terminals l.source.now };

    fn take(&mut self) -> Taken {
        self.source.take()
    }
}
