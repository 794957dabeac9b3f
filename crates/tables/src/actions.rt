// What a state does at each symbol.
ghost use Rattle.std.specs.Prelude.{◌≡◌, ◌+◌, ◌<◌, ◌≤◌, map, length, slice_index_or};
ghost use Rattle.grammar.specs.Build.{nothing, beside, reduce_by, row_of};
ghost use Rattle.grammar.specs.Items.{close, complete_in, reads};
ghost use Rattle.grammar.specs.Sets.{codes, symbol_count};
ghost use Rattle.tables.specs.Acts.{act_of, acts_of, cell_act, shift_at, besides, Settled, reduced};
ghost use Rattle.tables.specs.Kept.{rules_in, relations_in, lines_of, rows_for, kernels_in};

use crate::builds::Build;
use crate::kernels::Kernels;
use crate::moving::ItemSet;
use grammar::items::{is_complete, reads};
use grammar::lookaheads::{Lookahead, lookahead_of};
use grammar::sets::{SYMBOLS, SymbolSet};

#[derive(Clone, Copy, PartialEq, Debug)]
pub enum Action {
    Accept,
    Shift(u8),
    Reduce(u8),
}

// What a state does at each symbol, if anything.
#[derive(Clone, Copy)]
pub struct Row {
    pub actions: [Option<Action>; SYMBOLS],
}

impl Row {
    // The action at a symbol; there is none past the last.
    pub fn at(&self, symbol: u8) -> Option<Action>
        ensures value { act_of result ≡ slice_index_or (acts_of self.now) symbol nothing }
        ensures past { symbol_count ≤ symbol → result ≡ None }
    {
        *self.actions.get(symbol as usize)?
    }
}

// Two actions apply at a symbol.
#[derive(Clone, Copy, PartialEq, Debug)]
pub struct Conflict;

// A place of a row in the making.
pub type Cell = Result<Option<Action>, Conflict>;

pub type Cells = [Cell; SYMBOLS];

// A complete rule acts beside what is there: the outer rule accepts, any other is reduced by.
fn beside(cell: Cell, number: u8) -> Cell
    ensures { cell_act result ≡ beside (cell_act cell) (reduce_by number) }
{
    match cell {
        Ok(None) if number == 0 => Ok(Some(Action::Accept)),
        Ok(None) => Ok(Some(Action::Reduce(number))),
        _ => Err(Conflict),
    }
}

// The row that the cells make, or the lowest symbol in conflict.
fn settle(cells: &Cells) -> Result<Row, u8>
    ensures { Settled (map cell_act cells.now) result }
{
    let mut actions = [None; SYMBOLS];
    // Stays an index into the other array, as in `reduce_by`.
    for (x, cell) in cells.iter().enumerate() {
        match cell {
            Ok(action) => actions[x] = *action,
            Err(Conflict) => return Err(x as u8),
        }
    }
    Ok(Row { actions })
}

// A complete rule acts at each symbol of its lookahead.
fn reduce_by(cells: &mut Cells, ahead: &SymbolSet, number: u8)
    ensures { map cell_act cells.new ≡ besides (reduce_by number) ahead.now (map cell_act cells.old) }
{
    // Stays an index into the other array, as in the construction's `unite`: what a `zip` with `iter_mut` writes has no name in an invariant.
    for (x, cell) in cells.iter_mut().enumerate() {
        if ahead[x] {
            *cell = beside(*cell, number);
        }
    }
}

impl<L: Lookahead> Build<'_, L> {
    // The shift over a symbol, where the set has it.
    fn shift_over(&self, kernels: &Kernels, items: &ItemSet, set: &SymbolSet, x: usize) -> Cell
        requires code { x < symbol_count }
        ensures { let rules = rules_in self.now in cell_act result ≡ shift_at (kernels_in (length rules + 1) kernels.now) (lines_of rules) (rows_for rules items.now.rows) set.now x }
    {
        if !set[x] {
            return Ok(None);
        }
        let kernel = self.onward(items, x as u8);
        let state = kernels.number_of(self.rows(&kernel));
        Ok(Some(Action::Shift(state as u8)))
    }

    // The shifts of a state with these items.
    fn shifts(&self, kernels: &Kernels, items: &ItemSet) -> Cells
        ensures { let rules = rules_in self.now in map cell_act result ≡ map (shift_at (kernels_in (length rules + 1) kernels.now) (lines_of rules) (rows_for rules items.now.rows) (reads (lines_of rules) (rows_for rules items.now.rows))) codes }
    {
        let set = reads(self.related.rules, self.rows(items));
        let mut cells = [Ok(None); SYMBOLS];
        for (x, cell) in cells.iter_mut().enumerate() {
            *cell = self.shift_over(kernels, items, &set, x);
        }
        cells
    }

    // The complete rules of a closed set act beside what is there.
    fn reduce_all(&self, closed: &ItemSet, cells: &mut Cells)
        ensures { let base = rows_for (rules_in self.now) closed.now.rows in map cell_act cells.new ≡ reduced (L.Lookahead.policy self.now.look.now (relations_in self.now) base) (complete_in (lines_of (rules_in self.now)) base) (map cell_act cells.old) }
    {
        let n = self.related.rules.len() + 1;
        // Stays by number: whether a rule is complete, what it looks at and what is done are asked by it.
        for number in 0..n {
            if is_complete(self.related.rules, self.rows(closed), number) {
                let ahead = lookahead_of(self.look, self.related, self.rows(closed), number);
                reduce_by(cells, &ahead, number as u8);
            }
        }
    }

    // The row in the making of a state, from its closed kernel.
    fn cells_of(&self, kernels: &Kernels, closed: &ItemSet) -> Cells
        ensures { let rules = rules_in self.now in map cell_act result ≡ row_of (L.Lookahead.policy self.now.look.now) (relations_in self.now) (kernels_in (length rules + 1) kernels.now) (rows_for rules closed.now.rows) }
    {
        let mut cells = self.shifts(kernels, &self.expanded(closed));
        self.reduce_all(closed, &mut cells);
        cells
    }

    // The row of the state with this kernel, or the lowest symbol in conflict.
    pub(crate) fn row_of(&self, kernels: &Kernels, kernel: &ItemSet) -> Result<Row, u8>
        ensures { let rules = rules_in self.now in Settled (row_of (L.Lookahead.policy self.now.look.now) (relations_in self.now) (kernels_in (length rules + 1) kernels.now) (close (lines_of rules) (rows_for rules kernel.now.rows))) result }
    {
        settle(&self.cells_of(kernels, &self.closed(kernel)))
    }
}
