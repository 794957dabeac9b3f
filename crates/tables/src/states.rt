// The states of a book, found one after another from their kernels.
ghost use Rattle.std.specs.Prelude.{◌≡◌, ◌+◌, length};
ghost use Rattle.grammar.specs.Items.{close, start_kernel};
ghost use Rattle.grammar.specs.States.{visit, kernels_of};
ghost use Rattle.tables.specs.Kept.{rules_in, relations_in, lines_of, rows_for, kernels_in, Found};

use crate::builds::Build;
use crate::closing::close;
use crate::kernels::{Full, Kernels};
use crate::moving::{ItemSet, MOST_NUMBERED};
use grammar::items::{DOTS, reads};
use grammar::lookaheads::Lookahead;

impl<L: Lookahead> Build<'_, L> {
    // The kernel of state 0: the outer rule with its dot at 0.
    fn start_kernel(&self) -> ItemSet
        ensures { rows_for (rules_in self.now) result.rows ≡ start_kernel (lines_of (rules_in self.now)) }
    {
        let mut rows = [[false; DOTS]; MOST_NUMBERED];
        rows[0][0] = true;
        ItemSet { rows }
    }

    // A kernel, closed.
    pub(crate) fn closed(&self, kernel: &ItemSet) -> ItemSet
        ensures { rows_for (rules_in self.now) result.rows ≡ close (lines_of (rules_in self.now)) (rows_for (rules_in self.now) kernel.now.rows) }
    {
        let mut rows = kernel.rows;
        close(self.related.rules, &mut rows[..=self.related.rules.len()]);
        ItemSet { rows }
    }

    // The kernels of the states that follow a state with these items are found.
    fn visit(&self, kernels: &mut Kernels, items: &ItemSet) -> Result<(), Full>
        ensures { let rules = rules_in self.now in Found (length rules + 1) (visit (lines_of rules) (rows_for rules items.now.rows) (kernels_in (length rules + 1) kernels.old)) kernels.new result }
    {
        let n = self.related.rules.len() + 1;
        let set = reads(self.related.rules, self.rows(items));
        for (x, read) in set.iter().enumerate() {
            if *read {
                kernels.find(n, &self.onward(items, x as u8))?;
            }
        }
        Ok(())
    }

    // The kernels of all states are found. They are lent: as an answer they would be copied.
    pub(crate) fn explore(&self, kernels: &mut Kernels) -> Result<(), Full>
        ensures { Found (length (rules_in self.now) + 1) (kernels_of (L.Lookahead.policy self.now.look.now) (relations_in self.now)) kernels.new result }
    {
        kernels.start(&self.start_kernel());
        let mut state = 0;
        // Stays an index: visiting a state puts others behind it, so that no iterator can hold the kernels.
        while let Some(kernel) = kernels.found().get(state) {
            let items = self.expanded(&self.closed(kernel));
            self.visit(kernels, &items)?;
            state += 1;
        }
        Ok(())
    }
}
