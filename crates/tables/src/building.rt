// The tables of a book: the action of every state at every symbol.
ghost use Rattle.std.specs.Prelude.{◌≡◌, ◌+◌, ◌<◌, [], ◌∷◌, ◌++◌, map, length, take};
ghost use Rattle.book.specs.Answers.{said_of, said};
ghost use Rattle.book.specs.Held.{productions_of};
ghost use Rattle.grammar.specs.Build.{rows_of, without_conflict, built_by};
ghost use Rattle.grammar.specs.States.{most_states};
ghost use Rattle.tables.specs.Acts.{act_of, acts_of};
ghost use Rattle.tables.specs.Built.{table_of, build_refusal, fill_says, row_refusal, row_says, row_in};
ghost use Rattle.tables.specs.Kept.{rules_in, relations_in, kernels_in};
ghost use Rattle.tables.specs.Looked.{act_in};

use crate::actions::{Action, Row};
use crate::builds::Build;
use crate::encoding::encode;
use crate::kernels::{Full, Kernels, MOST_STATES};
use book::books::MOST_RULES;
use book::rules::Rule;
use grammar::lookaheads::Lookahead;
use grammar::relations::{RelatedRules, RelationSets};
use grammar::sets::SYMBOLS;
use grammar::useful::useless;

// How many rows belong to a state.
// Stays beside the rows: their memory is fixed, and a later guard is to hold the count alone.
#[derive(Clone, Copy)]
pub struct Size {
    states: usize,
}

#[derive(Drop)]
pub struct Tables {
    rows: [Row; MOST_STATES],
    size: Size,
}

#[derive(Clone, Copy, PartialEq, Debug)]
pub enum BuildError {
    Rules,
    Useless(u8),
    States,
    Conflict(u8, u8),
}

// The number of the refusal.
impl From<BuildError> for u8 {
    ghost use Rattle.std.specs.Prelude.{◌≡◌};
    ghost use Rattle.book.specs.Refusals.{number_of};
    ghost use Rattle.tables.specs.Built.{build_refusal};

    ghost from_gives = { λ error number. number ≡ number_of (build_refusal error) };

    fn from(error: BuildError) -> u8 {
        match error {
            BuildError::Rules => 1,
            BuildError::Useless(_) => 7,
            BuildError::States => 8,
            BuildError::Conflict(_, _) => 9,
        }
    }
}

#[derive(Clone, Copy, PartialEq, Debug)]
pub enum RowError {
    Short,
    State,
}

impl Tables {
    // Tables of no states.
    pub fn new() -> Tables
        ensures { table_of result ≡ [] }
    {
        Tables {
            rows: [Row {
                actions: [None; SYMBOLS],
            }; MOST_STATES],
            size: Size { states: 0 },
        }
    }

    // Puts in the row of a state, behind those before it.
    fn put(&mut self, state: usize, row: Row)
        requires { state < most_states }
        ensures { map acts_of (take (state + 1) self.new.rows) ≡ map acts_of (take state self.old.rows) ++ acts_of row ∷ [] }
    {
        self.rows[state] = row;
    }

    // The rows of the states with these kernels, as far as none has a conflict.
    fn fill_rows<L: Lookahead>(
        &mut self,
        build: &Build<L>,
        kernels: &Kernels,
    ) -> Result<(), BuildError>
        ensures { said_of (λ _. table_of self.new) build_refusal result ≡ without_conflict (rows_of (L.Lookahead.policy build.now.look.now) (relations_in build.now) (kernels_in (length (rules_in build.now) + 1) kernels.now)) }
    {
        for (s, kernel) in kernels.found().iter().enumerate() {
            match build.row_of(kernels, kernel) {
                Ok(row) => self.put(s, row),
                Err(x) => return Err(BuildError::Conflict(s as u8, x)),
            }
        }
        self.size.states = kernels.found().len();
        Ok(())
    }

    // The tables of what a build goes by.
    fn construct<L: Lookahead>(&mut self, build: &Build<L>) -> Result<(), BuildError>
        ensures { said_of (λ _. table_of self.new) build_refusal result ≡ built_by (L.Lookahead.policy build.now.look.now) (relations_in build.now) }
    {
        let mut kernels = Kernels::new();
        match build.explore(&mut kernels) {
            Ok(()) => self.fill_rows(build, &kernels),
            Err(Full) => Err(BuildError::States),
        }
    }

    // The tables of a book with these rules, by a lookahead policy. What they are after a refusal is free.
    pub fn fill<L: Lookahead>(&mut self, rules: &[Rule], look: &L) -> Result<(), BuildError>
        ensures { said_of (λ _. table_of self.new) build_refusal result ≡ fill_says (L.Lookahead.policy look.now) (productions_of rules.now) }
    {
        if rules.len() > MOST_RULES {
            return Err(BuildError::Rules);
        }
        if let Some(x) = useless(rules) {
            return Err(BuildError::Useless(x));
        }
        let sets = RelationSets::of(rules);
        let related = RelatedRules { rules, sets: &sets };
        self.construct(&Build {
            look,
            related: &related,
        })
    }

    // The rows of the states, in order.
    pub fn rows(&self) -> &[Row]
        ensures value { map acts_of result.now ≡ table_of self.now }
        ensures len { length result.now ≡ length (table_of self.now) }
    {
        let n = self.size.states.min(MOST_STATES);
        &self.rows[0..n]
    }

    // The action of a state at a symbol; there is none at what is no state or no symbol.
    pub fn action(&self, state: usize, symbol: u8) -> Option<Action>
        ensures { act_of result ≡ act_in (table_of self.now) state symbol }
    {
        self.rows().get(state)?.at(symbol)
    }

    // Writes the row of a state as numbers at the start of a buffer, and answers how many they are.
    pub fn row(&self, state: usize, out: &mut [u16]) -> Result<usize, RowError>
        ensures answer { said row_refusal result ≡ row_says (table_of self.now) state (length out.old) }
        ensures out { out.new ≡ row_in (table_of self.now) state out.old }
    {
        if out.len() < SYMBOLS {
            return Err(RowError::Short);
        }
        let rows = self.rows();
        if state >= rows.len() {
            return Err(RowError::State);
        }
        encode(&rows[state], &mut out[0..SYMBOLS]);
        Ok(SYMBOLS)
    }
}
