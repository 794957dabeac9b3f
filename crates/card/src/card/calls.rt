// The calls of a card.
ghost use Rattle.std.specs.Prelude.{◌≡◌, ◌≤◌, length, drop, IfOk, Some, OnErr, OnOk};
ghost use Rattle.book.specs.Answers.{granted, said, said_of, and_then};
ghost use Rattle.book.specs.Files.{load_says, save_says, saved_in, LoadsBack, IsFileOf};
ghost use Rattle.book.specs.Held.{productions_of, rules_of};
ghost use Rattle.book.specs.Refusals.{enter_refusal, strike_refusal, load_refusal, save_refusal};
ghost use Rattle.book.specs.Rules.{◌⟶◌, enter_says, strike_says};
ghost use Rattle.grammar.specs.Build.{build_says};
ghost use Rattle.grammar.specs.Laws.{Lawful};
ghost use Rattle.tables.specs.Built.{table_of, build_refusal, fill_says};
ghost use Rattle.reading.specs.Told.{after_words};
ghost use Rattle.card.specs.Models.{fresh};
ghost use Rattle.card.specs.Cards.{model_of};
ghost use Rattle.card.specs.Histories.{calls_load, calls_enter, calls_strike, calls_build, calls_read, step_of, Serves, Promised, Stood};
ghost use Rattle.card.specs.Promises.{PromisedWhole};
ghost use Rattle.card.specs.Wanting.{card_row_refusal, row_of, row_into, told_by, steps_by, words_by, read_on, KeptOn};

use super::Card;
use crate::refusals::{CardRowError, ReadError};
use book::books::{Book, StrikeError};
use book::files::{LoadError, SaveError};
use book::rules::{EnterError, Rule};
use grammar::lookaheads::Lookahead;
use reading::outcomes::{Outcome, Step};
use reading::piles::Stacks;
use reading::runs::run;
use source::sources::Source;
use tables::building::{BuildError, Tables};

// Fills tables from a book. What they are after a refusal is free.
fn fill_from<L: Lookahead>(tables: &mut Tables, book: &Book, look: &L) -> Result<(), BuildError>
    ensures { said_of (λ _. table_of tables.new) build_refusal result ≡ fill_says (L.Lookahead.policy look.now) (rules_of book.now) }
{
    tables.fill(book.rules(), look)
}

impl Card {
    // No rules, not built.
    pub fn new() -> Card
        ensures { model_of result ≡ fresh }
    {
        Card {
            book: Book::new(),
            tables: None,
            stacks: Stacks::new(),
        }
    }

    // Adds the rule with these sides at the end.
    pub fn enter(&mut self, left: u8, right: &[u8]) -> Result<(), EnterError>
        ensures answer { said enter_refusal result ≡ enter_says (model_of self.old).held_rules (left ⟶ right.now) }
        ensures model { model_of self.new ≡ step_of (calls_enter (left ⟶ right.now)) (model_of self.old) }
        ensures service { Serves (calls_enter (left ⟶ right.now)) (model_of self.old) (model_of self.new) }
    {
        self.book.enter(left, right)?;
        // Tables that are gone already are not taken away again, here and below: that would write as many bytes as they have.
        if self.tables.is_some() {
            self.tables = None;
        }
        Ok(())
    }

    // Takes out the rule of this number; later rules move down one number.
    pub fn strike(&mut self, number: usize) -> Result<(), StrikeError>
        ensures answer { said strike_refusal result ≡ strike_says (model_of self.old).held_rules number }
        ensures model { model_of self.new ≡ step_of (calls_strike number) (model_of self.old) }
        ensures service { Serves (calls_strike number) (model_of self.old) (model_of self.new) }
    {
        self.book.strike(number)?;
        if self.tables.is_some() {
            self.tables = None;
        }
        Ok(())
    }

    // Replaces the rules by those of a file.
    pub fn load(&mut self, bytes: &[u8]) -> Result<(), LoadError>
        ensures answer { said load_refusal result ≡ and_then (load_says bytes.now) (λ _. granted tt) }
        ensures model { model_of self.new ≡ step_of (calls_load bytes.now) (model_of self.old) }
        ensures service { Serves (calls_load bytes.now) (model_of self.old) (model_of self.new) }
        ensures file { OnOk result (IsFileOf bytes.now (model_of self.new).held_rules) }
    {
        self.book.load(bytes)?;
        if self.tables.is_some() {
            self.tables = None;
        }
        Ok(())
    }

    // Writes the file of the rules at the start of a buffer, and answers how many bytes it has.
    pub fn save(&self, out: &mut [u8]) -> Result<usize, SaveError>
        ensures answer { said save_refusal result ≡ save_says (model_of self.now).held_rules (length out.old) }
        ensures buffer { out.new ≡ saved_in (model_of self.now).held_rules out.old }
        ensures loads { IfOk result (λ n. LoadsBack (model_of self.now).held_rules n out.new) }
    {
        self.book.save(out)
    }

    // The rules, in order of entry.
    pub fn rules(&self) -> &[Rule]
        ensures { productions_of result.now ≡ (model_of self.now).held_rules }
    {
        self.book.rules()
    }

    // Builds the tables of the rules by a lookahead policy. A refused build leaves the card not built.
    pub fn build<L: Lookahead>(&mut self, look: &L) -> Result<(), BuildError>
        ensures answer { said build_refusal result ≡ and_then (build_says (L.Lookahead.policy look.now) (model_of self.old).held_rules) (λ _. granted tt) }
        ensures lawful { Lawful (L.Lookahead.policy look.now) }
        ensures model { (law : Lawful (L.Lookahead.policy look.now)) → model_of self.new ≡ step_of (calls_build (L.Lookahead.policy look.now) law) (model_of self.old) }
        ensures service { (law : Lawful (L.Lookahead.policy look.now)) → Serves (calls_build (L.Lookahead.policy look.now) law) (model_of self.old) (model_of self.new) }
    {
        let tables = self.tables.get_or_insert_with(Tables::new);
        let filled = fill_from(tables, &self.book, look);
        if filled.is_err() {
            self.tables = None; // what a refused fill leaves is free
        }
        filled
    }

    // Writes the row of a state as numbers at the start of a buffer, and answers how many they are.
    pub fn row(&self, state: usize, out: &mut [u16]) -> Result<usize, CardRowError>
        ensures answer { said card_row_refusal result ≡ row_of (model_of self.now).held_rows state (length out.old) }
        ensures out { out.new ≡ row_into (model_of self.now).held_rows state out.old }
    {
        let Some(tables) = &self.tables else {
            return Err(CardRowError::NotBuilt);
        };
        tables.row(state, out).map_err(CardRowError::Row)
    }

    // Reads a source by the tables. The steps go to the front of the list.
    pub fn read<S: Source>(
        &mut self,
        source: &mut S,
        list: &mut [Step],
    ) -> Result<Outcome, ReadError>
        ensures answer { read_on (model_of self.old) (length list.old) (S.Source.means source.old) ≡ Some (told_by result list.new) }
        ensures kept { KeptOn (model_of self.old) (length list.old) (S.Source.means source.old) (told_by result list.new) }
        ensures within { steps_by result ≤ length list.old }
        ensures back { drop (steps_by result) list.new ≡ drop (steps_by result) list.old }
        ensures rest { S.Source.means source.new ≡ after_words (words_by result) (S.Source.means source.old) }
        ensures untouched { OnErr result (source.new ≡ source.old) }
        ensures model { model_of self.new ≡ model_of self.old }
        ensures service { Serves (calls_read (S.Source.means source.old) (length list.old)) (model_of self.old) (model_of self.new) }
        ensures promise { Promised (model_of self.old) (length list.old) (S.Source.means source.old) (told_by result list.new) }
        ensures whole { PromisedWhole (model_of self.old) (length list.old) (S.Source.means source.old) (told_by result list.new) }
        ensures stood { Stood (model_of self.old) }
    {
        let Some(tables) = &self.tables else {
            return Err(ReadError::NotBuilt);
        };
        Ok(run(tables, self.book.rules(), &mut self.stacks, source, list))
    }
}
