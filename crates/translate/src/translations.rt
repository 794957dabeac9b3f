// The text that the program prints, from the bytes of a book file and of a tape.
ghost use Rattle.std.specs.Prelude.{◌≡◌, length};
ghost use Rattle.book.specs.Answers.{granted, said, and_then};
ghost use Rattle.grammar.specs.Build.{build_says};
ghost use Rattle.grammar.specs.Lookahead.{lslr};
ghost use Rattle.tables.specs.Built.{build_refusal};
ghost use Rattle.card.specs.Cards.{model_of};
ghost use Rattle.card.specs.Models.{after_build};
ghost use Rattle.report.specs.Buffers.{Reports, read_room};
ghost use Rattle.translate.specs.Tellings.{told_read, told_source, told_tape, told_build};
ghost use Rattle.translate.specs.Translations.{most_text, translation};

use card::card::Card;
use grammar::lookaheads::LSLR;
use reading::outcomes::Step;
use report::reports::{ReportError, report_error, report_read, report_tape};
use source::skips::Skip;
use source::sources::Source;
use source::tapes::Tape;
use tables::building::BuildError;

// How many steps a read may write.
const PLACES: usize = 4000;

// The word that is passed over.
const SKIPPED: u8 = 40;

// Reads a source into the list, and tells of it.
// Stays with the card and the buffer apart, here and below: no fact binds the two.
fn read_into<S: Source>(
    card: &mut Card,
    source: &mut S,
    list: &mut [Step],
    out: &mut [u8],
) -> Result<usize, ReportError>
    ensures { Reports (told_read (model_of card.old) (length list.old) (S.Source.means source.old)) (read_room (length list.old)) out.old out.new result }
{
    let outcome = card.read(source, list);
    report_read(&outcome, list, out)
}

// Reads a source without the skipped word, and tells of it. That word is a terminal, so a skip layer is never refused.
fn read_source<S: Source + Drop>(
    card: &mut Card,
    source: S,
    out: &mut [u8],
) -> Result<usize, ReportError>
    ensures { Reports (told_source (model_of card.old) (S.Source.means source)) most_text out.old out.new result }
{
    let mut list = [Step::default(); PLACES];
    let mut words = Skip::new(source, SKIPPED).unwrap();
    read_into(card, &mut words, &mut list, out)
}

// Reads a tape, and tells of it.
fn read_tape(card: &mut Card, tape: &[u8], out: &mut [u8]) -> Result<usize, ReportError>
    ensures { Reports (told_tape (model_of card.old) tape.now) most_text out.old out.new result }
{
    match Tape::new(tape) {
        Ok(source) => read_source(card, source, out),
        Err(error) => report_tape(&error, out),
    }
}

// Builds the card by LSLR.
fn build_lslr(card: &mut Card) -> Result<(), BuildError>
    ensures answer { said build_refusal result ≡ and_then (build_says lslr (model_of card.old).held_rules) (λ _. granted tt) }
    ensures model { model_of card.new ≡ after_build (model_of card.old) lslr }
{
    card.build(&LSLR)
}

// Builds the card and reads a tape, and tells of what ended the run.
fn build_and_read(card: &mut Card, tape: &[u8], out: &mut [u8]) -> Result<usize, ReportError>
    ensures { Reports (told_build (model_of card.old).held_rules tape.now) most_text out.old out.new result }
{
    match build_lslr(card) {
        Ok(()) => read_tape(card, tape, out),
        Err(error) => report_error(&error, out),
    }
}

// Writes the text at the start of a buffer, and answers how many bytes it has.
pub fn translate(book: &[u8], tape: &[u8], out: &mut [u8]) -> Result<usize, ReportError>
    ensures { Reports (translation book.now tape.now) most_text out.old out.new result }
{
    let mut card = Card::new();
    match card.load(book) {
        Ok(()) => build_and_read(&mut card, tape, out),
        Err(error) => report_error(&error, out),
    }
}
