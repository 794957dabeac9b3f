// Book files: a run of records, one byte of kind first, then a body whose length the kind fixes.
// Kinds 1 to 6 are rules with that many right symbols; kind 7 closes the file with the number of rules.
ghost use Rattle.std.specs.Prelude.{◌≡◌, ◌+◌, ◌-◌, ◌^◌, ◌<◌, ◌≤◌, true, [], ◌++◌, length, take, drop, IfSome, IfOk, Some, None, OnErr, OnOk};
ghost use Rattle.book.specs.Answers.{granted, and_then, said, said_of};
ghost use Rattle.book.specs.Files.{record_of, file_of, save_says, saved_in, body_says, rules_after, closing_says, record_says, record_leaves, width, load_says, loaded, LoadsBack, IsFileOf};
ghost use Rattle.book.specs.Held.{production_of, rules_of};
ghost use Rattle.book.specs.Kinds.{Decodes};
ghost use Rattle.book.specs.Refusals.{save_refusal, load_refusal};
ghost use Rattle.book.specs.Rules.{is_well_formed, Keeps};
ghost use Rattle.book.specs.Symbols.{longest_right};
ghost use Rattle.std.specs.Option.{option_map};

use crate::books::Book;
use crate::rules::{EnterError, LONGEST_RIGHT, Rule};
use std::error::Error;
use std::fmt;

const CLOSING: usize = 7;

#[derive(Clone, Copy, PartialEq, Debug)]
pub enum SaveError {
    Short,
}

impl fmt::Display for SaveError {
    ghost use Rattle.std.specs.Prelude.{Some};
    ghost use Rattle.book.specs.Refusals.{save_refusal};
    ghost use Rattle.book.specs.Texts.{refusal_text};

    ghost output = { λ e. Some (refusal_text (save_refusal e)) };

    fn fmt<W: fmt::Write>(&self, f: &mut fmt::Formatter<W>) -> fmt::Result {
        match self {
            SaveError::Short => f.write_str("20, the buffer is too short"),
        }
    }
}

impl Error for SaveError {}

// Each case has the byte index where its record begins or is due; the last, that of the byte past the file.
#[derive(Clone, Copy, PartialEq, Debug)]
pub enum LoadError {
    Kind(usize),
    Ended(usize),
    Enter(usize, EnterError),
    Count(usize),
    Trailing(usize),
}

// The number of the refusal.
impl From<LoadError> for u8 {
    ghost use Rattle.std.specs.Prelude.{◌≡◌};
    ghost use Rattle.book.specs.Refusals.{load_refusal, number_of};

    ghost from_gives = { λ error number. number ≡ number_of (load_refusal error) };

    fn from(error: LoadError) -> u8 {
        match error {
            LoadError::Kind(_) => 15,
            LoadError::Ended(_) => 16,
            LoadError::Enter(_, _) => 17,
            LoadError::Count(_) => 18,
            LoadError::Trailing(_) => 19,
        }
    }
}

impl fmt::Display for LoadError {
    ghost use Rattle.std.specs.Prelude.{Some};
    ghost use Rattle.book.specs.Texts.{load_text};

    ghost output = { λ e. Some (load_text e) };

    fn fmt<W: fmt::Write>(&self, f: &mut fmt::Formatter<W>) -> fmt::Result {
        match self {
            LoadError::Kind(at) => write!(f, "15 at {at}, no record has that kind"),
            LoadError::Ended(at) => write!(f, "16 at {at}, the bytes end where a byte is due"),
            LoadError::Enter(at, cause) => write!(f, "17 at {at}, the rule is refused ({cause})"),
            LoadError::Count(at) => write!(f, "18 at {at}, the count is wrong"),
            LoadError::Trailing(at) => write!(f, "19 at {at}, a byte follows the end"),
        }
    }
}

impl Error for LoadError {}

// What a record is, by its first byte: a rule with so many right symbols, or what closes the file.
enum Kind {
    Rule(usize),
    Closing,
}

// No record begins with that byte.
struct UnknownKind;

impl TryFrom<u8> for Kind {
    type Error = UnknownKind;

    ghost try_from_gives = { Decodes };

    fn try_from(byte: u8) -> Result<Kind, UnknownKind> {
        match byte as usize {
            CLOSING => Ok(Kind::Closing),
            n @ 1..=LONGEST_RIGHT => Ok(Kind::Rule(n)),
            _ => Err(UnknownKind),
        }
    }
}

// Writes bytes at a place, and answers the place past them.
// Stays with the place beside the buffer: for two functions, a writer as in `report` is longer than what it saves.
fn put(out: &mut [u8], at: usize, bytes: &[u8]) -> usize
    requires { at + length bytes.now ≤ length out.old }
    ensures next { result ≡ at + length bytes.now }
    ensures front { take result out.new ≡ take at out.old ++ bytes.now }
    ensures back { drop result out.new ≡ drop result out.old }
{
    let end = at + bytes.len();
    out[at..end].copy_from_slice(bytes);
    end
}

// Writes a rule's record at a place, and answers the place past it.
fn put_record(out: &mut [u8], at: usize, rule: &Rule) -> usize
    requires { at + length (record_of (production_of rule.now)) ≤ length out.old }
    ensures next { result ≡ at + length (record_of (production_of rule.now)) }
    ensures front { take result out.new ≡ take at out.old ++ record_of (production_of rule.now) }
    ensures back { drop result out.new ≡ drop result out.old }
{
    let right = rule.right();
    let body = put(out, at, &[right.len() as u8, rule.left()]);
    put(out, body, right)
}

impl Book {
    // How many bytes the book's file has.
    fn file_size(&self) -> usize
        ensures { result ≡ length (file_of (rules_of self.now)) }
    {
        let records: usize = self.rules().iter().map(|rule| 2 + rule.right().len()).sum();
        records + 2
    }

    // Writes the book's file at the start of a buffer, and answers how many bytes it has.
    pub fn save(&self, out: &mut [u8]) -> Result<usize, SaveError>
        ensures answer { said save_refusal result ≡ save_says (rules_of self.now) (length out.old) }
        ensures buffer { out.new ≡ saved_in (rules_of self.now) out.old }
        ensures loads { IfOk result (λ n. LoadsBack (rules_of self.now) n out.new) }
    {
        if out.len() < self.file_size() {
            return Err(SaveError::Short);
        }
        let rules = self.rules();
        let mut at = 0;
        for rule in rules {
            at = put_record(out, at, rule);
        }
        Ok(put(out, at, &[CLOSING as u8, rules.len() as u8]))
    }

    // Enters the rule of a record with this body, and answers how many bytes the record has.
    fn load_rule(&mut self, body: &[u8], n: usize, place: usize) -> Result<usize, LoadError>
        requires { n ≤ longest_right }
        ensures answer { said_of Some load_refusal result ≡ and_then (body_says (rules_of self.old) place n body.now) (λ o. granted (option_map width o)) }
        ensures rules { rules_of self.new ≡ rules_after (rules_of self.old) (body_says (rules_of self.old) place n body.now) }
        ensures within { IfOk result (λ w. (0 < w) × (w ≤ length body.now + 1)) }
    {
        let [left, rest @ ..] = body else {
            return Err(LoadError::Ended(place));
        };
        let Some(right) = rest.get(..n) else {
            return Err(LoadError::Ended(place));
        };
        self.enter(*left, right)
            .map_err(|cause| LoadError::Enter(place, cause))?;
        Ok(n + 2)
    }

    // The body of the closing record is the number of rules, and nothing follows it.
    // Stays with the place beside the bytes: within a record the bytes get fewer, and the place is still that of the record.
    fn closes(&self, body: &[u8], place: usize) -> Result<(), LoadError>
        requires { place + length body.now < 2 ^ 64 - 1 }
        ensures { said_of (λ _. None) load_refusal result ≡ closing_says (rules_of self.now) place body.now }
    {
        let [count, rest @ ..] = body else {
            return Err(LoadError::Ended(place));
        };
        if *count as usize != self.rules().len() {
            return Err(LoadError::Count(place));
        }
        if !rest.is_empty() {
            return Err(LoadError::Trailing(place + 2));
        }
        Ok(())
    }

    // Takes in the record at the front of the bytes: answers how many bytes it has, or None if it closes the file.
    fn load_record(&mut self, bytes: &[u8], place: usize) -> Result<Option<usize>, LoadError>
        requires { place + length bytes.now < 2 ^ 64 }
        ensures answer { said load_refusal result ≡ and_then (record_says (rules_of self.old) place bytes.now) (λ o. granted (option_map width o)) }
        ensures rules { rules_of self.new ≡ record_leaves (rules_of self.old) place bytes.now }
        ensures within { IfOk result (λ o. IfSome o (λ w. (0 < w) × (w ≤ length bytes.now))) }
    {
        let [byte, body @ ..] = bytes else {
            return Err(LoadError::Ended(place));
        };
        match Kind::try_from(*byte) {
            Ok(Kind::Rule(n)) => self.load_rule(body, n, place).map(Some),
            Ok(Kind::Closing) => self.closes(body, place).map(|_| None),
            Err(UnknownKind) => Err(LoadError::Kind(place)),
        }
    }

    // Enters the rules of a file into an empty book, record by record.
    fn load_all(&mut self, bytes: &[u8]) -> Result<(), LoadError>
        requires { rules_of self.old ≡ [] }
        ensures { said_of (λ _. rules_of self.new) load_refusal result ≡ load_says bytes.now }
    {
        // Stays by place: a refusal names the place of its record, and the width of a record is known once it is read.
        let mut place = 0;
        while let Some(width) = self.load_record(&bytes[place..], place)? {
            place += width;
        }
        Ok(())
    }

    // Reads a file into an empty book, which takes this book's place if all of it is granted.
    pub fn load(&mut self, bytes: &[u8]) -> Result<(), LoadError>
        ensures answer { said load_refusal result ≡ and_then (load_says bytes.now) (λ _. granted tt) }
        ensures rules { rules_of self.new ≡ loaded (rules_of self.old) bytes.now }
        ensures file { OnOk result (IsFileOf bytes.now (rules_of self.new)) }
        ensures sound { OnOk result (is_well_formed (rules_of self.new) ≡ true) }
        ensures kept { Keeps (rules_of self.old) (rules_of self.new) }
        ensures same { OnErr result (self.new ≡ self.old) }
    {
        let mut fresh = Book::new();
        fresh.load_all(bytes)?;
        *self = fresh;
        Ok(())
    }
}
