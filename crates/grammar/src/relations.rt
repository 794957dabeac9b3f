// The relations of a book's rules: corners and followers of every symbol. They are worked out anew at each build.
ghost use Rattle.std.specs.Prelude.{◌≡◌, [], map, drop, slice_index, slice_index_or};
ghost use Rattle.book.specs.Held.{production_of, productions_of};
ghost use Rattle.grammar.specs.Ends.{end_of};
ghost use Rattle.grammar.specs.Laws.{Tells, RelationsTell};
ghost use Rattle.grammar.specs.Meaning.{Corner};
ghost use Rattle.grammar.specs.Relating.{related_by, HasAllSets};
ghost use Rattle.grammar.specs.Relations.{corner_step, corners_of, corners, behind, leftmost_of, followers_of, relations_of};
ghost use Rattle.grammar.specs.Sets.{has, codes, union};

use crate::growing::{Growth, saturate};
use crate::sets::{SYMBOLS, SymbolSet, contains, insert, only};
use book::rules::Rule;
use book::symbols::FIRST_NONTERMINAL;

// Which end of a right side: left corners go by the first symbol, right corners by the last.
#[derive(Clone, Copy)]
pub enum End {
    First,
    Last,
}

// The symbol at an end of a rule's right side.
fn symbol_at(rule: &Rule, end: End) -> u8
    ensures { result ≡ end_of end (production_of rule.now) }
{
    let right = rule.right();
    match end {
        End::First => right[0],
        End::Last => right[right.len() - 1],
    }
}

// A rule for a symbol of the set puts the symbol at this end of its right side in.
impl Growth for End {
    ghost grown = { λ e. corner_step (end_of e) };

    fn grow(&self, set: &mut SymbolSet, rule: &Rule) -> bool {
        if !contains(set, rule.left()) {
            return false;
        }
        insert(set, symbol_at(rule, *self))
    }
}

// A set for each symbol.
pub type SymbolTable = [SymbolSet; SYMBOLS];

// The set of a symbol; none has a code past the last.
pub(crate) fn set_of(table: &SymbolTable, symbol: u8) -> SymbolSet
    ensures { result ≡ map (has (slice_index_or table.now symbol [])) codes }
{
    table
        .get(usize::from(symbol))
        .copied()
        .unwrap_or([false; SYMBOLS])
}

// Whether y is in the set of x.
pub fn related(table: &SymbolTable, x: u8, y: u8) -> bool
    ensures { result ≡ has (slice_index_or table.now x []) y }
{
    table
        .get(usize::from(x))
        .is_some_and(|set| contains(set, y))
}

fn corners_of(rules: &[Rule], end: End, symbol: u8) -> SymbolSet
    ensures { result ≡ corners_of (end_of end) (productions_of rules.now) symbol }
{
    let mut set = only(symbol);
    saturate(&end, rules, &mut set);
    set
}

// The corners of every symbol.
// Stays a loop, as for leftmost followers: of a closure that calls by what it captures `array::from_fn` knows no answer, but by clauses written on it, which is longer.
pub fn corners(rules: &[Rule], end: End) -> SymbolTable
    ensures equal { result ≡ corners (end_of end) (productions_of rules.now) }
    ensures tell { Tells result (λ x z. Corner (end_of end) (productions_of rules.now) z x) }
{
    let mut all = [[false; SYMBOLS]; SYMBOLS];
    for (x, set) in all.iter_mut().enumerate() {
        *set = corners_of(rules, end, x as u8);
    }
    all
}

// Puts in what stands directly behind a symbol of which `a` is a right corner.
fn insert_behind(set: &mut SymbolSet, rights: &SymbolTable, a: u8, right: &[u8])
    ensures { set.new ≡ behind (λ x. has (slice_index_or rights.now x []) a) set.old (slice_index right.now 0) (drop 1 right.now) }
{
    for pair in right.windows(2) {
        if related(rights, pair[0], a) {
            insert(set, pair[1]);
        }
    }
}

fn leftmost_of(rights: &SymbolTable, rules: &[Rule], a: u8) -> SymbolSet
    ensures { result ≡ leftmost_of rights.now (productions_of rules.now) a }
{
    let mut set = [false; SYMBOLS];
    if related(rights, FIRST_NONTERMINAL, a) {
        insert(&mut set, 0);
    }
    for rule in rules {
        insert_behind(&mut set, rights, a, rule.right());
    }
    set
}

// The leftmost followers of every symbol.
fn leftmosts(rights: &SymbolTable, rules: &[Rule]) -> SymbolTable
    ensures { result ≡ map (leftmost_of rights.now (productions_of rules.now)) codes }
{
    let mut all = [[false; SYMBOLS]; SYMBOLS];
    for (a, set) in all.iter_mut().enumerate() {
        *set = leftmost_of(rights, rules, a as u8);
    }
    all
}

// Puts all symbols of another set in.
pub(crate) fn unite(set: &mut SymbolSet, other: &SymbolSet)
    ensures { set.new ≡ union set.old other.now }
{
    // Stays an index into the other set: an invariant can't name what a zip with `iter_mut` writes, so the clause stayed open.
    for (x, is_in) in set.iter_mut().enumerate() {
        *is_in |= other[x];
    }
}

fn followers_of(lefts: &SymbolTable, leftmost: &SymbolSet) -> SymbolSet
    ensures { result ≡ followers_of lefts.now leftmost.now }
{
    let mut set = [false; SYMBOLS];
    for (corners, is_leftmost) in lefts.iter().zip(leftmost) {
        if *is_leftmost {
            unite(&mut set, corners);
        }
    }
    set
}

// The followers of every symbol.
fn followers(lefts: &SymbolTable, leftmosts: &SymbolTable) -> SymbolTable
    ensures { result ≡ map (followers_of lefts.now) leftmosts.now }
{
    let mut all = [[false; SYMBOLS]; SYMBOLS];
    for (a, set) in all.iter_mut().enumerate() {
        // Stays an index, as in `unite`. Of the closure of `leftmosts.map(..)` nothing is inferred, since it answers an array.
        *set = followers_of(lefts, &leftmosts[a]);
    }
    all
}

// What a build works out once: left corners, leftmost followers and followers of every symbol.
#[derive(Clone, Copy)]
pub struct RelationSets {
    pub lefts: SymbolTable,
    pub leftmosts: SymbolTable,
    pub followers: SymbolTable,
}

impl RelationSets {
    pub fn of(rules: &[Rule]) -> RelationSets
        ensures equal { related_by result (productions_of rules.now) ≡ relations_of (productions_of rules.now) }
        ensures tell { RelationsTell (productions_of rules.now) (related_by result (productions_of rules.now)) }
    {
        let lefts = corners(rules, End::First);
        let rights = corners(rules, End::Last);
        let leftmosts = leftmosts(&rights, rules);
        let followers = followers(&lefts, &leftmosts);
        RelationSets {
            lefts,
            leftmosts,
            followers,
        }
    }

    // Tells a proof that each table has a set for each symbol: it knows that of `self`, but not of what lies two references deep.
    fn tell_sizes(&self)
        ensures { HasAllSets self.now }
    {}
}

// Rules, with the relation sets of a build beside them.
#[derive(Clone, Copy)]
pub struct RelatedRules<'a> {
    pub rules: &'a [Rule],
    pub sets: &'a RelationSets,
}

impl<'a> RelatedRules<'a> {
    // The rules. From a call of this on, a proof knows the tables' sizes; the field alone doesn't tell them.
    pub fn rules(&self) -> &'a [Rule]
        ensures value { result.now ≡ self.now.rules.now }
        ensures sized { HasAllSets self.now.sets.now }
    {
        self.sets.tell_sizes();
        self.rules
    }
}
