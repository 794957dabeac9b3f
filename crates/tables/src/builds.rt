// What a build goes by.
ghost use Rattle.std.specs.Prelude.{◌≤◌, length};
ghost use Rattle.book.specs.Symbols.{most_rules};

use grammar::relations::RelatedRules;

// A lookahead policy, and the rules of a book with their relations.
#[derive(Drop)]
pub(crate) struct Build<'a, L> {
    pub(crate) look: &'a L,
    pub(crate) related: &'a RelatedRules<'a>,
    ghost few: { length related.now.rules.now ≤ most_rules },
}
