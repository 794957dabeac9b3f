// What a build of a card answers.
use crate::answers::Answer;
use card::card::Card;
use grammar::lookaheads::LSLR;
use grammar::sets::SYMBOLS;
use tables::kernels::MOST_STATES;

// Builds a card under LSLR.
pub(crate) fn build(card: &mut Card) -> Answer {
    card.build(&LSLR).into()
}

// How many rows a card answers.
fn rows(card: &Card, row: &mut [u16]) -> usize {
    (0..MOST_STATES)
        .take_while(|state| card.row(*state, row).is_ok())
        .count()
}

// A build's answer, with how many states there are.
pub(crate) fn states(card: &Card, answer: Answer) -> Answer {
    match answer {
        Answer::Granted => Answer::States(rows(card, &mut [0; SYMBOLS])),
        refused => refused,
    }
}
