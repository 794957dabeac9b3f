// The codes of symbols: 0 is the end mark, 1 to 40 are terminals, 41 to 80 nonterminals.
ghost use Rattle.std.specs.Prelude.{◌≡◌};
ghost use Rattle.book.specs.Symbols.{is_terminal, is_nonterminal, is_symbol};

pub const LAST_TERMINAL: u8 = 40;

pub const FIRST_NONTERMINAL: u8 = 41;

pub const LAST_SYMBOL: u8 = 80;

pub fn is_terminal(code: u8) -> bool
    ensures { result ≡ is_terminal code }
{
    matches!(code, 1..=LAST_TERMINAL)
}

pub fn is_nonterminal(code: u8) -> bool
    ensures { result ≡ is_nonterminal code }
{
    matches!(code, FIRST_NONTERMINAL..=LAST_SYMBOL)
}

// Whether a code may stand in a right side: any symbol but the end mark.
pub fn is_symbol(code: u8) -> bool
    ensures { result ≡ is_symbol code }
{
    matches!(code, 1..=LAST_SYMBOL)
}
