// Sets of symbols, as a flag for each code. A code past the last is in no set.
ghost use Rattle.std.specs.Prelude.{◌≡◌, false};
ghost use Rattle.grammar.specs.Sets.{has, insert, only};

// How many symbols there are: the codes 0 to 80.
pub const SYMBOLS: usize = 81;

pub type SymbolSet = [bool; SYMBOLS];

// Whether the flag at a place is set; past the last none is.
pub(crate) fn flag_at(flags: &[bool], place: usize) -> bool
    ensures { result ≡ has flags.now place }
{
    flags.get(place).copied().unwrap_or(false)
}

pub fn contains(set: &SymbolSet, symbol: u8) -> bool
    ensures { result ≡ has set.now symbol }
{
    flag_at(set, usize::from(symbol))
}

// The set of one symbol; of none, for a code past the last.
pub(crate) fn only(symbol: u8) -> SymbolSet
    ensures { result ≡ only symbol }
{
    let mut set = [false; SYMBOLS];
    insert(&mut set, symbol);
    set
}

// Puts a symbol in, and answers whether that changed the set.
pub fn insert(set: &mut SymbolSet, symbol: u8) -> bool
    ensures after { set.new ≡ insert set.old symbol }
    ensures still { result ≡ false → set.new ≡ set.old }
{
    let x = symbol as usize;
    if x >= SYMBOLS || set[x] {
        return false;
    }
    set[x] = true;
    true
}
