// Each refusal at its edge, strikes, and round trips.
use crate::books::{Book, StrikeError};
use crate::files::{LoadError, SaveError};
use crate::rules::EnterError;
use std::process::Abort;
use std::test::Fail;

// The longest file: 100 rules with six right symbols each.
const LONGEST_FILE: usize = 802;

// 41 -> 1, 42 -> 2 3, 43 -> 44.
const SMALL: [u8; 12] = [1, 41, 1, 2, 42, 2, 3, 1, 43, 44, 7, 3];

fn small() -> Result<Book, Fail> {
    let mut book = Book::new();
    book.load(&SMALL)?;
    Ok(book)
}

// The rules 41 -> a b 1 1 1 1, for `count` pairs of a and b.
fn many(count: u8) -> Result<Book, Fail> {
    let mut book = Book::new();
    for k in 0..count {
        book.enter(41, &[k % 80 + 1, k / 80 + 1, 1, 1, 1, 1])?;
    }
    Ok(book)
}

// Whether the book's file is these bytes.
fn saves_as(rt: &impl Abort, book: &Book, bytes: &[u8]) -> Result<(), Fail> {
    let mut out = [255; LONGEST_FILE];
    let n = book.save(&mut out)?;
    assert!(rt; n <= LONGEST_FILE);
    assert!(rt; &out[..n] == bytes);
    Ok(())
}

#[test]
fn left_codes(rt: HostRuntime) -> Result<(), Fail> {
    let mut book = Book::new();
    assert_eq!(rt; book.enter(40, &[1]), Err(EnterError::Left));
    assert_eq!(rt; book.enter(81, &[1]), Err(EnterError::Left));
    assert_eq!(rt; book.enter(41, &[1]), Ok(()));
    assert_eq!(rt; book.enter(80, &[1]), Ok(()));
    saves_as(&rt, &book, &[1, 41, 1, 1, 80, 1, 7, 2])
}

#[test]
fn right_sides(rt: HostRuntime) -> Result<(), Fail> {
    let mut book = Book::new();
    assert_eq!(rt; book.enter(41, &[]), Err(EnterError::Length));
    assert_eq!(rt; book.enter(41, &[1; 7]), Err(EnterError::Length));
    assert_eq!(rt; book.enter(41, &[0, 1, 81]), Err(EnterError::Code(0)));
    assert_eq!(rt; book.enter(41, &[1, 80, 81, 0]), Err(EnterError::Code(2)));
    assert_eq!(rt; book.enter(41, &[1]), Ok(()));
    assert_eq!(rt; book.enter(41, &[80, 1, 1, 1, 1, 1]), Ok(()));
    saves_as(&rt, &book, &[1, 41, 1, 6, 41, 80, 1, 1, 1, 1, 1, 7, 2])
}

// The refusals of an enter come in the order of their numbers.
#[test]
fn refusals_in_order(rt: HostRuntime) -> Result<(), Fail> {
    let mut full = many(100)?;
    assert_eq!(rt; full.enter(0, &[]), Err(EnterError::Full));
    assert_eq!(rt; full.rules().len(), 100);
    let mut book = small()?;
    assert_eq!(rt; book.enter(0, &[]), Err(EnterError::Left));
    assert_eq!(rt; book.enter(41, &[]), Err(EnterError::Length));
    assert_eq!(rt; book.enter(42, &[2, 3]), Err(EnterError::Duplicate));
    assert_eq!(rt; book.enter(42, &[3, 2]), Ok(()));
    assert_eq!(rt; book.enter(42, &[2]), Ok(()));
    assert_eq!(rt; book.enter(43, &[2, 3]), Ok(()));
    Ok(())
}

#[test]
fn strikes(rt: HostRuntime) -> Result<(), Fail> {
    let mut book = small()?;
    assert_eq!(rt; book.strike(0), Err(StrikeError::Missing));
    assert_eq!(rt; book.strike(4), Err(StrikeError::Missing));
    assert_eq!(rt; book.strike(2), Ok(()));
    saves_as(&rt, &book, &[1, 41, 1, 1, 43, 44, 7, 2])?;
    assert_eq!(rt; book.strike(2), Ok(()));
    saves_as(&rt, &book, &[1, 41, 1, 7, 1])?;
    assert_eq!(rt; book.strike(1), Ok(()));
    assert_eq!(rt; book.strike(1), Err(StrikeError::Missing));
    saves_as(&rt, &book, &[7, 0])?;
    let mut other = small()?;
    assert_eq!(rt; other.strike(1), Ok(()));
    saves_as(&rt, &other, &[2, 42, 2, 3, 1, 43, 44, 7, 2])
}

// A file that is cut names the record that is cut off.
#[test]
fn cut_files(rt: HostRuntime) -> Result<(), Fail> {
    let places = [0, 0, 0, 3, 3, 3, 3, 7, 7, 7, 10, 10];
    let mut book = small()?;
    for (n, place) in places.iter().enumerate() {
        assert_eq!(rt; book.load(&SMALL[..n]), Err(LoadError::Ended(*place)));
    }
    saves_as(&rt, &book, &SMALL)
}

#[test]
fn wrong_files(rt: HostRuntime) -> Result<(), Fail> {
    let mut book = small()?;
    assert_eq!(rt; book.load(&[0]), Err(LoadError::Kind(0)));
    assert_eq!(rt; book.load(&[1, 41, 1, 8, 41, 1]), Err(LoadError::Kind(3)));
    assert_eq!(rt;
        book.load(&[1, 41, 1, 1, 40, 1, 7, 2]),
        Err(LoadError::Enter(3, EnterError::Left))
    );
    assert_eq!(rt;
        book.load(&[2, 41, 1, 81, 7, 1]),
        Err(LoadError::Enter(0, EnterError::Code(1)))
    );
    assert_eq!(rt;
        book.load(&[1, 41, 1, 1, 41, 1, 7, 2]),
        Err(LoadError::Enter(3, EnterError::Duplicate))
    );
    assert_eq!(rt; book.load(&[1, 41, 1, 7, 0]), Err(LoadError::Count(3)));
    assert_eq!(rt; book.load(&[1, 41, 1, 7, 2, 9]), Err(LoadError::Count(3)));
    assert_eq!(rt;
        book.load(&[1, 41, 1, 7, 1, 7]),
        Err(LoadError::Trailing(5))
    );
    saves_as(&rt, &book, &SMALL)
}

fn round_trip(rt: &impl Abort, count: u8) -> Result<(), Fail> {
    let mut out = [0; LONGEST_FILE];
    let n = many(count)?.save(&mut out)?;
    assert!(rt; n <= LONGEST_FILE);
    assert_eq!(rt; n, 8 * count as usize + 2);
    let mut book = small()?;
    book.load(&out[..n])?;
    assert_eq!(rt; book.rules().len(), count as usize);
    saves_as(rt, &book, &out[..n])
}

#[test]
fn round_trips(rt: HostRuntime) -> Result<(), Fail> {
    for count in [0, 1, 2, 99, 100] {
        round_trip(&rt, count)?;
    }
    Ok(())
}

// A buffer that is too short is left as it was; a longer one, past the file.
#[test]
fn buffers(rt: HostRuntime) -> Result<(), Fail> {
    let book = small()?;
    let mut short = [9; 11];
    assert_eq!(rt; book.save(&mut short), Err(SaveError::Short));
    assert_eq!(rt; short, [9; 11]);
    let mut long = [9; 13];
    assert_eq!(rt; book.save(&mut long), Ok(12));
    assert_eq!(rt; long[12], 9);
    assert_eq!(rt; book.save(&mut long[..12]), Ok(12));
    Ok(())
}

#[test]
fn printed_refusals(rt: HostRuntime) -> Result<(), Fail> {
    let heap = rt.alloc();
    let bad_code = LoadError::Enter(3, EnterError::Code(1));
    assert_eq!(rt;
        EnterError::Full.to_string(heap)?.as_str(),
        "1, the book is full"
    );
    assert_eq!(rt;
        StrikeError::Missing.to_string(heap)?.as_str(),
        "6, there is no rule of that number"
    );
    assert_eq!(rt;
        bad_code.to_string(heap)?.as_str(),
        "17 at 3, the rule is refused (4, right code at index 1 is no symbol)"
    );
    assert_eq!(rt;
        SaveError::Short.to_string(heap)?.as_str(),
        "20, the buffer is too short"
    );
    Ok(())
}
