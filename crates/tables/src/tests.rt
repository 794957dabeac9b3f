// Small books: their tables, and what refuses them.
use crate::building::{BuildError, RowError, Tables};
use crate::encoding::word_of;
use book::books::Book;
use grammar::lookaheads::{LSLR, LeftmostFollow, Slr};
use std::test::Fail;

// A list: a 2, and a 1 for each further place.
fn list() -> Result<Book, Fail> {
    let mut book = Book::new();
    book.enter(41, &[41, 1])?;
    book.enter(41, &[2])?;
    Ok(book)
}

#[test]
fn tables_of_a_list(rt: HostRuntime) -> Result<(), Fail> {
    let book = list()?;
    let mut tables = Tables::new();
    tables.fill(book.rules(), &Slr)?;
    assert_eq!(rt; tables.rows().len(), 4);
    assert_eq!(rt; word_of(tables.action(0, 2)), 1001);
    assert_eq!(rt; word_of(tables.action(0, 41)), 1002);
    assert_eq!(rt; word_of(tables.action(1, 1)), 2002);
    assert_eq!(rt; word_of(tables.action(2, 0)), 1);
    assert_eq!(rt; word_of(tables.action(2, 1)), 1003);
    assert_eq!(rt; word_of(tables.action(3, 0)), 2001);
    assert_eq!(rt; word_of(tables.action(3, 2)), 0);
    assert_eq!(rt; word_of(tables.action(4, 0)), 0);
    assert_eq!(rt; word_of(tables.action(0, 81)), 0);
    Ok(())
}

#[test]
fn refused_books(rt: HostRuntime) -> Result<(), Fail> {
    let mut book = Book::new();
    let mut tables = Tables::new();
    assert_eq!(rt;
        tables.fill(book.rules(), &LeftmostFollow),
        Err(BuildError::Useless(41))
    );
    book.enter(41, &[41, 41])?;
    book.enter(41, &[1])?;
    assert_eq!(rt;
        tables.fill(book.rules(), &Slr),
        Err(BuildError::Conflict(3, 1))
    );
    Ok(())
}

#[test]
fn rows_as_numbers(rt: HostRuntime) -> Result<(), Fail> {
    let book = list()?;
    let mut tables = Tables::new();
    tables.fill(book.rules(), &Slr)?;
    let mut out = [7u16; 82];
    assert_eq!(rt; tables.row(3, &mut out), Ok(81));
    assert_eq!(rt; out[0], 2001);
    assert_eq!(rt; out[80], 0);
    assert_eq!(rt; out[81], 7);
    assert_eq!(rt; tables.row(4, &mut out), Err(RowError::State));
    assert_eq!(rt; tables.row(4, &mut out[0..80]), Err(RowError::Short));
    Ok(())
}

// Six times the same word, for 33 words, has as many states as there may be; one rule more has too many.
#[test]
fn as_many_states_as_there_may_be(rt: HostRuntime) -> Result<(), Fail> {
    let mut book = Book::new();
    for k in 1..34u8 {
        book.enter(41, &[k, k, k, k, k, k])?;
    }
    let mut tables = Tables::new();
    tables.fill(book.rules(), &LSLR)?;
    assert_eq!(rt; tables.rows().len(), 200);
    book.enter(41, &[34])?;
    assert_eq!(rt; tables.fill(book.rules(), &Slr), Err(BuildError::States));
    Ok(())
}
