// What is printed of books and tapes.
use crate::translations::translate;
use report::reports::ReportError;
use std::process::Abort;
use std::test::Fail;

// Ones that belong to one of two lists, which the last word tells.
const BOOK: [u8; 30] = [
    2, 41, 42, 2, 2, 41, 43, 3, 2, 42, 42, 44, 1, 42, 44, 2, 43, 43, 45, 1, 43, 45, 1, 44, 1, 1,
    45, 1, 7, 8,
];

const LINE: &[u8] = b"accepted 5 3\n7 1 1\n7 0 1\n4 0 1\n3 0 2\n1 0 3\n";

// Whether the text of these files is this one.
fn prints(rt: &impl Abort, book: &[u8], tape: &[u8], text: &[u8]) -> Result<(), Fail> {
    let mut out = [255; 80];
    let size = translate(book, tape, &mut out)?;
    assert!(rt; size <= out.len());
    assert!(rt; &out[0..size] == text);
    Ok(())
}

#[test]
fn a_line(rt: HostRuntime) -> Result<(), Fail> {
    prints(&rt, &BOOK, &[8, 1, 8, 1, 8, 2, 9], LINE)?;
    prints(
        &rt,
        &BOOK,
        &[8, 40, 8, 1, 8, 40, 8, 40, 8, 1, 8, 2, 8, 40, 9],
        LINE,
    )
}

#[test]
fn a_short_buffer(rt: HostRuntime) {
    let mut out = [255; 42];
    assert_eq!(rt;
        translate(&BOOK, &[8, 1, 8, 1, 8, 2, 9], &mut out),
        Err(ReportError::Short)
    );
    assert!(rt; out == [255; 42]);
}

#[test]
fn refused_books(rt: HostRuntime) -> Result<(), Fail> {
    prints(&rt, &[], &[9], b"load 16 0 0\n")?;
    prints(&rt, &[1, 41, 41, 1, 41, 41, 7, 2], &[9], b"load 17 3 5\n")?;
    prints(&rt, &[7, 0], &[9], b"build 7 41 0\n")
}

#[test]
fn refused_tapes(rt: HostRuntime) -> Result<(), Fail> {
    prints(&rt, &BOOK, &[8, 1, 8, 3, 8, 2, 9], b"refused 13 2 3 4 0\n")?;
    prints(&rt, &BOOK, &[8, 1, 8, 40, 8, 1], b"refused 11 0 2 6 4\n")?;
    prints(&rt, &BOOK, &[8; 60_001], b"tape 22\n")
}
