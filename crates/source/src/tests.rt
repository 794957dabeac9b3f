// Each fault at its edge and its place, endings taken again and again, limits, and layers.
use crate::drains::drain;
use crate::lends::Lent;
use crate::skips::Skip;
use crate::sources::{Source, Taken};
use crate::tapes::{Tape, TapeError};
use crate::texts::{Text, TextError};
use std::process::Abort;
use std::test::Fail;

fn word(code: u8, place: usize) -> Taken {
    Taken::Word { code, place }
}

fn fault(number: u8, place: usize) -> Taken {
    Taken::Fault { number, place }
}

// Takes a last answer three times over.
fn stays<S: Source>(rt: &impl Abort, source: &mut S, last: Taken) {
    for _ in 0..3usize {
        assert_eq!(rt; source.take(), last);
    }
}

// A tape that has `count` words 5 at every other byte and then this ending.
fn ends_with(rt: &impl Abort, bytes: &[u8], count: usize, last: Taken) -> Result<(), Fail> {
    let mut tape = Tape::new(bytes)?;
    for i in 0..count.min(9) {
        assert_eq!(rt; tape.take(), word(5, 2 * i));
    }
    stays(rt, &mut tape, last);
    Ok(())
}

#[test]
fn tapes(rt: HostRuntime) -> Result<(), Fail> {
    ends_with(&rt, &[], 0, fault(4, 0))?;
    ends_with(&rt, &[9], 0, Taken::Clean { place: 0 })?;
    ends_with(&rt, &[8, 5, 8, 5, 9, 8, 5], 2, Taken::Clean { place: 4 })?;
    ends_with(&rt, &[8, 5, 7, 5, 9], 1, fault(2, 2))?;
    ends_with(&rt, &[8, 5, 8, 0, 9], 1, fault(3, 2))?;
    ends_with(&rt, &[8, 5, 8, 41, 9], 1, fault(3, 2))?;
    ends_with(&rt, &[8, 5, 8], 1, fault(4, 2))?;
    ends_with(&rt, &[8, 5, 8, 5], 2, fault(4, 4))
}

#[test]
fn words_of_a_tape(rt: HostRuntime) -> Result<(), Fail> {
    let mut tape = Tape::new(&[8, 1, 8, 40, 9])?;
    assert_eq!(rt; tape.take(), word(1, 0));
    assert_eq!(rt; tape.take(), word(40, 2));
    stays(&rt, &mut tape, Taken::Clean { place: 4 });
    Ok(())
}

// A text that has these codes, one for each byte, and then this ending.
fn text_has(
    rt: &impl Abort,
    bytes: &[u8],
    letters: &[u8],
    codes: &[u8],
    last: Taken,
) -> Result<(), Fail> {
    let mut text = Text::new(bytes, letters)?;
    for (i, code) in codes.iter().enumerate() {
        assert_eq!(rt; text.take(), word(*code, i));
    }
    stays(rt, &mut text, last);
    Ok(())
}

#[test]
fn texts(rt: HostRuntime) -> Result<(), Fail> {
    let mut letters = [0; 256];
    letters[97] = 1;
    letters[98] = 40;
    letters[99] = 41;
    letters[255] = 255;
    text_has(&rt, b"ab", &letters, &[1, 40], Taken::Clean { place: 2 })?;
    text_has(&rt, b"abc", &letters, &[1, 40], fault(1, 2))?;
    text_has(&rt, &[97, 255], &letters, &[1], fault(1, 1))?;
    text_has(&rt, b"d", &letters, &[], fault(1, 0))?;
    text_has(&rt, b"", &letters, &[], Taken::Clean { place: 0 })
}

#[test]
fn limits(rt: HostRuntime) {
    let bytes = [8; 60_001];
    let letters = [1; 257];
    assert!(rt; Tape::new(&bytes[0..60_000]).is_ok());
    assert!(rt; Tape::new(&bytes).is_err());
    assert!(rt; Text::new(&bytes[0..60_000], &letters[0..256]).is_ok());
    assert_eq!(rt;
        Text::new(&bytes, &letters[0..255]).err(),
        Some(TextError::Long)
    );
    assert_eq!(rt;
        Text::new(&bytes[0..60_000], &letters[0..255]).err(),
        Some(TextError::Table)
    );
    assert_eq!(rt;
        Text::new(&bytes[0..60_000], &letters).err(),
        Some(TextError::Table)
    );
}

#[test]
fn skips(rt: HostRuntime) -> Result<(), Fail> {
    let bytes = [8, 40, 8, 1, 8, 40, 8, 2, 9];
    let mut one = Skip::new(Tape::new(&bytes)?, 40).ok().ok_or("40")?;
    assert_eq!(rt; one.take(), word(1, 2));
    assert_eq!(rt; one.take(), word(2, 6));
    stays(&rt, &mut one, Taken::Clean { place: 8 });
    let below = Skip::new(Tape::new(&bytes)?, 40).ok().ok_or("40")?;
    let mut two = Skip::new(below, 1).ok().ok_or("1")?;
    assert_eq!(rt; two.take(), word(2, 6));
    assert_eq!(rt; drain(&mut two), 0);
    let mut none = Skip::new(Tape::new(&bytes)?, 3).ok().ok_or("3")?;
    assert_eq!(rt; drain(&mut none), 4);
    let mut all = Skip::new(Tape::new(&[8, 3, 8, 3, 8, 50])?, 3)
        .ok()
        .ok_or("3")?;
    stays(&rt, &mut all, fault(3, 4));
    Ok(())
}

// A refused skip hands the source back as it was.
#[test]
fn refused_skips(rt: HostRuntime) -> Result<(), Fail> {
    let mut tape = Tape::new(&[8, 5, 8, 6, 9])?;
    assert_eq!(rt; tape.take(), word(5, 0));
    match Skip::new(tape, 0) {
        Ok(_) => return Err(Fail::new("a skip of 0")),
        Err(e) => match Skip::new(e.source, 41) {
            Ok(_) => return Err(Fail::new("a skip of 41")),
            Err(e) => {
                let mut tape = e.source;
                assert_eq!(rt; tape.take(), word(6, 2));
                Ok(())
            }
        },
    }
}

// What is taken from a lent source is gone from the lender's.
#[test]
fn lends(rt: HostRuntime) -> Result<(), Fail> {
    let mut tape = Tape::new(&[8, 5, 8, 6, 9])?;
    let mut lent = Lent { source: &mut tape };
    assert_eq!(rt; lent.take(), word(5, 0));
    assert_eq!(rt; tape.take(), word(6, 2));
    assert_eq!(rt; drain(&mut tape), 0);
    Ok(())
}
