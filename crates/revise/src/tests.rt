// Scripts and files, by what is printed of them.
use crate::changes::run_script;
use crate::files::load;
use book::books::Book;
use std::test::Fail;

#[test]
fn steps_are_told(rt: HostRuntime) -> Result<(), Fail> {
    let mut book = Book::new();
    let report = run_script(
        rt.alloc(),
        &mut book,
        b"enter 41 1\n\n# a comment\nenter 41 2 3\nstrike 1\nenter 41 2 3\nstrike 2",
    )?;
    assert_eq!(rt;
        report.as_str(),
        "enter 1: 41 -> 1\nenter 2: 41 -> 2 3\nstrike 1: 41 -> 1\nenter 41 -> 2 3: refused 5, an equal rule is in the book\nstrike 2: refused 6, there is no rule of that number\n"
    );
    Ok(())
}

#[test]
fn numbers_have_limits(rt: HostRuntime) -> Result<(), Fail> {
    let mut book = Book::new();
    let report = run_script(
        rt.alloc(),
        &mut book,
        b"strike 65535\nstrike 65536\nenter 255 1\nenter 256 1\nenter 041 00001",
    )?;
    assert_eq!(rt;
        report.as_str(),
        "strike 65535: refused 6, there is no rule of that number\nline 2: cannot be read\nenter 255 -> 1: refused 2, the left code is no nonterminal\nline 4: cannot be read\nenter 1: 41 -> 1\n"
    );
    Ok(())
}

#[test]
fn other_lines_cannot_be_read(rt: HostRuntime) -> Result<(), Fail> {
    let mut book = Book::new();
    let report = run_script(
        rt.alloc(),
        &mut book,
        b"strike\nstrike \nstrike 1 \nenter 41  1\nenter 41 1 \n enter 41 1\nenter 4a 1\n#\n",
    )?;
    assert_eq!(rt;
        report.as_str(),
        "line 1: cannot be read\nline 2: cannot be read\nline 3: cannot be read\nline 4: cannot be read\nline 5: cannot be read\nline 6: cannot be read\nline 7: cannot be read\n"
    );
    assert_eq!(rt; book.rules().len(), 0);
    Ok(())
}

#[test]
fn refused_loads_are_told(rt: HostRuntime) -> Result<(), Fail> {
    let mut book = Book::new();
    let told = load(rt.alloc(), &mut book, "a.dat", &[1, 41, 1, 1, 41])?;
    assert!(rt; told.outcome.is_err());
    assert_eq!(rt;
        told.line.as_str(),
        "load a.dat: refused 16 at 3, the bytes end where a byte is due"
    );
    let told = load(
        rt.alloc(),
        &mut book,
        "b.dat",
        &[1, 41, 1, 2, 41, 1, 81, 7, 2],
    )?;
    assert_eq!(rt;
        told.line.as_str(),
        "load b.dat: refused 17 at 3, the rule is refused (4, right code at index 1 is no symbol)"
    );
    Ok(())
}
