// The text of each answer, and buffers at the edge.
use crate::reports::{ReportError, report_error, report_read, report_tape};
use book::files::LoadError;
use book::rules::EnterError;
use card::refusals::ReadError;
use reading::outcomes::{Outcome, Step, Verdict};
use source::tapes::TapeError;
use std::process::Abort;
use tables::building::BuildError;

fn step(rule: u8, first: usize, width: usize) -> Step {
    Step { rule, first, width }
}

// What a read of three words answers after five steps.
fn after_five(verdict: Verdict) -> Result<Outcome, ReadError> {
    Ok(Outcome {
        verdict,
        words: 3,
        place: 2,
        steps: 5,
    })
}

// Whether a report answered the size of this text, and the buffer begins with it.
fn wrote(rt: &impl Abort, answer: Result<usize, ReportError>, out: &[u8], text: &[u8]) {
    assert_eq!(rt; answer, Ok(text.len()));
    assert!(rt; text.len() <= out.len());
    assert!(rt; &out[0..text.len()] == text);
}

#[test]
fn accepted(rt: HostRuntime) {
    let list = [
        step(7, 1, 1),
        step(7, 0, 1),
        step(4, 0, 1),
        step(3, 0, 2),
        step(1, 0, 3),
    ];
    let text = b"accepted 5 3\n7 1 1\n7 0 1\n4 0 1\n3 0 2\n1 0 3\n";
    let outcome = after_five(Verdict::Accepted);
    let mut exact = [255; 43];
    wrote(&rt, report_read(&outcome, &list, &mut exact), &exact, text);
    let mut short = [255; 42];
    assert_eq!(rt;
        report_read(&outcome, &list, &mut short),
        Err(ReportError::Short)
    );
    assert!(rt; short == [255; 42]);
}

// A list with fewer places than there are steps, and numbers of several digits; the buffer keeps what follows the text.
#[test]
fn accepted_with_a_short_list(rt: HostRuntime) {
    let list = [step(100, 998, 12), step(10, 9, 0)];
    let mut out = [255; 40];
    let answer = report_read(&after_five(Verdict::Accepted), &list, &mut out);
    wrote(&rt, answer, &out, b"accepted 5 3\n100 998 12\n10 9 0\n");
    assert_eq!(rt; out[31], 255);
}

#[test]
fn refused_reads(rt: HostRuntime) {
    let mut out = [255; 40];
    let fault = after_five(Verdict::Fault {
        number: 2,
        place: 2,
    });
    wrote(
        &rt,
        report_read(&fault, &[], &mut out),
        &out,
        b"refused 11 5 3 2 2\n",
    );
    let long = after_five(Verdict::TooLong);
    wrote(
        &rt,
        report_read(&long, &[], &mut out),
        &out,
        b"refused 12 5 3 2 0\n",
    );
    let stuck = after_five(Verdict::NoTree);
    wrote(
        &rt,
        report_read(&stuck, &[], &mut out),
        &out,
        b"refused 13 5 3 2 0\n",
    );
    let full = after_five(Verdict::ListFull);
    wrote(
        &rt,
        report_read(&full, &[], &mut out),
        &out,
        b"refused 14 5 3 2 0\n",
    );
    let unbuilt = Err(ReadError::NotBuilt);
    wrote(
        &rt,
        report_read(&unbuilt, &[], &mut out),
        &out,
        b"refused 10 0 0 0 0\n",
    );
}

#[test]
fn refused_loads(rt: HostRuntime) {
    let mut out = [255; 40];
    wrote(
        &rt,
        report_error(&LoadError::Kind(0), &mut out),
        &out,
        b"load 15 0 0\n",
    );
    wrote(
        &rt,
        report_error(&LoadError::Ended(12), &mut out),
        &out,
        b"load 16 12 0\n",
    );
    let enter = LoadError::Enter(9, EnterError::Code(1));
    wrote(&rt, report_error(&enter, &mut out), &out, b"load 17 9 4\n");
    wrote(
        &rt,
        report_error(&LoadError::Count(700), &mut out),
        &out,
        b"load 18 700 0\n",
    );
    wrote(
        &rt,
        report_error(&LoadError::Trailing(2), &mut out),
        &out,
        b"load 19 2 0\n",
    );
}

#[test]
fn refused_builds(rt: HostRuntime) {
    let mut out = [255; 40];
    wrote(
        &rt,
        report_error(&BuildError::Rules, &mut out),
        &out,
        b"build 1 0 0\n",
    );
    wrote(
        &rt,
        report_error(&BuildError::Useless(41), &mut out),
        &out,
        b"build 7 41 0\n",
    );
    wrote(
        &rt,
        report_error(&BuildError::States, &mut out),
        &out,
        b"build 8 0 0\n",
    );
    wrote(
        &rt,
        report_error(&BuildError::Conflict(3, 80), &mut out),
        &out,
        b"build 9 3 80\n",
    );
}

#[test]
fn refused_tapes(rt: HostRuntime) {
    let mut exact = [255; 8];
    wrote(
        &rt,
        report_tape(&TapeError::Long, &mut exact),
        &exact,
        b"tape 22\n",
    );
    let mut short = [255; 7];
    assert_eq!(rt;
        report_tape(&TapeError::Long, &mut short),
        Err(ReportError::Short)
    );
    assert!(rt; short == [255; 7]);
}
