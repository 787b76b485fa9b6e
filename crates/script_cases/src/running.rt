//! Runs one case, and says what differs.

use crate::calling::{Ended, ORDER_FILE, Way, call};
use crate::case::Case;
use crate::compare::{
    compare_both_puts, compare_numbers, compare_puts, compare_texts, compare_transcript,
};
use case_text::{CaseFault, Shown};
use mged_top::{Status, StatusText};
use std::sync::Wait;
use std::thread::Threads;

/// The line of a status.
fn line_of(status: &Status) -> StatusText {
    let mut line = StatusText::new();
    status.write_line(&mut line);
    line
}

/// Puts in what differs of a status.
fn compare_status(case: &Case, status: &Status, report: &mut Shown) {
    let number = usize::from(status.number());
    compare_numbers(b"status", case.wanted_status(number), number, report);
    compare_texts(b"status line", &case.line, line_of(status).bytes(), report);
}

/// Puts in what differs of how a call ended and what it left, and of what the case says.
fn compare_ended(case: &Case, came: &Ended, report: &mut Shown) {
    compare_status(case, &came.status, report);
    let outside = &came.outside;
    compare_transcript(case, outside.sink.bytes(), report);
    compare_puts(case, outside.shelf.puts(), report);
    let left = outside.source.left().len();
    compare_numbers(b"bytes left", case.left.unwrap_or(left), left, report);
}

/// Puts in what differs of how two calls ended and what they left.
fn compare_both(first: &Ended, second: &Ended, report: &mut Shown) {
    let number = usize::from(second.status.number());
    compare_numbers(
        b"status",
        usize::from(first.status.number()),
        number,
        report,
    );
    compare_texts(
        b"status line",
        line_of(&first.status).bytes(),
        line_of(&second.status).bytes(),
        report,
    );
    let (one, other) = (&first.outside, &second.outside);
    compare_texts(b"transcript", one.sink.bytes(), other.sink.bytes(), report);
    compare_both_puts(one.shelf.puts(), other.shelf.puts(), report);
    let left = other.source.left().len();
    compare_numbers(b"bytes left", one.source.left().len(), left, report);
}

/// Puts in what differs where a case is run once more, under a head.
fn run_again<R: AllocGlobal + Threads + Wait + Sync>(
    rt: &R,
    way: Way,
    case: &Case,
    words: &Vec<String>,
    first: &Ended,
    report: &mut Shown,
) -> Result<(), CaseFault> {
    let before = if case.is_replayed {
        Some(first.outside.sink.bytes())
    } else {
        None
    };
    let second = call(rt, way, case, words, before)?;
    let mut differences = Shown::new(rt.alloc());
    compare_both(first, &second, &mut differences);
    if !differences.is_empty() {
        report.put(way.head());
        report.put_all(&differences);
    }
    Ok(())
}

/// Puts in what differs where the call that wants an order is made of a case without one: it is to leave all as it was.
fn run_without_order<R: AllocGlobal + Threads + Wait + Sync>(
    rt: &R,
    case: &Case,
    report: &mut Shown,
) -> Result<(), CaseFault> {
    let came = call(rt, Way::Replay, case, &case.words, None)?;
    let mut differences = Shown::new(rt.alloc());
    let number = usize::from(came.status.number());
    compare_numbers(b"status", 2, number, &mut differences);
    let outside = &came.outside;
    compare_texts(b"transcript", b"", outside.sink.bytes(), &mut differences);
    compare_both_puts(&[], outside.shelf.puts(), &mut differences);
    let left = outside.source.left().len();
    compare_numbers(b"bytes left", case.script.len(), left, &mut differences);
    if !differences.is_empty() {
        report.put(b"  by replay_mged, without an order\n");
        report.put_all(&differences);
    }
    Ok(())
}

/// Runs a case, and answers what differs. A case whose words name an order is run by both calls of the program. One that
/// is replayed is run freely, and then by both in the order of the transcript that came.
pub(crate) fn run_case<R: AllocGlobal + Threads + Wait + Sync>(
    rt: &R,
    case: &Case,
) -> Result<Shown, CaseFault> {
    let mut differences = Shown::new(rt.alloc());
    let first = call(rt, Way::Program, case, &case.words, None)?;
    compare_ended(case, &first, &mut differences);
    if case.is_replayed {
        let words = case.replay_words(rt.alloc(), ORDER_FILE)?;
        run_again(rt, Way::Program, case, &words, &first, &mut differences)?;
        run_again(rt, Way::Replay, case, &words, &first, &mut differences)?;
    } else if case.has_order() {
        run_again(rt, Way::Replay, case, &case.words, &first, &mut differences)?;
    } else {
        run_without_order(rt, case, &mut differences)?;
    }
    Ok(differences)
}
