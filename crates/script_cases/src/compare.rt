//! What a call left, beside what it was to leave.

use crate::case::{Case, CaseFile, WantedText};
use case_text::Shown;
use outside_core::File;

/// Puts in what was wanted and what came.
fn put_sides(wanted: &[u8], came: &[u8], report: &mut Shown) {
    report.put(b"\n    wanted: ");
    report.put_printed(wanted);
    report.put(b"\n    came:   ");
    report.put_printed(came);
    report.put_byte(b'\n');
}

/// Puts in what differs of two numbers.
pub(crate) fn compare_numbers(what: &[u8], wanted: usize, came: usize, report: &mut Shown) {
    if wanted == came {
        return;
    }
    report.put(b"  ");
    report.put(what);
    report.put(b"\n    wanted: ");
    report.put_number(wanted);
    report.put(b"\n    came:   ");
    report.put_number(came);
    report.put_byte(b'\n');
}

/// The place of the first byte in which two texts differ.
fn first_difference(one: &[u8], two: &[u8]) -> usize {
    let mut place = 0usize;
    for (byte, other) in one.iter().zip(two.iter()) {
        if byte != other {
            return place;
        }
        place = place.saturating_add(1);
    }
    place
}

/// The first bytes of a text, so many or all.
fn front_of(text: &[u8], count: usize) -> &[u8] {
    &text[..count.min(text.len())]
}

/// The last bytes of a text, so many or all.
fn end_of(text: &[u8], count: usize) -> &[u8] {
    &text[text.len() - count.min(text.len())..]
}

/// Where the line begins in which a place stands.
fn begin_of_line(text: &[u8], place: usize) -> usize {
    let mut begin = 0usize;
    let mut next = 0usize;
    for byte in front_of(text, place) {
        next = next.saturating_add(1);
        if *byte == b'\n' {
            begin = next;
        }
    }
    begin
}

/// The line of a text that begins there.
fn line_from(text: &[u8], begin: usize) -> &[u8] {
    let rest = &text[begin.min(text.len())..];
    let mut length = 0usize;
    for byte in rest {
        if *byte == b'\n' {
            break;
        }
        length = length.saturating_add(1);
    }
    front_of(rest, length)
}

/// Puts in the first line in which two texts differ.
pub(crate) fn compare_texts(what: &[u8], wanted: &[u8], came: &[u8], report: &mut Shown) {
    if wanted == came {
        return;
    }
    let place = first_difference(wanted, came);
    report.put(b"  ");
    report.put(what);
    report.put(b", from byte ");
    report.put_number(place);
    let begin = begin_of_line(wanted, place);
    put_sides(line_from(wanted, begin), line_from(came, begin), report);
}

/// Whether a text is one of the others that may come.
fn is_another(wanted: &WantedText, came: &[u8]) -> bool {
    wanted.others.iter().any(|other| other.as_slice() == came)
}

/// Whether nothing is told of a transcript but that it may be any.
fn is_any(case: &Case) -> bool {
    let text = &case.text;
    case.is_replayed || !text.front.is_empty() || !text.end.is_empty() || text.size.is_some()
}

/// Puts in what differs of the bytes that were written.
pub(crate) fn compare_transcript(case: &Case, came: &[u8], report: &mut Shown) {
    let wanted = &case.text;
    if (wanted.is_whole || !is_any(case)) && !is_another(wanted, came) {
        let held = wanted.held.unwrap_or(wanted.whole.len());
        compare_texts(b"transcript", front_of(&wanted.whole, held), came, report);
    }
    let front = front_of(came, wanted.front.len());
    compare_texts(b"beginning", &wanted.front, front, report);
    let end = end_of(came, wanted.end.len());
    compare_texts(b"end", &wanted.end, end, report);
    if let Some(size) = wanted.size {
        compare_numbers(b"bytes", size, came.len(), report);
    }
}

/// Puts in what differs of one file that was put.
fn compare_put(wanted: &CaseFile, came: &File, report: &mut Shown) {
    compare_texts(
        b"name of a file",
        wanted.name.bytes(),
        came.name.bytes(),
        report,
    );
    let bytes = came.bytes.items();
    match wanted.size {
        Some(size) => compare_numbers(b"size of a file", size, bytes.len(), report),
        None => compare_texts(b"file", &wanted.bytes, bytes, report),
    }
}

/// Puts in what differs of the files that were put. Where the order of the commands is free, a case may say nothing of them.
pub(crate) fn compare_puts(case: &Case, came: &[File], report: &mut Shown) {
    if case.is_replayed && case.puts.is_empty() {
        return;
    }
    compare_numbers(b"files", case.puts.len(), came.len(), report);
    for (wanted, file) in case.puts.iter().zip(came.iter()) {
        compare_put(wanted, file, report);
    }
}

/// Puts in what differs of the files that two calls put.
pub(crate) fn compare_both_puts(first: &[File], second: &[File], report: &mut Shown) {
    compare_numbers(b"files", first.len(), second.len(), report);
    for (one, other) in first.iter().zip(second.iter()) {
        compare_texts(
            b"name of a file",
            one.name.bytes(),
            other.name.bytes(),
            report,
        );
        compare_texts(b"file", one.bytes.items(), other.bytes.items(), report);
    }
}
