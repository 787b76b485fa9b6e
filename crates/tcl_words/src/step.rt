//! One token of a text, or the first fault from a place on.
ghost use Rattle.std.specs.Prelude.{◌≡◌, ◌<◌, ◌^◌, ℕ, length, slice_index, true, Some, IfOk, IfErr};
ghost use Rattle.tcl_words.specs.Bytes as bytes;
ghost use Rattle.tcl_words.specs.Faults as faults;
ghost use Rattle.tcl_words.specs.ReadingSteps as steps;

use crate::bytes::{is_atom, is_blank, is_close, is_open};
use crate::class::good_end;
use crate::fault::WordFault;
use crate::limit::MOST_OPEN;
use crate::token::{Kind, Token};

/// What is wrong with a `{` at a place, after this byte, inside so many groups.
fn open_fault(last: u8, groups: u32, place: u32) -> Option<WordFault>
    ensures { result ≡ faults.fault_of 123 last groups place }
{
    if is_atom(last) || is_close(last) {
        Some(WordFault::Extra(place))
    } else if groups == MOST_OPEN {
        Some(WordFault::TooDeep(place))
    } else {
        None
    }
}

/// What is wrong with a `}` at a place, inside so many groups.
fn close_fault(groups: u32, place: u32) -> Option<WordFault>
    ensures { (last : ℕ) → result ≡ faults.fault_of 125 last groups place }
{
    if groups == 0 {
        Some(WordFault::Extra(place))
    } else {
        None
    }
}

/// The token of the brace at a place that has this fault, or none.
fn brace_at(
    text: &[u8],
    place: usize,
    last: u8,
    groups: u32,
    kind: Kind,
    fault: Option<WordFault>,
) -> Result<Option<Token>, WordFault>
    requires short { length text.now < 2 ^ 31 }
    requires within { place < length text.now }
    requires at { steps.IsAt text.now place groups last }
    requires brace { steps.IsBrace kind (slice_index text.now place) }
    requires fault { fault ≡ faults.fault_of (slice_index text.now place) last groups place }
    ensures token { IfOk result (λ found. steps.IsStep text.now place found) }
    ensures fault { IfErr result (λ fault. steps.IsNextFault text.now place fault) }
{
    match fault {
        Some(fault) => Err(fault),
        None => {
            let start = place as u32;
            Ok(Some(Token {
                kind,
                start,
                end: start + 1,
            }))
        }
    }
}

/// The atom that begins at a place, or the first fault from there.
fn atom_at(text: &[u8], place: usize, last: u8, groups: u32) -> Result<Option<Token>, WordFault>
    requires short { length text.now < 2 ^ 31 }
    requires within { place < length text.now }
    requires at { steps.IsAt text.now place groups last }
    requires atom { bytes.is_atom (slice_index text.now place) ≡ true }
    ensures token { IfOk result (λ found. steps.IsStep text.now place found) }
    ensures fault { IfErr result (λ fault. steps.IsNextFault text.now place fault) }
{
    let start = place as u32;
    let end = good_end(text, place, groups);
    if end == place {
        return Err(WordFault::BadByte(start));
    }
    if is_close(last) {
        return Err(WordFault::Extra(start));
    }
    if end < text.len() && is_atom(text[end]) {
        return Err(WordFault::BadByte(end as u32));
    }
    Ok(Some(Token {
        kind: Kind::Atom,
        start,
        end: end as u32,
    }))
}

/// The token that begins at a place, none at a blank, or the first fault from there. Before the place stands this byte,
/// inside so many groups.
pub(crate) fn step_at(
    text: &[u8],
    place: usize,
    last: u8,
    groups: u32,
) -> Result<Option<Token>, WordFault>
    requires short { length text.now < 2 ^ 31 }
    requires within { place < length text.now }
    requires at { steps.IsAt text.now place groups last }
    ensures token { IfOk result (λ found. steps.IsStep text.now place found) }
    ensures fault { IfErr result (λ fault. steps.IsNextFault text.now place fault) }
{
    let byte = text[place];
    if is_open(byte) {
        let fault = open_fault(last, groups, place as u32);
        brace_at(text, place, last, groups, Kind::Open, fault)
    } else if is_close(byte) {
        let fault = close_fault(groups, place as u32);
        brace_at(text, place, last, groups, Kind::Close, fault)
    } else if is_blank(byte) {
        Ok(None)
    } else {
        atom_at(text, place, last, groups)
    }
}

/// Where to go on behind a place, at which this token begins, or none.
pub(crate) fn place_after(place: usize, found: Option<Token>) -> usize
    requires { place < 2 ^ 63 }
    ensures { result ≡ steps.place_after place found }
{
    match found {
        Some(token) => token.end as usize,
        None => place + 1,
    }
}
