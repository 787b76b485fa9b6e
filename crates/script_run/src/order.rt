//! The order that a file names, read strictly, and whether it merges the commands of a script.
ghost use Rattle.std.specs.Prelude.{◌≡◌, ◌==◌, ◌≤◌, ℕ, List, All, IfOk, IfSome, filter, length, map, option_and_then, option_map, take};
ghost use Rattle.transcript.specs.Merge.{IsMerge, lane};
ghost use Rattle.transcript.specs.Reading.{before};
ghost use Rattle.mged_words.specs.Entries.{HasSession, command_entry};
ghost use Rattle.script_run.specs.Orders.{has_each, most_ordered, named_order, order_for, times, FirstLineTells, HasOneOrder, HasOneOutcome, NamesItself};
ghost use Rattle.script_run.specs.OrderSteps.{digits_named, if_sessions, is_of, next_in};
ghost use Rattle.script_run.specs.declared.order.TheConstants.{ORDER_SIZE};

use memory_core::Memory;
use mged_words::ScriptCommand;
use std::alloc::Global;
use std::vec::Vec;

/// The most bytes that are read of an order file: the order line of 65,536 commands, with its line feed.
pub const ORDER_SIZE: usize = 131_078;

/// The limit is this number. A transcript names its own order; where a beginning of it holds the first line, that has the
/// order of the whole; commands of one session alone have one order; and runs with one order and the same want of memory are
/// the same. The function does nothing: its contract is the law.
pub fn order_laws()
    ensures order { ORDER_SIZE ≡ 131078 }
    ensures defined { most_ordered ≡ 131078 }
    ensures named { NamesItself }
    ensures held { FirstLineTells }
    ensures alone { HasOneOrder }
    ensures same { HasOneOutcome }
{}

/// Whether the first line ends here.
fn is_line_end(rest: &[u8]) -> bool
    ensures { result ≡ (length (before 10 rest.now) == 0) }
{
    matches!(rest, [] | [b'\n', ..])
}

/// The session of the next digit, where it stands after a blank.
fn next_session(rest: &[u8]) -> Option<u8>
    ensures next { result ≡ next_in rest.now }
    ensures long { IfSome result (λ _. 2 ≤ length rest.now) }
{
    match rest {
        [b' ', digit @ b'1'..=b'8', ..] => Some(*digit - b'0'),
        _ => None,
    }
}

/// The sessions that blanks and digits name, up to the first line feed or the end. None where anything else stands there.
fn read_digits(alloc: Global, text: &[u8]) -> Result<Option<Vec<u8>>, Memory>
    ensures { IfOk result (λ found. option_map (λ o. o.items) found ≡ option_and_then if_sessions (digits_named (before 10 text.now))) }
{
    let mut order = Vec::new(alloc);
    let mut rest = text;
    while let Some(session) = next_session(rest) {
        order.push(session)?;
        rest = &rest[2..];
    }
    if is_line_end(rest) {
        Ok(Some(order))
    } else {
        Ok(None)
    }
}

/// The sessions that the first line of a text names. None where the line is no order line of the eight sessions.
fn read_named(alloc: Global, text: &[u8]) -> Result<Option<Vec<u8>>, Memory>
    ensures { IfOk result (λ found. option_map (λ o. o.items) found ≡ option_and_then if_sessions (named_order text.now)) }
{
    match text.strip_prefix(b"order") {
        Some(rest) => read_digits(alloc, rest),
        None => Ok(None),
    }
}

/// How often a session's digit comes.
fn count_digits(order: &[u8], session: u8) -> usize
    ensures { result ≡ times order.now session }
{
    order.iter().filter(|digit| **digit == session).count()
}

/// How many commands a session has.
fn count_commands(script: &[ScriptCommand], session: u8) -> usize
    ensures { result ≡ length (filter (is_of session) script.now) }
{
    script.iter().filter(|next| next.session == session).count()
}

/// Whether a session's digit comes as often as the session has commands.
fn has_its_digits(order: &[u8], script: &[ScriptCommand], session: u8) -> bool
    ensures { result ≡ (times order.now session == length (lane (map command_entry script.now) session)) }
{
    count_digits(order, session) == count_commands(script, session)
}

/// Whether each session's digit comes as often as the session has commands.
fn has_each_command(order: &[u8], script: &[ScriptCommand]) -> bool
    ensures { result ≡ has_each order.now (lane (map command_entry script.now)) }
{
    (1..9u8).all(|session| has_its_digits(order, script, session))
}

/// The order that a text names, where it merges the commands of a script. None where its first line is no order line, to the
/// letter, or where a session's digit comes more or less often than the session has commands. Of a longer text the first
/// 131,078 bytes are enough: the answer on them is that on the whole.
pub fn read_order(
    alloc: Global,
    text: &[u8],
    script: &[ScriptCommand],
) -> Result<Option<Vec<u8>>, Memory>
    requires sessions { All HasSession (map command_entry script.now) }
    requires few { length script.now ≤ 65536 }
    ensures text { IfOk result (λ order. order_for text.now (lane (map command_entry script.now)) ≡ option_map (λ o. o.items) order) }
    ensures order { IfOk result (λ order. (whole : List ℕ) → text.now ≡ take 131078 whole → order_for whole (lane (map command_entry script.now)) ≡ option_map (λ o. o.items) order) }
    ensures merge { IfOk result (λ order. IfSome order (λ o. IsMerge o.items (lane (map command_entry script.now)))) }
{
    let Some(order) = read_named(alloc, text)? else {
        return Ok(None);
    };
    if has_each_command(&order, script) {
        Ok(Some(order))
    } else {
        Ok(None)
    }
}
