//! The lines of a transcript, put at the end of a text.
ghost use Rattle.std.specs.Prelude.{◌≡◌, ◌≤◌, ◌++◌, ◌∷◌, All, OnOk, OnErr, decimal, length, [], vec_len, take};
ghost use Rattle.transcript.specs.Lines.{ended, text_of, Extends};
ghost use Rattle.transcript.specs.Run.{Answer, Reply, Accepted, Refused};
ghost use Rattle.transcript.specs.Transcript.{header, header_start, answer_lines, order_line};
ghost use Rattle.transcript.specs.Answers.{accepted, refused};

use crate::body::Body;
use itoa::Buffer;
use memory_core::Memory;
use std::vec::Vec;

fn push_number(text: &mut Vec<u8>, number: u32) -> Result<(), Memory>
    ensures extends { Extends text.old.items text.new.items }
    ensures ok { OnOk result (text.new.items ≡ text.old.items ++ decimal number) }
{
    let mut buffer = Buffer::new();
    text.extend_from_slice(buffer.format(number).as_bytes())?;
    Ok(())
}

/// Puts `K.N` of a header line at the end of the text.
fn push_start(text: &mut Vec<u8>, session: u8, number: u32) -> Result<(), Memory>
    requires { session ≤ 8 }
    ensures extends { Extends text.old.items text.new.items }
    ensures ok { OnOk result (text.new.items ≡ text.old.items ++ header_start session number) }
{
    text.extend_from_slice(&[b'0' + session, b'.'])?;
    push_number(text, number)
}

/// Puts `vV` of a header line and a blank at the end of the text.
fn push_version(text: &mut Vec<u8>, version: u32) -> Result<(), Memory>
    ensures extends { Extends text.old.items text.new.items }
    ensures ok { OnOk result (text.new.items ≡ text.old.items ++ (118 ∷ decimal version ++ 32 ∷ [])) }
{
    text.extend_from_slice(b"v")?;
    push_number(text, version)?;
    text.extend_from_slice(b" ")?;
    Ok(())
}

/// Gives the answer of a call that put something at the end of the text, which had this length before. Where there was
/// no memory, what was put is taken off again.
fn settled(text: &mut Vec<u8>, length: usize, answer: Result<(), Memory>) -> Result<(), Memory>
    requires { length ≤ vec_len text.old }
    ensures answer { result ≡ answer }
    ensures ok { OnOk result (text.new.items ≡ text.old.items) }
    ensures err { OnErr result (text.new.items ≡ take length text.old.items) }
{
    if answer.is_err() {
        text.truncate(length);
    }
    answer
}

fn append_accepted(
    text: &mut Vec<u8>,
    session: u8,
    number: u32,
    version: u32,
    body: &Body,
) -> Result<(), Memory>
    requires { session ≤ 8 }
    ensures extends { Extends text.old.items text.new.items }
    ensures ok { OnOk result (text.new.items ≡ text.old.items ++ text_of (answer_lines session number (accepted version body.now))) }
{
    push_start(text, session, number)?;
    text.extend_from_slice(b" ok ")?;
    push_version(text, version)?;
    push_number(text, body.lines())?;
    text.extend_from_slice(b"\n")?;
    text.extend_from_slice(body.text())?;
    Ok(())
}

/// Puts the answer of an accepted command at the end of the text: the header line and the body. Where there is no
/// memory the text stays.
///
/// `session` is from 1 to 8, and `number` is the command's number in it, from 1.
pub fn push_accepted(
    text: &mut Vec<u8>,
    session: u8,
    number: u32,
    version: u32,
    body: &Body,
) -> Result<(), Memory>
    requires { session ≤ 8 }
    ensures ok { OnOk result (text.new.items ≡ text.old.items ++ text_of (answer_lines session number (accepted version body.now))) }
    ensures err { OnErr result (text.new.items ≡ text.old.items) }
{
    let length = text.len();
    let answer = append_accepted(text, session, number, version, body);
    settled(text, length, answer)
}

fn append_refused(
    text: &mut Vec<u8>,
    session: u8,
    number: u32,
    version: u32,
    refusal: &[u8],
) -> Result<(), Memory>
    requires { session ≤ 8 }
    ensures extends { Extends text.old.items text.new.items }
    ensures ok { OnOk result (text.new.items ≡ text.old.items ++ text_of (answer_lines session number (refused version refusal.now))) }
{
    push_start(text, session, number)?;
    text.extend_from_slice(b" refused ")?;
    push_version(text, version)?;
    text.extend_from_slice(refusal)?;
    text.extend_from_slice(b"\n")?;
    Ok(())
}

/// Puts the answer of a refused command at the end of the text: its header line, which ends with the refusal. Where
/// there is no memory the text stays.
pub fn push_refused(
    text: &mut Vec<u8>,
    session: u8,
    number: u32,
    version: u32,
    refusal: &[u8],
) -> Result<(), Memory>
    requires { session ≤ 8 }
    ensures ok { OnOk result (text.new.items ≡ text.old.items ++ text_of (answer_lines session number (refused version refusal.now))) }
    ensures err { OnErr result (text.new.items ≡ text.old.items) }
{
    let length = text.len();
    let answer = append_refused(text, session, number, version, refusal);
    settled(text, length, answer)
}

fn append_order(text: &mut Vec<u8>, order: &[u8]) -> Result<(), Memory>
    requires { All (λ digit. digit ≤ 8) order.now }
    ensures extends { Extends text.old.items text.new.items }
    ensures ok { OnOk result (text.new.items ≡ text.old.items ++ ended (order_line order.now)) }
{
    text.extend_from_slice(b"order")?;
    for digit in order {
        text.extend_from_slice(&[b' ', b'0' + *digit])?;
    }
    text.extend_from_slice(b"\n")?;
    Ok(())
}

/// Puts the first line at the end of the text: the sessions of the commands, in the order of the history. Where there
/// is no memory the text stays.
pub fn push_order(text: &mut Vec<u8>, order: &[u8]) -> Result<(), Memory>
    requires { All (λ digit. digit ≤ 8) order.now }
    ensures ok { OnOk result (text.new.items ≡ text.old.items ++ ended (order_line order.now)) }
    ensures err { OnErr result (text.new.items ≡ text.old.items) }
{
    let length = text.len();
    let answer = append_order(text, order);
    settled(text, length, answer)
}
