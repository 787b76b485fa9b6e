ghost use Rattle.std.specs.Prelude.{◌≡◌, ◌<◌, ◌^◌, List, [], length, IfOk, IfErr, ◌≤◌, ◌+◌, cond, true};
ghost use Rattle.tcl_words.specs.Bytes as bytes;
ghost use Rattle.tcl_words.specs.Faults as faults;
ghost use Rattle.tcl_words.specs.Reading as reading;
ghost use Rattle.tcl_words.specs.ReadingSteps as steps;
ghost use Rattle.tcl_words.specs.Cover.{Covers};
ghost use Rattle.tcl_words.specs.TopWords.{AreTokensIn};

use crate::bytes::{is_atom, is_bad, is_bad_outside, is_close, is_open};
use crate::fault::WordFault;
use crate::limit::MOST_OPEN;
use crate::step::{place_after, step_at};
use crate::token::Token;
use memory_core::Memory;
use std::alloc::Global;
use std::marker::Model;

fn is_bad_at(byte: u8, groups: u32) -> bool
    ensures { result ≡ faults.is_bad_at byte groups }
{
    is_bad(byte) || (groups == 0 && is_bad_outside(byte))
}

fn is_extra(byte: u8, last: u8, groups: u32) -> bool
    ensures { result ≡ faults.is_extra byte last groups }
{
    (is_close(byte) && groups == 0)
        || (is_open(byte) && (is_atom(last) || is_close(last)))
        || (is_atom(byte) && is_close(last))
}

/// What is wrong with a byte at a place, after this byte, inside so many groups.
pub(crate) fn fault_of(byte: u8, last: u8, groups: u32, place: u32) -> Option<WordFault>
    ensures { result ≡ faults.fault_of byte last groups place }
{
    if is_bad_at(byte, groups) {
        Some(WordFault::BadByte(place))
    } else if is_extra(byte, last, groups) {
        Some(WordFault::Extra(place))
    } else if is_open(byte) && groups == MOST_OPEN {
        Some(WordFault::TooDeep(place))
    } else {
        None
    }
}

/// How many groups are open after a byte that has no fault.
pub(crate) fn groups_after(byte: u8, groups: u32) -> u32
    requires few { groups ≤ 4100 }
    requires opens { bytes.is_open byte ≡ true → groups < 4100 }
    requires closes { bytes.is_close byte ≡ true → 0 < groups }
    ensures few { result ≤ 4100 }
    ensures counted { result + cond (bytes.is_close byte) 1 0 ≡ groups + cond (bytes.is_open byte) 1 0 }
{
    if is_open(byte) {
        groups + 1
    } else if is_close(byte) {
        groups - 1
    } else {
        groups
    }
}

/// Room for the tokens of a text.
fn room(alloc: Global, text: &[u8]) -> Result<Vec<Token>, Memory>
    requires { length text.now < 2 ^ 31 }
    ensures { IfOk result (λ found. found.items ≡ []) }
{
    Ok(Vec::with_capacity(alloc, text.len() / 2 + 1)?)
}

/// All tokens of a text, or its first fault.
fn read_tokens(alloc: Global, text: &[u8]) -> Result<Vec<Token>, WordFault>
    requires { length text.now < 2 ^ 31 }
    ensures tokens { IfOk result (λ found. steps.AreRead text.now found.items) }
    ensures fault { IfErr result (λ fault. steps.IsFaultOf fault text.now) }
{
    let mut found = room(alloc, text)?;
    let mut groups = 0;
    let mut last = b' ';
    let mut place = 0;
    while place < text.len() {
        let token = step_at(text, place, last, groups)?;
        groups = groups_after(text[place], groups);
        place = place_after(place, token);
        last = text[place - 1];
        if let Some(token) = token {
            found.push(token)?;
        }
    }
    if groups == 0 {
        Ok(found)
    } else {
        Err(WordFault::Unclosed)
    }
}

/// The words of a text: its tokens, in which each group is opened before it is closed, and all are closed.
#[derive(Debug, Drop)]
pub struct Words {
    tokens: Vec<Token>,
}

impl Model for Words {
    ghost use Rattle.std.specs.Prelude.{List};
    ghost use Rattle.tcl_words.specs.declared.token.Token.{Token};

    ghost Value = { List Token };

    ghost use Rattle.tcl_words.specs.TopWords.{IsBalanced};

    ghost view = { λ s. s.tokens.items };

    ghost invariant = { λ s. IsBalanced s.tokens.items };
}

impl Words {
    ghost use Rattle.tcl_words.specs.TopWords.{IsBalanced};

    /// Lends the tokens, in the order of the text.
    pub fn tokens(&self) -> &[Token]
        ensures value { result.now ≡ self.now }
        ensures balanced { IsBalanced self.now }
    {
        &self.tokens
    }
}

/// The words of a text of fewer than 2^31 bytes, or its first fault.
pub fn read_words(alloc: Global, text: &[u8]) -> Result<Words, WordFault>
    requires { length text.now < 2 ^ 31 }
    ensures exact { reading.Gives result text.now }
    ensures covers { IfOk result (λ words. Covers text.now 0 words) }
    ensures only { IfOk result (λ words. (tokens : List Token) → Covers text.now 0 tokens → tokens ≡ words) }
    ensures tokens { IfOk result (λ words. AreTokensIn (length text.now) words) }
{
    let tokens = read_tokens(alloc, text)?;
    Ok(Words { tokens })
}
