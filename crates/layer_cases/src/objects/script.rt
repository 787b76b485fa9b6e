//! Rows of which each is a list of steps, made one after another on the same thing.

use case_text::{CaseFault, Shown, first_word};
use std::alloc::Global;

/// A thing on which the steps of a row are made.
pub trait Script {
    /// Makes a step of this first word and this rest, and puts in what it answers.
    fn step(
        &mut self,
        alloc: Global,
        word: &str,
        rest: &[u8],
        out: &mut Shown,
    ) -> Result<(), CaseFault>;
}

/// The text without a blank at its front.
fn without_blank(text: &[u8]) -> &[u8] {
    match text {
        [b' ', rest @ ..] => rest,
        _ => text,
    }
}

/// Makes a step.
fn run_step<S: Script>(
    alloc: Global,
    script: &mut S,
    step: &[u8],
    out: &mut Shown,
) -> Result<(), CaseFault> {
    let (word, rest) = first_word(without_blank(step));
    match str::from_utf8(word) {
        Ok(word) => script.step(alloc, word, rest, out),
        Err(_) => Err(CaseFault::Kind),
    }
}

/// Makes the steps of a text, which are parted by `; `, and puts in their answers, parted so too.
pub fn run_steps<S: Script>(
    alloc: Global,
    script: &mut S,
    text: &[u8],
    out: &mut Shown,
) -> Result<(), CaseFault> {
    for (turn, step) in text.split(|byte| *byte == b';').enumerate() {
        if turn > 0 {
            out.put(b"; ");
        }
        run_step(alloc, script, step, out)?;
    }
    Ok(())
}
