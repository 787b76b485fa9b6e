//! Rows of texts, refusals, directories and devices. Each asks for one or more calls.

mod attributes;
mod devices;
mod directories;
mod refusals;
mod script;
mod shown;
mod texts;
mod words;

use case_text::{CaseFault, Shown};
use devices::{no_shelf, no_sink, no_source};
use directories::Directories;
use script::run_steps;
use std::alloc::Global;

/// Answers a row of steps on one thing, or hands it on.
pub fn answer(alloc: Global, kind: &str, given: &[u8], out: &mut Shown) -> Result<(), CaseFault> {
    match kind {
        "directory" => run_steps(alloc, &mut Directories::new(alloc), given, out),
        "source" => run_steps(alloc, &mut no_source(alloc), given, out),
        "sink" => run_steps(alloc, &mut no_sink(alloc)?, given, out),
        "shelf" => run_steps(alloc, &mut no_shelf(alloc), given, out),
        _ => answer_text(alloc, kind, given, out),
    }
}

/// Answers a row of small types or words, or hands it on.
fn answer_text(alloc: Global, kind: &str, given: &[u8], out: &mut Shown) -> Result<(), CaseFault> {
    match kind {
        "words" => texts::answer_words(alloc, given, out),
        "bad-bytes" => texts::answer_bad_bytes(alloc, given, out),
        "tokens" => texts::answer_tokens(alloc, given, out),
        "written" => texts::answer_written(alloc, given, out),
        "top-words" => texts::answer_top_words(alloc, given, out),
        "inner-words" => texts::answer_inner_words(alloc, given, out),
        _ => answer_item(alloc, kind, given, out),
    }
}

/// Answers a row of small types or names, or hands it on.
fn answer_item(alloc: Global, kind: &str, given: &[u8], out: &mut Shown) -> Result<(), CaseFault> {
    match kind {
        "memory" => texts::answer_memory(alloc, out),
        "name-keys" => texts::answer_name_keys(alloc, given, out),
        "items" => texts::answer_items(alloc, given, out),
        "items-equal" => texts::answer_items_equal(alloc, given, out),
        "items-keys" => texts::answer_items_keys(alloc, given, out),
        "fixed-text" => texts::answer_fixed_text(alloc, given, out),
        _ => answer_part(alloc, kind, given, out),
    }
}

/// Answers a row of attributes or refusals, or hands it on.
fn answer_part(alloc: Global, kind: &str, given: &[u8], out: &mut Shown) -> Result<(), CaseFault> {
    match kind {
        "new-attributes" => attributes::answer_new(given, out),
        "set" => attributes::answer_set(given, out),
        "refusal" => refusals::answer_refusal(given, out),
        _ => answer_word(kind, given, out),
    }
}

/// Answers a row of one word, or refuses it.
fn answer_word(kind: &str, given: &[u8], out: &mut Shown) -> Result<(), CaseFault> {
    match kind {
        "name" => texts::answer_name(given, out),
        "number" => texts::answer_number(given, out),
        "length" => texts::answer_length(given, out),
        "group-text" => texts::answer_group_text(given, out),
        "value-text" => texts::answer_value_text(given, out),
        _ => return Err(CaseFault::Kind),
    }
    Ok(())
}
