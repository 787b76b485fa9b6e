//! Words are read as options.
ghost use Rattle.std.specs.Prelude.{◌≡◌, ◌≤◌, IfOk, IfSome, bytes_eq, codes, map, string_bytes};
ghost use Rattle.std.specs.List.{list_any};
ghost use Rattle.option_words.specs.Grammar.{asked_with, demo_asked, file_asked, name_asked, options_for, replay_asked, workers_asked};
ghost use Rattle.option_words.specs.Reading.{HasNumber, IsAnswer, IsOptions, behind};

use crate::command::{Texts, option_texts};
use crate::fault::OptionsFault;
use crate::number::read_number;
use crate::options::{Model, Options};
use name_core::Name;
use std::alloc::Global;

/// How many workers there are where the words do not say.
const USUAL_WORKERS: u8 = 4;

/// Whether one of the words is `--`. Behind it `clap` takes no word for an option.
fn has_end(words: &[String]) -> bool
    ensures { result ≡ list_any (λ word. bytes_eq (string_bytes word) (codes "--")) words.now }
{
    words.iter().any(|word| word.as_str() == "--")
}

/// The name that a text is.
fn name_in(text: &str) -> Option<Name>
    ensures { result ≡ name_asked text.now }
{
    match Name::read(text.as_bytes()) {
        Ok(name) => Some(name),
        Err(_) => None,
    }
}

/// The model of a file of this name.
fn file_model(text: &str) -> Option<Model>
    ensures model { result ≡ file_asked text.now }
    ensures number { IfSome result HasNumber }
{
    Some(Model::OfFile(name_in(text)?))
}

/// The model of a demo.
fn demo_model(text: &str) -> Option<Model>
    ensures model { result ≡ demo_asked text.now }
    ensures number { IfSome result HasNumber }
{
    match read_number(text.as_bytes()) {
        Some(number) => Some(Model::OfDemo(number)),
        None => None,
    }
}

/// The model of a command line with these texts behind its options. A file and a demo exclude each other.
fn model_with(texts: Texts) -> Option<Model>
    ensures model { result ≡ asked_with (behind texts.entry.load) (behind texts.entry.demo) }
    ensures number { IfSome result HasNumber }
{
    match (texts.load, texts.demo) {
        (None, None) => Some(Model::Empty),
        (Some(name), None) => file_model(name),
        (None, Some(number)) => demo_model(number),
        (Some(_), Some(_)) => None,
    }
}

/// The file that names the order of a run with these texts behind its options, where one is asked for; none where what is
/// asked for is no name.
fn replay_with(texts: Texts) -> Option<Option<Name>>
    ensures { result ≡ replay_asked (behind texts.entry.replay) }
{
    match texts.replay {
        Some(text) => Some(Some(name_in(text)?)),
        None => Some(None),
    }
}

/// The number of workers that a text is, from 1 to 16.
fn workers_in(text: &str) -> Option<u8>
    ensures workers { result ≡ workers_asked (Some text.now) }
    ensures few { IfSome result (λ workers. (1 ≤ workers) × (workers ≤ 16)) }
{
    match read_number(text.as_bytes()) {
        Some(count) if 1 <= count && count <= 16 => Some(count as u8),
        _ => None,
    }
}

/// How many workers a command line with these texts behind its options asks for; none where this is no number from 1 to 16.
fn workers_with(texts: Texts) -> Option<u8>
    ensures workers { result ≡ workers_asked (behind texts.entry.workers) }
    ensures few { IfSome result (λ workers. (1 ≤ workers) × (workers ≤ 16)) }
{
    match texts.workers {
        Some(text) => workers_in(text),
        None => Some(USUAL_WORKERS),
    }
}

/// The options of a command line with these texts.
fn options_with(texts: Texts) -> Result<Options, OptionsFault>
    ensures options { IsAnswer result (options_for (asked_with (behind texts.entry.load) (behind texts.entry.demo)) (replay_asked (behind texts.entry.replay)) (workers_asked (behind texts.entry.workers))) }
    ensures number { IfOk result (λ options. HasNumber options.model) }
    ensures workers { IfOk result (λ options. (1 ≤ options.workers) × (options.workers ≤ 16)) }
{
    match (model_with(texts), replay_with(texts), workers_with(texts)) {
        (Some(model), Some(replay), Some(workers)) => Ok(Options {
            model,
            replay,
            workers,
        }),
        _ => Err(OptionsFault::Usage),
    }
}

/// Reads the words after the program's name: `--load NAME` or `--demo N`, `--replay NAME`, and `--workers N`, or these with
/// `=` in place of the blank, each at most once and in any order, and no other word. A value in a word of its own does not
/// begin with `-`. `N` is one to nine digits; the number of workers is from 1 to 16, and 4 where it is not given.
pub fn read_options(alloc: Global, words: &Vec<String>) -> Result<Options, OptionsFault>
    ensures options { IsOptions result (map string_bytes words.now.items) }
    ensures number { IfOk result (λ options. HasNumber options.model) }
    ensures workers { IfOk result (λ options. (1 ≤ options.workers) × (options.workers ≤ 16)) }
{
    let words = words.as_slice();
    if has_end(words) {
        return Err(OptionsFault::Usage);
    }
    match option_texts(alloc, words) {
        Ok(texts) => options_with(texts),
        Err(fault) => Err(fault),
    }
}
