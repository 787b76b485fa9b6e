//! The command by which the words are read.
ghost use Rattle.std.specs.Prelude.{◌≡◌, IfOk, false, map, string_bytes};
ghost use Rattle.clap.specs.Words.{app_of, rule_of};
ghost use Rattle.option_words.specs.Command.{bare_app, demo_rule, load_rule, options_app, replay_rule, workers_rule};
ghost use Rattle.option_words.specs.Reading.{AreTexts, NoneEnds};

use crate::fault::OptionsFault;
use clap::error::ErrorKind;
use clap::{Arg, ArgAction, Command};
use memory_core::Memory;
use std::alloc::Global;

/// The texts behind the options, where they are given.
#[derive(Clone, Copy)]
pub(crate) struct Texts<'a> {
    pub(crate) load: Option<&'a str>,
    pub(crate) demo: Option<&'a str>,
    pub(crate) replay: Option<&'a str>,
    pub(crate) workers: Option<&'a str>,
}

/// The option `--load NAME`. Its value is text, which is read as a name afterwards.
fn load_option<'a>(alloc: Global) -> Arg<'a>
    ensures rule { rule_of result ≡ load_rule }
    ensures local { result.global ≡ false }
{
    Arg::new(alloc, "load").long("load").action(ArgAction::Set)
}

/// The option `--demo N`. Its value is text, which is read as a number afterwards.
fn demo_option<'a>(alloc: Global) -> Arg<'a>
    ensures rule { rule_of result ≡ demo_rule }
    ensures local { result.global ≡ false }
{
    Arg::new(alloc, "demo").long("demo").action(ArgAction::Set)
}

/// The option `--replay NAME`. Its value is text, which is read as a name afterwards.
fn replay_option<'a>(alloc: Global) -> Arg<'a>
    ensures rule { rule_of result ≡ replay_rule }
    ensures local { result.global ≡ false }
{
    Arg::new(alloc, "replay")
        .long("replay")
        .action(ArgAction::Set)
}

/// The option `--workers N`. Its value is text, which is read as a number afterwards.
fn workers_option<'a>(alloc: Global) -> Arg<'a>
    ensures rule { rule_of result ≡ workers_rule }
    ensures local { result.global ≡ false }
{
    Arg::new(alloc, "workers")
        .long("workers")
        .action(ArgAction::Set)
}

/// A command with no option, not even for help, whose words begin behind the program's name.
fn bare_command<'a>(alloc: Global) -> Command<'a>
    ensures { app_of result ≡ bare_app }
{
    Command::new(alloc, "mgedrt")
        .no_binary_name(true)
        .disable_help_flag(true)
        .disable_version_flag(true)
}

/// The command of the program's options.
fn options_command<'a>(alloc: Global) -> Result<Command<'a>, Memory>
    ensures { IfOk result (λ command. app_of command ≡ options_app) }
{
    let command = bare_command(alloc).arg(load_option(alloc))?;
    let command = command.arg(demo_option(alloc))?;
    let command = command.arg(replay_option(alloc))?;
    let command = command.arg(workers_option(alloc))?;
    Ok(command)
}

/// The texts behind the options of words of which none is `--`.
pub(crate) fn option_texts<'a>(
    alloc: Global,
    words: &'a [String],
) -> Result<Texts<'a>, OptionsFault>
    ensures { NoneEnds (map string_bytes words.now) → AreTexts result (map string_bytes words.now) }
{
    let command = options_command(alloc)?;
    match command.try_get_matches_from(words) {
        Ok(matches) => Ok(Texts {
            load: matches.get_str("load"),
            demo: matches.get_str("demo"),
            replay: matches.get_str("replay"),
            workers: matches.get_str("workers"),
        }),
        Err(error) if error.kind() == ErrorKind::OutOfMemory => Err(OptionsFault::Memory),
        Err(_) => Err(OptionsFault::Usage),
    }
}
