//! How a call of the program ends: its number and its line.
ghost use Rattle.std.specs.Prelude.{◌≡◌, ◌≤◌, ◌+◌, ◌++◌, codes, decimal, length};
ghost use Rattle.mged_top.specs.Statuses.{exit_number, flaw_text, kind_text, load_text, replay_text, status_line};

use asc_form::AscKind;
use fixed_text::FixedText;
use mged_words::ScriptFlaw;
use name_core::Name;

/// Why a model is not loaded.
#[derive(Clone, Copy, Debug, PartialEq, Eq)]
pub enum LoadFault {
    /// There is no file of this name.
    NoFile(Name),
    /// The file has over 16,777,216 bytes.
    Size,
    /// The first faulty command of the file begins on this line, counted from 1.
    At { line: u32, kind: AscKind },
}

/// Why a script is not replayed.
#[derive(Clone, Copy, Debug, PartialEq, Eq)]
pub enum ReplayFault {
    /// There is no file of this name.
    NoFile(Name),
    /// The first line of the file is no order that merges the script: `order`, and a blank and a session's digit for each
    /// of its commands.
    Order,
}

/// How a call of the program ended.
#[derive(Clone, Copy, Debug, PartialEq, Eq)]
pub enum Status {
    /// All is written, and no command is refused.
    Done,
    /// All is written, and at least one command is refused.
    SomeRefused,
    /// The words of the command line are not understood. Nothing is read or written.
    Usage,
    /// The load file is refused. The script is not read, and nothing is written.
    LoadRefused(LoadFault),
    /// The script is refused. Nothing is written.
    ScriptRefused(ScriptFlaw),
    /// A read failed. Nothing is written.
    ReadFault,
    /// A write failed. Where it was one to the sink, this holds first bytes of the transcript, not all, and no file is put;
    /// where it was the put of a file, the transcript is held whole, and first files are put, not all.
    WriteFault,
    /// There was no memory. Nothing is written, or the transcript is held whole and first files are put, not all.
    Memory,
    /// The order file is refused. The script is read, and nothing is written.
    ReplayRefused(ReplayFault),
}

/// The line of a status.
pub type StatusText = FixedText<96>;

/// Puts the number of a line, and what is wrong with it, at the end.
fn push_line(line: u32, what: &[u8], out: &mut StatusText)
    requires { length out.old + length what.now ≤ 64 }
    ensures { out.new ≡ out.old ++ (codes "line " ++ (decimal line ++ what.now)) }
{
    out.push(b"line ");
    out.push_number(line);
    out.push(what);
}

/// Puts what is wrong with a script at the end.
fn push_flaw(flaw: &ScriptFlaw, out: &mut StatusText)
    requires { length out.old ≤ 32 }
    ensures { out.new ≡ out.old ++ flaw_text flaw.now }
{
    match flaw {
        ScriptFlaw::Size => out.push(b"size"),
        ScriptFlaw::Lines(line) => push_line(*line, b" lines", out),
        ScriptFlaw::LongLine(line) => push_line(*line, b" long", out),
        ScriptFlaw::Session(line) => push_line(*line, b" session", out),
    }
}

/// The kind of a fault in lower case.
fn kind_text(kind: AscKind) -> &'static [u8]
    ensures { result.now ≡ kind_text kind }
{
    match kind {
        AscKind::Words => b" words",
        AscKind::NoType => b" type",
        AscKind::Attr => b" attr",
        AscKind::Tree => b" tree",
        AscKind::Name => b" name",
        AscKind::Number => b" number",
        AscKind::Shape => b" shape",
        AscKind::Exists => b" exists",
        AscKind::Full => b" full",
        AscKind::Cycle => b" cycle",
        AscKind::Deep => b" deep",
    }
}

/// Puts why a model is not loaded at the end.
fn push_load(fault: &LoadFault, out: &mut StatusText)
    requires { length out.old ≤ 24 }
    ensures { out.new ≡ out.old ++ load_text fault.now }
{
    match fault {
        LoadFault::NoFile(name) => {
            out.push(b"missing ");
            out.push(name.bytes());
        }
        LoadFault::Size => out.push(b"size"),
        LoadFault::At { line, kind } => push_line(*line, kind_text(*kind), out),
    }
}

/// Puts why a script is not replayed at the end.
fn push_replay(fault: &ReplayFault, out: &mut StatusText)
    requires { length out.old ≤ 24 }
    ensures { out.new ≡ out.old ++ replay_text fault.now }
{
    match fault {
        ReplayFault::NoFile(name) => {
            out.push(b"missing ");
            out.push(name.bytes());
        }
        ReplayFault::Order => out.push(b"order"),
    }
}

impl Status {
    /// The number with which the program ends.
    pub fn number(&self) -> u8
        ensures { result ≡ exit_number self.now }
    {
        match self {
            Status::Done => 0,
            Status::SomeRefused => 1,
            Status::Usage => 2,
            Status::LoadRefused(_) => 3,
            Status::ScriptRefused(_) => 4,
            Status::ReadFault => 5,
            Status::WriteFault => 6,
            Status::Memory => 7,
            Status::ReplayRefused(_) => 8,
        }
    }

    /// Writes the line of the status, without its end, in place of what `out` held. It is empty where the
    /// transcript is written.
    pub fn write_line(&self, out: &mut StatusText)
        ensures { out.new ≡ status_line self.now }
    {
        out.clear();
        match self {
            Status::Done | Status::SomeRefused => {}
            Status::Usage => out.push(b"mgedrt: usage"),
            Status::LoadRefused(fault) => {
                out.push(b"mgedrt: load ");
                push_load(fault, out);
            }
            Status::ScriptRefused(flaw) => {
                out.push(b"mgedrt: script ");
                push_flaw(flaw, out);
            }
            Status::ReadFault => out.push(b"mgedrt: read"),
            Status::WriteFault => out.push(b"mgedrt: write"),
            Status::Memory => out.push(b"mgedrt: memory"),
            Status::ReplayRefused(fault) => {
                out.push(b"mgedrt: replay ");
                push_replay(fault, out);
            }
        }
    }
}
