//! Runs the commands of a script in an order of its sessions, and writes the transcript.
ghost use Rattle.std.specs.Prelude.{◌≡◌, ◌≤◌, ◌<◌, ◌+◌, ◌++◌, ◌∷◌, [], ◌^◌, All, IfOk, OnOk, ℕ, List, length, vec_len, map, replicate};
ghost use Rattle.std.specs.List.{list_any};
ghost use Rattle.transcript.specs.Lines.{text_of};
ghost use Rattle.transcript.specs.Merge.{IsMerge, lane};
ghost use Rattle.transcript.specs.Run.{State};
ghost use Rattle.transcript.specs.Transcript.{answer_lines, session_lines, sessions as eight_sessions, transcript};
ghost use Rattle.command_set.specs.declared.command.Command.{Command as TheCommand};
ghost use Rattle.directory.specs.Listing.{Listing};
ghost use Rattle.mged_words.specs.Entries.{HasSession, command_entry};
ghost use Rattle.mged_words.specs.Readable.{IsReadable};
ghost use Rattle.script_run.specs.Answers.{core_answers, core_state, is_refused, all_session_lines, left_at, left_of, lists_of, owns_of};
ghost use Rattle.script_run.specs.Runs.{IsOfEight, IsOrderedRun};
ghost use Rattle.script_run.specs.Steps.{HasAnswered, HaveAnswered, IsReady};
ghost use Rattle.script_run.specs.declared.run.Lane.{Lane as TheLane};
ghost use Rattle.session_run.specs.declared.answer.Book.{Book as TheBook};
ghost use Rattle.session_run.specs.Own.{OwnState};
ghost use Rattle.session_run.specs.Answers.{core_answer};
ghost use Rattle.session_run.specs.Replies.{nothing_used};

use crate::tasks::session_commands;
use command_set::{Command, RefusalText};
use directory::{Directory, recall_entries};
use item_list::Items;
use memory_core::Memory;
use mged_words::ScriptCommand;
use session_run::{Answer, Book, Keep, Own, answer_command};
use std::alloc::Global;
use std::sync::Arc;
use std::thread::Threads;
use std::vec::Vec;
use transcript::{push_accepted, push_order, push_refused};

/// What a run leaves: its transcript, the sessions in the order of its commands, the answers of each session, and whether a
/// command is refused.
#[derive(Drop)]
pub struct Run {
    pub text: Vec<u8>,
    pub order: Vec<u8>,
    pub answers: Vec<Items<Answer>>,
    pub some_refused: bool,
}

/// One session of a run on one thread: its commands, what it has of its own, the scenes that it keeps, and the answers of
/// its first commands.
#[derive(Drop)]
pub struct Lane {
    pub commands: Vec<Arc<Command>>,
    pub own: Own,
    pub keep: Keep,
    pub answers: Items<Answer>,
}

impl Lane {
    /// Answers the session's next command.
    fn next<R: Threads + Sync>(&mut self, alloc: Global, book: &mut Book) -> Result<(), Memory>
        requires some { 0 < length (left_of self.old) }
        requires small { book.old.version + 1 < 2 ^ 32 }
        requires ready { IsReady book.old self.old }
        ensures answered { OnOk result (HasAnswered book.old book.new self.old self.new) }
        ensures ready { IsReady book.new self.new }
        ensures others { (other : TheLane) → IsReady book.old other → IsReady book.new other }
        ensures small { book.new.version ≤ book.old.version + 1 }
    {
        let next = self.answers.items().len();
        let command = &self.commands[next];
        let answer = answer_command::<R>(alloc, book, &mut self.own, &mut self.keep, command);
        self.answers.push(answer)?;
        Ok(())
    }
}

/// Answers the next command of a session.
fn answer_next<R: Threads + Sync>(
    alloc: Global,
    book: &mut Book,
    lanes: &mut Vec<Lane>,
    session: u8,
) -> Result<(), Memory>
    requires session { IsOfEight session }
    requires eight { vec_len lanes.old ≡ 8 }
    requires some { 0 < length (left_at lanes.old.items session) }
    requires small { book.old.version + 1 < 2 ^ 32 }
    requires ready { All (IsReady book.old) lanes.old.items }
    ensures eight { vec_len lanes.new ≡ 8 }
    ensures ready { All (IsReady book.new) lanes.new.items }
    ensures small { book.new.version ≤ book.old.version + 1 }
    ensures answered { OnOk result ((start : State Listing OwnState) (script : ℕ → List TheCommand) (order : List ℕ) → HaveAnswered start script order book.old lanes.old.items → HaveAnswered start script (order ++ session ∷ []) book.new lanes.new.items) }
{
    lanes[usize::from(session - 1)].next::<R>(alloc, book)
}

/// Answers the commands of all sessions, in this order of the sessions.
fn answer_all<R: Threads + Sync>(
    alloc: Global,
    book: &mut Book,
    lanes: &mut Vec<Lane>,
    order: &[u8],
) -> Result<(), Memory>
    requires sessions { All IsOfEight order.now }
    requires few { length order.now + 1 < 2 ^ 32 }
    requires eight { vec_len lanes.old ≡ 8 }
    requires merge { IsMerge order.now (left_at lanes.old.items) }
    requires fresh { book.old.version ≡ 0 }
    requires ready { All (IsReady book.old) lanes.old.items }
    requires unanswered { (k : ℕ) → core_answers (lists_of lanes.old.items) k ≡ [] }
    ensures eight { vec_len lanes.new ≡ 8 }
    ensures answered { OnOk result (HaveAnswered (core_state book.old (owns_of lanes.old.items)) (left_at lanes.old.items) order.now book.new lanes.new.items) }
{
    for session in order {
        answer_next::<R>(alloc, book, lanes, *session)?;
    }
    Ok(())
}

/// The session of this number before its first command, with its commands of the script.
fn lane_of(alloc: Global, script: &[ScriptCommand], number: u8) -> Result<Lane, Memory>
    ensures left { IfOk result (λ one. left_of one ≡ lane (map command_entry script.now) number) }
    ensures own { IfOk result (λ one. one.own ≡ nothing_used) }
    ensures answers { IfOk result (λ one. one.answers ≡ []) }
    ensures ready { IfOk result (λ one. (book : TheBook) → IsReady book one) }
{
    let commands = session_commands(alloc, script, number)?;
    Ok(Lane {
        commands,
        own: Own::new(alloc)?,
        keep: Keep::new(alloc),
        answers: Items::new(alloc),
    })
}

/// The eight sessions before their first commands.
fn lanes_of(alloc: Global, script: &[ScriptCommand]) -> Result<Vec<Lane>, Memory>
    ensures eight { IfOk result (λ lanes. vec_len lanes ≡ 8) }
    ensures left { IfOk result (λ lanes. map left_of lanes.items ≡ map (lane (map command_entry script.now)) eight_sessions) }
    ensures owns { IfOk result (λ lanes. owns_of lanes.items ≡ replicate 8 nothing_used) }
    ensures answers { IfOk result (λ lanes. lists_of lanes.items ≡ replicate 8 []) }
    ensures ready { IfOk result (λ lanes. (book : TheBook) → All (IsReady book) lanes.items) }
{
    let mut lanes = Vec::new(alloc);
    for i in 0..8usize {
        lanes.push(lane_of(alloc, script, i as u8 + 1)?)?;
    }
    Ok(lanes)
}

/// The answers of each session.
fn answers_of(alloc: Global, lanes: Vec<Lane>) -> Result<Vec<Items<Answer>>, Memory>
    ensures { IfOk result (λ lists. lists.items ≡ lists_of lanes.items) }
{
    let mut lists = Vec::new(alloc);
    for one in lanes {
        lists.push(one.answers)?;
    }
    Ok(lists)
}

pub fn no_answers(alloc: Global) -> Result<Vec<Items<Answer>>, Memory>
    ensures { IfOk result (λ answers. answers.items ≡ replicate 8 []) }
{
    let mut answers = Vec::new(alloc);
    for _i in 0..8usize {
        answers.push(Items::new(alloc))?;
    }
    Ok(answers)
}

fn is_refused_in(answers: &[Answer]) -> bool
    ensures { result ≡ list_any is_refused answers.now }
{
    answers.iter().any(|answer| answer.outcome.is_err())
}

fn is_refused_among(lists: &[Items<Answer>]) -> bool
    ensures { result ≡ list_any (list_any is_refused) lists.now }
{
    lists.iter().any(|list| is_refused_in(list.items()))
}

/// Puts an answer at the end of the text.
fn push_answer(text: &mut Vec<u8>, session: u8, number: u32, answer: &Answer) -> Result<(), Memory>
    requires { session ≤ 8 }
    ensures { OnOk result (text.new.items ≡ text.old.items ++ text_of (answer_lines session number (core_answer answer.now))) }
{
    match &answer.outcome {
        Ok(found) => push_accepted(text, session, number, answer.version, &found.body),
        Err(refusal) => {
            let mut words = RefusalText::new();
            refusal.write_text(&mut words);
            push_refused(text, session, number, answer.version, words.bytes())
        }
    }
}

/// Puts the answers of a session at the end of the text.
fn push_session(text: &mut Vec<u8>, session: u8, answers: &[Answer]) -> Result<(), Memory>
    requires small { session ≤ 8 }
    requires few { length answers.now + 1 < 2 ^ 32 }
    ensures { OnOk result (text.new.items ≡ text.old.items ++ text_of (session_lines session 1 (map core_answer answers.now))) }
{
    let mut number = 1;
    for answer in answers {
        push_answer(text, session, number, answer)?;
        number += 1;
    }
    Ok(())
}

/// Puts the answers of all sessions at the end of the text.
fn push_sessions(text: &mut Vec<u8>, lists: &[Items<Answer>]) -> Result<(), Memory>
    requires eight { length lists.now ≡ 8 }
    requires few { All (λ list. length list + 1 < 2 ^ 32) lists.now }
    ensures { OnOk result (text.new.items ≡ text.old.items ++ text_of (all_session_lines lists.now 8)) }
{
    for i in 0..8usize {
        push_session(text, i as u8 + 1, lists[i].items())?;
    }
    Ok(())
}

/// The transcript of an order and of each session's answers.
fn write_transcript(alloc: Global, order: &[u8], lists: &[Items<Answer>]) -> Result<Vec<u8>, Memory>
    requires order { All (λ digit. digit ≤ 8) order.now }
    requires eight { length lists.now ≡ 8 }
    requires few { All (λ list. length list + 1 < 2 ^ 32) lists.now }
    ensures { IfOk result (λ text. text.items ≡ transcript order.now (core_answers lists.now)) }
{
    let mut text = Vec::new(alloc);
    push_order(&mut text, order)?;
    push_sessions(&mut text, lists)?;
    Ok(text)
}

impl Run {
    /// The run of this order and of each session's answers, with its transcript.
    pub(crate) fn written(
        alloc: Global,
        order: Vec<u8>,
        answers: Vec<Items<Answer>>,
    ) -> Result<Run, Memory>
        requires order { All (λ digit. digit ≤ 8) order.items }
        requires eight { vec_len answers ≡ 8 }
        requires few { All (λ list. length list + 1 < 2 ^ 32) answers.items }
        ensures text { IfOk result (λ r. r.text.items ≡ transcript order.items (core_answers answers.items)) }
        ensures order { IfOk result (λ r. r.order.items ≡ order.items) }
        ensures answers { IfOk result (λ r. r.answers.items ≡ answers.items) }
        ensures eight { IfOk result (λ r. vec_len r.answers ≡ 8) }
        ensures refused { IfOk result (λ r. r.some_refused ≡ list_any (list_any is_refused) answers.items) }
    {
        let text = write_transcript(alloc, &order, &answers)?;
        let some_refused = is_refused_among(&answers);
        Ok(Run {
            text,
            order,
            answers,
            some_refused,
        })
    }
}

/// Runs a script on one thread, in this order of its sessions, from a directory. `R` is the runtime of the calls that have
/// threads; none is taken and no thread is started here.
pub fn run_in_order<R: Threads + Sync>(
    alloc: Global,
    directory: Directory,
    script: &[ScriptCommand],
    order: Vec<u8>,
) -> Result<Run, Memory>
    requires sessions { All HasSession (map command_entry script.now) }
    requires readable { All IsReadable (map command_entry script.now) }
    requires few { length script.now + 1 < 2 ^ 32 }
    requires merge { IsMerge order.items (lane (map command_entry script.now)) }
    ensures run { IfOk result (λ r. IsOrderedRun directory (map command_entry script.now) order.items r.text.items r.order.items r.answers.items r.some_refused) }
    ensures eight { IfOk result (λ r. vec_len r.answers ≡ 8) }
{
    recall_entries(&directory);
    let mut book = Book {
        directory,
        version: 0,
    };
    let mut lanes = lanes_of(alloc, script)?;
    answer_all::<R>(alloc, &mut book, &mut lanes, &order)?;
    let answers = answers_of(alloc, lanes)?;
    Run::written(alloc, order, answers)
}
