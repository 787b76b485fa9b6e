//! Runs all sessions of a script at the same time, and writes the transcript.
ghost use Rattle.std.specs.Prelude.{◌≡◌, ◌≤◌, ◌<◌, ◌+◌, ◌==◌, [], ◌^◌, All, IfOk, ℕ, cond, length, map, vec_len, slice_index_or};
ghost use mathlib.Core.List.{IsPrefix};
ghost use Rattle.transcript.specs.Merge.{order_of};
ghost use Rattle.version_table.specs.Entries.{noted};
ghost use Rattle.version_table.specs.Passes.{pass_of, together};
ghost use Rattle.version_table.specs.Places.{IsRising};
ghost use Rattle.session_merge.specs.Joined.{HaveSeen, all_together, answers_of, passes_of, sessions_in};
ghost use Rattle.session_merge.specs.Noted.{entries_of};
ghost use Rattle.mged_words.specs.Entries.{HasSession, command_entry};
ghost use Rattle.mged_words.specs.Readable.{IsReadable};
ghost use Rattle.session_run.specs.Answers.{core_answer};
ghost use Rattle.script_run.specs.Answers.{core_answers};
ghost use Rattle.script_run.specs.AtOnce.{AreAllRun, CanJoin, CanRun, IsRunOf, all_done};
ghost use Rattle.script_run.specs.Runs.{IsRun};
ghost use Rattle.script_run.specs.declared.at_once.Finished.{Finished as TheFinished};
ghost use Rattle.script_run.specs.declared.tasks.Task.{Task as TheTask};

use crate::room::workers_with_room;
use crate::run::{Run, no_answers};
use crate::tasks::{Task, tasks_of};
use command_set::Command;
use directory::{Directory, recall_entries};
use edit_core::Modeller;
use item_list::Items;
use memory_core::Memory;
use mged_words::ScriptCommand;
use outside_core::Gate;
use session_run::Answer;
use std::alloc::Global;
use std::sync::{Arc, Wait};
use std::thread;
use std::thread::Threads;
use std::vec::Vec;
use version_table::{Entry, Pass, VersionTable};

/// What one session has run.
#[derive(Drop)]
pub struct Finished {
    pub number: u8,
    pub pass: Pass<Modeller>,
    pub answers: Items<Answer>,
}

/// Runs one session.
fn run_task<R: Threads + Wait + Sync, G: Gate + Sync>(
    rt: &R,
    alloc: Global,
    table: &VersionTable<Modeller>,
    workers: u8,
    gate: &G,
    task: Task,
) -> Finished
    requires ready { CanRun table.now.id task }
    requires workers { workers ≤ 16 }
    ensures { IsRunOf table.now.told.state task result }
{
    let Task {
        number,
        session,
        mut pass,
    } = task;
    let answers = session.run(rt, alloc, table, &mut pass, workers, gate);
    Finished {
        number,
        pass,
        answers,
    }
}

/// Runs each session on a thread of its own; the calling thread runs those that get none.
fn run_tasks<R: Threads + Wait + Sync, G: Gate + Sync>(
    rt: &R,
    alloc: Global,
    table: &VersionTable<Modeller>,
    workers: u8,
    gate: &G,
    tasks: Vec<Task>,
) -> Result<Vec<Finished>, Memory>
    requires ready { All (CanRun table.now.id) tasks.items }
    requires workers { workers ≤ 16 }
    ensures len { IfOk result (λ finished. vec_len finished ≡ vec_len tasks) }
    ensures ran { IfOk result (λ finished. (i : ℕ) (t : TheTask) (f : TheFinished) → i < vec_len tasks → IsRunOf table.now.told.state (slice_index_or tasks.items i t) (slice_index_or finished.items i f)) }
{
    let finished = thread::map_vec(
        rt,
        tasks,
        &|task: Task| -> Finished
            requires ready { CanRun table.now.id task }
            requires workers { workers ≤ 16 }
            ensures { IsRunOf table.entry.now.told.state task result }
        { run_task(rt, alloc, table, workers, gate, task) },
    )?;
    Ok(finished)
}

/// Joins the pass of a session, and puts its answers into its list.
fn join_one(
    table: &VersionTable<Modeller>,
    pass: &mut Pass<Modeller>,
    one: Finished,
    lists: &mut Vec<Items<Answer>>,
)
    requires table { pass.old.table ≡ table.now.id }
    requires one { CanJoin table.now.id one }
    requires eight { vec_len lists.old ≡ 8 }
    ensures pass { pass.new ≡ together pass.old one.pass }
    ensures begins { IsPrefix pass.old.seen pass.new.seen × IsPrefix one.pass.seen pass.new.seen }
    ensures eight { vec_len lists.new ≡ 8 }
    ensures answers { (k : ℕ) → core_answers lists.new.items k ≡ cond (one.pass.session == k) (map core_answer one.answers) (core_answers lists.old.items k) }
{
    let Finished {
        number,
        pass: other,
        answers,
    } = one;
    table.join(pass, other);
    lists[usize::from(number - 1)] = answers;
}

/// Joins the passes of all sessions, and puts the answers into their lists.
fn join_all(
    table: &VersionTable<Modeller>,
    pass: &mut Pass<Modeller>,
    finished: Vec<Finished>,
    lists: &mut Vec<Items<Answer>>,
)
    requires table { pass.old.table ≡ table.now.id }
    requires each { All (CanJoin table.now.id) finished.items }
    requires apart { IsRising (sessions_in (all_done finished.items)) }
    requires eight { vec_len lists.old ≡ 8 }
    requires empty { (k : ℕ) → core_answers lists.old.items k ≡ [] }
    ensures pass { pass.new ≡ all_together pass.old (passes_of (all_done finished.items)) }
    ensures seen { HaveSeen pass.new.seen (passes_of (all_done finished.items)) }
    ensures eight { vec_len lists.new ≡ 8 }
    ensures answers { (k : ℕ) → core_answers lists.new.items k ≡ answers_of (all_done finished.items) k }
{
    for one in finished {
        join_one(table, pass, one, lists);
    }
}

/// Runs all sessions of a script at the same time, joins their passes to the one that is handed in, and gives the answers of
/// each session.
fn run_sessions<R: Threads + Wait + Sync, G: Gate + Sync>(
    rt: &R,
    alloc: Global,
    table: &VersionTable<Modeller>,
    pass: &mut Pass<Modeller>,
    script: &[ScriptCommand],
    workers: u8,
    gate: &G,
) -> Result<Vec<Items<Answer>>, Memory>
    requires sessions { All HasSession (map command_entry script.now) }
    requires few { length script.now + 1 < 2 ^ 32 }
    requires pass { pass.old ≡ pass_of table.now.id 0 [] [] (length script.now) }
    requires workers { workers ≤ 16 }
    ensures run { IfOk result (λ lists. AreAllRun table.now.told.state table.now.id (map command_entry script.now) pass.new lists.items) }
    ensures eight { IfOk result (λ lists. vec_len lists ≡ 8) }
{
    let tasks = tasks_of(alloc, table, pass, script)?;
    let workers = workers_with_room(alloc, tasks.len(), workers);
    let finished = run_tasks(rt, alloc, table, workers, gate, tasks)?;
    let mut lists = no_answers(alloc)?;
    join_all(table, pass, finished, &mut lists);
    Ok(lists)
}

/// The sessions of a history's entries, in order.
fn history_order(alloc: Global, entries: &[Entry<Command>]) -> Result<Vec<u8>, Memory>
    ensures { IfOk result (λ order. order.items ≡ order_of (entries_of (noted entries.now))) }
{
    let mut order = Vec::new(alloc);
    for entry in entries {
        order.push(entry.session)?;
    }
    Ok(order)
}

/// Runs all sessions of a script at the same time, from a directory. Each session runs its own commands in sequence, and
/// all share one history of versions, whose order the transcript prints. The tiles of each picture and check are shot by
/// `workers` threads, from 1 to 16, beside that of its session, which helps them when it gathers; where there is no room for so
/// many, by fewer or none. In one order of the history, and with memory for all, the answers are the same, however many these
/// are.
pub fn run_at_once<R: Threads + Wait + Sync, G: Gate + Sync>(
    rt: &R,
    alloc: Global,
    directory: Directory,
    script: &[ScriptCommand],
    workers: u8,
    gate: &G,
) -> Result<Run, Memory>
    requires sessions { All HasSession (map command_entry script.now) }
    requires readable { All IsReadable (map command_entry script.now) }
    requires few { length script.now + 1 < 2 ^ 32 }
    requires workers { (1 ≤ workers) × (workers ≤ 16) }
    ensures run { IfOk result (λ r. IsRun directory (map command_entry script.now) r.text.items r.order.items r.answers.items r.some_refused) }
    ensures eight { IfOk result (λ r. vec_len r.answers ≡ 8) }
{
    recall_entries(&directory);
    let opening = Arc::new(alloc, directory)?;
    let (table, mut pass) = VersionTable::open(alloc, opening, script.len() as u32)?;
    let answers = run_sessions(rt, alloc, &table, &mut pass, script, workers, gate)?;
    let closed = table.close(pass);
    let order = history_order(alloc, &closed.entries)?;
    Run::written(alloc, order, answers)
}
