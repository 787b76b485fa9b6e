//! Sessions: each runs its commands in sequence, over a table that other sessions share.
ghost use Rattle.std.specs.Prelude.{◌≡◌, ◌≤◌, ◌<◌, ◌++◌, ◌∷◌, [], ℕ, true, false, None, IfNone, IfOk, IfSome, IsSome, length, map, slice_set, vec_len, vec_capacity};
ghost use Rattle.std.specs.Arc.{arc_value};
ghost use Rattle.transcript.specs.Run.{answer_of, own_after};
ghost use Rattle.session_merge.specs.Answered.{shown_as};
ghost use Rattle.directory.specs.Walks.{Entries};
ghost use Rattle.edit_core.specs.Modelling.{is_look};
ghost use Rattle.session_run.specs.Answers.{core_answer};
ghost use Rattle.session_run.specs.Flights.{Flies, HasRunOf, IsBegun, IsBegunNext, IsLook, IsReady, IsShooting, does_fly};
ghost use Rattle.session_run.specs.Kept.{IsCurrent};
ghost use Rattle.session_run.specs.Own.{OwnState};
ghost use Rattle.session_run.specs.Points.{IsTrueReply};
ghost use Rattle.session_run.specs.declared.answer.Answer.{Answer as AnyAnswer};
ghost use Rattle.session_run.specs.Replies.{core_rules, most_used, nothing_used, table_outcome};
ghost use Rattle.session_run.specs.Sessions.{HasRun, IsNext, IsCurrentPast, book_at};

use crate::answer::{Answer, Found, Own, answer_look, lines_alone};
use crate::flight::{Flight, does_fly, post_shoot};
use crate::keep::Keep;
use command_set::{Command, Refusal};
use directory::Directory;
use edit_core::Modeller;
use item_list::Items;
use memory_core::Memory;
use outside_core::{Gate, GateEvent, OpenGate};
use report_text::Body;
use std::alloc::Global;
use std::marker::Model;
use std::sync::{Arc, Wait};
use std::thread;
use std::thread::Threads;
use std::vec::Vec;
use tile_pool::TilePool;
use version_table::{Edited, Machine, Pass, Snapshot, VersionTable};
use view_shot::{Executor, FlightJob, Parallel, Teller};

/// A command, and another share of it, which goes to the table.
#[derive(Drop)]
struct Task {
    command: Arc<Command>,
    share: Arc<Command>,
}

impl Model for Task {
    ghost use Rattle.std.specs.Prelude.{◌≡◌};
    ghost use Rattle.std.specs.Arc.{arc_value};
    ghost use Rattle.command_set.specs.contracts.command.Command as asked;
    ghost use Rattle.command_set.specs.declared.command.Command.{Command as TheCommand};

    ghost Value = { TheCommand };

    ghost coded = { asked.the_row.coded };

    ghost view = { λ t. arc_value t.command };

    ghost invariant = { λ t. arc_value t.share ≡ arc_value t.command };
}

/// What a session has beside its commands.
#[derive(Drop)]
struct Course {
    session: u8,
    own: Own,
    keep: Keep,
}

/// A session that is to be run: its commands in sequence, and what it has of its own.
#[derive(Drop)]
pub struct Session {
    course: Course,
    tasks: Vec<Task>,
    answers: Vec<Answer>,
}

impl Model for Session {
    ghost use Rattle.std.specs.Prelude.{◌≡◌, ◌≤◌, [], length, vec_capacity};
    ghost use Rattle.std.specs.Coded.{codes};
    ghost use Rattle.command_set.specs.contracts.command.Command as asked;
    ghost use Rattle.session_run.specs.contracts.answer.Own as owned;
    ghost use Rattle.session_run.specs.contracts.keep.Keep as kept;
    ghost use Rattle.session_run.specs.Replies.{most_used};
    ghost use Rattle.session_run.specs.Sessions.{SessionView};

    ghost Value = { SessionView };

    ghost coded = { Prim.hlevel (codes, asked.the_row.coded, owned.the_row.coded, kept.the_row.coded) };

    ghost view = { λ s. record { session = s.course.session; commands = s.tasks.items; own = s.course.own; keep = s.course.keep } };

    ghost invariant = { λ s. (s.answers.items ≡ []) × (length s.tasks.items ≤ vec_capacity s.answers) × (s.course.own.used ≤ most_used) };
}

/// The commands, each with another share of it.
fn tasks_of(alloc: Global, commands: Vec<Arc<Command>>) -> Result<Vec<Task>, Memory>
    ensures { IfOk result (λ tasks. tasks.items ≡ map arc_value commands.items) }
{
    let mut tasks = Vec::with_capacity(alloc, commands.len())?;
    for command in commands {
        let share = command.clone()?;
        tasks.push(Task { command, share })?;
    }
    Ok(tasks)
}

/// What the table answered an edit, as an outcome.
fn outcome_of_edit(
    alloc: Global,
    answer: Result<Result<(), Refusal>, Memory>,
) -> Result<Found, Refusal>
    ensures { result ≡ table_outcome answer }
{
    match answer {
        Ok(Ok(())) => Ok(lines_alone(Body::new(alloc))),
        Ok(Err(refusal)) => Err(refusal),
        Err(_) => Err(Refusal::Memory),
    }
}

/// Puts an answer at the end. There is room for it.
fn push_answer(answers: &mut Vec<Answer>, answer: Answer)
    requires { vec_len answers.old < vec_capacity answers.old }
    ensures items { answers.new.items ≡ answers.old.items ++ answer ∷ [] }
    ensures room { vec_capacity answers.old ≤ vec_capacity answers.new }
{
    match answers.push(answer) {
        Ok(()) => {}
        Err(_) => unreachable!(),
    }
}

impl Course {
    /// Adds an edit to the history, and tells the gate where it is accepted.
    fn edit<R: Wait, G: Gate>(
        &self,
        rt: &R,
        alloc: Global,
        table: &VersionTable<Modeller>,
        pass: &mut Pass<Modeller>,
        gate: &G,
        share: Arc<Command>,
    ) -> Answer
        requires table { pass.old.table ≡ table.now.id }
        requires call { 0 < pass.old.left }
        requires edits { is_look (arc_value share) ≡ false }
        ensures { (own : OwnState) → IsNext table.now.told.state (arc_value share) own pass.old pass.new result own }
    {
        let Edited { version, answer } = table.edit(rt, alloc, pass, share);
        let outcome = outcome_of_edit(alloc, answer);
        if outcome.is_ok() {
            let session = self.session;
            gate.at(GateEvent::Committed { session, version });
        }
        Answer { version, outcome }
    }

    /// Adds a command that is no edit to the history, and answers it there.
    fn look<R: Threads + Wait + Sync, G: Gate + Sync>(
        &mut self,
        rt: &R,
        executor: &Executor<R, G>,
        alloc: Global,
        table: &VersionTable<Modeller>,
        pass: &mut Pass<Modeller>,
        command: &Command,
        share: Arc<Command>,
    ) -> Answer
        requires table { pass.old.table ≡ table.now.id }
        requires call { 0 < pass.old.left }
        requires looks { is_look command.now ≡ true }
        requires share { arc_value share ≡ command.now }
        requires quota { self.old.own.used ≤ most_used }
        requires current { IsCurrentPast self.old.keep table.now.told.state pass.old.seen }
        ensures next { IsNext table.now.told.state command.now self.old.own pass.old pass.new result self.new.own }
        ensures quota { self.new.own.used ≤ most_used }
        ensures current { IsCurrentPast self.new.keep table.now.told.state pass.new.seen }
        ensures session { self.new.session ≡ self.old.session }
    {
        let Snapshot { version, state } = table.view(rt, pass, share);
        match state {
            Ok(directory) => self.one(executor, alloc, version, &directory, command),
            Err(_) => {
                self.own.forget(command);
                let outcome = Err(Refusal::Memory);
                Answer { version, outcome }
            }
        }
    }

    /// Answers a command that is no edit, with the directory of a version.
    fn one<R: Threads + Sync, G: Gate + Sync>(
        &mut self,
        executor: &Executor<R, G>,
        alloc: Global,
        version: u32,
        directory: &Directory,
        command: &Command,
    ) -> Answer
        requires looks { is_look command.now ≡ true }
        requires quota { self.old.own.used ≤ most_used }
        requires current { IsCurrent self.old.keep version directory.now.objects }
        ensures answer { core_answer result ≡ answer_of core_rules (book_at directory.now version) self.old.own (shown_as command.now (core_answer result)) }
        ensures own { self.new.own ≡ own_after core_rules (book_at directory.now version) self.old.own (shown_as command.now (core_answer result)) }
        ensures quota { self.new.own.used ≤ most_used }
        ensures current { IsCurrent self.new.keep version directory.now.objects }
        ensures session { self.new.session ≡ self.old.session }
    {
        let own = &mut self.own;
        let keep = &mut self.keep;
        answer_look(executor, alloc, version, directory, own, keep, command)
    }

    /// Answers the next command, whose tiles the executor shoots.
    fn next<R: Threads + Wait + Sync, G: Gate + Sync>(
        &mut self,
        rt: &R,
        executor: &Executor<R, G>,
        alloc: Global,
        table: &VersionTable<Modeller>,
        pass: &mut Pass<Modeller>,
        gate: &G,
        task: Task,
    ) -> Answer
        requires table { pass.old.table ≡ table.now.id }
        requires call { 0 < pass.old.left }
        requires quota { self.old.own.used ≤ most_used }
        requires current { IsCurrentPast self.old.keep table.now.told.state pass.old.seen }
        ensures next { IsNext table.now.told.state task self.old.own pass.old pass.new result self.new.own }
        ensures quota { self.new.own.used ≤ most_used }
        ensures current { IsCurrentPast self.new.keep table.now.told.state pass.new.seen }
        ensures session { self.new.session ≡ self.old.session }
    {
        let Task { command, share } = task;
        if Modeller::looks(&command) {
            self.look(rt, executor, alloc, table, pass, &command, share)
        } else {
            self.edit(rt, alloc, table, pass, gate, share)
        }
    }
}

/// A command's answer, or its picture or check in flight.
#[derive(Drop)]
enum Begun<'a, G: Gate + Sync> {
    Answered(Answer),
    InFlight(Flight<'a, G>),
}

impl Course {
    /// Puts the picture or the check that a command asks for into flight, with the directory of a version.
    fn post<'a, R: Wait, G: Gate + Sync>(
        &mut self,
        pool: &TilePool<FlightJob<'a, G>>,
        rt: &R,
        alloc: Global,
        teller: Teller<'a, G>,
        version: u32,
        directory: Arc<Directory>,
        command: Arc<Command>,
    ) -> Begun<'a, G>
        requires flies { does_fly (arc_value command) ≡ true }
        requires quota { self.old.own.used ≤ most_used }
        requires current { IsCurrent self.old.keep version (arc_value directory).objects }
        ensures begun { IsBegun (arc_value directory) version (arc_value command) self.old.own self.new.own result }
        ensures quota { self.new.own.used ≤ most_used }
        ensures current { IsCurrent self.new.keep version (arc_value directory).objects }
        ensures session { self.new.session ≡ self.old.session }
    {
        let Command::Shoot(shoot) = &*command else {
            unreachable!()
        };
        let own = &self.own;
        let keep = &mut self.keep;
        let posted = post_shoot(
            pool, rt, alloc, teller, version, &directory, keep, own, shoot,
        );
        match posted {
            Ok(Ok(flying)) => Begun::InFlight(Flight {
                version,
                directory,
                command,
                flying,
            }),
            Ok(Err(refusal)) => {
                let outcome = Err(refusal);
                Begun::Answered(Answer { version, outcome })
            }
            Err(_) => {
                self.own.forget(&command);
                let outcome = Err(Refusal::Memory);
                Begun::Answered(Answer { version, outcome })
            }
        }
    }

    /// Adds a command that is no edit to the history. A picture or a check is put into flight there, and another command is
    /// answered.
    fn begin<'a, R: Threads + Wait + Sync, G: Gate + Sync>(
        &mut self,
        pool: &TilePool<FlightJob<'a, G>>,
        rt: &R,
        executor: &Executor<R, G>,
        alloc: Global,
        table: &VersionTable<Modeller>,
        pass: &mut Pass<Modeller>,
        teller: Teller<'a, G>,
        task: Task,
    ) -> Begun<'a, G>
        requires table { pass.old.table ≡ table.now.id }
        requires call { 0 < pass.old.left }
        requires looks { is_look task ≡ true }
        requires quota { self.old.own.used ≤ most_used }
        requires current { IsCurrentPast self.old.keep table.now.told.state pass.old.seen }
        ensures next { IsBegunNext table.now.told.state task self.old.own self.new.own pass.old pass.new result }
        ensures quota { self.new.own.used ≤ most_used }
        ensures current { IsCurrentPast self.new.keep table.now.told.state pass.new.seen }
        ensures session { self.new.session ≡ self.old.session }
    {
        let Task { command, share } = task;
        let Snapshot { version, state } = table.view(rt, pass, share);
        match state {
            Ok(directory) => {
                if does_fly(&command) {
                    self.post(pool, rt, alloc, teller, version, directory, command)
                } else {
                    Begun::Answered(self.one(executor, alloc, version, &directory, &command))
                }
            }
            Err(_) => {
                self.own.forget(&command);
                let outcome = Err(Refusal::Memory);
                Begun::Answered(Answer { version, outcome })
            }
        }
    }
}

/// A picture or a check in flight, with the place of its answer and the number of its command.
#[derive(Drop)]
struct Waiting<'a, G: Gate + Sync> {
    place: usize,
    number: u32,
    flight: Flight<'a, G>,
}

/// The answers of a session so far. One of them only holds the place of that of a picture or a check in flight.
#[derive(Drop)]
struct Log<'a, G: Gate + Sync> {
    answers: Vec<Answer>,
    waiting: Option<Waiting<'a, G>>,
}

impl<'a, G: Gate + Sync> Log<'a, G> {
    /// Gathers what is in flight, and puts the answer at its place.
    fn settle<R: Threads + Sync>(
        &mut self,
        pool: &TilePool<FlightJob<'a, G>>,
        rt: &R,
        alloc: Global,
        workers: u8,
        session: u8,
        gate: &G,
        own: &mut Own,
    )
        requires workers { (1 ≤ workers) × (workers ≤ 16) }
        requires quota { own.old.used ≤ most_used }
        requires place { IfSome self.old.waiting (λ w. w.place < vec_len self.old.answers) }
        requires flies { IfSome self.old.waiting (λ w. Flies (arc_value w.flight.directory) own.old (arc_value w.flight.command) w.flight.flying) }
        requires shoots { IfSome self.old.waiting (λ w. IsShooting (arc_value w.flight.command)) }
        ensures some { IfSome self.old.waiting (λ w. (answer : AnyAnswer) × IsLook (arc_value w.flight.directory) w.flight.version (arc_value w.flight.command) own.old answer own.new × (self.new.answers.items ≡ slice_set self.old.answers.items w.place answer)) }
        ensures none { IfNone self.old.waiting ((self.new.answers.items ≡ self.old.answers.items) × (own.new ≡ own.old)) }
        ensures settled { self.new.waiting ≡ None }
        ensures room { (vec_len self.new.answers ≡ vec_len self.old.answers) × (vec_capacity self.old.answers ≤ vec_capacity self.new.answers) }
        ensures quota { own.new.used ≤ most_used }
    {
        let Some(waiting) = self.waiting.take() else {
            return;
        };
        let Waiting {
            place,
            number,
            flight,
        } = waiting;
        let executor = Executor::Parallel(Parallel {
            rt,
            workers,
            session,
            command: number,
            gate,
        });
        self.answers[place] = flight.land(pool, &executor, alloc, own);
    }

    /// Holds the place of the answer of what is in flight.
    fn hold(&mut self, number: u32, flight: Flight<'a, G>)
        requires { vec_len self.old.answers < vec_capacity self.old.answers }
        ensures items { (answer : AnyAnswer) × (self.new.answers.items ≡ self.old.answers.items ++ answer ∷ []) }
        ensures some { IsSome self.new.waiting }
        ensures waiting { IfSome self.new.waiting (λ w. (w.place ≡ vec_len self.old.answers) × (w.flight ≡ flight.entry)) }
        ensures room { vec_capacity self.old.answers ≤ vec_capacity self.new.answers }
    {
        let place = self.answers.len();
        let version = flight.version;
        let outcome = Err(Refusal::Memory);
        push_answer(&mut self.answers, Answer { version, outcome });
        self.waiting = Some(Waiting {
            place,
            number,
            flight,
        });
    }
}

impl Session {
    /// A session of these commands, which has used nothing. It takes the room for all answers, and a second share of
    /// each command.
    pub fn open(alloc: Global, session: u8, commands: Vec<Arc<Command>>) -> Result<Session, Memory>
        ensures session { IfOk result (λ opened. opened.session ≡ session) }
        ensures commands { IfOk result (λ opened. opened.commands ≡ map arc_value commands.items) }
        ensures own { IfOk result (λ opened. opened.own ≡ nothing_used) }
        ensures kept { IfOk result (λ opened. (version : ℕ) (directory : Entries) → IsCurrent opened.keep version directory) }
    {
        let answers = Vec::with_capacity(alloc, commands.len())?;
        let tasks = tasks_of(alloc, commands)?;
        let course = Course {
            session,
            own: Own::new(alloc)?,
            keep: Keep::new(alloc),
        };
        Ok(Session {
            course,
            tasks,
            answers,
        })
    }

    /// Answers a command that is no edit, with the directory of a version, which may be any: scenes that were kept of others
    /// are not used.
    pub fn one<R: Threads + Sync>(
        &mut self,
        alloc: Global,
        version: u32,
        directory: &Arc<Directory>,
        command: &Command,
    ) -> Answer
        requires looks { is_look command.now ≡ true }
        ensures answer { core_answer result ≡ answer_of core_rules (book_at (arc_value directory.now) version) self.old.own (shown_as command.now (core_answer result)) }
        ensures points { IsTrueReply (arc_value directory.now).objects command.now (core_answer result).reply }
        ensures own { self.new.own ≡ own_after core_rules (book_at (arc_value directory.now) version) self.old.own (shown_as command.now (core_answer result)) }
        ensures current { IsCurrent self.new.keep version (arc_value directory.now).objects }
        ensures session { self.new.session ≡ self.old.session }
        ensures commands { self.new.commands ≡ self.old.commands }
    {
        let course = &mut self.course;
        course.keep = Keep::new(alloc);
        let executor: Executor<R, OpenGate> = Executor::Sequential;
        course.one(&executor, alloc, version, directory, command)
    }

    /// Runs all commands in sequence, each as an entry of the history. It takes no memory for the list of answers.
    /// So many threads as there are workers shoot the tiles of a picture or a check while this one goes on with the edits behind
    /// it, and this one helps them when it gathers. The later tiles of a large check are shot by as many, this one among them, when
    /// some of those that serve may still be at an earlier one. With no worker this thread shoots each picture and check whole, and
    /// starts none. The gate is told after each accepted edit, and before each tile that is shot.
    pub fn run<R: Threads + Wait + Sync, G: Gate + Sync>(
        self,
        rt: &R,
        alloc: Global,
        table: &VersionTable<Modeller>,
        pass: &mut Pass<Modeller>,
        workers: u8,
        gate: &G,
    ) -> Items<Answer>
        requires table { pass.old.table ≡ table.now.id }
        requires session { pass.old.session ≡ self.session }
        requires calls { length self.commands ≤ pass.old.left }
        requires workers { workers ≤ 16 }
        ensures ran { HasRun table.now.told.state self.own self.commands pass.old pass.new result }
    {
        if workers == 0 {
            return self.run_alone(rt, alloc, table, pass, gate);
        }
        match TilePool::new(alloc) {
            Ok(pool) => run_served(self, rt, alloc, table, pass, workers, gate, &pool),
            Err(_) => self.run_alone(rt, alloc, table, pass, gate),
        }
    }

    /// Runs all commands in sequence, on this thread alone, and each picture and check whole before the next command.
    fn run_alone<R: Threads + Wait + Sync, G: Gate + Sync>(
        self,
        rt: &R,
        alloc: Global,
        table: &VersionTable<Modeller>,
        pass: &mut Pass<Modeller>,
        gate: &G,
    ) -> Items<Answer>
        requires table { pass.old.table ≡ table.now.id }
        requires session { pass.old.session ≡ self.session }
        requires calls { length self.commands ≤ pass.old.left }
        ensures ran { HasRun table.now.told.state self.own self.commands pass.old pass.new result }
    {
        let Session {
            mut course,
            tasks,
            mut answers,
        } = self;
        // What it keeps may be of another directory than the table's.
        course.keep = Keep::new(alloc);
        let session = course.session;
        let mut command: u32 = 0;
        for task in tasks {
            command = command.saturating_add(1);
            let executor = Executor::Parallel(Parallel {
                rt,
                workers: 1,
                session,
                command,
                gate,
            });
            let answer = course.next(rt, &executor, alloc, table, pass, gate, task);
            push_answer(&mut answers, answer);
        }
        Items::of_vec(answers)
    }

    /// Runs all commands in sequence. A picture or a check is posted to the pool, and gathered before the next command that is
    /// no edit, and at the end.
    fn run_over<'a, R: Threads + Wait + Sync, G: Gate + Sync>(
        self,
        pool: &TilePool<FlightJob<'a, G>>,
        rt: &R,
        alloc: Global,
        table: &VersionTable<Modeller>,
        pass: &mut Pass<Modeller>,
        workers: u8,
        gate: &'a G,
    ) -> Items<Answer>
        requires table { pass.old.table ≡ table.now.id }
        requires session { pass.old.session ≡ self.session }
        requires calls { length self.commands ≤ pass.old.left }
        requires workers { (1 ≤ workers) × (workers ≤ 16) }
        ensures ran { HasRun table.now.told.state self.own self.commands pass.old pass.new result }
    {
        let Session {
            mut course,
            tasks,
            answers,
        } = self;
        // What it keeps may be of another directory than the table's.
        course.keep = Keep::new(alloc);
        let session = course.session;
        let mut log = Log {
            answers,
            waiting: None,
        };
        let mut command: u32 = 0;
        for task in tasks {
            command = command.saturating_add(1);
            if Modeller::looks(&task.command) {
                log.settle(pool, rt, alloc, workers, session, gate, &mut course.own);
                let executor = Executor::Parallel(Parallel {
                    rt,
                    workers,
                    session,
                    command,
                    gate,
                });
                let teller = Teller {
                    gate,
                    session,
                    command,
                };
                match course.begin(pool, rt, &executor, alloc, table, pass, teller, task) {
                    Begun::Answered(answer) => push_answer(&mut log.answers, answer),
                    Begun::InFlight(flight) => log.hold(command, flight),
                }
            } else {
                let answer = course.edit(rt, alloc, table, pass, gate, task.share);
                push_answer(&mut log.answers, answer);
            }
        }
        log.settle(pool, rt, alloc, workers, session, gate, &mut course.own);
        Items::of_vec(log.answers)
    }
}

/// Has as many threads as are given serve the pool, until it is stopped.
fn serve_all<'a, R: Threads + Wait + Sync, G: Gate + Sync>(
    rt: &R,
    alloc: Global,
    pool: &TilePool<FlightJob<'a, G>>,
    threads: u8,
) {
    let _served = thread::map_indices(
        rt,
        alloc,
        usize::from(threads),
        &|_| {
            pool.serve(rt, alloc);
        },
    );
}

/// Runs a session while as many threads as there are workers serve the pool. Where none can be had, nobody serves it.
fn run_served<'a, R: Threads + Wait + Sync, G: Gate + Sync>(
    session: Session,
    rt: &R,
    alloc: Global,
    table: &VersionTable<Modeller>,
    pass: &mut Pass<Modeller>,
    workers: u8,
    gate: &'a G,
    pool: &TilePool<FlightJob<'a, G>>,
) -> Items<Answer>
    requires table { pass.old.table ≡ table.now.id }
    requires session { pass.old.session ≡ session.session }
    requires calls { length session.commands ≤ pass.old.left }
    requires workers { (1 ≤ workers) × (workers ≤ 16) }
    ensures ran { HasRun table.now.told.state session.own session.commands pass.old pass.new result }
{
    let mut waiting = Some(session);
    let (_served, answers) = thread::join_mut(
        rt,
        &mut || serve_all(rt, alloc, pool, workers),
        &mut || -> Items<Answer>
            requires table { pass.now.table ≡ table.now.id }
            requires ready { IsReady waiting pass.now }
            requires workers { (1 ≤ workers) × (workers ≤ 16) }
            ensures ran { HasRunOf table.entry.now.told.state waiting.entry pass.entry.now pass.exit.now result }
        {
            let Some(session) = waiting.take() else {
                unreachable!()
            };
            let answers = session.run_over(pool, rt, alloc, table, pass, workers, gate);
            pool.stop(rt);
            answers
        },
    );
    answers
}
