ghost use Rattle.std.specs.Prelude.{◌≡◌, ◌≤◌, ◌<◌, ◌+◌, ◌*◌, ◌/◌, ◌^◌, cond, nat_lt, IfOk, Some, None};
ghost use Rattle.std.specs.Arc.{arc_value};
ghost use Rattle.std.specs.Thread.{IsSync};
ghost use Rattle.layer_tests.specs.Calls.{calls_of, Makes};

use memory_core::Memory;
use std::alloc::Global;
use std::sync::{Arc, Wait};
use std::test::Fail;
use std::thread::{Threads, join};
use version_table::{Closed, Edited, Entry, Machine, Pass, Snapshot, Stepped, VersionTable};

#[derive(Clone, Copy, Debug, PartialEq, Eq)]
pub enum Command {
    Add(u64),
    Look,
}

/// A sum, which refuses what would take it over its type. It replies the sum after the command.
struct Numbers;

impl Machine for Numbers {
    ghost use Rattle.std.specs.Prelude.{◌≡◌, ◌+◌, ◌^◌, true, false, cond, nat_lt, Some, None, T};
    ghost use Rattle.std.proofs.Common.{refl, sym, subst};
    ghost use Rattle.layer_tests.specs.declared.versions.Command.TheVariants.{Add, Look};

    type State = u64;

    type Command = Command;

    type Reply = Option<u64>;

    ghost next = { λ s. elim [ Add n ↦ cond (nat_lt (s + n) (2 ^ 64)) (s + n) s | Look ↦ s ] };

    ghost reply = { λ s. elim [ Add n ↦ cond (nat_lt (s + n) (2 ^ 64)) (Some (s + n)) None | Look ↦ Some s ] };

    ghost commits = { λ s. elim [ Add n ↦ nat_lt (s + n) (2 ^ 64) | Look ↦ false ] };

    ghost is_look = { elim [ Add n ↦ false | Look ↦ true ] };

    ghost look_stays = { λ s. elim [ Add n ↦ λ e. absurd (subst T (sym e) tt) | Look ↦ λ e. refl ] };

    ghost look_keeps_version = { λ s. elim [ Add n ↦ λ e. absurd (subst T (sym e) tt) | Look ↦ λ e. refl ] };

    fn looks(command: &Command) -> bool {
        matches!(command, Command::Look)
    }

    fn step(
        alloc: Global,
        state: &Arc<u64>,
        command: &Command,
    ) -> Result<Stepped<u64, Option<u64>>, Memory> {
        match command {
            Command::Add(number) => added(alloc, state, *number),
            Command::Look => Ok(Stepped {
                state: state.clone()?,
                reply: Some(**state),
                commits: false,
            }),
        }
    }
}

/// What an addition gives.
fn added(alloc: Global, state: &Arc<u64>, number: u64) -> Result<Stepped<u64, Option<u64>>, Memory>
    ensures state { IfOk result (λ s. arc_value s.state ≡ cond (nat_lt (arc_value state.now + number) (2 ^ 64)) (arc_value state.now + number) (arc_value state.now)) }
    ensures reply { IfOk result (λ s. s.reply ≡ cond (nat_lt (arc_value state.now + number) (2 ^ 64)) (Some (arc_value state.now + number)) None) }
    ensures commits { IfOk result (λ s. s.commits ≡ nat_lt (arc_value state.now + number) (2 ^ 64)) }
{
    match state.checked_add(number) {
        Some(sum) => Ok(Stepped {
            state: Arc::new(alloc, sum)?,
            reply: Some(sum),
            commits: true,
        }),
        None => Ok(Stepped {
            state: state.clone()?,
            reply: None,
            commits: false,
        }),
    }
}

/// The same sum, with no memory where 0 is added.
struct Scarce;

impl Machine for Scarce {
    type State = u64;

    type Command = Command;

    type Reply = Option<u64>;

    ghost next = { ⟦<Numbers as Machine>⟧.next };

    ghost reply = { ⟦<Numbers as Machine>⟧.reply };

    ghost commits = { ⟦<Numbers as Machine>⟧.commits };

    ghost is_look = { ⟦<Numbers as Machine>⟧.is_look };

    ghost look_stays = { ⟦<Numbers as Machine>⟧.look_stays };

    ghost look_keeps_version = { ⟦<Numbers as Machine>⟧.look_keeps_version };

    fn looks(command: &Command) -> bool {
        Numbers::looks(command)
    }

    fn step(
        alloc: Global,
        state: &Arc<u64>,
        command: &Command,
    ) -> Result<Stepped<u64, Option<u64>>, Memory> {
        match command {
            Command::Add(0) => Err(Memory),
            _ => Numbers::step(alloc, state, command),
        }
    }
}

/// What a call is told: the version and the sum after its entry.
#[derive(Clone, Copy, Debug, PartialEq, Eq)]
struct Told {
    version: u32,
    sum: Option<u64>,
}

fn add<R: Wait>(
    rt: &R,
    alloc: Global,
    table: &VersionTable<Numbers>,
    pass: &mut Pass<Numbers>,
    number: u64,
) -> Result<Told, Memory>
    requires table { pass.old.table ≡ table.now.id }
    requires call { 0 < pass.old.left }
    ensures { Makes 1 pass.old pass.new }
{
    let command = Arc::new(alloc, Command::Add(number))?;
    let Edited { version, answer } = table.edit(rt, alloc, pass, command);
    Ok(Told {
        version,
        sum: answer?,
    })
}

fn look<R: Wait>(
    rt: &R,
    alloc: Global,
    table: &VersionTable<Numbers>,
    pass: &mut Pass<Numbers>,
) -> Result<Told, Memory>
    requires table { pass.old.table ≡ table.now.id }
    requires call { 0 < pass.old.left }
    ensures { Makes 1 pass.old pass.new }
{
    let command = Arc::new(alloc, Command::Look)?;
    let Snapshot { version, state } = table.view(rt, pass, command);
    Ok(Told {
        version,
        sum: Some(*state?),
    })
}

/// No two sessions add the same number.
fn number_of(session: u8, k: u32) -> u64 {
    session as u64 * 1000 + k as u64 + 1
}

/// Adds so many numbers, and looks after each. Returns what each call was told.
fn run_session<R: Wait>(
    rt: &R,
    alloc: Global,
    table: &VersionTable<Numbers>,
    pass: &mut Pass<Numbers>,
    session: u8,
    numbers: u32,
) -> Result<Vec<Told>, Memory>
    requires table { pass.old.table ≡ table.now.id }
    requires calls { numbers * 2 ≤ pass.old.left }
    ensures table { pass.new.table ≡ pass.old.table }
    ensures calls { calls_of pass.new ≡ calls_of pass.old }
{
    let mut all = Vec::new(alloc);
    for k in 0..numbers {
        all.push(add(rt, alloc, table, pass, number_of(session, k))?)?;
        all.push(look(rt, alloc, table, pass)?)?;
    }
    Ok(all)
}

/// A pass that comes back from its thread, with what the calls of each session were told.
#[derive(Drop)]
struct Ran {
    pass: Pass<Numbers>,
    told: Result<Vec<Vec<Told>>, Memory>,
}

fn run_one<R: Wait>(
    rt: &R,
    alloc: Global,
    table: &VersionTable<Numbers>,
    pass: Pass<Numbers>,
    session: u8,
    numbers: u32,
) -> Ran
    requires table { pass.table ≡ table.now.id }
    requires calls { numbers * 2 ≤ pass.left }
    ensures table { result.pass.table ≡ table.now.id }
    ensures calls { calls_of result.pass ≡ calls_of pass }
{
    let mut pass = pass;
    let told = run_session(rt, alloc, table, &mut pass, session, numbers);
    Ran {
        pass,
        told: alone(alloc, told),
    }
}

fn alone(alloc: Global, told: Result<Vec<Told>, Memory>) -> Result<Vec<Vec<Told>>, Memory> {
    let mut all = Vec::new(alloc);
    all.push(told?)?;
    Ok(all)
}

fn take_in(table: &VersionTable<Numbers>, pass: &mut Pass<Numbers>, other: Pass<Numbers>)
    requires table { (pass.old.table ≡ table.now.id) × (other.table ≡ table.now.id) }
    ensures table { pass.new.table ≡ pass.old.table }
    ensures calls { calls_of pass.new ≡ calls_of pass.old + calls_of other }
    ensures left { pass.new.left ≡ pass.old.left + other.left }
{
    table.join(pass, other);
}

fn both(table: &VersionTable<Numbers>, left: Ran, right: Ran) -> Ran
    requires table { (left.pass.table ≡ table.now.id) × (right.pass.table ≡ table.now.id) }
    ensures table { result.pass.table ≡ table.now.id }
    ensures calls { calls_of result.pass ≡ calls_of left.pass + calls_of right.pass }
{
    let mut pass = left.pass;
    take_in(table, &mut pass, right.pass);
    Ran {
        pass,
        told: appended(left.told, right.told),
    }
}

fn appended(
    left: Result<Vec<Vec<Told>>, Memory>,
    right: Result<Vec<Vec<Told>>, Memory>,
) -> Result<Vec<Vec<Told>>, Memory> {
    let mut all = left?;
    for told in right? {
        all.push(told)?;
    }
    Ok(all)
}

/// Runs so many sessions from this one on, each in a thread of its own. A pass for several is split in its thread.
fn run_sessions<R: Threads + Wait + Sync>(
    rt: &R,
    alloc: Global,
    table: &VersionTable<Numbers>,
    pass: Pass<Numbers>,
    session: u8,
    sessions: u8,
    calls: u32,
) -> Ran
    requires table { pass.table ≡ table.now.id }
    requires calls { calls ≤ pass.left }
    requires sessions { session + sessions < 2 ^ 8 }
    ensures table { result.pass.table ≡ table.now.id }
    ensures calls { calls_of result.pass ≡ calls_of pass }
{
    if sessions <= 1 {
        return run_one(rt, alloc, table, pass, session, calls / 2);
    }
    let mut pass = pass;
    let half = sessions / 2;
    let rest = sessions - half;
    let other = table.split(&mut pass, session + half, calls / 2);
    let one = move || -> Ran
        requires { IsSync R.row × (pass.table ≡ table.now.id) × (calls / 2 ≤ pass.left) × (session + half < 2 ^ 8) }
        ensures { (result.pass.table ≡ table.entry.now.id) × (calls_of result.pass ≡ calls_of pass) }
    { run_sessions(rt, alloc, table, pass, session, half, calls / 2) };
    let two = move || -> Ran
        requires { IsSync R.row × (other.table ≡ table.now.id) × (calls / 2 ≤ other.left) × (session + half + rest < 2 ^ 8) }
        ensures { (result.pass.table ≡ table.entry.now.id) × (calls_of result.pass ≡ calls_of other) }
    { run_sessions(rt, alloc, table, other, session + half, rest, calls / 2) };
    let (left, right) = join(rt, one, two);
    both(table, left, right)
}

/// Runs sessions in threads, and closes the table.
fn run_all<R: Threads + Wait + Sync>(
    rt: &R,
    alloc: Global,
    sessions: u8,
    calls: u32,
) -> Result<(Closed<u64, Command>, Vec<Vec<Told>>), Memory> {
    let (table, pass) = VersionTable::open(alloc, Arc::new(alloc, 0)?, calls)?;
    let Ran { pass, told } = run_sessions(rt, alloc, &table, pass, 0, sessions, calls);
    let closed = table.close(pass);
    Ok((closed, told?))
}

/// What the calls of a session have to be told, by a run over the entries.
fn answers_of(alloc: Global, entries: &[Entry<Command>], session: u8) -> Result<Vec<Told>, Memory> {
    let mut answers = Vec::new(alloc);
    let mut version = 0u32;
    let mut sum = 0u64;
    for entry in entries {
        if let Command::Add(number) = *entry.command {
            version = version.wrapping_add(1);
            sum = sum.wrapping_add(number);
        }
        if entry.session == session {
            answers.push(Told {
                version,
                sum: Some(sum),
            })?;
        }
    }
    Ok(answers)
}

/// Whether the entries of a session are its commands, in their order, with no mark.
fn are_commands_of(entries: &[Entry<Command>], session: u8, numbers: u32) -> bool {
    let mut own = entries.iter().filter(|entry| entry.session == session);
    (0..numbers).all(|k| {
        is_entry_of(own.next(), Command::Add(number_of(session, k)))
            && is_entry_of(own.next(), Command::Look)
    }) && own.next().is_none()
}

fn is_entry_of(entry: Option<&Entry<Command>>, command: Command) -> bool {
    match entry {
        Some(entry) => *entry.command == command && !entry.memory,
        None => false,
    }
}

#[test]
fn two_threads_add_and_look(rt: HostRuntime) -> Result<(), Fail> {
    let (closed, told) = run_all(&rt, rt.alloc(), 2, 400)?;
    assert_eq!(rt; closed.entries.len(), 400);
    assert_eq!(rt; *closed.state, 110_100);
    assert_eq!(rt; closed.version, 200);
    assert_eq!(rt; told.len(), 2);
    for (session, told) in (0..2u8).zip(&told) {
        let answers = answers_of(rt.alloc(), &closed.entries, session)?;
        assert_eq!(rt; told.as_slice(), answers.as_slice());
        assert!(rt; are_commands_of(&closed.entries, session, 100));
    }
    Ok(())
}

#[test]
fn eight_threads_split_passes_from_passes(rt: HostRuntime) -> Result<(), Fail> {
    let (closed, told) = run_all(&rt, rt.alloc(), 8, 160)?;
    assert_eq!(rt; closed.entries.len(), 160);
    assert_eq!(rt; *closed.state, 280_440);
    assert_eq!(rt; closed.version, 80);
    assert_eq!(rt; told.len(), 8);
    for (session, told) in (0..8u8).zip(&told) {
        let answers = answers_of(rt.alloc(), &closed.entries, session)?;
        assert_eq!(rt; told.as_slice(), answers.as_slice());
        assert!(rt; are_commands_of(&closed.entries, session, 10));
    }
    Ok(())
}

#[test]
fn one_thread_makes_each_call(rt: HostRuntime) -> Result<(), Fail> {
    let alloc = rt.alloc();
    let (table, mut pass) = VersionTable::<Numbers>::open(alloc, Arc::new(alloc, 10)?, 9)?;
    let told = add(&rt, alloc, &table, &mut pass, 5)?;
    assert_eq!(rt; (told.version, told.sum), (1, Some(15)));
    let told = add(&rt, alloc, &table, &mut pass, u64::MAX - 14)?;
    assert_eq!(rt; (told.version, told.sum), (1, None));
    let told = look(&rt, alloc, &table, &mut pass)?;
    assert_eq!(rt; (told.version, told.sum), (1, Some(15)));
    let mut other = table.split(&mut pass, 3, 2);
    let told = add(&rt, alloc, &table, &mut other, 7)?;
    assert_eq!(rt; (told.version, told.sum), (2, Some(22)));
    let told = look(&rt, alloc, &table, &mut other)?;
    assert_eq!(rt; (told.version, told.sum), (2, Some(22)));
    let told = look(&rt, alloc, &table, &mut pass)?;
    assert_eq!(rt; (told.version, told.sum), (2, Some(22)));
    take_in(&table, &mut pass, other);
    let told = add(&rt, alloc, &table, &mut pass, u64::MAX - 22)?;
    assert_eq!(rt; (told.version, told.sum), (3, Some(u64::MAX)));
    let edited = table.edit(&rt, alloc, &mut pass, Arc::new(alloc, Command::Look)?);
    assert!(rt; edited.version == 3 && edited.answer == Ok(Some(u64::MAX)));
    let closed = table.close(pass);
    assert_eq!(rt; (*closed.state, closed.version), (u64::MAX, 3));
    let want = [
        (0, Command::Add(5)),
        (0, Command::Add(u64::MAX - 14)),
        (0, Command::Look),
        (3, Command::Add(7)),
        (3, Command::Look),
        (0, Command::Look),
        (0, Command::Add(u64::MAX - 22)),
        (0, Command::Look),
    ];
    assert_eq!(rt; closed.entries.len(), want.len());
    for (entry, (session, command)) in closed.entries.iter().zip(want) {
        assert_eq!(rt;
            (entry.session, *entry.command, entry.memory),
            (session, command, false)
        );
    }
    Ok(())
}

#[test]
fn a_call_without_memory_is_marked(rt: HostRuntime) -> Result<(), Fail> {
    let alloc = rt.alloc();
    let (table, mut pass) = VersionTable::<Scarce>::open(alloc, Arc::new(alloc, 1)?, 3)?;
    let edited = table.edit(&rt, alloc, &mut pass, Arc::new(alloc, Command::Add(0))?);
    assert!(rt; edited.version == 0 && edited.answer == Err(Memory));
    let edited = table.edit(&rt, alloc, &mut pass, Arc::new(alloc, Command::Add(2))?);
    assert!(rt; edited.version == 1 && edited.answer == Ok(Some(3)));
    let seen = table.view(&rt, &mut pass, Arc::new(alloc, Command::Look)?);
    assert_eq!(rt; (seen.version, *seen.state?), (1, 3));
    let closed = table.close(pass);
    assert_eq!(rt; (*closed.state, closed.version), (3, 1));
    assert_eq!(rt; closed.entries.len(), 3);
    for (entry, memory) in closed.entries.iter().zip([true, false, false]) {
        assert_eq!(rt; entry.memory, memory);
    }
    Ok(())
}
