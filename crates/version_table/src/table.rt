ghost use Rattle.std.specs.Prelude.{◌≡◌, ◌≤◌, ◌<◌, ◌+◌, ◌-◌, ◌^◌, [], ◌∷◌, true, false, IfOk, length, Some};
ghost use Rattle.std.specs.Arc.{arc_value};
ghost use mathlib.Core.List.{IsPrefix};
ghost use Rattle.version_table.specs.Entries.{noted};
ghost use Rattle.version_table.specs.Claims.{places_of};
ghost use Rattle.version_table.specs.History.{AllBegin};
ghost use Rattle.version_table.specs.Places.{places_from, IsRising};
ghost use Rattle.version_table.specs.Steps.{IsIdle, IsTokenOf, at_rest, kept_part, given_part, joined};
ghost use Rattle.version_table.specs.Passes.{Adds, IsEdit, pass_of, handed_over, taken_over, together};
ghost use Rattle.version_table.specs.Run.{told_of, note_of, state_after, commits_in};

use crate::book::{Book, Entry, Opening};
use crate::machine::Machine;
use crate::rule::{Cut, Glue, Handing, Kept, Learn, Shared, Token, View};
use crate::steps::{count_entry, end_turn, slot_out, wait_for_turn};
use atomic_table::Table;
use memory_core::Memory;
use std::alloc::Global;
use std::marker::{Brand, Model};
use std::sync::{Arc, Wait};

/// What an edit is answered, with the version after it.
#[derive(Drop)]
pub struct Edited<R: Drop> {
    pub version: u32,
    pub answer: Result<R, Memory>,
}

/// The state at a look, and its version.
#[derive(Drop)]
pub struct Snapshot<S: Drop> {
    pub version: u32,
    pub state: Result<Arc<S>, Memory>,
}

/// The whole history, with the state and the version after it.
#[derive(Drop)]
pub struct Closed<S: Drop, C: Drop> {
    pub state: Arc<S>,
    pub version: u32,
    pub entries: Vec<Entry<C>>,
}

/// One history of edits and looks, which many passes share.
#[derive(Drop)]
pub struct VersionTable<M: Machine> {
    table: Table<Option<Book<M>>, View<M::Command>, Opening<M>, Kept<M>, Global>,
}

impl<M: Machine> Model for VersionTable<M> {
    ghost use Rattle.std.specs.Prelude.{◌≡◌};
    ghost use Rattle.version_table.specs.Passes.{TableView};

    ghost Value = { TableView M.State };

    ghost view = { λ t. record { id = t.table.shared.table_id; told = t.table.shared.key } };

    ghost invariant = { λ t. (t.table.shared.table_id.words ≡ 2) × (t.table.shared.table_id.slots ≡ 1) };
}

/// A session's right to add to the history.
#[derive(Drop)]
pub struct Pass<M: Machine> {
    session: u8,
    token: Token<M>,
}

impl<M: Machine> Model for Pass<M> {
    ghost use Rattle.std.specs.Prelude.{◌≡◌};
    ghost use Rattle.version_table.specs.Claims.{places_of};
    ghost use Rattle.version_table.specs.Steps.{IsIdle};
    ghost use Rattle.version_table.specs.Passes.{PassView, pass_of};

    ghost Value = { PassView M.Command };

    ghost view = { λ p. pass_of p.token.table_id p.session p.token.me.0.seen (places_of p.token.me.0.claims) p.token.me.0.left };

    ghost invariant = { λ p. IsIdle p.token.me × (p.token.me.0.session ≡ p.session) };
}

impl<M: Machine> VersionTable<M> {
    /// Takes the room for all calls.
    pub fn open(
        alloc: Global,
        state: Arc<M::State>,
        calls: u32,
    ) -> Result<(VersionTable<M>, Pass<M>), Memory>
        ensures table { IfOk result (λ r. r.0.told ≡ told_of (arc_value state) calls) }
        ensures pass { IfOk result (λ r. r.1 ≡ pass_of r.0.id 0 [] [] calls) }
    {
        let book = Book::open(alloc, &state, calls)?;
        let mut slots = Vec::with_capacity(alloc, 1)?;
        slots.push(Some(book))?;
        let opening = Opening { state, calls };
        match Table::new(alloc, &[0, 0], slots, &opening) {
            Ok((table, token)) => Ok((VersionTable { table }, Pass { session: 0, token })),
            Err(_) => Err(Memory),
        }
    }

    /// A new pass, which takes over some of the calls.
    pub fn split(&self, pass: &mut Pass<M>, session: u8, calls: u32) -> Pass<M>
        requires table { pass.old.table ≡ self.now.id }
        requires calls { calls ≤ pass.old.left }
        ensures keeps { pass.new ≡ handed_over calls pass.old }
        ensures given { result ≡ taken_over session calls pass.old }
    {
        let token = split_token(&self.table.shared, &mut pass.token, session, calls);
        Pass { session, token }
    }

    /// Adds an entry to the history, for what the machine makes of the command there.
    pub fn edit<R: Wait>(
        &self,
        rt: &R,
        alloc: Global,
        pass: &mut Pass<M>,
        command: Arc<M::Command>,
    ) -> Edited<M::Reply>
        requires table { pass.old.table ≡ self.now.id }
        requires call { 0 < pass.old.left }
        ensures { IsEdit M.next M.commits M.reply self.now.told.state (arc_value command) pass.old pass.new result.version result.answer }
    {
        let shared = &self.table.shared;
        wait_for_turn(rt, shared, &mut pass.token);
        let mut book = slot_out(shared, &mut pass.token);
        let stepped = book.step(alloc, &command);
        count_entry(
            shared,
            &mut pass.token,
            pass.session,
            &command,
            stepped.is_err(),
        );
        let answer = book.write(pass.session, command, stepped);
        let version = book.version();
        end_turn(shared, &mut pass.token, book);
        Edited { version, answer }
    }

    /// Adds an entry to the history, and gives the state there.
    pub fn view<R: Wait>(
        &self,
        rt: &R,
        pass: &mut Pass<M>,
        command: Arc<M::Command>,
    ) -> Snapshot<M::State>
        requires table { pass.old.table ≡ self.now.id }
        requires call { 0 < pass.old.left }
        requires looks { M.is_look (arc_value command) ≡ true }
        ensures adds { (before : _) × Adds before (note_of pass.old.session (arc_value command) false) pass.old pass.new }
        ensures version { result.version ≡ commits_in M.next M.commits self.now.told.state pass.new.seen }
        ensures state { IfOk result.state (λ state. arc_value state ≡ state_after M.next self.now.told.state pass.new.seen) }
    {
        let shared = &self.table.shared;
        wait_for_turn(rt, shared, &mut pass.token);
        let mut book = slot_out(shared, &mut pass.token);
        count_entry(shared, &mut pass.token, pass.session, &command, false);
        book.look(pass.session, command);
        let state = book.state();
        let version = book.version();
        end_turn(shared, &mut pass.token, book);
        Snapshot { version, state }
    }

    /// Makes two passes one, of the first one's session.
    pub fn join(&self, pass: &mut Pass<M>, other: Pass<M>)
        requires table { (pass.old.table ≡ self.now.id) × (other.table ≡ self.now.id) }
        ensures both { pass.new ≡ together pass.old other }
        ensures begins { IsPrefix pass.old.seen pass.new.seen × IsPrefix other.seen pass.new.seen }
        ensures once { IsRising pass.new.own }
    {
        let Pass { session: _, token } = other;
        let shared = &self.table.shared;
        shared.join_seat::<Glue>(&mut pass.token, token);
        learn(shared, &mut pass.token);
    }

    /// The whole history, which is all that the pass has seen. Each entry is its own.
    pub fn close(self, pass: Pass<M>) -> Closed<M::State, M::Command>
        requires table { pass.table ≡ self.id }
        requires all { pass.left + length pass.own ≡ self.told.calls }
        ensures entries { noted result.entries.items ≡ pass.seen }
        ensures state { arc_value result.state ≡ state_after M.next self.told.state pass.seen }
        ensures version { result.version ≡ commits_in M.next M.commits self.told.state pass.seen }
        ensures own { pass.own ≡ places_from 0 (length pass.seen) }
    {
        let VersionTable { table } = self;
        let Pass { session: _, token } = pass;
        let mut closed = table.close_with(token);
        let book = closed.take(0);
        closed.free();
        let Some(book) = book else { unreachable!() };
        let (state, version, entries) = book.end();
        Closed {
            state,
            version,
            entries,
        }
    }
}

fn split_by<M: Machine, E: Handing>(
    table: &Shared<M>,
    token: &mut Token<M>,
    session: u8,
    calls: u32,
) -> Token<M>
    requires session { E.session ≡ session }
    requires calls { E.calls ≡ calls }
    requires own { IsTokenOf table.now.table_id token.old }
    requires idle { IsIdle token.old.me }
    requires room { calls ≤ token.old.me.0.left }
    ensures kept { IsTokenOf table.now.table_id token.new × (token.new.me ≡ (kept_part calls token.old.me.0, [])) }
    ensures given { IsTokenOf table.now.table_id result × (result.me ≡ (given_part session calls token.old.me.0, [])) }
{
    let _ = session;
    let _ = calls;
    table.split_seat::<Cut<E>>(token)
}

fn split_token<M: Machine>(
    table: &Shared<M>,
    token: &mut Token<M>,
    session: u8,
    calls: u32,
) -> Token<M>
    requires own { IsTokenOf table.now.table_id token.old }
    requires idle { IsIdle token.old.me }
    requires room { calls ≤ token.old.me.0.left }
    ensures kept { IsTokenOf table.now.table_id token.new × (token.new.me ≡ (kept_part calls token.old.me.0, [])) }
    ensures given { IsTokenOf table.now.table_id result × (result.me ≡ (given_part session calls token.old.me.0, [])) }
{
    split_by::<M, Brand>(table, token, session, calls)
}

// The second load of a join. It changes nothing but `met`, and tells what holds of the two passes as one.
fn learn<M: Machine>(table: &Shared<M>, token: &mut Token<M>)
    requires own { IsTokenOf table.now.table_id token.old }
    requires idle { IsIdle token.old.me }
    ensures own { IsTokenOf table.now.table_id token.new }
    ensures same { token.new.me ≡ (at_rest token.old.me.0, []) }
    ensures begins { AllBegin token.old.me.0.met token.old.me.0.seen }
    ensures rising { IsRising (places_of token.old.me.0.claims) }
{
    let _ = table.load::<Learn>(token, 0);
}
