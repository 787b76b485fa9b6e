ghost use Rattle.std.specs.Prelude.{◌≡◌, ◌≤◌, ◌<◌, [], ◌∷◌, ◌++◌, Ok, Err, OnOk, OnErr, IfOk, MatchResult, is_err, length, vec_len, vec_capacity, true, false};
ghost use Rattle.version_table.specs.Entries.{noted};
ghost use Rattle.std.specs.Arc.{arc_value};
ghost use Rattle.version_table.specs.Run.{note_of, told_of, state_after, commits_in};

use crate::machine::{Machine, Stepped};
use memory_core::Memory;
use std::alloc::Global;
use std::marker::Model;
use std::sync::Arc;

/// An entry of the history. Its command changed nothing for want of memory where `memory` is true.
#[derive(Drop)]
pub struct Entry<C: Drop> {
    pub session: u8,
    pub command: Arc<C>,
    pub memory: bool,
}

/// The state that the history starts from, and how many entries it may have.
#[derive(Drop)]
pub struct Opening<M: Machine> {
    pub(crate) state: Arc<M::State>,
    pub(crate) calls: u32,
}

impl<M: Machine> Model for Opening<M> {
    ghost use Rattle.version_table.specs.Run.{Told, told_of};
    ghost use Rattle.std.specs.Arc.{arc_value};

    ghost Value = { Told M.State };

    ghost view = { λ o. told_of (arc_value o.state) o.calls };
}

/// The entries, and the state and the version that the machine has after them.
#[derive(Drop)]
pub struct Book<M: Machine> {
    opening: Opening<M>,
    state: Arc<M::State>,
    version: u32,
    entries: Vec<Entry<M::Command>>,
}

impl<M: Machine> Model for Book<M> {
    ghost use Rattle.version_table.specs.Run.{BookView, IsRun};
    ghost use Rattle.version_table.specs.Entries.{noted};
    ghost use Rattle.std.specs.Arc.{arc_value};
    ghost use Rattle.std.specs.Prelude.{◌≤◌, ◌<◌, ◌^◌, vec_capacity};

    ghost Value = { BookView M.State M.Command };

    ghost view = { λ b. record { told = b.opening; entries = noted b.entries.items } };

    ghost invariant = { λ b. IsRun M.next M.commits b.opening.state (noted b.entries.items) (arc_value b.state) b.version × (b.opening.calls ≤ vec_capacity b.entries) × (b.opening.calls < 2 ^ 32) };
}

impl<M: Machine> Book<M> {
    /// Takes the room for all entries.
    pub(crate) fn open(alloc: Global, state: &Arc<M::State>, calls: u32) -> Result<Book<M>, Memory>
        ensures { IfOk result (λ book. book ≡ record { told = told_of (arc_value state.now) calls; entries = [] }) }
    {
        let opening = Opening {
            state: state.clone()?,
            calls,
        };
        Ok(Book {
            opening,
            state: state.clone()?,
            version: 0,
            entries: Vec::with_capacity(alloc, calls as usize)?,
        })
    }

    pub(crate) fn version(&self) -> u32
        ensures { result ≡ commits_in M.next M.commits self.now.told.state self.now.entries }
    {
        self.version
    }

    /// A share of the state.
    pub(crate) fn state(&self) -> Result<Arc<M::State>, Memory>
        ensures { IfOk result (λ state. arc_value state ≡ state_after M.next self.now.told.state self.now.entries) }
    {
        Ok(self.state.clone()?)
    }

    /// What the machine gives for the command.
    pub(crate) fn step(
        &self,
        alloc: Global,
        command: &M::Command,
    ) -> Result<Stepped<M::State, M::Reply>, Memory>
        ensures state { IfOk result (λ s. arc_value s.state ≡ M.next (state_after M.next self.now.told.state self.now.entries) command.now) }
        ensures reply { IfOk result (λ s. s.reply ≡ M.reply (state_after M.next self.now.told.state self.now.entries) command.now) }
        ensures commits { IfOk result (λ s. s.commits ≡ M.commits (state_after M.next self.now.told.state self.now.entries) command.now) }
    {
        M::step(alloc, &self.state, command)
    }

    /// Adds the entry, with a mark where the machine gave nothing.
    pub(crate) fn write(
        &mut self,
        session: u8,
        command: Arc<M::Command>,
        stepped: Result<Stepped<M::State, M::Reply>, Memory>,
    ) -> Result<M::Reply, Memory>
        requires room { length self.old.entries < self.old.told.calls }
        requires state { IfOk stepped (λ s. arc_value s.state ≡ M.next (state_after M.next self.old.told.state self.old.entries) (arc_value command)) }
        requires commits { IfOk stepped (λ s. s.commits ≡ M.commits (state_after M.next self.old.told.state self.old.entries) (arc_value command)) }
        ensures book { self.new ≡ record { told = self.old.told; entries = self.old.entries ++ note_of session (arc_value command) (is_err stepped) ∷ [] } }
        ensures answer { MatchResult stepped (λ s. result ≡ Ok s.reply) (λ e. result ≡ Err e) }
    {
        match stepped {
            Ok(stepped) => {
                let Stepped {
                    state,
                    reply,
                    commits,
                } = stepped;
                self.add(session, command, state, commits);
                Ok(reply)
            }
            Err(memory) => {
                self.mark(session, command);
                Err(memory)
            }
        }
    }

    fn add(&mut self, session: u8, command: Arc<M::Command>, state: Arc<M::State>, commits: bool)
        requires room { length self.old.entries < self.old.told.calls }
        requires state { arc_value state ≡ M.next (state_after M.next self.old.told.state self.old.entries) (arc_value command) }
        requires commits { commits ≡ M.commits (state_after M.next self.old.told.state self.old.entries) (arc_value command) }
        ensures { self.new ≡ record { told = self.old.told; entries = self.old.entries ++ note_of session (arc_value command) false ∷ [] } }
    {
        let entry = Entry {
            session,
            command,
            memory: false,
        };
        push_entry(&mut self.entries, entry);
        self.state = state;
        if commits {
            self.version += 1;
        }
    }

    fn mark(&mut self, session: u8, command: Arc<M::Command>)
        requires room { length self.old.entries < self.old.told.calls }
        ensures { self.new ≡ record { told = self.old.told; entries = self.old.entries ++ note_of session (arc_value command) true ∷ [] } }
    {
        let entry = Entry {
            session,
            command,
            memory: true,
        };
        push_entry(&mut self.entries, entry);
    }

    /// Adds the entry of a command that only looks.
    pub(crate) fn look(&mut self, session: u8, command: Arc<M::Command>)
        requires room { length self.old.entries < self.old.told.calls }
        requires looks { M.is_look (arc_value command) ≡ true }
        ensures { self.new ≡ record { told = self.old.told; entries = self.old.entries ++ note_of session (arc_value command) false ∷ [] } }
    {
        let entry = Entry {
            session,
            command,
            memory: false,
        };
        push_entry(&mut self.entries, entry);
    }

    /// The entries, and what the machine has after them.
    pub(crate) fn end(self) -> (Arc<M::State>, u32, Vec<Entry<M::Command>>)
        ensures entries { noted result.2.items ≡ self.entries }
        ensures state { arc_value result.0 ≡ state_after M.next self.told.state self.entries }
        ensures version { result.1 ≡ commits_in M.next M.commits self.told.state self.entries }
    {
        let Book {
            opening: _,
            state,
            version,
            entries,
        } = self;
        (state, version, entries)
    }
}

// There is room for the entry.
fn push_entry<C: Drop>(entries: &mut Vec<Entry<C>>, entry: Entry<C>)
    requires { vec_len entries.old < vec_capacity entries.old }
    ensures items { entries.new.items ≡ entries.old.items ++ entry ∷ [] }
    ensures room { vec_capacity entries.old ≤ vec_capacity entries.new }
{
    match entries.push(entry) {
        Ok(()) => {}
        Err(_) => unreachable!(),
    }
}
