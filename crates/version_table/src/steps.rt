// The steps of one call. The turn is taken first and given last, and the one event is the count.
ghost use Rattle.std.specs.Prelude.{◌≡◌, ◌<◌, ◌+◌, ◌-◌, ◌++◌, ◌∷◌, [], true, false, Some, None, length};
ghost use Rattle.std.specs.Arc.{arc_value};
ghost use Rattle.version_table.specs.History.{book_of};
ghost use Rattle.version_table.specs.Steps.{IsIdle, IsTokenOf, TookTurn, with_entry, at_rest};
ghost use Rattle.version_table.specs.Run.{note_of};

use crate::book::Book;
use crate::machine::Machine;
use crate::rule::{Adding, Count, Give, Shared, Take, Telling, Token};
use std::marker::Brand;
use std::sync::{Arc, Wait};
use std::thread::yield_now;

/// Takes the turn where it is free.
fn take<M: Machine, E: Telling<M::State>>(table: &Shared<M>, token: &mut Token<M>) -> bool
    requires told { E.told ≡ Some table.now.key }
    requires own { IsTokenOf table.now.table_id token.old }
    requires idle { IsIdle token.old.me }
    requires call { 0 < token.old.me.0.left }
    ensures own { IsTokenOf table.now.table_id token.new × (token.new.id ≡ token.old.id) }
    ensures took { TookTurn table.now.key result token.old.me token.new.me }
{
    table.compare_exchange::<Take<(M, E)>>(token, 1, 0, 1) == 0
}

fn try_take<M: Machine>(table: &Shared<M>, token: &mut Token<M>) -> bool
    requires own { IsTokenOf table.now.table_id token.old }
    requires idle { IsIdle token.old.me }
    requires call { 0 < token.old.me.0.left }
    ensures own { IsTokenOf table.now.table_id token.new × (token.new.id ≡ token.old.id) }
    ensures took { TookTurn table.now.key result token.old.me token.new.me }
{
    take::<M, Brand>(table, token)
}

/// Waits until it has the turn.
pub(crate) fn wait_for_turn<R: Wait, M: Machine>(rt: &R, table: &Shared<M>, token: &mut Token<M>)
    requires own { IsTokenOf table.now.table_id token.old }
    requires idle { IsIdle token.old.me }
    requires call { 0 < token.old.me.0.left }
    ensures own { IsTokenOf table.now.table_id token.new × (token.new.id ≡ token.old.id) }
    ensures took { TookTurn table.now.key true token.old.me token.new.me }
{
    for _ in rt.forever() {
        if try_take(table, token) {
            return;
        }
        yield_now();
    }
    unreachable!()
}

/// Takes the book out of the slot.
pub(crate) fn slot_out<M: Machine>(table: &Shared<M>, token: &mut Token<M>) -> Book<M>
    requires own { IsTokenOf table.now.table_id token.old }
    requires turn { (book : _) × (token.old.me.1 ≡ (0, Some book) ∷ []) }
    ensures own { IsTokenOf table.now.table_id token.new × (token.new.id ≡ token.old.id) × (token.new.me.0 ≡ token.old.me.0) }
    ensures out { (token.old.me.1 ≡ (0, Some result) ∷ []) × (token.new.me.1 ≡ (0, None) ∷ []) }
{
    match table.exchange(token, 0, None) {
        Some(book) => book,
        None => unreachable!(),
    }
}

/// Counts the entry, which is the event.
fn count<M: Machine, E: Adding<M::Command>>(
    table: &Shared<M>,
    token: &mut Token<M>,
    session: u8,
    command: &Arc<M::Command>,
    memory: bool,
) -> u64
    requires entry { E.entry ≡ Some (note_of session (arc_value command.now) memory) }
    requires own { IsTokenOf table.now.table_id token.old }
    requires turn { (token.old.me.0.holds ≡ true) × (0 < token.old.me.0.left) }
    requires session { token.old.me.0.session ≡ session }
    ensures own { IsTokenOf table.now.table_id token.new × (token.new.id ≡ token.old.id) }
    ensures counted { token.new.me ≡ (with_entry (note_of session (arc_value command.now) memory) token.old.me.0, token.old.me.1) }
{
    table.fetch_add::<Count<(M, E)>>(token, 0, 1)
}

pub(crate) fn count_entry<M: Machine>(
    table: &Shared<M>,
    token: &mut Token<M>,
    session: u8,
    command: &Arc<M::Command>,
    memory: bool,
)
    requires own { IsTokenOf table.now.table_id token.old }
    requires turn { (token.old.me.0.holds ≡ true) × (0 < token.old.me.0.left) }
    requires session { token.old.me.0.session ≡ session }
    ensures own { IsTokenOf table.now.table_id token.new × (token.new.id ≡ token.old.id) }
    ensures counted { token.new.me ≡ (with_entry (note_of session (arc_value command.now) memory) token.old.me.0, token.old.me.1) }
{
    let _ = count::<M, Brand>(table, token, session, command, memory);
}

/// Puts the book back.
fn slot_back<M: Machine>(table: &Shared<M>, token: &mut Token<M>, book: Book<M>)
    requires own { IsTokenOf table.now.table_id token.old }
    requires turn { token.old.me.1 ≡ (0, None) ∷ [] }
    ensures own { IsTokenOf table.now.table_id token.new × (token.new.id ≡ token.old.id) × (token.new.me.0 ≡ token.old.me.0) }
    ensures back { token.new.me.1 ≡ (0, Some book) ∷ [] }
{
    match table.exchange(token, 0, Some(book)) {
        None => {}
        Some(_) => unreachable!(),
    }
}

/// Gives the turn.
fn give<M: Machine>(table: &Shared<M>, token: &mut Token<M>)
    requires own { IsTokenOf table.now.table_id token.old }
    requires turn { (token.old.me.0.holds ≡ true) × (token.old.me.1 ≡ (0, Some (book_of table.now.key token.old.me.0.seen)) ∷ []) }
    ensures own { IsTokenOf table.now.table_id token.new × (token.new.id ≡ token.old.id) }
    ensures gave { token.new.me ≡ (at_rest token.old.me.0, []) }
{
    table.store::<Give>(token, 1, 0);
}

/// Puts the book back, and gives the turn.
pub(crate) fn end_turn<M: Machine>(table: &Shared<M>, token: &mut Token<M>, book: Book<M>)
    requires own { IsTokenOf table.now.table_id token.old }
    requires turn { (token.old.me.0.holds ≡ true) × (token.old.me.1 ≡ (0, None) ∷ []) }
    requires book { book ≡ book_of table.now.key token.old.me.0.seen }
    ensures own { IsTokenOf table.now.table_id token.new × (token.new.id ≡ token.old.id) }
    ensures gave { token.new.me ≡ (at_rest token.old.me.0, []) }
{
    slot_back(table, token, book);
    give(table, token);
}
