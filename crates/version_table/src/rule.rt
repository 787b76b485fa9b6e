use crate::book::{Book, Opening};
use crate::machine::Machine;
use atomic_table::{Join, Play, Seat, Split, TableRule};
use std::collections::LinkedList;
use std::marker::{Brand, PhantomData};

/// An entry as plain data. No value of it is made.
pub struct Noted<C> {
    pub session: u8,
    pub command: C,
    pub memory: bool,
}

/// An entry that is claimed as one's own: its session, and its place in the history. No value of it is made.
pub struct Claim {
    pub session: u8,
    pub place: u64,
}

/// What a seat knows: its session, the history that it has seen, whether it has the turn, the slots that it carries, its
/// calls left, its claims, and what the two passes had seen that were joined last. No value of it is made.
pub struct View<C> {
    pub session: u8,
    pub seen: LinkedList<Noted<C>>,
    pub holds: bool,
    pub carries: LinkedList<u64>,
    pub left: u64,
    pub claims: LinkedList<Claim>,
    pub met: LinkedList<LinkedList<Noted<C>>>,
}

pub struct Kept<M> {
    of: PhantomData<M>,
}

impl<M: Machine> TableRule<Option<Book<M>>, View<M::Command>, Opening<M>> for Kept<M> {
    ghost use Rattle.version_table.specs.History.{IsKept};
    ghost use Rattle.version_table.specs.Steps.{first_view};

    ghost holds = { IsKept };

    ghost first = { first_view };
}

pub type Token<M> = Seat<Option<Book<M>>, View<<M as Machine>::Command>>;

pub type Shared<M> = atomic_table::Shared<
    Option<Book<M>>,
    View<<M as Machine>::Command>,
    Opening<M>,
    Kept<M>,
>;

/// What the table was told at first. Each step that takes the turn picks it.
pub trait Telling<S> {
    ghost use Rattle.std.specs.Prelude.{Option};
    ghost use Rattle.version_table.specs.Run.{Told};

    ghost told: { Option (Told S) };
}

impl<S> Telling<S> for Brand {
    ghost use Rattle.std.specs.Prelude.{None};

    ghost told = { None };
}

pub struct Take<E> {
    of: PhantomData<E>,
}

impl<M: Machine, E: Telling<M::State>> Play<Option<Book<M>>, View<M::Command>> for Take<(M, E)> {
    ghost use Rattle.version_table.specs.Steps.{Takes};

    ghost then = { Takes E.told };
}

/// Which entry a count adds. Each call picks it.
pub trait Adding<C> {
    ghost use Rattle.std.specs.Prelude.{Option};
    ghost use Rattle.version_table.specs.declared.rule.Noted.{Noted};

    ghost entry: { Option (Noted C) };
}

impl<C> Adding<C> for Brand {
    ghost use Rattle.std.specs.Prelude.{None};

    ghost entry = { None };
}

pub struct Count<E> {
    of: PhantomData<E>,
}

impl<M: Machine, E: Adding<M::Command>> Play<Option<Book<M>>, View<M::Command>> for Count<(M, E)> {
    ghost use Rattle.version_table.specs.Steps.{Counts};

    ghost then = { Counts E.entry };
}

pub struct Give;

impl<M: Machine> Play<Option<Book<M>>, View<M::Command>> for Give {
    ghost use Rattle.version_table.specs.Steps.{Gives};

    ghost then = { Gives };
}

/// The session of a new seat, and how many calls it takes over. Each split picks both.
pub trait Handing {
    ghost use Rattle.std.specs.Prelude.{ℕ};

    ghost session: { ℕ };

    ghost calls: { ℕ };
}

impl Handing for Brand {
    ghost session = { 0 };

    ghost calls = { 0 };
}

pub struct Cut<E> {
    of: PhantomData<E>,
}

impl<C, E: Handing> Split<View<C>> for Cut<E> {
    ghost use Rattle.version_table.specs.Steps.{kept_part, given_part};

    ghost left = { kept_part E.calls };

    ghost right = { given_part E.session E.calls };
}

pub struct Glue;

impl<C> Join<View<C>> for Glue {
    ghost use Rattle.version_table.specs.Steps.{joined, spent};

    ghost both = { joined };

    ghost spent = { spent };
}

pub struct Learn;

impl<M: Machine> Play<Option<Book<M>>, View<M::Command>> for Learn {
    ghost use Rattle.version_table.specs.Steps.{Learns};

    ghost then = { Learns };
}
