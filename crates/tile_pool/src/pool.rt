ghost use Rattle.std.specs.Prelude.{◌≡◌, IfOk, vec_len};
ghost use Rattle.std.specs.Arc.{arc_value};
ghost use Rattle.tile_workers.specs.Results.{AreResults};

use crate::posted::Posted;
use crate::state::State;
use memory_core::Memory;
use std::alloc::Global;
use std::marker::Model;
use std::sync::{Arc, Condvar, Mutex, Wait};
use tile_workers::Job;

/// Jobs in flight. It is shared by those who post and gather jobs and by the threads that run their pieces meanwhile. With no
/// such thread, or none that gets on, the same results are gathered. It tells no gate of the pieces: a job that is to be told of
/// does so itself.
#[derive(Drop)]
pub struct TilePool<J: Job + Drop> {
    state: Mutex<State<J>>,
    changed: Condvar,
}

/// The right to gather what a job gives. Contracts see it as its job.
#[derive(Drop)]
pub struct Ticket<J: Job + Drop> {
    posted: Arc<Posted<J>>,
}

impl<J: Job + Drop> Model for Ticket<J> {
    ghost use Rattle.std.specs.Arc.{arc_value};

    ghost Value = { J };

    ghost view = { λ s. arc_value (arc_value s.posted).job };
}

impl<J: Job + Drop> TilePool<J> {
    /// A pool with no job, and with room for one. `Memory` where there is none for it.
    pub fn new(alloc: Global) -> Result<TilePool<J>, Memory> {
        Ok(TilePool {
            state: Mutex::new(State::new(alloc)?),
            changed: Condvar::new(),
        })
    }

    /// Puts a job into flight, and runs none of its pieces. A set-once cell is made for each of them before anybody else sees the
    /// job. `Memory` where there is none for the cells or for the job's place; then nobody runs a piece of it.
    pub fn post<R: Wait>(&self, rt: &R, alloc: Global, job: Arc<J>) -> Result<Ticket<J>, Memory>
        ensures { IfOk result (λ ticket. ticket ≡ arc_value job) }
    {
        let posted = Arc::new(alloc, Posted::new(alloc, job)?)?;
        let ticket = Ticket {
            posted: posted.clone()?,
        };
        self.state.lock(rt).add(posted)?;
        self.changed.notify_all();
        Ok(ticket)
    }

    /// Runs pieces of jobs, first posted first, until `stop` was called, and waits where there is none. A piece that finds no
    /// memory is left to who gathers its job.
    pub fn serve<R: Wait>(&self, rt: &R, alloc: Global) {
        for _ in rt.forever() {
            let Some(posted) = self.next(rt) else {
                return;
            };
            posted.run_next(alloc);
        }
    }

    /// The next job with a piece left to be taken, once there is one; `None` once `stop` was called.
    fn next<R: Wait>(&self, rt: &R) -> Option<Arc<Posted<J>>> {
        let mut state = self.state.lock(rt);
        for _ in rt.forever() {
            if state.is_stopped() {
                return None;
            }
            let next = state.next();
            if next.is_some() {
                return next;
            }
            state = self.changed.wait(rt, state);
        }
        unreachable!()
    }

    /// Has each thread that serves return after the piece that it runs.
    pub fn stop<R: Wait>(&self, rt: &R) {
        self.state.lock(rt).stop();
        self.changed.notify_all();
    }

    /// The results of all pieces of a job, in their order. Takes no lock and waits for nobody: the calling thread runs the pieces
    /// that no thread has taken, and then each piece whose cell is still empty, or has a result that the job doesn't know as that
    /// piece's. `Memory` where such a piece found none, or where there is none for the list.
    pub fn gather(&self, alloc: Global, ticket: Ticket<J>) -> Result<Vec<J::Out>, Memory>
        ensures len { IfOk result (λ all. vec_len all ≡ J.pieces ticket) }
        ensures each { IfOk result (λ all. AreResults (J.gives ticket) (J.pieces ticket) all.items) }
    {
        let Ticket { posted } = ticket;
        posted.results(alloc)
    }
}
