//! What the threads of a pool share under its lock.
ghost use Rattle.std.specs.Prelude.{◌≡◌, [], IfOk, false, true};

use crate::posted::Posted;
use memory_core::Memory;
use std::alloc::Global;
use std::sync::Arc;
use tile_workers::Job;

/// The jobs in flight, in the order in which they were posted, and whether those who serve are to stop.
#[derive(Drop)]
pub(crate) struct State<J: Job + Drop> {
    jobs: Vec<Arc<Posted<J>>>,
    stopped: bool,
}

impl<J: Job + Drop> State<J> {
    /// No job, with room for one.
    pub(crate) fn new(alloc: Global) -> Result<State<J>, Memory>
        ensures { IfOk result (λ state. (state.jobs.items ≡ []) × (state.stopped ≡ false)) }
    {
        Ok(State {
            jobs: Vec::with_capacity(alloc, 1)?,
            stopped: false,
        })
    }

    /// Adds a job.
    pub(crate) fn add(&mut self, job: Arc<Posted<J>>) -> Result<(), Memory>
        ensures { self.new.stopped ≡ self.old.stopped }
    {
        self.let_go();
        self.jobs.push(job)?;
        Ok(())
    }

    /// The first job that has a piece left to be taken.
    pub(crate) fn next(&mut self) -> Option<Arc<Posted<J>>>
        ensures { self.new.stopped ≡ self.old.stopped }
    {
        self.let_go();
        self.jobs.first()?.clone().ok()
    }

    /// Lets the jobs go of which all pieces are taken; a thread that runs such a piece has the job by itself.
    fn let_go(&mut self)
        ensures { self.new.stopped ≡ self.old.stopped }
    {
        self.jobs.retain(|posted| posted.has_more());
    }

    pub(crate) fn stop(&mut self)
        ensures { (self.new.stopped ≡ true) × (self.new.jobs ≡ self.old.jobs) }
    {
        self.stopped = true;
    }

    pub(crate) fn is_stopped(&self) -> bool
        ensures { result ≡ self.now.stopped }
    {
        self.stopped
    }
}
