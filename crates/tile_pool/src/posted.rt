//! A job that was posted, and what is known of its pieces.
ghost use Rattle.std.specs.Prelude.{◌≡◌, ◌<◌, IfOk, IfSome, vec_len};
ghost use Rattle.std.specs.Arc.{arc_value};
ghost use Rattle.tile_workers.specs.Results.{AreResults};

use memory_core::Memory;
use once_cell::race::OnceBox;
use std::alloc::Global;
use std::sync::Arc;
use std::sync::atomic::{AtomicU64, Ordering};
use tile_workers::Job;

/// A job with a cell for each of its pieces, which is set once with the piece's result. Pieces are taken in their order.
#[derive(Drop)]
pub(crate) struct Posted<J: Job + Drop> {
    job: Arc<J>,
    cells: Vec<OnceBox<J::Out>>,
    taken: AtomicU64,
    ghost one_each: { vec_len cells ≡ J.pieces (arc_value job) },
}

/// Cells with nothing in them.
fn empty_cells<J: Job + Drop>(alloc: Global, job: &J) -> Result<Vec<OnceBox<J::Out>>, Memory>
    ensures { IfOk result (λ cells. vec_len cells ≡ J.pieces job.now) }
{
    let mut cells = Vec::new(alloc);
    for _ in 0..job.count() {
        cells.push(OnceBox::new(alloc))?;
    }
    Ok(cells)
}

impl<J: Job + Drop> Posted<J> {
    /// A job of which no piece is taken.
    pub(crate) fn new(alloc: Global, job: Arc<J>) -> Result<Posted<J>, Memory>
        ensures { IfOk result (λ posted. arc_value posted.job ≡ arc_value job) }
    {
        let cells = empty_cells::<J>(alloc, &job)?;
        Ok(Posted {
            job,
            cells,
            taken: AtomicU64::new(0),
        })
    }

    /// Whether a piece is left to be taken.
    pub(crate) fn has_more(&self) -> bool {
        self.taken.load(Ordering::SeqCst) < u64::from(self.job.count())
    }

    /// Takes the next piece.
    fn take(&self) -> Option<u32>
        ensures { IfSome result (λ i. i < J.pieces (arc_value self.now.job)) }
    {
        let i = self.taken.fetch_add(1, Ordering::SeqCst);
        if i < u64::from(self.job.count()) {
            Some(i as u32)
        } else {
            None
        }
    }

    /// Takes the next piece, runs it, and sets its cell; where there is no memory the cell stays empty. Says whether there was
    /// a piece to be taken.
    pub(crate) fn run_next(&self, alloc: Global) -> bool {
        let Some(i) = self.take() else {
            return false;
        };
        if let Ok(out) = self.job.run(alloc, i)
            && let Ok(out) = Box::new(alloc, out)
        {
            let _ = self.cells[i as usize].set(out);
        }
        true
    }

    /// Runs pieces until the cell of this one is set, or no piece is left to be taken.
    fn run_until_set(&self, alloc: Global, i: u32)
        requires { i < J.pieces (arc_value self.now.job) }
    {
        for _ in 0..self.job.count() {
            if self.cells[i as usize].get().is_some() || !self.run_next(alloc) {
                break;
            }
        }
    }

    /// The result of a piece: what its cell has, if the job says that this is of the piece, else what the piece gives now.
    fn result_of(&self, alloc: Global, i: u32) -> Result<J::Out, Memory>
        requires { i < J.pieces (arc_value self.now.job) }
        ensures { IfOk result (J.gives (arc_value self.now.job) i) }
    {
        if let Some(out) = self.cells[i as usize].get()
            && let Some(again) = self.job.again(alloc, i, out)?
        {
            return Ok(again);
        }
        self.job.run(alloc, i)
    }

    /// The results of all pieces, in their order. Each is asked for as soon as those before it are there, so that what asking
    /// costs is paid while other threads still run pieces.
    pub(crate) fn results(&self, alloc: Global) -> Result<Vec<J::Out>, Memory>
        ensures len { IfOk result (λ all. vec_len all ≡ J.pieces (arc_value self.now.job)) }
        ensures each { IfOk result (λ all. AreResults (J.gives (arc_value self.now.job)) (J.pieces (arc_value self.now.job)) all.items) }
    {
        let mut all = Vec::new(alloc);
        for i in 0..self.job.count() {
            self.run_until_set(alloc, i);
            all.push(self.result_of(alloc, i)?)?;
        }
        Ok(all)
    }
}
