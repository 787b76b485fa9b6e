//! A cell for each piece, which its result is put into.
ghost use Rattle.std.specs.Prelude.{◌≡◌, ◌<◌, ◌^◌, All, IfOk, vec_len};
ghost use Rattle.tile_workers.specs.Cells.{HaveOwn, IsOwn};

use crate::job::Job;
use memory_core::Memory;
use std::alloc::Global;

/// What a piece gave, with its number.
#[derive(Drop)]
pub(crate) struct Shot<X> {
    pub(crate) piece: u32,
    pub(crate) out: X,
}

/// Cells with nothing in them.
pub(crate) fn empty_cells<J: Job>(alloc: Global, job: &J) -> Result<Vec<Option<J::Out>>, Memory>
    ensures len { IfOk result (λ cells. (vec_len cells ≡ J.pieces job.now) × (vec_len cells < 2 ^ 32)) }
    ensures own { IfOk result (λ cells. HaveOwn (J.gives job.now) cells.items) }
{
    let mut cells = Vec::new(alloc);
    for _ in 0..job.count() {
        cells.push(None)?;
    }
    Ok(cells)
}

/// Puts what pieces gave into their cells.
pub(crate) fn fill<J: Job>(job: &J, cells: &mut Vec<Option<J::Out>>, shots: Vec<Shot<J::Out>>)
    requires cells { HaveOwn (J.gives job.now) cells.old.items }
    requires shots { All (IsOwn (J.gives job.now)) shots.items }
    ensures len { vec_len cells.new ≡ vec_len cells.old }
    ensures own { HaveOwn (J.gives job.now) cells.new.items }
{
    for shot in shots {
        let i = shot.piece as usize;
        if i < cells.len() {
            cells[i] = Some(shot.out);
        }
    }
}
