ghost use Rattle.std.specs.Prelude.{◌≡◌, IfOk, vec_len};
ghost use Rattle.tile_workers.specs.Results.{AreResults};

use crate::job::Job;
use memory_core::Memory;
use std::alloc::Global;
use std::vec::Vec;

/// The results of all pieces, in their order. The calling thread runs them one after the other, and tells nobody. `Memory`
/// where a piece found none, or where there is none for the list.
pub fn shoot_alone<J: Job>(alloc: Global, job: &J) -> Result<Vec<J::Out>, Memory>
    ensures len { IfOk result (λ all. vec_len all ≡ J.pieces job.now) }
    ensures each { IfOk result (λ all. AreResults (J.gives job.now) (J.pieces job.now) all.items) }
{
    let mut all = Vec::new(alloc);
    for i in 0..job.count() {
        all.push(job.run(alloc, i)?)?;
    }
    Ok(all)
}
