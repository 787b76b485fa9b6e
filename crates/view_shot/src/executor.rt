//! Who shoots the tiles of a view: the calling thread alone, or several threads.
ghost use Rattle.std.specs.Prelude.{◌≡◌, ◌≤◌, IfOk, vec_len};
ghost use Rattle.std.specs.Arc.{arc_value};
ghost use Rattle.lattice_core.specs.Tiles.{tiles_of};
ghost use Rattle.tile_workers.specs.Results.{AreResults};
ghost use Rattle.view_shot.specs.Jobs.{ArePresented, AreReports, GivesTile};

use crate::job::{CheckJob, TileJob};
use crate::kept::SharedTile;
use crate::named::SharedPairs;
use crate::present_job::{PresentJob, SharedPresents};
use memory_core::Memory;
use outside_core::Gate;
use std::alloc::Global;
use std::thread::Threads;
use std::vec::Vec;
use tile_workers::{shoot_all, shoot_alone};

/// Several threads, which tell a gate of each tile of a session's command before they shoot it.
#[derive(Drop)]
pub struct Parallel<'a, R, G> {
    pub rt: &'a R,
    /// How many threads there may be, 1 to 16.
    pub workers: u8,
    /// The session, of which the gate is told.
    pub session: u8,
    /// The number of its command, of which the gate is told.
    pub command: u32,
    pub gate: &'a G,
    pub ghost few: { (1 ≤ workers) × (workers ≤ 16) },
}

/// Who shoots tiles.
#[derive(Drop)]
pub enum Executor<'a, R, G> {
    /// The calling thread, one tile after the other. It tells nobody.
    Sequential,
    /// Several threads.
    Parallel(Parallel<'a, R, G>),
}

/// The tiles of a job for a picture, in its order; `Memory` where there is none.
pub(crate) fn shoot_tiles<R: Threads + Sync, G: Gate + Sync>(
    executor: &Executor<R, G>,
    alloc: Global,
    job: &TileJob,
) -> Result<Vec<SharedTile>, Memory>
    ensures len { IfOk result (λ all. vec_len all ≡ vec_len job.now.tiles) }
    ensures each { IfOk result (λ all. AreResults (GivesTile job.now) (vec_len job.now.tiles) all.items) }
{
    match executor {
        Executor::Sequential => shoot_alone(alloc, job),
        Executor::Parallel(p) => {
            shoot_all(p.rt, alloc, p.workers, job, p.session, p.command, p.gate)
        }
    }
}

/// The pairs of the tiles of a job for a report, in its order; `Memory` where there is none.
pub(crate) fn check_tiles<R: Threads + Sync, G: Gate + Sync>(
    executor: &Executor<R, G>,
    alloc: Global,
    job: &CheckJob,
) -> Result<Vec<SharedPairs>, Memory>
    ensures len { IfOk result (λ all. vec_len all ≡ job.now.count) }
    ensures each { IfOk result (λ all. AreReports (arc_value job.now.scene) job.now.view job.now.first job.now.count all.items) }
{
    match executor {
        Executor::Sequential => shoot_alone(alloc, job),
        Executor::Parallel(p) => {
            shoot_all(p.rt, alloc, p.workers, job, p.session, p.command, p.gate)
        }
    }
}

/// What the tiles of a job present, in its order; `Memory` where there is none.
pub(crate) fn present_tiles<R: Threads + Sync, G: Gate + Sync>(
    executor: &Executor<R, G>,
    alloc: Global,
    job: &PresentJob,
) -> Result<Vec<SharedPresents>, Memory>
    ensures len { IfOk result (λ all. vec_len all ≡ tiles_of job.now.view) }
    ensures each { IfOk result (λ all. ArePresented (arc_value job.now.scene) job.now.view (tiles_of job.now.view) all.items) }
{
    match executor {
        Executor::Sequential => shoot_alone(alloc, job),
        Executor::Parallel(p) => {
            shoot_all(p.rt, alloc, p.workers, job, p.session, p.command, p.gate)
        }
    }
}
