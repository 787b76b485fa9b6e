ghost use Rattle.std.specs.Prelude.{◌≡◌, ◌<◌, ◌≤◌, ◌^◌, ℕ, All, IfOk, slice_index_or, vec_len};
ghost use Rattle.outside_core.specs.declared.gate.GateEvent.TheVariants.{TileBegin};
ghost use Rattle.tile_workers.specs.Cells.{HaveOwn, IsOwn};
ghost use Rattle.tile_workers.specs.Results.{AreResults};

use crate::cells::{Shot, empty_cells, fill};
use crate::job::Job;
use memory_core::Memory;
use outside_core::{Gate, GateEvent};
use std::alloc::Global;
use std::sync::atomic::{AtomicU64, Ordering};
use std::thread;
use std::thread::Threads;

/// What the gate is told of a piece: that its tile begins.
fn beginning<J: Job>(job: &J, session: u8, command: u32, i: u32) -> GateEvent
    requires { i < J.pieces job.now }
    ensures { result ≡ TileBegin session command (J.tiles job.now i) }
{
    GateEvent::TileBegin {
        session,
        command,
        tile: job.tile(i),
    }
}

/// Tells the gate of a piece, and runs it.
fn shoot_piece<J: Job, G: Gate>(
    alloc: Global,
    job: &J,
    session: u8,
    command: u32,
    gate: &G,
    i: u32,
) -> Result<J::Out, Memory>
    requires { i < J.pieces job.now }
    ensures { IfOk result (J.gives job.now i) }
{
    gate.at(beginning(job, session, command, i));
    job.run(alloc, i)
}

/// Shoots the next piece that no thread has taken, over and over until all are taken. A piece without memory is left out.
fn shoot_next<J: Job, G: Gate>(
    alloc: Global,
    job: &J,
    session: u8,
    command: u32,
    gate: &G,
    next: &AtomicU64,
) -> Vec<Shot<J::Out>>
    ensures { All (IsOwn (J.gives job.now)) result.items }
{
    let count = job.count();
    let mut shots = Vec::new(alloc);
    for _ in 0..count {
        let taken = next.fetch_add(1, Ordering::SeqCst);
        if taken >= u64::from(count) {
            break;
        }
        let piece = taken as u32;
        if let Ok(out) = shoot_piece(alloc, job, session, command, gate, piece) {
            let _ = shots.push(Shot { piece, out });
        }
    }
    shots
}

/// Shoots the pieces on at most as many threads as there are workers, and gives what each thread has shot.
fn shoot_shared<R: Threads + Sync, J: Job, G: Gate + Sync>(
    rt: &R,
    alloc: Global,
    workers: u8,
    job: &J,
    session: u8,
    command: u32,
    gate: &G,
) -> Result<Vec<Vec<Shot<J::Out>>>, Memory>
    ensures { IfOk result (λ lists. (w : ℕ) (d : _) → w < vec_len lists → All (IsOwn (J.gives job.now)) (slice_index_or lists.items w d).items) }
{
    let next = AtomicU64::new(0);
    let shared = &next;
    let threads = usize::from(workers).min(job.count() as usize);
    let lists = thread::map_indices(
        rt,
        alloc,
        threads,
        &|_| -> Vec<Shot<J::Out>>
            ensures { All (IsOwn (J.gives job.entry.now)) result.items }
        { shoot_next(alloc, job, session, command, gate, shared) },
    )?;
    Ok(lists)
}

/// The cells of a job, with what each thread has shot.
fn filled<J: Job>(
    alloc: Global,
    job: &J,
    lists: Vec<Vec<Shot<J::Out>>>,
) -> Result<Vec<Option<J::Out>>, Memory>
    requires { (w : ℕ) (d : _) → w < vec_len lists → All (IsOwn (J.gives job.now)) (slice_index_or lists.items w d).items }
    ensures len { IfOk result (λ cells. (vec_len cells ≡ J.pieces job.now) × (vec_len cells < 2 ^ 32)) }
    ensures own { IfOk result (λ cells. HaveOwn (J.gives job.now) cells.items) }
{
    let mut cells = empty_cells(alloc, job)?;
    for shots in lists {
        fill(job, &mut cells, shots);
    }
    Ok(cells)
}

/// What the cells have, in their order; the calling thread shoots the piece of an empty one.
fn completed<J: Job, G: Gate>(
    alloc: Global,
    job: &J,
    session: u8,
    command: u32,
    gate: &G,
    cells: Vec<Option<J::Out>>,
) -> Result<Vec<J::Out>, Memory>
    requires len { vec_len cells ≡ J.pieces job.now }
    requires few { vec_len cells < 2 ^ 32 }
    requires own { HaveOwn (J.gives job.now) cells.items }
    ensures len { IfOk result (λ all. vec_len all ≡ J.pieces job.now) }
    ensures each { IfOk result (λ all. AreResults (J.gives job.now) (J.pieces job.now) all.items) }
{
    let mut all = Vec::new(alloc);
    for cell in cells {
        let i = all.len() as u32;
        let out = match cell {
            Some(out) => out,
            None => shoot_piece(alloc, job, session, command, gate, i)?,
        };
        all.push(out)?;
    }
    Ok(all)
}

/// The results of all pieces, in their order. At most as many threads as there are workers run the pieces, and no more than
/// there are pieces; the calling thread is one of them. Each takes the next piece that no other has taken, until all are
/// taken. The calling thread then runs the pieces that found no memory once more. Each piece tells the gate first, on the
/// thread that runs it, that the tile begins of this command of the session. `Memory` where a piece found none again, or where
/// there is none for the list.
pub fn shoot_all<R: Threads + Sync, J: Job, G: Gate + Sync>(
    rt: &R,
    alloc: Global,
    workers: u8,
    job: &J,
    session: u8,
    command: u32,
    gate: &G,
) -> Result<Vec<J::Out>, Memory>
    requires workers { (1 ≤ workers) × (workers ≤ 16) }
    ensures len { IfOk result (λ all. vec_len all ≡ J.pieces job.now) }
    ensures each { IfOk result (λ all. AreResults (J.gives job.now) (J.pieces job.now) all.items) }
{
    let lists = shoot_shared(rt, alloc, workers, job, session, command, gate)?;
    let cells = filled(alloc, job, lists)?;
    completed(alloc, job, session, command, gate, cells)
}
