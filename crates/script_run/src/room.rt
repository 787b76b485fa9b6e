//! How many workers there is room for.
ghost use Rattle.std.specs.Prelude.{◌≤◌};

use std::alloc::Global;
use std::vec::Vec;

/// What a thread takes of the address space: a stack of 8 MiB, and 64 MiB that the C library sets aside for what it allocates.
const THREAD_SIZE: usize = 72 * 1_048_576;

/// What is left to a session for all that it makes, in sizes of a thread.
const SESSION_ROOM: usize = 8;

/// What a worker takes, in sizes of a thread: one serves the pool, and one shoots areas and edges.
const WORKER_ROOM: usize = 2;

/// How many pieces of the size of a thread can be had at once, up to so many. They are given back.
fn count_room(alloc: Global, most: usize) -> usize
    ensures { result ≤ most }
{
    let mut pieces: Vec<Vec<u8>> = Vec::new(alloc);
    for _ in 0..most {
        let Ok(piece) = Vec::with_capacity(alloc, THREAD_SIZE) else {
            break;
        };
        if pieces.push(piece).is_err() {
            break;
        }
    }
    pieces.len()
}

/// How many workers each of so many sessions may have, at most those that are asked for: what their threads take of the address
/// space is not taken from what a session alone would have for its pictures.
pub(crate) fn workers_with_room(alloc: Global, sessions: usize, workers: u8) -> u8
    ensures { result ≤ workers }
{
    let sessions = sessions.clamp(1, 8);
    let wanted = SESSION_ROOM + WORKER_ROOM * usize::from(workers);
    let each = count_room(alloc, sessions * wanted) / sessions;
    let affordable = each.saturating_sub(SESSION_ROOM) / WORKER_ROOM;
    affordable.min(usize::from(workers)) as u8
}
