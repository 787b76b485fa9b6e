ghost use Rattle.std.specs.Prelude.{◌≡◌, ◌↔◌, IfOk, IfSome, IsSome};

use memory_core::Memory;
use outside_core::{Gate, GateEvent, OpenGate};
use std::alloc::Global;
use std::sync::atomic::{AtomicU32, Ordering};
use std::test::Fail;
use tile_workers::{Job, shoot_all};

/// A job whose piece i gives 10 i + 3, and is about the tile that is as far from the last one. It is a gate, too: it counts how
/// often each tile is begun and each piece is run, and what it should not have been told or asked.
#[derive(Drop)]
struct Tens {
    pieces: u32,
    begun: Vec<AtomicU32>,
    run: Vec<AtomicU32>,
    faults: AtomicU32,
}

impl Job for Tens {
    ghost use Rattle.std.specs.Prelude.{◌≡◌, ◌+◌, ◌-◌, ◌*◌};

    type Out = u64;

    ghost pieces = { λ job. job.pieces };

    ghost tiles = { λ job i. job.pieces - 1 - i };

    ghost gives = { λ job i out. out ≡ 10 * i + 3 };

    ghost names = { λ job i out. out ≡ 10 * i + 3 };

    fn count(&self) -> u32 {
        self.pieces
    }

    fn tile(&self, i: u32) -> u32 {
        self.pieces - 1 - i
    }

    fn run(&self, _alloc: Global, i: u32) -> Result<u64, Memory> {
        if count_at(&self.begun, self.tile(i)) != Some(1) {
            count(&self.faults);
        }
        self.count_one(&self.run, i);
        Ok(10 * u64::from(i) + 3)
    }

    fn again(&self, _alloc: Global, i: u32, out: &u64) -> Result<Option<u64>, Memory> {
        count(&self.faults);
        Ok(known(*out, 10 * u64::from(i) + 3))
    }
}

impl Gate for Tens {
    fn at(&self, event: GateEvent) {
        match event {
            GateEvent::TileBegin {
                session: 2,
                command: 70_000,
                tile,
            } => self.count_one(&self.begun, tile),
            _ => count(&self.faults),
        }
    }
}

impl Tens {
    fn new(alloc: Global, pieces: u32) -> Result<Tens, Memory>
        ensures { IfOk result (λ job. job.pieces ≡ pieces) }
    {
        Ok(Tens {
            pieces,
            begun: no_counts(alloc, pieces)?,
            run: no_counts(alloc, pieces)?,
            faults: AtomicU32::new(0),
        })
    }

    fn count_one(&self, counts: &[AtomicU32], i: u32) {
        match counts.get(i as usize) {
            Some(one) => count(one),
            None => count(&self.faults),
        }
    }

    /// Each piece was run once, after its tile was begun once, and nothing else was told or asked.
    fn was_run_once(&self) -> bool {
        are_one(&self.begun) && are_one(&self.run) && self.faults.load(Ordering::SeqCst) == 0
    }
}

/// A number, where it is this one.
pub(crate) fn known(number: u64, expected: u64) -> Option<u64>
    ensures known { IsSome result ↔ (number ≡ expected) }
    ensures same { IfSome result (λ n. n ≡ expected) }
{
    if number == expected {
        Some(number)
    } else {
        None
    }
}

pub(crate) fn no_counts(alloc: Global, pieces: u32) -> Result<Vec<AtomicU32>, Memory> {
    let mut counts = Vec::new(alloc);
    for _ in 0..pieces {
        counts.push(AtomicU32::new(0))?;
    }
    Ok(counts)
}

pub(crate) fn count(one: &AtomicU32) {
    one.fetch_add(1, Ordering::SeqCst);
}

fn count_at(counts: &[AtomicU32], i: u32) -> Option<u32> {
    Some(counts.get(i as usize)?.load(Ordering::SeqCst))
}

pub(crate) fn are_one(counts: &[AtomicU32]) -> bool {
    counts.iter().all(|one| one.load(Ordering::SeqCst) == 1)
}

/// A job of 20 pieces, of which one finds no memory.
#[derive(Drop)]
struct Scarce {
    at: u32,
}

impl Job for Scarce {
    ghost use Rattle.std.specs.Prelude.{◌≡◌};

    type Out = u32;

    ghost pieces = { λ job. 20 };

    ghost tiles = { λ job i. i };

    ghost gives = { λ job i out. out ≡ i };

    ghost names = { λ job i out. out ≡ i };

    fn count(&self) -> u32 {
        20
    }

    fn tile(&self, i: u32) -> u32 {
        i
    }

    fn run(&self, _alloc: Global, i: u32) -> Result<u32, Memory> {
        if i == self.at { Err(Memory) } else { Ok(i) }
    }

    fn again(&self, _alloc: Global, i: u32, out: &u32) -> Result<Option<u32>, Memory> {
        if *out == i { Ok(Some(i)) } else { Ok(None) }
    }
}

#[test]
fn each_piece_is_run_once_and_gives_its_result_in_order(rt: HostRuntime) -> Result<(), Fail> {
    let alloc = rt.alloc();
    for workers in [1u8, 3, 16] {
        for pieces in [0u32, 1, 2, 17, 300] {
            let job = Tens::new(alloc, pieces)?;
            let all = shoot_all(&rt, alloc, workers, &job, 2, 70_000, &job)?;
            assert!(rt; job.was_run_once());
            assert_eq!(rt; all.len(), pieces as usize);
            let mut want = 3u64;
            for out in &all {
                assert_eq!(rt; *out, want);
                want = want.wrapping_add(10);
            }
        }
    }
    Ok(())
}

#[test]
fn seven_pieces_give_what_they_give_by_hand(rt: HostRuntime) -> Result<(), Fail> {
    let job = Tens::new(rt.alloc(), 7)?;
    let all = shoot_all(&rt, rt.alloc(), 3, &job, 2, 70_000, &OpenGate)?;
    assert_eq!(rt; all.as_slice(), [3u64, 13, 23, 33, 43, 53, 63].as_slice());
    Ok(())
}

#[test]
fn a_piece_without_memory_leaves_no_result(rt: HostRuntime) -> Result<(), Fail> {
    let alloc = rt.alloc();
    for workers in [1u8, 3, 16] {
        for at in [0u32, 7, 19] {
            let shot = shoot_all(&rt, alloc, workers, &Scarce { at }, 1, 1, &OpenGate);
            assert!(rt; shot.is_err());
        }
        let all = shoot_all(&rt, alloc, workers, &Scarce { at: 20 }, 1, 1, &OpenGate)?;
        assert_eq!(rt; all.len(), 20);
    }
    Ok(())
}
