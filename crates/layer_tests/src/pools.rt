use crate::workers::{are_one, count, known, no_counts};
use memory_core::Memory;
use std::alloc::Global;
use std::sync::atomic::{AtomicU32, Ordering};
use std::sync::{Arc, Wait};
use std::test::Fail;
use std::thread::join_mut;
use tile_pool::TilePool;
use tile_workers::Job;

/// A job of three pieces, of which piece i gives 10 i. It counts how often each is run, and how often a result is known again.
#[derive(Drop)]
struct Counted {
    run: Vec<AtomicU32>,
    known: AtomicU32,
}

impl Job for Counted {
    ghost use Rattle.std.specs.Prelude.{◌≡◌, ◌*◌};

    type Out = u64;

    ghost pieces = { λ job. 3 };

    ghost tiles = { λ job i. i };

    ghost gives = { λ job i out. out ≡ 10 * i };

    ghost names = { λ job i out. out ≡ 10 * i };

    fn count(&self) -> u32 {
        3
    }

    fn tile(&self, i: u32) -> u32 {
        i
    }

    fn run(&self, _alloc: Global, i: u32) -> Result<u64, Memory> {
        if let Some(one) = self.run.get(i as usize) {
            count(one);
        }
        Ok(10 * u64::from(i))
    }

    fn again(&self, _alloc: Global, i: u32, out: &u64) -> Result<Option<u64>, Memory> {
        let again = known(*out, 10 * u64::from(i));
        if again.is_some() {
            count(&self.known);
        }
        Ok(again)
    }
}

impl Counted {
    fn new(alloc: Global) -> Result<Counted, Memory> {
        Ok(Counted {
            run: no_counts(alloc, 3)?,
            known: AtomicU32::new(0),
        })
    }

    /// How often pieces were run.
    fn runs(&self) -> u32 {
        let mut runs = 0u32;
        for one in &self.run {
            runs = runs.saturating_add(one.load(Ordering::SeqCst));
        }
        runs
    }

    /// How often a result was known again.
    fn known(&self) -> u32 {
        self.known.load(Ordering::SeqCst)
    }
}

/// Posts a job, waits until each piece was run, for a billion turns at the longest, and gathers it. Says, too, whether each was.
fn gathered_late<R: Wait>(
    rt: &R,
    alloc: Global,
    pool: &TilePool<Counted>,
    job: &Arc<Counted>,
) -> Result<(bool, Vec<u64>), Memory> {
    let ticket = pool.post(rt, alloc, job.clone()?)?;
    for _ in 0..1_000_000_000u32 {
        if job.runs() >= 3 {
            break;
        }
    }
    let served = are_one(&job.run);
    Ok((served, pool.gather(alloc, ticket)?))
}

#[test]
fn three_pieces_that_nobody_serves_are_gathered_in_order(rt: HostRuntime) -> Result<(), Fail> {
    let alloc = rt.alloc();
    let job = Arc::new(alloc, Counted::new(alloc)?)?;
    let pool = TilePool::new(alloc)?;
    let ticket = pool.post(&rt, alloc, job.clone()?)?;
    assert_eq!(rt; job.runs(), 0u32);
    let all = pool.gather(alloc, ticket)?;
    assert_eq!(rt; all.as_slice(), [0u64, 10, 20].as_slice());
    assert!(rt; are_one(&job.run));
    assert_eq!(rt; job.known(), 3u32);
    Ok(())
}

#[test]
fn jobs_are_gathered_in_another_order_than_posted(rt: HostRuntime) -> Result<(), Fail> {
    let alloc = rt.alloc();
    let first = Arc::new(alloc, Counted::new(alloc)?)?;
    let second = Arc::new(alloc, Counted::new(alloc)?)?;
    let pool = TilePool::new(alloc)?;
    let first_ticket = pool.post(&rt, alloc, first.clone()?)?;
    let second_ticket = pool.post(&rt, alloc, second.clone()?)?;
    let all = pool.gather(alloc, second_ticket)?;
    assert_eq!(rt; all.as_slice(), [0u64, 10, 20].as_slice());
    assert_eq!(rt; first.runs(), 0u32);
    assert!(rt; are_one(&second.run));
    let all = pool.gather(alloc, first_ticket)?;
    assert_eq!(rt; all.as_slice(), [0u64, 10, 20].as_slice());
    assert!(rt; are_one(&first.run));
    Ok(())
}

/// A piece whose cell is set is known again, and another is run once more: together that is each piece once more.
#[test]
fn three_pieces_that_a_thread_serves_are_gathered_in_order(rt: HostRuntime) -> Result<(), Fail> {
    let alloc = rt.alloc();
    let job = Arc::new(alloc, Counted::new(alloc)?)?;
    let pool = TilePool::new(alloc)?;
    let (_done, gathered) = join_mut(
        &rt,
        &mut || pool.serve(&rt, alloc),
        &mut || {
            let gathered = gathered_late(&rt, alloc, &pool, &job);
            pool.stop(&rt);
            gathered
        },
    );
    let (served, all) = gathered?;
    assert!(rt; served);
    assert_eq!(rt; all.as_slice(), [0u64, 10, 20].as_slice());
    assert_eq!(rt; job.runs().saturating_add(job.known()), 6u32);
    Ok(())
}
