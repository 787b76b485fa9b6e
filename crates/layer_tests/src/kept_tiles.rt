ghost use Rattle.std.specs.Prelude.{◌≡◌};

use memory_core::Memory;
use std::test::Fail;
use tile_cache::{MOST_KEPT, Named, TileCache};

/// A number that names another one.
#[derive(Drop)]
struct Numbered {
    key: u64,
    number: u64,
}

impl Named<u64> for Numbered {
    ghost named = { λ s. s.key };

    fn key(&self) -> &u64 {
        &self.key
    }
}

type Numbers = TileCache<u64, Numbered>;

/// Keeps ten times each key of the range, where none is kept yet. The last key is used last.
fn keep_all(kept: &mut Numbers, from: u64, to: u64) -> Result<(), Memory> {
    for key in from..to {
        keep_one(kept, key)?;
    }
    Ok(())
}

fn keep_one(kept: &mut Numbers, key: u64) -> Result<(), Memory> {
    if kept.has(&key) {
        return Ok(());
    }
    let number = key.saturating_mul(10);
    kept.keep(key, Numbered { key, number })
}

/// The number of a key, which moves to the front.
fn number_of(kept: &mut Numbers, key: u64) -> Option<u64> {
    match kept.find(&key) {
        Some(numbered) => Some(numbered.number),
        None => None,
    }
}

#[test]
fn kept_numbers_are_found_by_their_keys(rt: HostRuntime) -> Result<(), Fail> {
    let mut kept = Numbers::new(rt.alloc())?;
    assert!(rt; number_of(&mut kept, 1).is_none());
    keep_all(&mut kept, 1, 4)?;
    assert_eq!(rt; kept.len(), 3);
    assert!(rt; number_of(&mut kept, 2) == Some(20));
    assert!(rt; number_of(&mut kept, 4).is_none());
    assert!(rt; kept.has(&1) && kept.has(&2) && kept.has(&3) && !kept.has(&4));
    Ok(())
}

#[test]
fn the_number_used_longest_ago_falls_out(rt: HostRuntime) -> Result<(), Fail> {
    let mut kept = Numbers::new(rt.alloc())?;
    keep_all(&mut kept, 0, 4096)?;
    assert_eq!(rt; kept.len(), MOST_KEPT);
    assert!(rt; kept.has(&0));
    keep_all(&mut kept, 4096, 4097)?;
    assert!(rt; !kept.has(&0) && kept.has(&1) && kept.has(&4096));
    assert_eq!(rt; kept.len(), 4096);
    Ok(())
}

#[test]
fn a_number_that_was_found_stays_longer(rt: HostRuntime) -> Result<(), Fail> {
    let mut kept = Numbers::new(rt.alloc())?;
    keep_all(&mut kept, 0, 4096)?;
    assert!(rt; number_of(&mut kept, 0) == Some(0));
    keep_all(&mut kept, 4096, 4098)?;
    assert!(rt; kept.has(&0) && !kept.has(&1) && !kept.has(&2) && kept.has(&3));
    Ok(())
}

#[test]
fn nothing_is_kept_after_all_is_cleared(rt: HostRuntime) -> Result<(), Fail> {
    let mut kept = Numbers::new(rt.alloc())?;
    keep_all(&mut kept, 0, 3)?;
    kept.clear();
    assert_eq!(rt; kept.len(), 0);
    assert!(rt; !kept.has(&0) && number_of(&mut kept, 2).is_none());
    keep_all(&mut kept, 2, 4)?;
    assert!(rt; number_of(&mut kept, 2) == Some(20));
    assert_eq!(rt; kept.len(), 2);
    Ok(())
}
