//! Segments that are woven into a ray, each as `INSTANCE START END`. Their faces are 1 at the start and 2 at the end.

ghost use Rattle.std.specs.Prelude.{◌<◌, IsTrue, IsFalse, All};
ghost use Rattle.surd_order.specs.Order.{Precedes};
ghost use Rattle.surd_order.specs.Range.{IsInRange};
ghost use Rattle.surd_order.specs.Spelling.{IsSpelled};
ghost use Rattle.bool_weave.specs.Cuts.{IsSegment};

use crate::positions::{put_position, read_position};
use crate::texts::{items_of, number_in, put_comma, put_number, three_words};
use bool_weave::{Weave, Woven};
use case_text::{CaseFault, Shown};
use lattice_core::FAR;
use std::alloc::Global;
use surd_order::{Pos, Seg};

fn is_before(x: &Pos, y: &Pos) -> bool
    requires x { IsInRange x.now }
    requires y { IsInRange y.now }
    ensures before { IsTrue result → Precedes x.now y.now }
    ensures not_before { IsFalse result → ¬ (Precedes x.now y.now) }
{
    x.cmp(y).is_lt()
}

/// Whether a segment lies on the ray, its start before its end, and both in range.
fn is_segment(seg: &Seg) -> bool
    requires start { IsSpelled seg.now.start }
    requires end { IsSpelled seg.now.end }
    ensures { IsTrue result → IsSegment seg.now }
{
    let start = Pos::Frac { p: 0, q: 1 };
    let end = Pos::Frac {
        p: FAR as i128,
        q: 1,
    };
    if !seg.start.is_in_range() {
        return false;
    }
    if !seg.end.is_in_range() {
        return false;
    }
    if !is_before(&seg.start, &seg.end) {
        return false;
    }
    if is_before(&seg.start, &start) {
        return false;
    }
    !is_before(&end, &seg.end)
}

/// Whether an instance may be woven in next.
fn is_next(weave: &Weave, instance: u32) -> bool
    ensures { IsTrue result → All (λ w. w.instance < instance) weave.now }
{
    weave.woven().iter().all(|one| one.instance < instance)
}

/// Weaves in a segment, where it is one and its instance follows those before it.
fn add(weave: &mut Weave, instance: u32, start: Pos, end: Pos) -> Result<(), CaseFault>
    requires start { IsSpelled start }
    requires end { IsSpelled end }
{
    let seg = Seg {
        start,
        start_face: 1,
        end,
        end_face: 2,
    };
    if !is_segment(&seg) || !is_next(weave, instance) || weave.woven().len() >= 100 {
        return Err(CaseFault::Number);
    }
    weave.weave(&seg, instance)?;
    Ok(())
}

/// Weaves in the segment of an item.
fn add_item(alloc: Global, weave: &mut Weave, item: &[u8]) -> Result<(), CaseFault> {
    let (instance, start, end) = three_words(alloc, item)?;
    let instance = number_in(instance)?;
    let start = read_position(start)?;
    let end = read_position(end)?;
    add(weave, instance, start, end)
}

/// The ray into which the segments of a list are woven.
pub fn weave_of(alloc: Global, list: &[u8]) -> Result<Weave, CaseFault> {
    let mut weave = Weave::new(alloc)?;
    for item in items_of(alloc, list)? {
        add_item(alloc, &mut weave, item)?;
    }
    Ok(weave)
}

fn put_one(one: &Woven, out: &mut Shown) {
    let Woven { instance, seg } = one;
    put_number(out, b"i", u64::from(*instance));
    put_position(out, b" ", &seg.start);
    put_number(out, b" f", u64::from(seg.start_face));
    put_position(out, b" ", &seg.end);
    put_number(out, b" f", u64::from(seg.end_face));
}

/// Puts in what is woven, each as `iINSTANCE START fFACE END fFACE`.
pub fn put_woven(woven: &[Woven], out: &mut Shown) {
    for (i, one) in woven.iter().enumerate() {
        put_comma(out, i);
        put_one(one, out);
    }
}
