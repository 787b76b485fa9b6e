ghost use Rattle.std.specs.Prelude.{◌≡◌, ◌<◌, ◌≤◌, ◌+◌, ◌-◌, ℕ, IfOk, length, All, AllPairs, true, vec_len, slice_index_or};
ghost use Rattle.std.specs.List.{list_any};
ghost use Rattle.bool_weave.specs.Claims.{covers, spans};
ghost use Rattle.bool_weave.specs.Tables.{IsCutAt, interval_at, reaches, no_span, at_leaf};

use crate::place::place_in;
use crate::woven::Woven;
use memory_core::Memory;
use std::alloc::Global;
use surd_order::{Pos, Seg};

/// The intervals that a segment covers: from one number up to, not including, another.
#[derive(Clone, Copy, Debug)]
pub(crate) struct Span {
    pub(crate) from: usize,
    pub(crate) to: usize,
}

/// The span of an instance without a segment.
pub(crate) fn no_span() -> Span
    ensures { result ≡ no_span }
{
    Span {
        from: usize::MAX,
        to: 0,
    }
}

/// The intervals that a segment covers, whose ends are among the cuts.
fn span_of(cuts: &[Pos], seg: &Seg) -> Span
    requires { IsCutAt cuts.now seg.now }
    ensures covered { (k : ℕ) → k + 1 < length cuts.now → reaches result k ≡ covers seg.now (interval_at cuts.now k) }
    ensures bound { result.to < length cuts.now }
{
    Span {
        from: place_in(cuts, &seg.start),
        to: place_in(cuts, &seg.end),
    }
}

/// The spans of the instances that a region's leaves stand for, by leaf. There is none behind that of the last instance that
/// has a segment.
pub(crate) fn spans_of(
    alloc: Global,
    cuts: &[Pos],
    woven: &[Woven],
    first: u32,
) -> Result<Vec<Span>, Memory>
    requires cuts { All (λ w. IsCutAt cuts.now w.seg) woven.now }
    requires order { AllPairs (λ v w. v.instance < w.instance) woven.now }
    requires first { All (λ w. first ≤ w.instance) woven.now }
    ensures leaves { IfOk result (λ table. (k i : ℕ) → k + 1 < length cuts.now → at_leaf table.items k i ≡ spans woven.now (interval_at cuts.now k) (first + i)) }
    ensures bound { IfOk result (λ table. All (λ s. s.to ≤ length cuts.now - 1) table.items) }
{
    let mut table = Vec::new(alloc);
    for one in woven {
        let leaf = (one.instance - first) as usize;
        table.resize(leaf, no_span())?;
        table.push(span_of(cuts, &one.seg))?;
    }
    Ok(table)
}

impl Span {
    /// Whether the interval is in the span.
    pub(crate) fn reaches(&self, interval: usize) -> bool
        ensures { result ≡ reaches self.now interval }
    {
        self.from <= interval && interval < self.to
    }

    fn joined(&self, other: &Span) -> Span
        ensures from { (result.from ≤ self.now.from) × (result.from ≤ other.now.from) }
        ensures to { (self.now.to ≤ result.to) × (other.now.to ≤ result.to) × ((bound : ℕ) → self.now.to ≤ bound → other.now.to ≤ bound → result.to ≤ bound) }
    {
        Span {
            from: self.from.min(other.from),
            to: self.to.max(other.to),
        }
    }
}

/// The least span that has all of them in it.
pub(crate) fn hull_of(table: &[Span]) -> Span
    ensures hull { All (λ s. (result.from ≤ s.from) × (s.to ≤ result.to)) table.now }
    ensures bound { (bound : ℕ) → All (λ s. s.to ≤ bound) table.now → result.to ≤ bound }
{
    let mut hull = no_span();
    for span in table {
        hull = hull.joined(span);
    }
    hull
}

/// Whether some instance spans the interval.
pub(crate) fn is_spanned(table: &[Span], interval: usize) -> bool
    ensures { result ≡ list_any (λ s. reaches s interval) table.now }
{
    table.iter().any(|span| span.reaches(interval))
}
