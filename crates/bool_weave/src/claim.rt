use crate::mask::MaskTree;
use crate::span::{Span, hull_of, is_spanned, spans_of};
use crate::woven::Weave;
use memory_core::Memory;
use std::alloc::Global;
use std::marker::Model;

/// Whether a region claims each interval of a ray. Contracts see it as the list of these truth values; only those from the
/// first to the last claimed one are kept.
#[derive(Debug, Drop)]
pub struct ClaimRow {
    count: u32,
    start: u32,
    row: Vec<bool>,
}

impl Model for ClaimRow {
    ghost use Rattle.std.specs.Prelude.{◌+◌, ◌-◌, ◌<◌, ◌≤◌, ◌^◌, ◌++◌, List, Bool, false, length, replicate};

    ghost Value = { List Bool };

    ghost view = { λ s. replicate s.start false ++ (s.row.items ++ replicate (s.count - (s.start + length s.row.items)) false) };

    ghost invariant = { λ s. (s.start + length s.row.items ≤ s.count) × (s.count < 2 ^ 32) };
}

impl ClaimRow {
    ghost use Rattle.std.specs.Prelude.{◌≡◌, ◌<◌, ◌≤◌, ◌^◌, ℕ, false, length, slice_index_or};

    /// How many intervals there are.
    pub fn len(&self) -> u32
        ensures { result ≡ length self.now }
    {
        self.count
    }

    /// Whether the region claims an interval, which are counted from 0.
    pub fn at(&self, interval: u32) -> bool
        requires { interval < length self.now }
        ensures { result ≡ slice_index_or self.now interval false }
    {
        if interval < self.start {
            return false;
        }
        match self.row.get((interval - self.start) as usize) {
            Some(claimed) => *claimed,
            None => false,
        }
    }

    /// An interval before which none is claimed.
    pub fn start(&self) -> u32
        ensures none { (k : ℕ) → k < result → slice_index_or self.now k false ≡ false }
        ensures within { result ≤ length self.now }
    {
        self.start
    }

    /// An interval from which on none is claimed.
    pub fn end(&self) -> u32
        ensures none { (k : ℕ) → result ≤ k → slice_index_or self.now k false ≡ false }
        ensures within { result ≤ length self.now }
    {
        self.start + self.row.len() as u32
    }
}

ghost use Rattle.std.specs.Prelude.{◌≡◌, ◌+◌, ◌-◌, ◌<◌, ◌≤◌, ℕ, false, IfOk, vec_len, slice_index_or};
ghost use Rattle.bool_weave.specs.Masks.{mask_holds};
ghost use Rattle.bool_weave.specs.Claims.{claims_of};
ghost use Rattle.bool_weave.specs.Tables.{at_leaf};

/// Whether the tree holds, which it does not where no instance spans the interval.
fn holds_at(
    tree: &MaskTree,
    stack: &mut Vec<bool>,
    table: &[Span],
    interval: usize,
) -> Result<bool, Memory>
    ensures { IfOk result (λ b. b ≡ mask_holds tree.now (at_leaf table.now interval)) }
{
    if is_spanned(table, interval) {
        return tree.holds(stack, table, interval);
    }
    Ok(false)
}

/// Whether the tree holds at each interval from one number up to another.
fn row_of(
    alloc: Global,
    tree: &MaskTree,
    table: &[Span],
    from: usize,
    to: usize,
) -> Result<Vec<bool>, Memory>
    requires { from ≤ to }
    ensures len { IfOk result (λ row. vec_len row ≡ to - from) }
    ensures each { IfOk result (λ row. (k : ℕ) → k < to - from → slice_index_or row.items k false ≡ mask_holds tree.now (at_leaf table.now (from + k))) }
{
    let mut row = Vec::new(alloc);
    let mut stack = Vec::new(alloc);
    for interval in from..to {
        let holds = holds_at(tree, &mut stack, table, interval)?;
        row.push(holds)?;
    }
    Ok(row)
}

/// Which intervals a region claims, whose tree has the instance `first + i` as its leaf `i`.
pub fn claims(alloc: Global, weave: &Weave, tree: &MaskTree, first: u32) -> Result<ClaimRow, Memory>
    ensures { IfOk result (λ row. row ≡ claims_of weave.now tree.now first) }
{
    let cuts = weave.cuts();
    let from = first as u64;
    let woven = weave.woven_within(from, from + tree.leaf_end());
    let table = spans_of(alloc, cuts, woven, first)?;
    let hull = hull_of(&table);
    let start = hull.from.min(hull.to);
    let row = row_of(alloc, tree, &table, start, hull.to)?;
    Ok(ClaimRow {
        count: (cuts.len() - 1) as u32,
        start: start as u32,
        row,
    })
}
