//! Two lists of pairs made one.
ghost use Rattle.std.specs.Prelude.{◌≡◌, true, ◌<◌, ◌≤◌, ◌+◌, ◌++◌, ◌∷◌, [], ◌^◌, IfOk, IfErr, OnErr, length};
ghost use Rattle.overlap_list.specs.declared.overlap.TheConstants.{MOST_PAIRS};
ghost use Rattle.overlap_list.specs.Overlaps.{IsTooMany};
ghost use Rattle.tile_shot.specs.Reports.{AddUp};
ghost use Rattle.tile_shot.specs.Merges.{ArePairs, comes_before, is_earlier, joined, merged};

use overlap_list::{CheckFault, MOST_PAIRS};
use shot_core::Pair;
use std::alloc::Global;

fn comes_before(a: &Pair, b: &Pair) -> bool
    ensures { result ≡ comes_before a.now b.now }
{
    a.one < b.one || (a.one == b.one && a.two < b.two)
}

fn is_earlier(a: &Pair, b: &Pair) -> bool
    ensures { result ≡ is_earlier a.now b.now }
{
    a.row < b.row || (a.row == b.row && a.column < b.column)
}

/// A pair on the rays of two lists.
fn joined(a: &Pair, b: &Pair) -> Pair
    requires a { a.now.rays < 2 ^ 31 }
    requires b { b.now.rays < 2 ^ 31 }
    ensures { result ≡ joined a.now b.now }
{
    let mut pair = if is_earlier(b, a) { *b } else { *a };
    pair.rays = a.rays + b.rays;
    pair
}

/// Whether the first pair of a list comes behind the last one of another.
fn comes_behind(pairs: &[Pair], more: &[Pair]) -> bool
    requires { ArePairs pairs.now }
    ensures { result ≡ true → merged pairs.now more.now ≡ pairs.now ++ more.now }
{
    if more.is_empty() {
        return true;
    }
    if pairs.is_empty() {
        return true;
    }
    comes_before(&pairs[pairs.len() - 1], &more[0])
}

fn add_pair(pairs: &mut Vec<Pair>, pair: Pair) -> Result<(), CheckFault>
    ensures added { IfOk result (λ _. pairs.new.items ≡ pairs.old.items ++ pair ∷ []) }
    ensures fault { IfErr result (IsTooMany (length pairs.old.items + 1)) }
{
    if pairs.len() >= MOST_PAIRS {
        return Err(CheckFault::TooMany);
    }
    if pairs.push(pair).is_err() {
        return Err(CheckFault::Memory);
    }
    Ok(())
}

fn add_all(pairs: &mut Vec<Pair>, more: &[Pair]) -> Result<(), CheckFault>
    ensures added { IfOk result (λ _. pairs.new.items ≡ pairs.old.items ++ more.now) }
    ensures most { IfOk result (λ _. length pairs.new.items ≤ MOST_PAIRS) }
    ensures fault { IfErr result (IsTooMany (length pairs.old.items + length more.now)) }
    ensures kept { OnErr result (pairs.new.items ≡ pairs.old.items) }
{
    if pairs.len() > MOST_PAIRS || more.len() > MOST_PAIRS - pairs.len() {
        return Err(CheckFault::TooMany);
    }
    if pairs.extend_from_slice(more).is_err() {
        return Err(CheckFault::Memory);
    }
    Ok(())
}

/// A list with two others behind it.
fn with_rest(mut all: Vec<Pair>, pairs: &[Pair], more: &[Pair]) -> Result<Vec<Pair>, CheckFault>
    ensures added { IfOk result (λ v. v.items ≡ all.items ++ (pairs.now ++ more.now)) }
    ensures most { IfOk result (λ v. length v.items ≤ MOST_PAIRS) }
    ensures fault { IfErr result (IsTooMany (length all.items + (length pairs.now + length more.now))) }
{
    if let Err(fault) = add_all(&mut all, pairs) {
        return Err(fault);
    }
    if let Err(fault) = add_all(&mut all, more) {
        return Err(fault);
    }
    Ok(all)
}

/// Two lists made one, in a list of its own.
fn merged(alloc: Global, pairs: &[Pair], more: &[Pair]) -> Result<Vec<Pair>, CheckFault>
    requires pairs { ArePairs pairs.now }
    requires more { ArePairs more.now }
    ensures merged { IfOk result (λ v. v.items ≡ merged pairs.now more.now) }
    ensures most { IfOk result (λ v. length v.items ≤ MOST_PAIRS) }
    ensures fault { IfErr result (IsTooMany (length (merged pairs.now more.now))) }
{
    let mut all = Vec::new(alloc);
    let mut i = 0;
    let mut j = 0;
    while i < pairs.len() && j < more.len() {
        if comes_before(&pairs[i], &more[j]) {
            add_pair(&mut all, pairs[i])?;
            i += 1;
        } else if comes_before(&more[j], &pairs[i]) {
            add_pair(&mut all, more[j])?;
            j += 1;
        } else {
            add_pair(&mut all, joined(&pairs[i], &more[j]))?;
            i += 1;
            j += 1;
        }
    }
    with_rest(all, &pairs[i..], &more[j..])
}

/// Makes a list of pairs that of the rays of two lists: a pair of both has as many rays as both have, and the earlier of the
/// two first ones with its overlap there. `TooMany` comes exactly where there are over `MOST_PAIRS` pairs then. A refusal
/// leaves the list as it was. Where no pair of the list comes behind the others, they are put behind it.
pub fn merge_pairs(alloc: Global, into: &mut Vec<Pair>, more: &[Pair]) -> Result<(), CheckFault>
    requires into { ArePairs into.old.items }
    requires more { ArePairs more.now }
    ensures merged { IfOk result (λ _. into.new.items ≡ merged into.old.items more.now) }
    ensures adds { IfOk result (λ _. AddUp into.old.items more.now into.new.items) }
    ensures most { IfOk result (λ _. length into.new.items ≤ MOST_PAIRS) }
    ensures fault { IfErr result (IsTooMany (length (merged into.old.items more.now))) }
    ensures kept { OnErr result (into.new.items ≡ into.old.items) }
{
    if comes_behind(into, more) {
        return add_all(into, more);
    }
    *into = merged(alloc, into, more)?;
    Ok(())
}
