//! The winners of a ray, and the overlaps on it. A region is `solid FIRST TREE` or `air FIRST TREE`, FIRST being the
//! instance of leaf 0.

ghost use Rattle.std.specs.Prelude.{◌≡◌, IfOk, All, length};
ghost use Rattle.bool_weave.specs.Claims.{intervals_of};

use crate::positions::put_position;
use crate::texts::{items_of, number_in, put_comma, put_number, three_words, two_fields};
use crate::trees::tree_of;
use crate::weaves::weave_of;
use bool_weave::{MaskNode, Weave, claims};
use case_text::{CaseFault, Shown, words_of};
use overlap_list::{CheckFault, Hit, OverlapRun, Partition, RegionClaims, overlaps, settle};
use std::alloc::Global;

/// How many leaves a tree has, which are numbered from 0.
fn leaf_count(nodes: &[MaskNode]) -> u32 {
    let mut count = 0;
    for node in nodes {
        if let MaskNode::Leaf(leaf) = node {
            count = leaf.saturating_add(1).max(count);
        }
    }
    count
}

/// Whether a region of that word has air.
fn is_air(word: &[u8]) -> Result<bool, CaseFault> {
    match word {
        b"solid" => Ok(false),
        b"air" => Ok(true),
        _ => Err(CaseFault::Line),
    }
}

fn region_of(alloc: Global, weave: &Weave, item: &[u8]) -> Result<RegionClaims, CaseFault>
    ensures { IfOk result (λ r. length r.claims ≡ length (intervals_of weave.now)) }
{
    let words = words_of(alloc, item)?;
    let [kind, first, tree @ ..] = words.as_slice() else {
        return Err(CaseFault::Line);
    };
    let (air, first) = (is_air(*kind)?, number_in(*first)?);
    let tree = tree_of(alloc, tree)?;
    let row = claims(alloc, weave, &tree, first)?;
    Ok(RegionClaims {
        air,
        first,
        count: leaf_count(tree.nodes()),
        claims: row,
    })
}

/// What the regions of a list claim of a ray.
fn regions_of(alloc: Global, weave: &Weave, list: &[u8]) -> Result<Vec<RegionClaims>, CaseFault>
    ensures { IfOk result (λ v. All (λ r. length r.claims ≡ length (intervals_of weave.now)) v.items) }
{
    let mut regions = Vec::new(alloc);
    for item in items_of(alloc, list)? {
        let region = region_of(alloc, weave, item)?;
        regions.push(region)?;
    }
    Ok(regions)
}

/// Puts in a hit.
pub fn put_hit(hit: &Hit, out: &mut Shown) {
    put_number(out, b" i", u64::from(hit.instance));
    put_number(out, b" f", u64::from(hit.face));
}

fn put_partition(one: &Partition, out: &mut Shown) {
    put_number(out, b"r", u64::from(one.region));
    put_position(out, b" ", &one.start);
    put_position(out, b" ", &one.end);
    put_hit(&one.hit, out);
}

/// Puts in partitions, each as `rREGION START END iINSTANCE fFACE`.
fn put_partitions(partitions: &[Partition], out: &mut Shown) {
    for (i, one) in partitions.iter().enumerate() {
        put_comma(out, i);
        put_partition(one, out);
    }
}

/// `partitions SEGMENTS | REGIONS => rREGION START END iINSTANCE fFACE, ..`
pub fn answer_partitions(alloc: Global, given: &[u8], out: &mut Shown) -> Result<(), CaseFault> {
    let (segments, list) = two_fields(given)?;
    let weave = weave_of(alloc, segments)?;
    let regions = regions_of(alloc, &weave, list)?;
    if regions.len() > 10_000 {
        return Err(CaseFault::Line);
    }
    put_partitions(&settle(alloc, &weave, &regions)?, out);
    Ok(())
}

fn put_run(run: &OverlapRun, out: &mut Shown) {
    put_number(out, b"r", u64::from(run.one));
    put_number(out, b" r", u64::from(run.two));
    put_position(out, b" ", &run.start);
    put_position(out, b" ", &run.end);
}

/// Puts in overlaps, each as `rONE rTWO START END`.
pub fn put_runs(runs: &[OverlapRun], out: &mut Shown) {
    for (i, run) in runs.iter().enumerate() {
        put_comma(out, i);
        put_run(run, out);
    }
}

/// Puts in overlaps, or how many they are, or why they are not listed.
pub fn put_overlaps(
    told: Told,
    found: Result<Vec<OverlapRun>, CheckFault>,
    out: &mut Shown,
) -> Result<(), CaseFault> {
    match found {
        Ok(runs) => match told {
            Told::Runs => put_runs(&runs, out),
            Told::Count => put_number(out, b"", runs.len() as u64),
        },
        Err(CheckFault::TooMany) => out.put(b"too many"),
        Err(CheckFault::Memory) => return Err(CaseFault::Memory),
    }
    Ok(())
}

/// What is told of overlaps.
#[derive(Clone, Copy)]
pub enum Told {
    Runs,
    Count,
}

/// `overlaps SEGMENTS | REGIONS => rONE rTWO START END, ..`, and `pairs SEGMENTS | REGIONS => COUNT`, how many there are;
/// `too many` where they are not listed.
pub fn answer_overlaps(
    alloc: Global,
    told: Told,
    given: &[u8],
    out: &mut Shown,
) -> Result<(), CaseFault> {
    let (segments, list) = two_fields(given)?;
    let weave = weave_of(alloc, segments)?;
    let regions = regions_of(alloc, &weave, list)?;
    if regions.len() > 10_000 {
        return Err(CaseFault::Line);
    }
    put_overlaps(told, overlaps(alloc, &weave, &regions), out)
}
