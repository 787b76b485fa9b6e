//! What lies along a ray, and what trees claim of it.

use crate::positions::put_position;
use crate::texts::{long_in, number_of, three_fields, two_fields, two_words};
use crate::trees::{push_tree, tree_in};
use crate::weaves::{put_woven, weave_of};
use bool_weave::{ClaimRow, claims};
use case_text::{CaseFault, Shown};
use std::alloc::Global;

/// `cuts SEGMENTS => CUTS, WOVEN`
pub fn answer_cuts(alloc: Global, given: &[u8], out: &mut Shown) -> Result<(), CaseFault> {
    let weave = weave_of(alloc, given)?;
    for (i, cut) in weave.cuts().iter().enumerate() {
        put_position(out, if i > 0 { b" " } else { b"" }, cut);
    }
    if !weave.woven().is_empty() {
        out.put(b", ");
        put_woven(weave.woven(), out);
    }
    Ok(())
}

/// `within SEGMENTS | FROM TO => WOVEN`: what is woven of the instances from one number up to, not including, another.
pub fn answer_within(alloc: Global, given: &[u8], out: &mut Shown) -> Result<(), CaseFault> {
    let (list, range) = two_fields(given)?;
    let (from, to) = two_words(alloc, range)?;
    let (from, to) = (long_in(from)?, long_in(to)?);
    let weave = weave_of(alloc, list)?;
    put_woven(weave.woven_within(from, to), out);
    Ok(())
}

/// `nodes TREE => tree TREE`
pub fn answer_nodes(alloc: Global, given: &[u8], out: &mut Shown) -> Result<(), CaseFault> {
    push_tree(alloc, &tree_in(alloc, given)?, out)
}

/// Puts in 1 for each interval that is claimed and 0 for each other one, and `outside` where one is claimed outside of the
/// bounds that the row tells.
fn put_row(row: &ClaimRow, out: &mut Shown) {
    let mut within = true;
    for i in 0..row.len() {
        let is_claimed = row.at(i);
        out.put(if is_claimed { b"1" } else { b"0" });
        if is_claimed && (i < row.start() || row.end() <= i) {
            within = false;
        }
    }
    if !within {
        out.put(b" outside");
    }
}

/// `claims SEGMENTS | FIRST | TREE => INTERVALS`: which intervals the tree claims, of which leaf 0 is the instance FIRST.
pub fn answer_claims(alloc: Global, given: &[u8], out: &mut Shown) -> Result<(), CaseFault> {
    let (list, first, tree) = three_fields(given)?;
    let first = number_of(alloc, first)?;
    let weave = weave_of(alloc, list)?;
    let tree = tree_in(alloc, tree)?;
    put_row(&claims(alloc, &weave, &tree, first)?, out);
    Ok(())
}
