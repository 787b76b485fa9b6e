//! Rows of numbers, positions, placements, boxes, planes and solids.

mod boxes;
mod numbers;
mod placements;
mod planes;
mod positions;
mod quotients;
mod segments;
mod shown;
mod solids;
mod words;

use case_text::{CaseFault, Shown};
use plane_geom::ShapeFault;
use std::alloc::Global;
use words::Words;

/// Answers a row of numbers, positions or geometry.
pub fn answer(alloc: Global, kind: &str, given: &[u8], out: &mut Shown) -> Result<(), CaseFault> {
    let mut words = Words::of(given);
    answer_number(alloc, kind, &mut words, out)?;
    words.end()
}

/// Answers a row of numbers or positions, or hands it on.
fn answer_number(
    alloc: Global,
    kind: &str,
    words: &mut Words,
    out: &mut Shown,
) -> Result<(), CaseFault> {
    match kind {
        "gcd" => numbers::answer_gcd(words, out),
        "isqrt" => numbers::answer_isqrt(words, out),
        "fraction" => positions::answer_fraction(words, out),
        "surd" => positions::answer_surd(words, out),
        "fraction_text" => positions::answer_fraction_text(words, out),
        "surd_text" => positions::answer_surd_text(words, out),
        "quotient_text" => quotients::answer_quotient_text(words, out),
        _ => return answer_set(alloc, kind, words, out),
    }
    Ok(())
}

/// Answers a row that may have a fault of its own, or hands it on.
fn answer_set(
    alloc: Global,
    kind: &str,
    words: &mut Words,
    out: &mut Shown,
) -> Result<(), CaseFault> {
    match kind {
        "order" => positions::answer_order(words, out),
        "sort" => positions::answer_sort(alloc, words, out),
        "distinct" => positions::answer_distinct(alloc, words, out),
        "quotient" => quotients::answer_quotient(words, out),
        "quotient_order" => quotients::answer_quotient_order(words, out),
        "hull" => boxes::answer_hull(words, out),
        "meet" => boxes::answer_meet(words, out),
        "box_meets_ray" => boxes::answer_box_meets_ray(words, out),
        "boxes_on_ray" => boxes::answer_boxes_on_ray(alloc, words, out),
        "boxes_on_slant" => boxes::answer_boxes_on_slant(alloc, words, out),
        "sphere_box" => solids::answer_sphere_box(words, out),
        _ => {
            answer_placement(alloc, kind, words, out);
            Ok(())
        }
    }
}

/// Answers a row of placements, or hands it on.
fn answer_placement(alloc: Global, kind: &str, words: &mut Words, out: &mut Shown) {
    match kind {
        "turn" => placements::answer_turn(words, out),
        "identity" => placements::answer_identity(out),
        "place" => placements::answer_place(words, out),
        "compose" => placements::answer_compose(words, out),
        "matrix" => placements::answer_matrix(words, out),
        _ => answer_plane(alloc, kind, words, out),
    }
}

/// Answers a row of planes or chords of spheres, or hands it on.
fn answer_plane(alloc: Global, kind: &str, words: &mut Words, out: &mut Shown) {
    match kind {
        "through" => planes::answer_through(words, out),
        "crossing" => planes::answer_crossing(words, out),
        "placed" => planes::answer_placed(words, out),
        "height" => planes::answer_height(words, out),
        "plane_level" => planes::answer_plane_level(words, out),
        "chord" => solids::answer_chord(words, out),
        "chord_level" => solids::answer_chord_level(words, out),
        _ => answer_solid(alloc, kind, words, out),
    }
}

/// Answers a row of solids, with the fault where its numbers make none.
fn answer_solid(alloc: Global, kind: &str, words: &mut Words, out: &mut Shown) {
    if let Err(fault) = answer_of_solid(kind, words, out) {
        match format!(in alloc; "{fault}") {
            Ok(text) => out.put(text.as_bytes()),
            Err(_) => words.refuse(CaseFault::Memory),
        }
    }
}

fn answer_of_solid(kind: &str, words: &mut Words, out: &mut Shown) -> Result<(), ShapeFault> {
    match kind {
        "half" => solids::answer_half(words, out),
        "sphere" => solids::answer_sphere(words, out),
        "arb8" => solids::answer_arb8(words, out),
        "vertices" => solids::answer_vertices(words, out),
        "segment" => segments::answer_segment(words, out),
        "bounds" => segments::answer_bounds(words, out),
        "level" => segments::answer_level(words, out),
        _ => {
            words.refuse(CaseFault::Kind);
            Ok(())
        }
    }
}
