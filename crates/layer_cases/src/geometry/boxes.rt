//! Rows of boxes.

use crate::geometry::shown::{push_number, push_text};
use crate::geometry::words::{Words, parted, whole_within};
use box_index::BoxIndex;
use case_text::{CaseFault, Shown, words_of};
use lattice_core::{Box3, Extent, FAR, Side, box_meets_ray, hull, meet};
use std::alloc::Global;

/// The greatest number of boxes of a row.
const MOST_BOXES: usize = 1_000;

/// The side that a word is: a whole number, or `*` where it is open.
fn side(word: &[u8]) -> Result<Side, CaseFault> {
    match word {
        b"*" => Ok(Side::Open),
        _ => Ok(Side::At(whole_within(word, FAR)?)),
    }
}

/// The extent `LOW..HIGH` that a word is.
fn extent(word: &[u8]) -> Result<Extent, CaseFault> {
    match parted(word, b'.') {
        Some((low, [b'.', high @ ..])) => Ok(Extent {
            low: side(low)?,
            high: side(high)?,
        }),
        _ => Err(CaseFault::Line),
    }
}

/// The box that a word is: `empty`, or its three extents as `LOW..HIGH,LOW..HIGH,LOW..HIGH`.
fn box_of(word: &[u8]) -> Result<Box3, CaseFault> {
    if word == b"empty".as_slice() {
        return Ok(Box3::Empty);
    }
    let (x, others) = parted(word, b',').ok_or(CaseFault::Line)?;
    let (y, z) = parted(others, b',').ok_or(CaseFault::Line)?;
    Ok(Box3::Span {
        x: extent(x)?,
        y: extent(y)?,
        z: extent(z)?,
    })
}

fn push_side(side: Side, out: &mut Shown) -> Result<(), CaseFault> {
    match side {
        Side::Open => push_text(b"*", out),
        Side::At(at) => push_number(at, out),
    }
}

fn push_extent(shown: Extent, out: &mut Shown) -> Result<(), CaseFault> {
    push_side(shown.low, out)?;
    push_text(b"..", out)?;
    push_side(shown.high, out)
}

/// Puts in a box as rows have it.
pub fn push_box(shown: &Box3, out: &mut Shown) -> Result<(), CaseFault> {
    match *shown {
        Box3::Empty => push_text(b"empty", out),
        Box3::Span { x, y, z } => {
            push_extent(x, out)?;
            push_text(b",", out)?;
            push_extent(y, out)?;
            push_text(b",", out)?;
            push_extent(z, out)
        }
    }
}

/// `hull BOX BOX => BOX`
pub fn answer_hull(words: &mut Words, out: &mut Shown) -> Result<(), CaseFault> {
    let (a, b) = (box_of(words.next())?, box_of(words.next())?);
    push_box(&hull(&a, &b), out)
}

/// `meet BOX BOX => BOX`
pub fn answer_meet(words: &mut Words, out: &mut Shown) -> Result<(), CaseFault> {
    let (a, b) = (box_of(words.next())?, box_of(words.next())?);
    push_box(&meet(&a, &b), out)
}

/// `box_meets_ray BOX RAY => yes` or `no`
pub fn answer_box_meets_ray(words: &mut Words, out: &mut Shown) -> Result<(), CaseFault> {
    let space = box_of(words.next())?;
    let ray = words.ray();
    let answer: &[u8] = if box_meets_ray(&space, &ray) {
        b"yes"
    } else {
        b"no"
    };
    push_text(answer, out)
}

/// The index of the boxes that are next.
fn index_of(alloc: Global, words: &mut Words) -> Result<BoxIndex, CaseFault> {
    let mut boxes = Vec::new(alloc);
    for word in words_of(alloc, words.all())? {
        boxes.push(box_of(word)?)?;
    }
    if boxes.len() > MOST_BOXES {
        return Err(CaseFault::Line);
    }
    Ok(BoxIndex::build(alloc, boxes)?)
}

fn push_places(places: &[u32], out: &mut Shown) {
    for place in places {
        if !out.is_empty() {
            out.put_byte(b' ');
        }
        out.put_number(*place);
    }
}

/// `boxes_on_ray RAY BOX .. => PLACES`, those of the boxes that the ray meets, counted from 0, by an index of all
pub fn answer_boxes_on_ray(
    alloc: Global,
    words: &mut Words,
    out: &mut Shown,
) -> Result<(), CaseFault> {
    let ray = words.ray();
    let mut places = Vec::new(alloc);
    index_of(alloc, words)?.meets_ray(&ray, &mut places)?;
    push_places(&places, out);
    Ok(())
}

/// `boxes_on_slant RAY BOX .. => PLACES`, those of the boxes that the ray in a lattice direction meets, by an index of all
pub fn answer_boxes_on_slant(
    alloc: Global,
    words: &mut Words,
    out: &mut Shown,
) -> Result<(), CaseFault> {
    let ray = words.slant_ray()?;
    let mut places = Vec::new(alloc);
    index_of(alloc, words)?.meets_slant(&ray, &mut places)?;
    push_places(&places, out);
    Ok(())
}
