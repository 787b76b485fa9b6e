//! Solids, put at the end of a line.
ghost use Rattle.std.specs.Prelude.{◌≡◌, ◌++◌, OnOk, codes};
ghost use Rattle.word_values.specs.Kinds.{coordinate_kind, normal_kind};
ghost use Rattle.put_form.specs.Written.{vertices_text, solid_text};
ghost use Rattle.put_form.specs.WritingSteps.{keyed_text, rcc_text, vertex_text};

use crate::write_number::{push_length, push_number, push_vector};
use lattice_core::V3;
use memory_core::Memory;
use solid_set::Solid;
use word_values::{NumberKind, coordinate_kind, normal_kind};

/// Puts a vertex and its number, as `V1 {0 0 5}` after a blank, at the end of the line.
fn push_vertex(line: &mut Vec<u8>, number: usize, vertex: V3) -> Result<(), Memory>
    ensures { OnOk result (line.new.items ≡ line.old.items ++ vertex_text number vertex) }
{
    line.extend_from_slice(b" V")?;
    push_number(line, number)?;
    line.push(b' ')?;
    push_vector(line, coordinate_kind(), vertex)
}

/// Puts the vertices, numbered from 1, at the end of the line.
fn push_vertices(line: &mut Vec<u8>, vertices: &[V3]) -> Result<(), Memory>
    ensures { OnOk result (line.new.items ≡ line.old.items ++ vertices_text 1 vertices.now) }
{
    for (i, vertex) in vertices.iter().enumerate() {
        push_vertex(line, i + 1, *vertex)?;
    }
    Ok(())
}

/// Puts a vector of a kind and a length, each with its key before it, at the end of the line.
fn push_keyed(
    line: &mut Vec<u8>,
    before: &[u8],
    kind: NumberKind,
    vector: V3,
    between: &[u8],
    length: i64,
) -> Result<(), Memory>
    ensures { OnOk result (line.new.items ≡ line.old.items ++ keyed_text before.now kind vector between.now length) }
{
    line.extend_from_slice(before)?;
    push_vector(line, kind, vector)?;
    line.extend_from_slice(between)?;
    push_length(line, length)
}

fn push_sphere(line: &mut Vec<u8>, centre: V3, radius: i64) -> Result<(), Memory>
    ensures { OnOk result (line.new.items ≡ line.old.items ++ keyed_text (codes "sph V ") coordinate_kind centre (codes " r ") radius) }
{
    push_keyed(line, b"sph V ", coordinate_kind(), centre, b" r ", radius)
}

fn push_half(line: &mut Vec<u8>, normal: V3, distance: i64) -> Result<(), Memory>
    ensures { OnOk result (line.new.items ≡ line.old.items ++ keyed_text (codes "half N ") normal_kind normal (codes " d ") distance) }
{
    push_keyed(line, b"half N ", normal_kind(), normal, b" d ", distance)
}

fn push_rcc(line: &mut Vec<u8>, base: V3, height: V3, radius: i64) -> Result<(), Memory>
    ensures { OnOk result (line.new.items ≡ line.old.items ++ rcc_text base height radius) }
{
    line.extend_from_slice(b"rcc V ")?;
    push_vector(line, coordinate_kind(), base)?;
    push_keyed(line, b" H ", coordinate_kind(), height, b" r ", radius)
}

fn push_arb8(line: &mut Vec<u8>, vertices: &[V3]) -> Result<(), Memory>
    ensures { OnOk result (line.new.items ≡ line.old.items ++ (codes "arb8" ++ vertices_text 1 vertices.now)) }
{
    line.extend_from_slice(b"arb8")?;
    push_vertices(line, vertices)
}

pub(crate) fn push_solid(line: &mut Vec<u8>, solid: &Solid) -> Result<(), Memory>
    ensures { OnOk result (line.new.items ≡ line.old.items ++ solid_text solid.now) }
{
    match solid {
        Solid::Sphere(sphere) => push_sphere(line, sphere.centre(), sphere.radius()),
        Solid::Half(half) => push_half(line, half.normal(), half.distance()),
        Solid::Arb8(arb8) => push_arb8(line, &arb8.vertices()),
        Solid::Rcc(rcc) => push_rcc(line, rcc.base(), rcc.height(), rcc.radius()),
    }
}
