//! The pixels of a tile of a script's directory: its last command is a `nirt`, whose ray is that of the view's first pixel.

ghost use Rattle.std.specs.Prelude.{IfOk};
ghost use Rattle.lattice_core.specs.Views.{IsChecked};

use crate::scenes::put_fault;
use crate::scripts::{commands_of, directory_by};
use crate::texts::{number_in, number_of, put_number, three_fields, three_words};
use case_text::{CaseFault, Shown};
use command_set::{Command, Query, WorldRay};
use directory::Directory;
use lattice_core::View;
use name_core::Name;
use scene_prep::prepare;
use std::alloc::Global;
use tile_shot::shoot_tile;

/// The size of a view, and the number of a tile.
#[derive(Clone, Copy)]
struct Frame {
    w: u32,
    h: u32,
    cell: u32,
    tile: u32,
}

fn frame_of(alloc: Global, size: &[u8], tile: &[u8]) -> Result<Frame, CaseFault> {
    let (w, h, cell) = three_words(alloc, size)?;
    Ok(Frame {
        w: number_in(w)?,
        h: number_in(h)?,
        cell: number_in(cell)?,
        tile: number_of(alloc, tile)?,
    })
}

/// The view whose first ray is that one.
fn view_of(frame: Frame, ray: &WorldRay) -> Result<View, CaseFault>
    ensures { IfOk result IsChecked }
{
    if frame.cell > 1_000_000 {
        return Err(CaseFault::Number);
    }
    let first = ray.ray();
    let view = View {
        corner: first.origin,
        dir: first.dir,
        cell: i64::from(frame.cell),
        w: frame.w,
        h: frame.h,
    };
    match view.check() {
        Ok(()) => Ok(view),
        Err(_) => Err(CaseFault::Number),
    }
}

/// Puts in bytes, each pixel as `RED GREEN BLUE`.
fn put_pixels(bytes: &[u8], out: &mut Shown) {
    for (i, byte) in bytes.iter().enumerate() {
        let before: &[u8] = match i % 3 {
            0 if i > 0 => b", ",
            0 => b"",
            _ => b" ",
        };
        put_number(out, before, u64::from(*byte));
    }
}

/// Puts in the pixels of a tile of the scene of names.
fn put_tile(
    alloc: Global,
    frame: Frame,
    directory: &Directory,
    ray: &WorldRay,
    names: &[Name],
    out: &mut Shown,
) -> Result<(), CaseFault> {
    let scene = match prepare(alloc, directory, names) {
        Ok(scene) => scene,
        Err(fault) => return put_fault(&fault, out),
    };
    let view = view_of(frame, ray)?;
    if frame.tile >= view.tiles() {
        return Err(CaseFault::Number);
    }
    let tile = shoot_tile(alloc, &scene, &view, frame.tile)?;
    put_pixels(tile.bytes(), out);
    Ok(())
}

/// Puts in a tile of the view that a command's ray begins.
fn put_view(
    alloc: Global,
    frame: Frame,
    directory: &Directory,
    command: &Command,
    out: &mut Shown,
) -> Result<(), CaseFault> {
    match command {
        Command::Query(Query::Shot { ray, names }) => {
            put_tile(alloc, frame, directory, ray, names.items(), out)
        }
        _ => Err(CaseFault::Line),
    }
}

/// `tile W H CELL | TILE | SCRIPT => RED GREEN BLUE, ..`: the pixels of a tile of a view of so many columns and rows, whose
/// first ray is that of the last command.
pub fn answer_tile(alloc: Global, given: &[u8], out: &mut Shown) -> Result<(), CaseFault> {
    let (size, tile, script) = three_fields(given)?;
    let frame = frame_of(alloc, size, tile)?;
    let commands = commands_of(alloc, script)?;
    let Some((last, edits)) = commands.items().split_last() else {
        return Err(CaseFault::Line);
    };
    let directory = directory_by(alloc, edits)?;
    put_view(alloc, frame, &directory, &last.command, out)
}
