//! The pixel of a ray, and rows of pixels.

ghost use Rattle.std.specs.Prelude.{◌≡◌, ◌<◌, ◌≤◌, ◌+◌, ◌*◌, ◌++◌, ◌∷◌, [], IfOk, IfSome, length};
ghost use Rattle.std.specs.Option.{option_map};
ghost use Rattle.lattice_core.specs.declared.limit.TheConstants.{WORLD};
ghost use Rattle.lattice_core.specs.Limits.{IsWithin};
ghost use Rattle.lattice_core.specs.Views.{IsChecked};
ghost use Rattle.lattice_core.specs.Tiles.{IsPartOf};
ghost use Rattle.ppm_write.specs.Pictures.{row_bytes, block_bytes};
ghost use Rattle.shot_core.specs.FirstShots.{IsOrderOf, first_seen, seen_of};
ghost use Rattle.tile_shot.specs.Pixels.{shaded_part, shaded, pixel_of, parts_of};
ghost use Rattle.tile_shot.specs.Steps.{seen_colour};

use first_hit::{Scratch, shoot_first};
use lattice_core::{Ray, TileSpan, View};
use memory_core::Memory;
use region_attr::Rgb;
use shot_core::{Scene, Seen};
use std::alloc::Global;

const BLACK: Rgb = Rgb { r: 0, g: 0, b: 0 };

/// A part of a colour at a brightness, rounded down.
fn shaded_part(level: u8, part: u8) -> u8
    ensures { result ≡ shaded_part level part }
{
    (u32::from(part) * u32::from(level) / 255) as u8
}

fn shaded(level: u8, colour: Rgb) -> Rgb
    ensures { result ≡ shaded level colour }
{
    Rgb {
        r: shaded_part(level, colour.r),
        g: shaded_part(level, colour.g),
        b: shaded_part(level, colour.b),
    }
}

/// The colour of what a ray met.
fn colour_of(scene: &Scene, seen: Option<Seen>) -> Rgb
    requires { IfSome seen (λ s. s.region < length scene.now) }
    ensures { result ≡ seen_colour scene.now seen }
{
    match seen {
        Some(seen) => {
            let body = scene.regions()[seen.region as usize].body();
            shaded(seen.level, body.rgb())
        }
        None => BLACK,
    }
}

/// The pixel of a ray.
fn pixel(scene: &Scene, order: &[u32], ray: &Ray, scratch: &mut Scratch) -> Result<Rgb, Memory>
    requires order { IsOrderOf (length scene.now) order.now }
    requires origin { IsWithin WORLD ray.now.origin }
    ensures { IfOk result (λ c. c ≡ pixel_of scene.now ray.now) }
{
    let seen = shoot_first(scene, order, ray, scratch)?;
    Ok(colour_of(scene, seen))
}

fn push_colour(bytes: &mut Vec<u8>, colour: Rgb) -> Result<(), Memory>
    ensures { IfOk result (λ _. bytes.new.items ≡ bytes.old.items ++ (colour.r ∷ colour.g ∷ colour.b ∷ [])) }
{
    bytes.push(colour.r)?;
    bytes.push(colour.g)?;
    bytes.push(colour.b)?;
    Ok(())
}

/// Puts the pixels of a row of a span at the end of a list.
fn push_row(
    bytes: &mut Vec<u8>,
    scene: &Scene,
    order: &[u32],
    view: &View,
    span: TileSpan,
    row: u32,
    scratch: &mut Scratch,
) -> Result<(), Memory>
    requires order { IsOrderOf (length scene.now) order.now }
    requires view { IsChecked view.now }
    requires span { IsPartOf span view.now }
    requires row { row < view.now.h }
    ensures { IfOk result (λ _. bytes.new.items ≡ bytes.old.items ++ row_bytes (parts_of scene.now view.now) span.column span.w row) }
{
    for across in 0..span.w {
        let ray = view.ray(span.column + across, row);
        let colour = pixel(scene, order, &ray, scratch)?;
        push_colour(bytes, colour)?;
    }
    Ok(())
}

/// The pixels of a span of a view, row by row.
pub(crate) fn pixels(
    alloc: Global,
    scene: &Scene,
    order: &[u32],
    view: &View,
    span: TileSpan,
) -> Result<Vec<u8>, Memory>
    requires order { IsOrderOf (length scene.now) order.now }
    requires view { IsChecked view.now }
    requires span { IsPartOf span view.now }
    ensures { IfOk result (λ bytes. bytes.items ≡ block_bytes (parts_of scene.now view.now) span) }
{
    let mut scratch = Scratch::new(alloc);
    let mut bytes = Vec::with_capacity(alloc, 3 * (span.w * span.h) as usize)?;
    for down in 0..span.h {
        let row = span.row + down;
        push_row(&mut bytes, scene, order, view, span, row, &mut scratch)?;
    }
    Ok(bytes)
}
