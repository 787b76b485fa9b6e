//! What the pixels of a view present: the areas of regions, and the edges between them.
ghost use Rattle.std.specs.Prelude.{◌≡◌, ◌≤◌, ◌+◌, ◌*◌, ◌∷◌, [], All, Ok, IfOk, length};
ghost use Rattle.std.specs.Arc.{arc_value};
ghost use Rattle.transcript.specs.Lines.{Lacks};
ghost use Rattle.lattice_core.specs.Views.{IsChecked};
ghost use Rattle.area_tool.specs.Presented.{presented_in, view_presents};
ghost use Rattle.edge_tool.specs.Edges.{edge_bytes, edge_count};
ghost use Rattle.ppm_write.specs.Pictures.{header_text};
ghost use Rattle.session_run.specs.Replies.{edge_line, edged, lines_alone, lines_of_areas, most_used, within_quota};

use crate::answer::{Found, found_or_quota};
use crate::limit::MOST_USED;
use crate::picture::{Frame, push_count};
use area_tool::{areas, present_laws, tile_laws};
use command_set::{CheckedView, Refusal};
use edge_tool::{edge_laws, edges};
use lattice_core::View;
use memory_core::Memory;
use name_core::Name;
use outside_core::Gate;
use ppm_write::{HeaderText, header};
use report_text::{Body, area_text};
use shot_core::Scene;
use std::alloc::Global;
use std::sync::Arc;
use std::thread::Threads;
use std::vec::Vec;
use view_shot::{Executor, pixel_bytes, present_view};

/// The greatest place of a scene's regions, or 0 where there is none.
fn greatest_place(scene: &Scene) -> u32
    ensures most { All (λ r. r.place ≤ result) scene.now }
    ensures least { All (λ r. 1 ≤ r.place) scene.now }
{
    let regions = scene.regions();
    let count = regions.len();
    if count == 0 {
        return 0;
    }
    regions[count - 1].place()
}

/// A line for each region of a scene that some pixel of a view presents, with how many do, where there is room for them.
pub(crate) fn count_areas<R: Threads + Sync, G: Gate + Sync>(
    executor: &Executor<R, G>,
    alloc: Global,
    scene: &Arc<Scene>,
    used: u64,
    view: &CheckedView,
) -> Result<Result<Found, Refusal>, Memory>
    requires { used ≤ most_used }
    ensures { IfOk result (λ outcome. outcome ≡ within_quota used (Ok (lines_alone (lines_of_areas (arc_value scene.now) view.now)))) }
{
    present_laws();
    let all = present_view(executor, alloc, scene, &view.view())?;
    let counts = areas(alloc, &all, greatest_place(scene))?;
    found_or_quota(area_text(alloc, scene, &counts, MOST_USED - used))
}

/// The pixels of a picture of edges, three bytes each, and how many of them are white.
#[derive(Drop)]
struct Drawn {
    pixels: Vec<u8>,
    white: u32,
}

/// The edges of a scene on the pixels of a view, by what all of them present.
fn edges_of(alloc: Global, scene: &Scene, all: &[u32], view: &View) -> Result<Drawn, Memory>
    requires view { IsChecked view.now }
    requires all { all.now ≡ view_presents scene.now view.now }
    ensures pixels { IfOk result (λ drawn. drawn.pixels.items ≡ edge_bytes view.now (presented_in scene.now view.now)) }
    ensures white { IfOk result (λ drawn. drawn.white ≡ edge_count view.now (presented_in scene.now view.now)) }
{
    tile_laws();
    edge_laws();
    let mut pixels = vec![in alloc; 0; pixel_bytes(view) as usize]?;
    let white = edges(view, all, &mut pixels);
    Ok(Drawn { pixels, white })
}

/// The line of a picture of edges of which so many pixels are white.
fn edge_line(alloc: Global, file: &Name, view: &View, white: u32) -> Result<Vec<u8>, Memory>
    ensures value { IfOk result (λ line. line.items ≡ edge_line file.now view.now white) }
    ensures one_line { IfOk result (λ _. Lacks 10 (edge_line file.now view.now white)) }
{
    let name = file.bytes();
    let mut line = Vec::new(alloc);
    line.extend_from_slice(b"edges ")?;
    line.extend_from_slice(name)?;
    push_count(&mut line, b" ", view.w)?;
    push_count(&mut line, b" ", view.h)?;
    push_count(&mut line, b" white ", white)?;
    Ok(line)
}

fn edge_body(alloc: Global, file: &Name, view: &View, white: u32) -> Result<Body, Memory>
    ensures { IfOk result (λ body. body ≡ edge_line file.now view.now white ∷ []) }
{
    let line = edge_line(alloc, file, view, white)?;
    let mut body = Body::new(alloc);
    body.push_line(&line)?;
    Ok(body)
}

/// The bytes of the file of a picture of a view.
fn file_bytes(view: &View) -> u64
    requires { IsChecked view.now }
    ensures { result ≡ length (header_text view.now.w view.now.h) + 3 * (view.now.w * view.now.h) }
{
    let mut head = HeaderText::new();
    header(view.w, view.h, &mut head);
    head.bytes().len() as u64 + u64::from(pixel_bytes(view))
}

/// The picture of the edges of a scene, where there is room for it. That there is room for its file is known before anything is
/// shot.
pub(crate) fn draw_edges<R: Threads + Sync, G: Gate + Sync>(
    executor: &Executor<R, G>,
    alloc: Global,
    scene: &Arc<Scene>,
    used: u64,
    file: &Name,
    view: &CheckedView,
) -> Result<Result<Found, Refusal>, Memory>
    requires { used ≤ most_used }
    ensures { IfOk result (λ outcome. outcome ≡ within_quota used (Ok (edged (arc_value scene.now) file.now view.now))) }
{
    let view = view.view();
    let size = file_bytes(&view);
    let room = MOST_USED - used;
    if room < size {
        return Ok(Err(Refusal::Quota));
    }
    let all = present_view(executor, alloc, scene, &view)?;
    let drawn = edges_of(alloc, scene, &all, &view)?;
    let body = edge_body(alloc, file, &view, drawn.white)?;
    let lines = body.text().len() as u64;
    if room - size < lines {
        return Ok(Err(Refusal::Quota));
    }
    let file = *file;
    let frame = Frame { body, file, view };
    Ok(Ok(frame.filled(alloc, &drawn.pixels)?))
}
