//! The picture of a scene.
ghost use Rattle.std.specs.Prelude.{◌≡◌, ◌≤◌, ◌<◌, ◌+◌, ◌^◌, ◌++◌, ◌∷◌, [], Ok, Err, IfOk, MatchResult, OnOk, decimal, length, map};
ghost use Rattle.std.specs.Arc.{arc_value};
ghost use Rattle.transcript.specs.Lines.{Lacks};
ghost use Rattle.lattice_core.specs.Views.{IsChecked};
ghost use Rattle.lattice_core.specs.Tiles.{tiles_of};
ghost use Rattle.view_shot.specs.Kept.{after_picture, tile_names};
ghost use Rattle.tile_shot.specs.Pixels.{view_bytes};
ghost use Rattle.session_run.specs.Replies.{most_used, within_quota, picture_line, pictured, tiles_by};
ghost use Rattle.session_run.specs.Pictures.{IsFlightOf, IsPlan, framed, picture_outcome};
ghost use Rattle.view_shot.specs.Steps.{if_kept};

use crate::answer::Found;
use crate::limit::MOST_USED;
use command_set::{CheckedView, Refusal};
use fixed_text::FixedText;
use item_list::Items;
use lattice_core::View;
use memory_core::Memory;
use name_core::Name;
use outside_core::{File, Gate};
use ppm_write::{HeaderText, header, tiles_make_the_picture};
use report_text::Body;
use shot_core::Scene;
use std::alloc::Global;
use std::sync::{Arc, Wait};
use std::thread::Threads;
use std::vec::Vec;
use tile_pool::TilePool;
use view_shot::{
    Executor, FlightJob, KeptTiles, PictureFlight, Plan, Teller, gather_view, pixel_bytes,
    plan_view, post_view, shoot_view,
};

/// The digits of a number.
type NumberText = FixedText<16>;

/// Puts a word and a number at the end of a line.
pub(crate) fn push_count(line: &mut Vec<u8>, word: &[u8], count: u32) -> Result<(), Memory>
    ensures { OnOk result (line.new.items ≡ line.old.items ++ (word.now ++ decimal count)) }
{
    let mut text = NumberText::new();
    text.push_number(count);
    line.extend_from_slice(word)?;
    line.extend_from_slice(text.bytes())?;
    Ok(())
}

/// The line of a picture of which so many tiles are shot and so many reused.
fn picture_line(
    alloc: Global,
    file: &Name,
    view: &View,
    shot: u32,
    reused: u32,
) -> Result<Vec<u8>, Memory>
    requires { IsChecked view.now }
    ensures value { IfOk result (λ line. line.items ≡ picture_line file.now view.now shot reused) }
    ensures one_line { IfOk result (λ _. Lacks 10 (picture_line file.now view.now shot reused)) }
{
    let name = file.bytes();
    let mut line = Vec::new(alloc);
    line.extend_from_slice(b"picture ")?;
    line.extend_from_slice(name)?;
    push_count(&mut line, b" ", view.w)?;
    push_count(&mut line, b" ", view.h)?;
    push_count(&mut line, b" tiles ", view.tiles())?;
    push_count(&mut line, b" shot ", shot)?;
    push_count(&mut line, b" reused ", reused)?;
    Ok(line)
}

fn picture_body(
    alloc: Global,
    file: &Name,
    view: &View,
    shot: u32,
    reused: u32,
) -> Result<Body, Memory>
    requires { IsChecked view.now }
    ensures { IfOk result (λ body. body ≡ picture_line file.now view.now shot reused ∷ []) }
{
    let line = picture_line(alloc, file, view, shot, reused)?;
    let mut body = Body::new(alloc);
    body.push_line(&line)?;
    Ok(body)
}

/// All of a picture's answer but its pixels: the line of its body, the name of its file, and its view.
#[derive(Drop)]
pub(crate) struct Frame {
    pub(crate) body: Body,
    pub(crate) file: Name,
    pub(crate) view: View,
}

impl Frame {
    /// The answer with the pixels.
    pub(crate) fn filled(self, alloc: Global, pixels: &[u8]) -> Result<Found, Memory>
        requires { IsChecked self.view }
        ensures { IfOk result (λ found. found ≡ framed self pixels.now) }
    {
        let Frame { body, file, view } = self;
        let mut text = HeaderText::new();
        header(view.w, view.h, &mut text);
        let head = text.bytes();
        let mut bytes = Vec::with_capacity(alloc, head.len() + pixels.len())?;
        bytes.extend_from_slice(head)?;
        bytes.extend_from_slice(pixels)?;
        let bytes = Items::of_vec(bytes);
        let file = Some(File { name: file, bytes });
        Ok(Found { body, file })
    }
}

/// A picture that is to be shot: which of its tiles are reused, and its answer but for the pixels.
#[derive(Drop)]
pub(crate) struct Planned {
    plan: Plan,
    frame: Frame,
}

/// How the picture of a scene is to be shot, where there is room for it. Nothing is moved or shot yet.
fn plan_picture(
    alloc: Global,
    scene: &Scene,
    used: u64,
    tiles: &KeptTiles,
    file: &Name,
    view: &CheckedView,
) -> Result<Result<Planned, Refusal>, Memory>
    requires { used ≤ most_used }
    ensures { IfOk result (λ planned. IsPlan used tiles.now scene.now file.now view.now planned) }
{
    let view = view.view();
    tiles_make_the_picture(&view);
    let plan = plan_view(alloc, scene, &view, tiles)?;
    let count = view.tiles();
    let reused = plan.reused();
    let body = picture_body(alloc, file, &view, count - reused, reused)?;
    let mut head = HeaderText::new();
    header(view.w, view.h, &mut head);
    let lines = body.text().len() as u64;
    let size = head.bytes().len() as u64 + u64::from(pixel_bytes(&view));
    let left = (MOST_USED - used).saturating_sub(lines);
    if left < size {
        return Ok(Err(Refusal::Quota));
    }
    let file = *file;
    let frame = Frame { body, file, view };
    Ok(Ok(Planned { plan, frame }))
}

/// The picture of a scene, where there is room for it. Its size is known before a tile is moved or shot.
pub(crate) fn shoot_picture<R: Threads + Sync, G: Gate + Sync>(
    executor: &Executor<R, G>,
    alloc: Global,
    scene: &Arc<Scene>,
    used: u64,
    tiles: &mut KeptTiles,
    file: &Name,
    view: &CheckedView,
) -> Result<Result<Found, Refusal>, Memory>
    requires { used ≤ most_used }
    ensures outcome { IfOk result (λ outcome. outcome ≡ within_quota used (Ok (pictured tiles.old (arc_value scene.now) file.now view.now))) }
    ensures tiles { IfOk result (λ outcome. tiles.new ≡ tiles_by outcome (after_picture tiles.old (tile_names (arc_value scene.now) view.now)) tiles.old) }
{
    let view_shown = view.view();
    match plan_picture(alloc, scene, used, tiles, file, view)? {
        Ok(planned) => {
            let Planned { plan, frame } = planned;
            let pixels = shoot_view(executor, alloc, scene, &view_shown, &plan, tiles)?;
            Ok(Ok(frame.filled(alloc, &pixels)?))
        }
        Err(refusal) => Ok(Err(refusal)),
    }
}

/// A picture in flight, with its answer but for the pixels.
#[derive(Drop)]
pub(crate) struct FlyingPicture<'a, G: Gate + Sync> {
    flight: PictureFlight<'a, G>,
    frame: Frame,
}

/// Puts the picture of a scene into flight, where there is room for it. Nothing is moved or shot yet.
pub(crate) fn post_picture<'a, R: Wait, G: Gate + Sync>(
    pool: &TilePool<FlightJob<'a, G>>,
    rt: &R,
    alloc: Global,
    teller: Teller<'a, G>,
    scene: &Arc<Scene>,
    used: u64,
    tiles: &KeptTiles,
    file: &Name,
    view: &CheckedView,
) -> Result<Result<FlyingPicture<'a, G>, Refusal>, Memory>
    requires { used ≤ most_used }
    ensures { IfOk result (λ posted. MatchResult posted (λ flying. IsFlightOf used tiles.now (arc_value scene.now) file.now view.now (arc_value flying.flight.scene) flying.flight.view flying.flight.plan.names.items flying.frame) (λ refusal. Err refusal ≡ picture_outcome used tiles.now (arc_value scene.now) file.now view.now)) }
{
    let shown = view.view();
    match plan_picture(alloc, scene, used, tiles, file, view)? {
        Ok(planned) => {
            let Planned { plan, frame } = planned;
            let flight = post_view(pool, rt, alloc, teller, scene, &shown, plan)?;
            Ok(Ok(FlyingPicture { flight, frame }))
        }
        Err(refusal) => Ok(Err(refusal)),
    }
}

impl<'a, G: Gate + Sync> FlyingPicture<'a, G> {
    /// The picture, whose tiles that were shot are kept from now on.
    pub(crate) fn gather(
        self,
        pool: &TilePool<FlightJob<'a, G>>,
        alloc: Global,
        tiles: &mut KeptTiles,
    ) -> Result<Found, Memory>
        requires plan { self.flight.plan.names.items ≡ map (if_kept tiles.old) (tile_names (arc_value self.flight.scene) self.flight.view) }
        requires view { self.frame.view ≡ self.flight.view }
        ensures found { IfOk result (λ found. found ≡ framed self.entry.frame (view_bytes (arc_value self.entry.flight.scene) self.entry.flight.view)) }
        ensures tiles { OnOk result (tiles.new ≡ after_picture tiles.old (tile_names (arc_value self.entry.flight.scene) self.entry.flight.view)) }
    {
        let FlyingPicture { flight, frame } = self;
        let pixels = gather_view(pool, alloc, flight, tiles)?;
        frame.filled(alloc, &pixels)
    }
}
