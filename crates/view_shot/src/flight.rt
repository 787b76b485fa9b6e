//! Pictures and checks in flight: their tiles are posted to a pool, and gathered later.
ghost use Rattle.std.specs.Prelude.{◌≡◌, ◌≤◌, ◌<◌, IfOk, IfErr, OnErr, OnOk, All, length, map, vec_len};
ghost use Rattle.std.specs.Arc.{arc_value};
ghost use Rattle.lattice_core.specs.Views.{IsChecked};
ghost use Rattle.lattice_core.specs.Tiles.{tiles_of};
ghost use Rattle.overlap_list.specs.declared.overlap.TheConstants.{MOST_PAIRS};
ghost use Rattle.overlap_list.specs.Overlaps.{IsTooMany};
ghost use Rattle.outside_core.specs.declared.gate.GateEvent.TheVariants.{TileBegin};
ghost use Rattle.tile_shot.specs.Pixels.{view_bytes};
ghost use Rattle.tile_shot.specs.Reports.{view_report};
ghost use Rattle.view_shot.specs.Flights.{HasPairs, IsOfCheck, IsOfPicture, IsTile, of_check_prop, of_picture_prop, pieces_of, posted_of};
ghost use Rattle.view_shot.specs.Kept.{IsPartWay, after_picture, tile_names};
ghost use Rattle.view_shot.specs.Steps.{if_kept};
ghost use Rattle.view_shot.specs.declared.work.Shot.TheVariants.{Pairs as PairsShot, Tile as IsTileShot};

use crate::check::{check_behind, first_job};
use crate::executor::Executor;
use crate::kept::{KeptTiles, SharedTile};
use crate::named::SharedPairs;
use crate::picture::{join_view, lacking_job};
use crate::plan::Plan;
use crate::work::{Shot, Work};
use lattice_core::View;
use memory_core::Memory;
use outside_core::{Gate, GateEvent};
use overlap_list::CheckFault;
use shot_core::{Pair, Scene};
use std::alloc::Global;
use std::sync::{Arc, Wait};
use std::thread::Threads;
use std::vec::Vec;
use tile_pool::{Ticket, TilePool};
use tile_workers::Job;

/// A gate that is told of each tile of a session's command before it is shot.
#[derive(Drop)]
pub struct Teller<'a, G> {
    pub gate: &'a G,
    /// The session, of which the gate is told.
    pub session: u8,
    /// The number of its command, of which the gate is told.
    pub command: u32,
}

/// The tiles of a picture or a check that a pool's threads shoot. Each tells the gate first that its tile begins.
#[derive(Drop)]
pub struct FlightJob<'a, G> {
    teller: Teller<'a, G>,
    work: Work,
}

impl<'a, G: Gate> FlightJob<'a, G> {
    /// Tells the gate that the tile of a piece begins.
    fn tell(&self, i: u32)
        requires { i < pieces_of self.now.work }
    {
        self.teller.gate.at(GateEvent::TileBegin {
            session: self.teller.session,
            command: self.teller.command,
            tile: self.work.tile(i),
        });
    }
}

impl<'a, G: Gate + Sync> Job for FlightJob<'a, G> {
    ghost use Rattle.view_shot.specs.Flights.{GivesShot, NamesShot, pieces_of, tile_of};

    type Out = Shot;

    ghost pieces = { λ job. pieces_of job.work };

    ghost tiles = { λ job. tile_of job.work };

    ghost gives = { λ job. GivesShot job.work };

    ghost names = { λ job. NamesShot job.work };

    fn count(&self) -> u32 {
        self.work.count()
    }

    fn tile(&self, i: u32) -> u32 {
        self.work.tile(i)
    }

    fn run(&self, alloc: Global, i: u32) -> Result<Shot, Memory> {
        self.tell(i);
        self.work.run(alloc, i)
    }

    fn again(&self, alloc: Global, i: u32, out: &Shot) -> Result<Option<Shot>, Memory> {
        self.work.again(alloc, i, out)
    }
}

/// A picture in flight.
#[derive(Drop)]
pub struct PictureFlight<'a, G: Gate + Sync> {
    pub(crate) scene: Arc<Scene>,
    pub(crate) view: View,
    pub(crate) plan: Plan,
    ticket: Ticket<FlightJob<'a, G>>,
    pub(crate) ghost checked: { IsChecked view },
    pub(crate) ghost posted: { IsOfPicture (arc_value scene) view plan.names.items ticket.work } by { of_picture_prop (arc_value scene) view plan.names.items ticket.work },
}

/// Puts the tiles that a plan lacks into flight, and shoots none of them. `Memory` where there is none for the job.
pub fn post_view<'a, R: Wait, G: Gate + Sync>(
    pool: &TilePool<FlightJob<'a, G>>,
    rt: &R,
    alloc: Global,
    teller: Teller<'a, G>,
    scene: &Arc<Scene>,
    view: &View,
    plan: Plan,
) -> Result<PictureFlight<'a, G>, Memory>
    requires view { IsChecked view.now }
    requires plan { length plan.names.items ≡ tiles_of view.now }
    ensures scene { IfOk result (λ flight. arc_value flight.scene ≡ arc_value scene.now) }
    ensures view { IfOk result (λ flight. flight.view ≡ view.now) }
    ensures plan { IfOk result (λ flight. flight.plan.names.items ≡ plan.names.items) }
{
    let work = Work::Picture(lacking_job(alloc, scene, view, &plan)?);
    let job = Arc::new(alloc, FlightJob { teller, work })?;
    let scene = scene.clone()?;
    let ticket = pool.post(rt, alloc, job)?;
    Ok(PictureFlight {
        scene,
        view: *view,
        plan,
        ticket,
    })
}

/// The tiles that were shot, in their order.
fn into_tiles(alloc: Global, shots: Vec<Shot>) -> Result<Vec<SharedTile>, Memory>
    requires { All IsTile shots.items }
    ensures { IfOk result (λ tiles. map IsTileShot tiles.items ≡ shots.items) }
{
    let mut tiles = Vec::new(alloc);
    for shot in shots {
        tiles.push(shot.into_tile())?;
    }
    Ok(tiles)
}

/// The pixels of a view that is in flight, row by row from the top, as `shoot_view` gives them, by the plan with which it was
/// posted. The calling thread shoots the tiles that no thread of the pool has shot. Where there is no memory, so much is kept as
/// after `shoot_view`.
pub fn gather_view<'a, G: Gate + Sync>(
    pool: &TilePool<FlightJob<'a, G>>,
    alloc: Global,
    flight: PictureFlight<'a, G>,
    kept: &mut KeptTiles,
) -> Result<Vec<u8>, Memory>
    requires { flight.plan.names.items ≡ map (if_kept kept.old) (tile_names (arc_value flight.scene) flight.view) }
    ensures pixels { IfOk result (λ picture. picture.items ≡ view_bytes (arc_value flight.entry.scene) flight.entry.view) }
    ensures kept { OnOk result (kept.new ≡ after_picture kept.old (tile_names (arc_value flight.entry.scene) flight.entry.view)) }
    ensures memory { OnErr result (IsPartWay kept.old (tile_names (arc_value flight.entry.scene) flight.entry.view) kept.new) }
{
    let PictureFlight {
        scene,
        view,
        plan,
        ticket,
    } = flight;
    let shots = pool.gather(alloc, ticket)?;
    let tiles = into_tiles(alloc, shots)?;
    join_view(alloc, &scene, &view, &plan, &tiles, kept)
}

/// A check in flight: the first of its tiles.
#[derive(Drop)]
pub struct CheckFlight<'a, G: Gate + Sync> {
    pub(crate) scene: Arc<Scene>,
    pub(crate) view: View,
    /// How many tiles were posted.
    pub(crate) count: u32,
    ticket: Ticket<FlightJob<'a, G>>,
    pub(crate) ghost checked: { IsChecked view },
    pub(crate) ghost posted: { IsOfCheck (arc_value scene) view count ticket.work } by { of_check_prop (arc_value scene) view count ticket.work },
    pub(crate) ghost first: { count ≡ posted_of view },
}

/// Puts the first tiles of a check into flight, and shoots none of them. `Memory` where there is none for the job.
pub fn post_check<'a, R: Wait, G: Gate + Sync>(
    pool: &TilePool<FlightJob<'a, G>>,
    rt: &R,
    alloc: Global,
    teller: Teller<'a, G>,
    scene: &Arc<Scene>,
    view: &View,
) -> Result<CheckFlight<'a, G>, Memory>
    requires view { IsChecked view.now }
    ensures scene { IfOk result (λ flight. arc_value flight.scene ≡ arc_value scene.now) }
    ensures view { IfOk result (λ flight. flight.view ≡ view.now) }
    ensures count { IfOk result (λ flight. flight.count ≡ posted_of view.now) }
{
    let tiles = first_job(scene, view)?;
    let count = tiles.count;
    let work = Work::Check(tiles);
    let job = Arc::new(alloc, FlightJob { teller, work })?;
    let scene = scene.clone()?;
    let ticket = pool.post(rt, alloc, job)?;
    Ok(CheckFlight {
        scene,
        view: *view,
        count,
        ticket,
    })
}

/// The pairs that were shot, in their order.
fn into_pairs(alloc: Global, shots: Vec<Shot>) -> Result<Vec<SharedPairs>, Memory>
    requires { All HasPairs shots.items }
    ensures { IfOk result (λ pairs. map PairsShot pairs.items ≡ shots.items) }
{
    let mut pairs = Vec::new(alloc);
    for shot in shots {
        pairs.push(shot.into_pairs())?;
    }
    Ok(pairs)
}

/// The overlaps on all rays of a view whose check is in flight, as `check_view` gives them. The calling thread shoots the
/// first tiles that no thread of the pool has shot, and the executor those behind them. `TooMany` comes exactly where there are
/// over `MOST_PAIRS` of them.
pub fn gather_check<'a, R: Threads + Sync, G: Gate + Sync>(
    pool: &TilePool<FlightJob<'a, G>>,
    executor: &Executor<R, G>,
    alloc: Global,
    flight: CheckFlight<'a, G>,
) -> Result<Vec<Pair>, CheckFault>
    ensures pairs { IfOk result (λ report. report.items ≡ view_report (arc_value flight.entry.scene) flight.entry.view) }
    ensures most { IfOk result (λ v. length v.items ≤ MOST_PAIRS) }
    ensures fault { IfErr result (IsTooMany (length (view_report (arc_value flight.entry.scene) flight.entry.view))) }
{
    let CheckFlight {
        scene,
        view,
        count,
        ticket,
    } = flight;
    let Ok(shots) = pool.gather(alloc, ticket) else {
        return Err(CheckFault::Memory);
    };
    match into_pairs(alloc, shots) {
        Ok(pairs) => check_behind(executor, alloc, &scene, &view, count, &pairs),
        Err(_) => Err(CheckFault::Memory),
    }
}
