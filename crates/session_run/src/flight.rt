//! A picture or a check in flight, and what its command is answered once it is gathered.
ghost use Rattle.std.specs.Prelude.{◌≡◌, ◌≤◌, ℕ, List, Err, IfOk, MatchResult, true};
ghost use Rattle.std.specs.Arc.{arc_value};
ghost use Rattle.name_core.specs.declared.name.Name.{Name as AnyName};
ghost use Rattle.command_set.specs.declared.command.Command.TheVariants.{Shoot as IsShoot};
ghost use Rattle.command_set.specs.declared.command.Shoot.TheVariants.{Check as IsCheck, Picture as IsPicture};
ghost use Rattle.directory.specs.Walks.{Entries};
ghost use Rattle.scene_prep.specs.Outcomes.{IsSceneOf, prep_fault};
ghost use Rattle.session_run.specs.Flights.{Flies, IsLook, IsShooting, does_fly};
ghost use Rattle.session_run.specs.Kept.{IsCurrent};
ghost use Rattle.session_run.specs.Replies.{forgotten, found_unless, most_used, outcome_of, tiles_by, tiles_with, within_quota};
ghost use Rattle.session_run.specs.declared.answer.Found.{Found as AnyFound};

use crate::answer::{Answer, Found, Own, used_with};
use crate::check::told_pairs;
use crate::keep::Keep;
use crate::picture::{FlyingPicture, post_picture};
use command_set::{CheckedView, Command, Refusal, Shoot};
use directory::Directory;
use memory_core::Memory;
use name_core::Name;
use outside_core::Gate;
use scene_prep::PrepFault;
use shot_core::Scene;
use std::alloc::Global;
use std::sync::{Arc, Wait};
use std::thread::Threads;
use tile_pool::TilePool;
use view_shot::{CheckFlight, Executor, FlightJob, Teller, gather_check, post_check};

/// A check in flight, with its scene.
#[derive(Drop)]
pub(crate) struct FlyingCheck<'a, G: Gate + Sync> {
    scene: Arc<Scene>,
    flight: CheckFlight<'a, G>,
}

/// A picture or a check in flight.
#[derive(Drop)]
pub(crate) enum Flying<'a, G: Gate + Sync> {
    Picture(FlyingPicture<'a, G>),
    Check(FlyingCheck<'a, G>),
}

/// The refusal of names that make no scene.
fn refused(fault: PrepFault) -> Result<Refusal, Memory>
    ensures { IfOk result (λ refusal. (directory : Entries) (names : List AnyName) → IsSceneOf (Err fault) directory names → (used : ℕ) (shown : AnyFound) → Err refusal ≡ within_quota used (found_unless (prep_fault directory names) shown)) }
{
    match fault {
        PrepFault::Missing(name) => Ok(Refusal::Missing(name)),
        PrepFault::TooMany(size) => Ok(Refusal::Instances(size)),
        PrepFault::Memory => Err(Memory),
    }
}

/// Puts the picture of the regions of names into flight, where there is room for it.
fn post_regions<'a, R: Wait, G: Gate + Sync>(
    pool: &TilePool<FlightJob<'a, G>>,
    rt: &R,
    alloc: Global,
    teller: Teller<'a, G>,
    version: u32,
    directory: &Directory,
    keep: &mut Keep,
    own: &Own,
    file: &Name,
    view: &CheckedView,
    names: &[Name],
) -> Result<Result<Flying<'a, G>, Refusal>, Memory>
    requires quota { own.now.used ≤ most_used }
    requires current { IsCurrent keep.old version directory.now.objects }
    ensures posted { IfOk result (λ posted. MatchResult posted (Flies directory.now own.now (IsShoot (IsPicture file.now view.now names.now))) (λ refusal. Err refusal ≡ outcome_of directory.now own.now (IsShoot (IsPicture file.now view.now names.now)))) }
    ensures current { IsCurrent keep.new version directory.now.objects }
{
    let kept = match keep.scene(alloc, version, directory, names) {
        Ok(kept) => kept,
        Err(fault) => return Ok(Err(refused(fault)?)),
    };
    let tiles = &own.kept;
    let posted = post_picture(
        pool,
        rt,
        alloc,
        teller,
        &kept.scene,
        own.used,
        tiles,
        file,
        view,
    );
    keep.put(kept);
    match posted? {
        Ok(flying) => Ok(Ok(Flying::Picture(flying))),
        Err(refusal) => Ok(Err(refusal)),
    }
}

/// Puts a check of a scene into flight.
fn post_pairs<'a, R: Wait, G: Gate + Sync>(
    pool: &TilePool<FlightJob<'a, G>>,
    rt: &R,
    alloc: Global,
    teller: Teller<'a, G>,
    scene: &Arc<Scene>,
    view: &CheckedView,
) -> Result<FlyingCheck<'a, G>, Memory>
    ensures scene { IfOk result (λ flying. arc_value flying.scene ≡ arc_value scene.now) }
    ensures flight { IfOk result (λ flying. arc_value flying.flight.scene ≡ arc_value scene.now) }
    ensures view { IfOk result (λ flying. flying.flight.view ≡ view.now) }
{
    let flight = post_check(pool, rt, alloc, teller, scene, &view.view())?;
    let scene = scene.clone()?;
    Ok(FlyingCheck { scene, flight })
}

/// Puts the check of the regions of names into flight.
fn post_overlaps<'a, R: Wait, G: Gate + Sync>(
    pool: &TilePool<FlightJob<'a, G>>,
    rt: &R,
    alloc: Global,
    teller: Teller<'a, G>,
    version: u32,
    directory: &Directory,
    keep: &mut Keep,
    own: &Own,
    view: &CheckedView,
    names: &[Name],
) -> Result<Result<Flying<'a, G>, Refusal>, Memory>
    requires current { IsCurrent keep.old version directory.now.objects }
    ensures posted { IfOk result (λ posted. MatchResult posted (Flies directory.now own.now (IsShoot (IsCheck view.now names.now))) (λ refusal. Err refusal ≡ outcome_of directory.now own.now (IsShoot (IsCheck view.now names.now)))) }
    ensures current { IsCurrent keep.new version directory.now.objects }
{
    let kept = match keep.scene(alloc, version, directory, names) {
        Ok(kept) => kept,
        Err(fault) => return Ok(Err(refused(fault)?)),
    };
    let posted = post_pairs(pool, rt, alloc, teller, &kept.scene, view);
    keep.put(kept);
    Ok(Ok(Flying::Check(posted?)))
}

/// Whether a command is put into flight. Others are answered at once.
pub(crate) fn does_fly(command: &Command) -> bool
    ensures { result ≡ does_fly command.now }
{
    match command {
        Command::Shoot(Shoot::Picture { .. } | Shoot::Check { .. }) => true,
        _ => false,
    }
}

/// Puts the picture or the check that a command asks for into flight, where it is not refused at once. Nothing of it is shot
/// yet, and no tile is moved.
pub(crate) fn post_shoot<'a, R: Wait, G: Gate + Sync>(
    pool: &TilePool<FlightJob<'a, G>>,
    rt: &R,
    alloc: Global,
    teller: Teller<'a, G>,
    version: u32,
    directory: &Directory,
    keep: &mut Keep,
    own: &Own,
    shoot: &Shoot,
) -> Result<Result<Flying<'a, G>, Refusal>, Memory>
    requires flies { does_fly (IsShoot shoot.now) ≡ true }
    requires quota { own.now.used ≤ most_used }
    requires current { IsCurrent keep.old version directory.now.objects }
    ensures posted { IfOk result (λ posted. MatchResult posted (Flies directory.now own.now (IsShoot shoot.now)) (λ refusal. Err refusal ≡ outcome_of directory.now own.now (IsShoot shoot.now))) }
    ensures current { IsCurrent keep.new version directory.now.objects }
{
    match shoot {
        Shoot::Picture { file, view, names } => {
            let names = names.items();
            post_regions(
                pool, rt, alloc, teller, version, directory, keep, own, file, view, names,
            )
        }
        Shoot::Check { view, names } => {
            let names = names.items();
            post_overlaps(
                pool, rt, alloc, teller, version, directory, keep, own, view, names,
            )
        }
        Shoot::Area { .. } | Shoot::Edge { .. } => unreachable!(),
    }
}

/// What a command finds whose picture or check is in flight, once all is gathered. The directory is that of its snapshot. After
/// want of memory any tiles may be kept.
fn gather<'a, R: Threads + Sync, G: Gate + Sync>(
    pool: &TilePool<FlightJob<'a, G>>,
    executor: &Executor<R, G>,
    alloc: Global,
    own: &mut Own,
    _directory: &Directory,
    _command: &Command,
    flying: Flying<'a, G>,
) -> Result<Result<Found, Refusal>, Memory>
    requires quota { own.old.used ≤ most_used }
    requires flies { Flies _directory.now own.old _command.now flying }
    requires shoots { IsShooting _command.now }
    ensures outcome { IfOk result (λ outcome. outcome ≡ outcome_of _directory.now own.old _command.now) }
    ensures tiles { IfOk result (λ outcome. own.new.tiles ≡ tiles_by outcome (tiles_with _directory.now own.old.tiles _command.now) own.old.tiles) }
    ensures used { own.new.used ≡ own.old.used }
    ensures forgets { forgotten own.new _command.now ≡ forgotten own.old _command.now }
{
    match flying {
        Flying::Picture(flying) => Ok(Ok(flying.gather(pool, alloc, &mut own.kept)?)),
        Flying::Check(flying) => {
            let FlyingCheck { scene, flight } = flying;
            let pairs = gather_check(pool, executor, alloc, flight);
            told_pairs(alloc, &scene, own.used, pairs)
        }
    }
}

/// A command whose picture or check is in flight, with the snapshot that it was asked for at.
#[derive(Drop)]
pub(crate) struct Flight<'a, G: Gate + Sync> {
    pub(crate) version: u32,
    pub(crate) directory: Arc<Directory>,
    pub(crate) command: Arc<Command>,
    pub(crate) flying: Flying<'a, G>,
}

impl<'a, G: Gate + Sync> Flight<'a, G> {
    /// The command's answer, once all is gathered.
    pub(crate) fn land<R: Threads + Sync>(
        self,
        pool: &TilePool<FlightJob<'a, G>>,
        executor: &Executor<R, G>,
        alloc: Global,
        own: &mut Own,
    ) -> Answer
        requires quota { own.old.used ≤ most_used }
        requires flies { Flies (arc_value self.directory) own.old (arc_value self.command) self.flying }
        requires shoots { IsShooting (arc_value self.command) }
        ensures look { IsLook (arc_value self.entry.directory) self.entry.version (arc_value self.entry.command) own.old result own.new }
        ensures quota { own.new.used ≤ most_used }
    {
        let Flight {
            version,
            directory,
            command,
            flying,
        } = self;
        match gather(pool, executor, alloc, own, &directory, &command, flying) {
            Ok(outcome) => {
                own.used = used_with(own.used, &outcome);
                Answer { version, outcome }
            }
            Err(_) => {
                own.forget(&command);
                let outcome = Err(Refusal::Memory);
                Answer { version, outcome }
            }
        }
    }
}
