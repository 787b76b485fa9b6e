//! What one command of one session is answered, on one thread.
ghost use Rattle.std.specs.Prelude.{◌≡◌, ◌≤◌, ◌<◌, ◌+◌, ◌-◌, ◌^◌, ◌++◌, ◌∷◌, [], ℕ, List, Ok, Err, IfOk, OnOk, OnErr, All, MatchResult, true, length, codes};
ghost use Rattle.std.specs.Result.{result_ok};
ghost use Rattle.transcript.specs.Run.{answer_of, book_after, committed, own_after};
ghost use Rattle.lattice_core.specs.declared.limit.TheConstants.{WORLD};
ghost use Rattle.lattice_core.specs.Limits.{IsWithin};
ghost use Rattle.name_core.specs.declared.name.Name.{Name};
ghost use Rattle.directory.specs.Walks.{Entries};
ghost use Rattle.shot_core.specs.Shots.{lit_of};
ghost use Rattle.scene_prep.specs.Outcomes.{IsSceneOf, prep_fault};
ghost use Rattle.scene_prep.specs.Scenes.{scene_of};
ghost use Rattle.tile_shot.specs.Named.{TileName};
ghost use Rattle.view_shot.specs.Kept.{after_picture, tile_names};
ghost use Rattle.edit_core.specs.Refused.{edited};
ghost use Rattle.report_text.specs.Listings.{listings, written_lines};
ghost use Rattle.report_text.specs.Names.{names_lines};
ghost use Rattle.report_text.specs.Texts.{IsText};
ghost use Rattle.edit_core.specs.Modelling.{is_look};
ghost use Rattle.command_set.specs.declared.command.Command.TheVariants.{Edit as IsEdit, Shoot as IsShoot};
ghost use Rattle.command_set.specs.declared.command.Shoot.TheVariants.{Picture as IsPicture};
ghost use Rattle.command_set.specs.declared.refusal.Refusal.TheVariants.{Memory as NoMemory};
ghost use Rattle.session_merge.specs.Answered.{shown_as};
ghost use Rattle.session_run.specs.Answers.{core_book, core_answer};
ghost use Rattle.session_run.specs.Sessions.{book_at};
ghost use Rattle.session_run.specs.Kept.{IsCurrent, Moves};
ghost use Rattle.session_run.specs.declared.keep.Keep.{Keep};
ghost use Rattle.session_run.specs.declared.answer.Found.{Found};
ghost use Rattle.session_run.specs.Own.{OwnState, nothing_used};
ghost use Rattle.session_run.specs.Replies.{core_rules, most_used, lines_alone, size_of, within_quota, lines_of_scene, lines_of_slant, shot_of, slant_of, found_unless, picture_of, check_of, area_of, edge_of, viewed, first_missing, lines_unless_missing, saved, found, edit_outcome, outcome_of, used_after, tiles_by, tiles_with, forgotten};

use crate::check::check_scene;
use crate::keep::Keep;
use crate::limit::MOST_USED;
use crate::picture::shoot_picture;
use crate::present::{count_areas, draw_edges};
use asc_form::write_asc;
use command_set::{CheckedSlant, CheckedView, Command, Edit, Query, Refusal, Shoot, WorldRay};
use directory::Directory;
use edit_core::apply;
use item_list::Items;
use lattice_core::Ray;
use memory_core::Memory;
use name_core::Name;
use oblique_ray::slant_shot;
use outside_core::{File, Gate, OpenGate};
use report_text::{Body, TextFault, list_text, names_text, shot_text, slant_text, tree_text};
use scene_prep::PrepFault;
use shot_core::{Lit, Scene, shoot};
use std::alloc::Global;
use std::marker::{Brand, Model};
use std::sync::ledger::{Blank, Ledger};
use std::thread::Threads;
use step_counter::Steps;
use view_shot::{Executor, KeptTiles};

/// What an accepted command gives: the lines of its body, and a file where it puts one.
#[derive(Debug, Drop)]
pub struct Found {
    pub body: Body,
    pub file: Option<File>,
}

/// What a command is answered, or why it is refused, and the version after it.
#[derive(Debug, Drop)]
pub struct Answer {
    pub version: u32,
    pub outcome: Result<Found, Refusal>,
}

/// What a session has of its own: the tiles that it keeps, and how many bytes the bodies and files of its accepted commands
/// have. Contracts see the tiles as the list of their names, the last used first.
#[derive(Drop)]
pub struct Own {
    pub(crate) used: u64,
    pub(crate) kept: KeptTiles,
}

impl Model for Own {
    ghost use Rattle.session_run.specs.Own.{OwnState, own_code};

    ghost Value = { OwnState };

    ghost coded = { own_code };

    ghost view = { λ s. record { tiles = s.kept; used = s.used } };
}

impl Own {
    /// Nothing is kept, and nothing is used.
    pub fn new(alloc: Global) -> Result<Own, Memory>
        ensures { IfOk result (λ own. own ≡ nothing_used) }
    {
        let kept = KeptTiles::new(alloc)?;
        Ok(Own { used: 0, kept })
    }

    /// What is left of it after a command for which there was no memory.
    pub(crate) fn forget(&mut self, command: &Command)
        ensures { self.new ≡ forgotten self.old command.now }
    {
        if let Command::Shoot(_) = command {
            self.kept.clear();
        }
    }
}

/// The directory, and how many edits of it were accepted.
#[derive(Drop)]
pub struct Book {
    pub directory: Directory,
    pub version: u32,
}

pub(crate) fn lines_alone(body: Body) -> Found
    ensures { result ≡ lines_alone body }
{
    Found { body, file: None }
}

/// A body, or the refusal of one for which there was no room.
pub(crate) fn found_or_quota(
    text: Result<Body, TextFault>,
) -> Result<Result<Found, Refusal>, Memory>
    ensures { IfOk result (λ outcome. (lines : List (List ℕ)) (used : ℕ) → used ≤ most_used → IsText text lines (most_used - used) → outcome ≡ within_quota used (Ok (lines_alone lines))) }
{
    match text {
        Ok(body) => Ok(Ok(lines_alone(body))),
        Err(TextFault::Room) => Ok(Err(Refusal::Quota)),
        Err(TextFault::Memory) => Err(Memory),
    }
}

/// The names of all objects, where there is room for them.
fn look_at_names(
    alloc: Global,
    directory: &Directory,
    used: u64,
) -> Result<Result<Found, Refusal>, Memory>
    requires { used ≤ most_used }
    ensures { IfOk result (λ outcome. outcome ≡ within_quota used (Ok (lines_alone (names_lines directory.now.objects)))) }
{
    found_or_quota(names_text(alloc, directory, MOST_USED - used))
}

/// The first of the names that is not there.
fn first_missing(directory: &Directory, names: &[Name]) -> Option<Name>
    ensures { result ≡ first_missing directory.now.objects names.now }
{
    names
        .iter()
        .copied()
        .find(|name| directory.get(name).is_none())
}

/// The written lines of names, where there is room for them, or the refusal of the first name that is not there.
fn look_at_objects(
    alloc: Global,
    directory: &Directory,
    used: u64,
    names: &[Name],
) -> Result<Result<Found, Refusal>, Memory>
    requires { used ≤ most_used }
    ensures { IfOk result (λ outcome. outcome ≡ within_quota used (lines_unless_missing (first_missing directory.now.objects names.now) (written_lines directory.now.objects names.now))) }
{
    match first_missing(directory, names) {
        Some(name) => Ok(Err(Refusal::Missing(name))),
        None => found_or_quota(list_text(alloc, directory, names, MOST_USED - used)),
    }
}

/// The listings of names, where there is room for them, or the refusal of the first name that is not there.
fn look_at_trees(
    alloc: Global,
    directory: &Directory,
    used: u64,
    names: &[Name],
) -> Result<Result<Found, Refusal>, Memory>
    requires { used ≤ most_used }
    ensures { IfOk result (λ outcome. outcome ≡ within_quota used (lines_unless_missing (first_missing directory.now.objects names.now) (listings directory.now.objects names.now))) }
{
    match first_missing(directory, names) {
        Some(name) => Ok(Err(Refusal::Missing(name))),
        None => found_or_quota(tree_text(alloc, directory, names, MOST_USED - used)),
    }
}

/// The line with the name of a file that is put.
fn saved_line(alloc: Global, file: &Name) -> Result<Body, Memory>
    ensures { IfOk result (λ body. body ≡ (codes "saved " ++ file.now) ∷ []) }
{
    let mut line = Vec::new(alloc);
    line.extend_from_slice(b"saved ")?;
    line.extend_from_slice(file.bytes())?;
    let mut body = Body::new(alloc);
    body.push_line(&line)?;
    Ok(body)
}

/// The written text of the directory, where there is room for it behind a body.
fn save_behind(
    alloc: Global,
    directory: &Directory,
    used: u64,
    file: &Name,
    body: Body,
) -> Result<Result<Found, Refusal>, Memory>
    requires used { used ≤ most_used }
    requires body { body ≡ (codes "saved " ++ file.now) ∷ [] }
    ensures { IfOk result (λ outcome. outcome ≡ within_quota used (Ok (saved directory.now file.now))) }
{
    let room = MOST_USED - used;
    let lines = body.text().len() as u64;
    if lines > room {
        return Ok(Err(Refusal::Quota));
    }
    match write_asc(alloc, directory, room - lines)? {
        Some(text) => {
            let bytes = Items::of_vec(text);
            let file = Some(File { name: *file, bytes });
            Ok(Ok(Found { body, file }))
        }
        None => Ok(Err(Refusal::Quota)),
    }
}

/// The whole directory as a file, where there is room for it.
fn save(
    alloc: Global,
    directory: &Directory,
    used: u64,
    file: &Name,
) -> Result<Result<Found, Refusal>, Memory>
    requires { used ≤ most_used }
    ensures { IfOk result (λ outcome. outcome ≡ within_quota used (Ok (saved directory.now file.now))) }
{
    let body = saved_line(alloc, file)?;
    save_behind(alloc, directory, used, file, body)
}

/// What a ray meets of a scene. Its steps are counted for nobody.
fn shoot_uncounted<L: Ledger>(
    blank: Blank,
    alloc: Global,
    scene: &Scene,
    ray: &Ray,
) -> Result<Vec<Lit>, Memory>
    requires name { blank.name ≡ L.name }
    requires parts { blank.parts ≡ L.parts }
    requires some { 0 < blank.parts }
    requires origin { IsWithin WORLD ray.now.origin }
    ensures lit { IfOk result (λ v. v.items ≡ lit_of scene.now ray.now) }
    ensures regions { IfOk result (λ v. All (λ l. l.region < length scene.now) v.items) }
{
    let mut steps: Steps<L> = Steps::new(blank);
    shoot(alloc, scene, ray, &mut steps)
}

/// The partitions of a ray and a scene, where there is room for them.
fn shoot_scene(
    alloc: Global,
    scene: &Scene,
    used: u64,
    ray: &WorldRay,
) -> Result<Result<Found, Refusal>, Memory>
    requires { used ≤ most_used }
    ensures { IfOk result (λ outcome. outcome ≡ within_quota used (Ok (lines_alone (lines_of_scene scene.now ray.now)))) }
{
    let lit = shoot_uncounted::<Brand>(Blank::new(1), alloc, scene, &ray.ray())?;
    found_or_quota(shot_text(alloc, scene, &lit, MOST_USED - used))
}

/// The refusal of names that make no scene.
fn refused(fault: PrepFault) -> Result<Result<Found, Refusal>, Memory>
    ensures outcome { IfOk result (λ outcome. (directory : Entries) (names : List Name) → IsSceneOf (Err fault) directory names → (used : ℕ) (shown : Found) → outcome ≡ within_quota used (found_unless (prep_fault directory names) shown)) }
    ensures tiles { IfOk result (λ outcome. (after kept : List TileName) → kept ≡ tiles_by outcome after kept) }
{
    match fault {
        PrepFault::Missing(name) => Ok(Err(Refusal::Missing(name))),
        PrepFault::TooMany(size) => Ok(Err(Refusal::Instances(size))),
        PrepFault::Memory => Err(Memory),
    }
}

/// The partitions of a ray and the regions of names.
fn look_along(
    alloc: Global,
    version: u32,
    directory: &Directory,
    keep: &mut Keep,
    used: u64,
    ray: &WorldRay,
    names: &[Name],
) -> Result<Result<Found, Refusal>, Memory>
    requires quota { used ≤ most_used }
    requires current { IsCurrent keep.old version directory.now.objects }
    ensures outcome { IfOk result (λ outcome. outcome ≡ within_quota used (shot_of directory.now.objects ray.now names.now)) }
    ensures current { IsCurrent keep.new version directory.now.objects }
{
    match keep.scene(alloc, version, directory, names) {
        Ok(kept) => {
            let outcome = shoot_scene(alloc, &kept.scene, used, ray);
            keep.put(kept);
            outcome
        }
        Err(fault) => refused(fault),
    }
}

/// The partitions of a ray in a lattice direction and a scene, where there is room for them.
fn shoot_slanted(
    alloc: Global,
    scene: &Scene,
    used: u64,
    ray: &CheckedSlant,
) -> Result<Result<Found, Refusal>, Memory>
    requires { used ≤ most_used }
    ensures { IfOk result (λ outcome. outcome ≡ within_quota used (Ok (lines_alone (lines_of_slant scene.now ray.now)))) }
{
    let slabs = slant_shot(alloc, scene, &ray.ray())?;
    found_or_quota(slant_text(alloc, scene, &slabs, MOST_USED - used))
}

/// The partitions of a ray in a lattice direction and the regions of names.
fn look_slanted(
    alloc: Global,
    version: u32,
    directory: &Directory,
    keep: &mut Keep,
    used: u64,
    ray: &CheckedSlant,
    names: &[Name],
) -> Result<Result<Found, Refusal>, Memory>
    requires quota { used ≤ most_used }
    requires current { IsCurrent keep.old version directory.now.objects }
    ensures outcome { IfOk result (λ outcome. outcome ≡ within_quota used (slant_of directory.now.objects ray.now names.now)) }
    ensures current { IsCurrent keep.new version directory.now.objects }
{
    match keep.scene(alloc, version, directory, names) {
        Ok(kept) => {
            let outcome = shoot_slanted(alloc, &kept.scene, used, ray);
            keep.put(kept);
            outcome
        }
        Err(fault) => refused(fault),
    }
}

/// The picture of the regions of names.
fn look_at_picture<R: Threads + Sync, G: Gate + Sync>(
    executor: &Executor<R, G>,
    alloc: Global,
    version: u32,
    directory: &Directory,
    keep: &mut Keep,
    used: u64,
    tiles: &mut KeptTiles,
    file: &Name,
    view: &CheckedView,
    names: &[Name],
) -> Result<Result<Found, Refusal>, Memory>
    requires quota { used ≤ most_used }
    requires current { IsCurrent keep.old version directory.now.objects }
    ensures outcome { IfOk result (λ outcome. outcome ≡ within_quota used (picture_of directory.now.objects tiles.old file.now view.now names.now)) }
    ensures tiles { IfOk result (λ outcome. tiles.new ≡ tiles_by outcome (after_picture tiles.old (tile_names (scene_of directory.now.objects names.now) view.now)) tiles.old) }
    ensures current { IsCurrent keep.new version directory.now.objects }
{
    match keep.scene(alloc, version, directory, names) {
        Ok(kept) => {
            let outcome = shoot_picture(executor, alloc, &kept.scene, used, tiles, file, view);
            keep.put(kept);
            outcome
        }
        Err(fault) => refused(fault),
    }
}

/// The overlaps of the regions of names.
fn look_for_overlaps<R: Threads + Sync, G: Gate + Sync>(
    executor: &Executor<R, G>,
    alloc: Global,
    version: u32,
    directory: &Directory,
    keep: &mut Keep,
    used: u64,
    view: &CheckedView,
    names: &[Name],
) -> Result<Result<Found, Refusal>, Memory>
    requires quota { used ≤ most_used }
    requires current { IsCurrent keep.old version directory.now.objects }
    ensures outcome { IfOk result (λ outcome. outcome ≡ within_quota used (check_of directory.now.objects view.now names.now)) }
    ensures current { IsCurrent keep.new version directory.now.objects }
{
    match keep.scene(alloc, version, directory, names) {
        Ok(kept) => {
            let outcome = check_scene(executor, alloc, &kept.scene, used, view);
            keep.put(kept);
            outcome
        }
        Err(fault) => refused(fault),
    }
}

/// The areas of the regions of names.
fn look_at_areas<R: Threads + Sync, G: Gate + Sync>(
    executor: &Executor<R, G>,
    alloc: Global,
    version: u32,
    directory: &Directory,
    keep: &mut Keep,
    used: u64,
    view: &CheckedView,
    names: &[Name],
) -> Result<Result<Found, Refusal>, Memory>
    requires quota { used ≤ most_used }
    requires current { IsCurrent keep.old version directory.now.objects }
    ensures outcome { IfOk result (λ outcome. outcome ≡ within_quota used (area_of directory.now.objects view.now names.now)) }
    ensures current { IsCurrent keep.new version directory.now.objects }
{
    match keep.scene(alloc, version, directory, names) {
        Ok(kept) => {
            let outcome = count_areas(executor, alloc, &kept.scene, used, view);
            keep.put(kept);
            outcome
        }
        Err(fault) => refused(fault),
    }
}

/// The edges of the regions of names.
fn look_at_edges<R: Threads + Sync, G: Gate + Sync>(
    executor: &Executor<R, G>,
    alloc: Global,
    version: u32,
    directory: &Directory,
    keep: &mut Keep,
    used: u64,
    file: &Name,
    view: &CheckedView,
    names: &[Name],
) -> Result<Result<Found, Refusal>, Memory>
    requires quota { used ≤ most_used }
    requires current { IsCurrent keep.old version directory.now.objects }
    ensures outcome { IfOk result (λ outcome. outcome ≡ within_quota used (edge_of directory.now.objects file.now view.now names.now)) }
    ensures current { IsCurrent keep.new version directory.now.objects }
{
    match keep.scene(alloc, version, directory, names) {
        Ok(kept) => {
            let outcome = draw_edges(executor, alloc, &kept.scene, used, file, view);
            keep.put(kept);
            outcome
        }
        Err(fault) => refused(fault),
    }
}

/// What a command that shoots each ray of a view is answered.
fn look_from<R: Threads + Sync, G: Gate + Sync>(
    executor: &Executor<R, G>,
    alloc: Global,
    version: u32,
    directory: &Directory,
    keep: &mut Keep,
    used: u64,
    tiles: &mut KeptTiles,
    shoot: &Shoot,
) -> Result<Result<Found, Refusal>, Memory>
    requires quota { used ≤ most_used }
    requires current { IsCurrent keep.old version directory.now.objects }
    ensures outcome { IfOk result (λ outcome. outcome ≡ within_quota used (viewed directory.now tiles.old shoot.now)) }
    ensures tiles { IfOk result (λ outcome. tiles.new ≡ tiles_by outcome (tiles_with directory.now tiles.old (IsShoot shoot.now)) tiles.old) }
    ensures current { IsCurrent keep.new version directory.now.objects }
{
    match shoot {
        Shoot::Picture { file, view, names } => {
            look_at_picture(
                executor,
                alloc,
                version,
                directory,
                keep,
                used,
                tiles,
                file,
                view,
                names.items(),
            )
        }
        Shoot::Check { view, names } => {
            look_for_overlaps(
                executor,
                alloc,
                version,
                directory,
                keep,
                used,
                view,
                names.items(),
            )
        }
        Shoot::Area { view, names } => {
            look_at_areas(
                executor,
                alloc,
                version,
                directory,
                keep,
                used,
                view,
                names.items(),
            )
        }
        Shoot::Edge { file, view, names } => {
            look_at_edges(
                executor,
                alloc,
                version,
                directory,
                keep,
                used,
                file,
                view,
                names.items(),
            )
        }
    }
}

/// What a query is answered.
fn look(
    alloc: Global,
    version: u32,
    directory: &Directory,
    keep: &mut Keep,
    used: u64,
    query: &Query,
) -> Result<Result<Found, Refusal>, Memory>
    requires quota { used ≤ most_used }
    requires current { IsCurrent keep.old version directory.now.objects }
    ensures outcome { IfOk result (λ outcome. outcome ≡ within_quota used (found directory.now query.now)) }
    ensures current { IsCurrent keep.new version directory.now.objects }
{
    match query {
        Query::List { names } => look_at_objects(alloc, directory, used, names.items()),
        Query::Names => look_at_names(alloc, directory, used),
        Query::Tree { names } => look_at_trees(alloc, directory, used, names.items()),
        Query::Save { file } => save(alloc, directory, used, file),
        Query::Shot { ray, names } => look_along(
            alloc,
            version,
            directory,
            keep,
            used,
            ray,
            names.items(),
        ),
        Query::Slant { ray, names } => look_slanted(
            alloc,
            version,
            directory,
            keep,
            used,
            ray,
            names.items(),
        ),
    }
}

/// Applies an edit, and counts it where it is accepted.
fn edit_book(alloc: Global, book: &mut Book, edit: &Edit) -> Result<Result<Found, Refusal>, Memory>
    requires version { book.old.version + 1 < 2 ^ 32 }
    ensures outcome { IfOk result (λ outcome. outcome ≡ edit_outcome (edited book.old.directory edit.now)) }
    ensures book { OnOk result (core_book book.new ≡ committed (core_book book.old) (result_ok (edited book.old.directory edit.now))) }
    ensures stays { OnErr result (book.new ≡ book.old) }
    ensures moves { Moves book.old book.new }
    ensures version { book.new.version ≤ book.old.version + 1 }
{
    match apply(alloc, &mut book.directory, edit) {
        Ok(()) => {
            book.version += 1;
            Ok(Ok(lines_alone(Body::new(alloc))))
        }
        Err(Refusal::Memory) => Err(Memory),
        Err(refusal) => Ok(Err(refusal)),
    }
}

/// The bytes of a body, with their line feeds, and of a file.
fn size(found: &Found) -> u64
    requires { size_of found.now < 2 ^ 64 }
    ensures { result ≡ size_of found.now }
{
    let lines = found.body.text().len() as u64;
    match &found.file {
        Some(file) => lines + file.bytes.items().len() as u64,
        None => lines,
    }
}

/// The bytes that a session has used after an answer.
pub(crate) fn used_with(used: u64, outcome: &Result<Found, Refusal>) -> u64
    requires { used_after used outcome.now ≤ most_used }
    ensures { result ≡ used_after used outcome.now }
{
    match outcome {
        Ok(found) => used + size(found),
        Err(_) => used,
    }
}

/// What a command that is no edit finds. After want of memory any tiles may be kept.
fn look_by<R: Threads + Sync, G: Gate + Sync>(
    executor: &Executor<R, G>,
    alloc: Global,
    version: u32,
    directory: &Directory,
    own: &mut Own,
    keep: &mut Keep,
    command: &Command,
) -> Result<Result<Found, Refusal>, Memory>
    requires looks { is_look command.now ≡ true }
    requires quota { own.old.used ≤ most_used }
    requires current { IsCurrent keep.old version directory.now.objects }
    ensures outcome { IfOk result (λ outcome. outcome ≡ outcome_of directory.now own.old command.now) }
    ensures tiles { IfOk result (λ outcome. own.new.tiles ≡ tiles_by outcome (tiles_with directory.now own.old.tiles command.now) own.old.tiles) }
    ensures used { own.new.used ≡ own.old.used }
    ensures forgets { forgotten own.new command.now ≡ forgotten own.old command.now }
    ensures current { IsCurrent keep.new version directory.now.objects }
{
    match command {
        Command::Bad(refusal) => Ok(Err(*refusal)),
        Command::Edit(_) => unreachable!(),
        Command::Query(query) => look(alloc, version, directory, keep, own.used, query),
        Command::Shoot(shoot) => {
            let tiles = &mut own.kept;
            look_from(
                executor, alloc, version, directory, keep, own.used, tiles, shoot,
            )
        }
    }
}

/// The outcome, which is a refusal where there was no memory.
fn or_refused(found: Result<Result<Found, Refusal>, Memory>) -> Result<Found, Refusal>
    ensures { MatchResult found (λ outcome. result ≡ outcome) (λ _. result ≡ Err NoMemory) }
{
    match found {
        Ok(outcome) => outcome,
        Err(_) => Err(Refusal::Memory),
    }
}

/// What a command that is no edit is answered with the directory of a version, where want of memory is an answer too. The
/// executor shoots the tiles of pictures and checks.
pub fn answer_look<R: Threads + Sync, G: Gate + Sync>(
    executor: &Executor<R, G>,
    alloc: Global,
    version: u32,
    directory: &Directory,
    own: &mut Own,
    keep: &mut Keep,
    command: &Command,
) -> Answer
    requires looks { is_look command.now ≡ true }
    requires quota { own.old.used ≤ most_used }
    requires current { IsCurrent keep.old version directory.now.objects }
    ensures answer { core_answer result ≡ answer_of core_rules (book_at directory.now version) own.old (shown_as command.now (core_answer result)) }
    ensures own { own.new ≡ own_after core_rules (book_at directory.now version) own.old (shown_as command.now (core_answer result)) }
    ensures quota { own.new.used ≤ most_used }
    ensures current { IsCurrent keep.new version directory.now.objects }
{
    match look_by(executor, alloc, version, directory, own, keep, command) {
        Ok(outcome) => {
            own.used = used_with(own.used, &outcome);
            Answer { version, outcome }
        }
        Err(_) => {
            own.forget(command);
            let outcome = Err(Refusal::Memory);
            Answer { version, outcome }
        }
    }
}

/// What an edit is answered, with the book after it. Want of memory is an answer too, and leaves the book as it was.
fn answer_edit(alloc: Global, book: &mut Book, edit: &Edit) -> Answer
    requires version { book.old.version + 1 < 2 ^ 32 }
    ensures answer { (own : OwnState) → core_answer result ≡ answer_of core_rules (core_book book.old) own (shown_as (IsEdit edit.now) (core_answer result)) }
    ensures book { core_book book.new ≡ book_after core_rules (core_book book.old) (shown_as (IsEdit edit.now) (core_answer result)) }
    ensures own { (own : OwnState) → own ≡ own_after core_rules (core_book book.old) own (shown_as (IsEdit edit.now) (core_answer result)) }
    ensures moves { Moves book.old book.new }
    ensures version { book.new.version ≤ book.old.version + 1 }
{
    let found = edit_book(alloc, book, edit);
    let outcome = or_refused(found);
    Answer {
        version: book.version,
        outcome,
    }
}

/// The core step on one thread: what a command of a session is answered, with the book and what the session has of its own
/// after it. Want of memory is an answer too: it leaves the book as it was, and of what the session has of its own a command that
/// shoots each ray of a view takes the kept tiles alone. What a session keeps stays one that can be used with the book's
/// directory, whichever session the command is of.
pub fn answer_command<R: Threads + Sync>(
    alloc: Global,
    book: &mut Book,
    own: &mut Own,
    keep: &mut Keep,
    command: &Command,
) -> Answer
    requires version { book.old.version + 1 < 2 ^ 32 }
    requires quota { own.old.used ≤ most_used }
    requires current { IsCurrent keep.old book.old.version book.old.directory.objects }
    ensures answer { core_answer result ≡ answer_of core_rules (core_book book.old) own.old (shown_as command.now (core_answer result)) }
    ensures book { core_book book.new ≡ book_after core_rules (core_book book.old) (shown_as command.now (core_answer result)) }
    ensures own { own.new ≡ own_after core_rules (core_book book.old) own.old (shown_as command.now (core_answer result)) }
    ensures quota { own.new.used ≤ most_used }
    ensures current { IsCurrent keep.new book.new.version book.new.directory.objects }
    ensures others { (other : Keep) → IsCurrent other book.old.version book.old.directory.objects → IsCurrent other book.new.version book.new.directory.objects }
    ensures version { book.new.version ≤ book.old.version + 1 }
{
    match command {
        Command::Edit(edit) => answer_edit(alloc, book, edit),
        _ => {
            let executor: Executor<R, OpenGate> = Executor::Sequential;
            let version = book.version;
            answer_look(
                &executor,
                alloc,
                version,
                &book.directory,
                own,
                keep,
                command,
            )
        }
    }
}
