//! What the ray of a script meets: its last command is a `nirt`, and those before make the directory.

ghost use Rattle.std.specs.Prelude.{◌≡◌, ◌<◌};
ghost use Rattle.lattice_core.specs.declared.limit.TheConstants.{WORLD};
ghost use Rattle.lattice_core.specs.Limits.{IsWithin};

use crate::positions::put_position;
use crate::scenes::put_fault;
use crate::scripts::{commands_of, directory_by};
use crate::settling::{Told, put_hit, put_overlaps, put_runs};
use crate::texts::{put_comma, put_number};
use case_text::{CaseFault, Shown};
use command_set::{Command, Query, WorldRay};
use directory::Directory;
use lattice_core::Ray;
use memory_core::Memory;
use name_core::Name;
use overlap_list::OverlapRun;
use plain_shot::{plain_overlaps, plain_partitions};
use scene_prep::prepare;
use shot_core::{Lit, Scene, check_ray, shoot};
use std::alloc::Global;
use std::marker::Brand;
use std::sync::ledger::{Blank, Ledger};
use step_counter::Steps;

fn shoot_counted<L: Ledger>(
    blank: Blank,
    alloc: Global,
    scene: &Scene,
    ray: &Ray,
) -> Result<Vec<Lit>, Memory>
    requires name { blank.name ≡ L.name }
    requires parts { blank.parts ≡ L.parts }
    requires some { 0 < blank.parts }
    requires origin { IsWithin WORLD ray.now.origin }
{
    let mut steps: Steps<L> = Steps::new(blank);
    shoot(alloc, scene, ray, &mut steps)
}

/// What a ray meets of a scene, with its steps counted for nobody.
pub fn shoot_uncounted(alloc: Global, scene: &Scene, ray: &Ray) -> Result<Vec<Lit>, Memory>
    requires { IsWithin WORLD ray.now.origin }
{
    shoot_counted::<Brand>(Blank::new(1), alloc, scene, ray)
}

fn put_lit(one: &Lit, out: &mut Shown) {
    put_number(out, b"r", u64::from(one.region));
    put_position(out, b" ", &one.start);
    put_position(out, b" ", &one.end);
    put_hit(&one.hit, out);
    put_number(out, b" l", u64::from(one.level));
}

/// Puts in what a ray meets, each as `rREGION START END iINSTANCE fFACE lLEVEL`.
fn put_all_lit(lit: &[Lit], out: &mut Shown) {
    for (i, one) in lit.iter().enumerate() {
        put_comma(out, i);
        put_lit(one, out);
    }
}

/// Puts in the partitions of a ray, and behind `plainly` those of the plain evaluator where they differ.
fn put_shot(alloc: Global, scene: &Scene, ray: &Ray, out: &mut Shown) -> Result<(), CaseFault>
    requires { IsWithin WORLD ray.now.origin }
{
    let lit = shoot_uncounted(alloc, scene, ray)?;
    let plain = plain_partitions(alloc, scene, ray)?;
    put_all_lit(&lit, out);
    if lit.as_slice() != plain.as_slice() {
        out.put(b" plainly ");
        put_all_lit(&plain, out);
    }
    Ok(())
}

/// Puts in overlaps, and behind `plainly` those of the plain evaluator where they differ.
fn put_both(runs: &[OverlapRun], plain: &[OverlapRun], out: &mut Shown) {
    put_runs(runs, out);
    if runs != plain {
        out.put(b" plainly ");
        put_runs(plain, out);
    }
}

/// Puts in the overlaps on a ray, and behind `plainly` those of the plain evaluator where they differ.
fn put_check(alloc: Global, scene: &Scene, ray: &Ray, out: &mut Shown) -> Result<(), CaseFault>
    requires { IsWithin WORLD ray.now.origin }
{
    let plain = plain_overlaps(alloc, scene, ray)?;
    match check_ray(alloc, scene, ray) {
        Ok(runs) => {
            put_both(&runs, &plain, out);
            Ok(())
        }
        Err(fault) => put_overlaps(Told::Runs, Err(fault), out),
    }
}

/// What is asked of a ray.
#[derive(Clone, Copy)]
pub enum Asked {
    Partitions,
    Overlaps,
}

/// Puts in what is asked of a ray at the scene of names.
fn put_asked(
    alloc: Global,
    asked: Asked,
    directory: &Directory,
    ray: &WorldRay,
    names: &[Name],
    out: &mut Shown,
) -> Result<(), CaseFault> {
    let scene = match prepare(alloc, directory, names) {
        Ok(scene) => scene,
        Err(fault) => return put_fault(&fault, out),
    };
    match asked {
        Asked::Partitions => put_shot(alloc, &scene, &ray.ray(), out),
        Asked::Overlaps => put_check(alloc, &scene, &ray.ray(), out),
    }
}

/// Puts in what is asked of the ray that a command shoots.
fn put_ray(
    alloc: Global,
    asked: Asked,
    directory: &Directory,
    command: &Command,
    out: &mut Shown,
) -> Result<(), CaseFault> {
    match command {
        Command::Query(Query::Shot { ray, names }) => {
            put_asked(alloc, asked, directory, ray, names.items(), out)
        }
        _ => Err(CaseFault::Line),
    }
}

/// `shoot SCRIPT => rREGION START END iINSTANCE fFACE lLEVEL, ..`: what the ray of the last command meets, by `shoot` and by
/// the plain evaluator. `check SCRIPT => rONE rTWO START END, ..`: the overlaps on it, by `check_ray` and by the plain
/// evaluator.
pub fn answer_ray(
    alloc: Global,
    asked: Asked,
    script: &[u8],
    out: &mut Shown,
) -> Result<(), CaseFault> {
    let commands = commands_of(alloc, script)?;
    let Some((last, edits)) = commands.items().split_last() else {
        return Err(CaseFault::Line);
    };
    let directory = directory_by(alloc, edits)?;
    put_ray(alloc, asked, &directory, &last.command, out)
}
