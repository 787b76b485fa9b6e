//! Shots at small scenes made at random, compared with a plain evaluator of their definition.

ghost use Rattle.lattice_core.specs.declared.limit.TheConstants.{WORLD};
ghost use Rattle.lattice_core.specs.Limits.{IsWithin};

use crate::random::random_script;
use crate::scripts::commands_of;
use crate::shots::shoot_uncounted;
use crate::texts::{long_in, number_in, put_number, three_words, two_fields, two_words};
use case_text::{CaseFault, Shown};
use command_set::{Command, Query};
use directory::Directory;
use edit_core::apply;
use lattice_core::Ray;
use name_core::Name;
use plain_shot::{plain_overlaps, plain_partitions};
use scene_prep::prepare;
use shot_core::{Scene, check_ray};
use std::alloc::Global;

/// How many shots were compared, how many of these differ, and what they met.
#[derive(Drop)]
struct Compared {
    shots: usize,
    differ: usize,
    partitions: usize,
    overlaps: usize,
}

impl Compared {
    fn none() -> Compared {
        Compared {
            shots: 0,
            differ: 0,
            partitions: 0,
            overlaps: 0,
        }
    }

    /// Whether none differ, and there are over so many.
    fn is_more(&self, most: &Compared) -> bool {
        self.differ == 0
            && self.shots > most.shots
            && self.partitions > most.partitions
            && self.overlaps > most.overlaps
    }

    fn put_to(&self, out: &mut Shown) {
        put_number(out, b"differ ", self.differ as u64);
        put_number(out, b" shots ", self.shots as u64);
        put_number(out, b" partitions ", self.partitions as u64);
        put_number(out, b" overlaps ", self.overlaps as u64);
    }
}

/// The numbers of `SHOTS PARTITIONS OVERLAPS`.
fn most_of(alloc: Global, text: &[u8]) -> Result<Compared, CaseFault> {
    let (shots, partitions, overlaps) = three_words(alloc, text)?;
    Ok(Compared {
        shots: number_in(shots)? as usize,
        differ: 0,
        partitions: number_in(partitions)? as usize,
        overlaps: number_in(overlaps)? as usize,
    })
}

/// Whether a ray meets of a scene what the plain evaluator says, with the number of partitions.
fn shoot_both(alloc: Global, scene: &Scene, ray: &Ray) -> Result<(bool, usize), CaseFault>
    requires { IsWithin WORLD ray.now.origin }
{
    let lit = shoot_uncounted(alloc, scene, ray)?;
    let plain = plain_partitions(alloc, scene, ray)?;
    Ok((lit.as_slice() == plain.as_slice(), lit.len()))
}

/// Whether the overlaps on a ray are those that the plain evaluator says, with their number.
fn check_both(alloc: Global, scene: &Scene, ray: &Ray) -> Result<(bool, usize), CaseFault>
    requires { IsWithin WORLD ray.now.origin }
{
    let Ok(runs) = check_ray(alloc, scene, ray) else {
        return Err(CaseFault::Memory);
    };
    let plain = plain_overlaps(alloc, scene, ray)?;
    Ok((runs.as_slice() == plain.as_slice(), runs.len()))
}

/// Compares a shot at the scene of names, where they have one.
fn compare_shot(
    alloc: Global,
    directory: &Directory,
    ray: &Ray,
    names: &[Name],
    compared: &mut Compared,
) -> Result<(), CaseFault>
    requires { IsWithin WORLD ray.now.origin }
{
    let Ok(scene) = prepare(alloc, directory, names) else {
        return Ok(());
    };
    let (is_shot_alike, partitions) = shoot_both(alloc, &scene, ray)?;
    let (is_check_alike, overlaps) = check_both(alloc, &scene, ray)?;
    if !(is_shot_alike && is_check_alike) {
        compared.differ = compared.differ.saturating_add(1);
    }
    compared.shots = compared.shots.saturating_add(1);
    compared.partitions = compared.partitions.saturating_add(partitions);
    compared.overlaps = compared.overlaps.saturating_add(overlaps);
    Ok(())
}

/// Does what a command asks for; a shot is compared.
fn compare_command(
    alloc: Global,
    directory: &mut Directory,
    command: &Command,
    compared: &mut Compared,
) -> Result<(), CaseFault> {
    match command {
        Command::Edit(edit) => {
            let _answer = apply(alloc, directory, edit);
            Ok(())
        }
        Command::Query(Query::Shot { ray, names }) => {
            compare_shot(alloc, directory, &ray.ray(), names.items(), compared)
        }
        _ => Ok(()),
    }
}

/// Compares the shots of a script.
fn compare_script(alloc: Global, script: &[u8], compared: &mut Compared) -> Result<(), CaseFault> {
    let mut directory = Directory::new(alloc);
    for next in commands_of(alloc, script)?.items() {
        compare_command(alloc, &mut directory, &next.command, compared)?;
    }
    Ok(())
}

/// Compares the shots of so many scripts.
fn compare_scripts(alloc: Global, seed: u64, scripts: u64) -> Result<Compared, CaseFault> {
    let mut state = seed;
    let mut compared = Compared::none();
    for _turn in 0..scripts {
        let script = random_script(alloc, &mut state)?;
        compare_script(alloc, script.as_bytes(), &mut compared)?;
    }
    Ok(compared)
}

/// `compare SEED SCRIPTS | SHOTS PARTITIONS OVERLAPS => all alike, enough`: shots of so many random scripts are answered as
/// the plain evaluator says, and there are over SHOTS shots, over PARTITIONS partitions and over OVERLAPS overlaps.
pub fn answer_compare(alloc: Global, given: &[u8], out: &mut Shown) -> Result<(), CaseFault> {
    let (made, most) = two_fields(given)?;
    let (seed, scripts) = two_words(alloc, made)?;
    let most = most_of(alloc, most)?;
    let compared = compare_scripts(alloc, long_in(seed)?, long_in(scripts)?)?;
    if compared.is_more(&most) {
        out.put(b"all alike, enough");
    } else {
        compared.put_to(out);
    }
    Ok(())
}
