ghost use Rattle.std.specs.Prelude.{◌≡◌, IfOk, MatchResult, Ok, Err};
ghost use Rattle.shot_core.specs.Regions.{IsScene};
ghost use Rattle.scene_prep.specs.Outcomes.{first_missing, IsSceneOf};

use crate::fault::PrepFault;
use crate::memo::Memo;
use crate::size::{MOST_SIZE, size_of};
use crate::walk::regions_of;
use directory::Directory;
use name_core::Name;
use shot_core::{Scene, SceneRegion};
use std::alloc::Global;

/// The first of the names that is not there.
fn first_missing(directory: &Directory, names: &[Name]) -> Option<Name>
    ensures { result ≡ first_missing directory.now.objects names.now }
{
    names
        .iter()
        .copied()
        .find(|name| directory.get(name).is_none())
}

/// The regions of a list of names, or why they are not prepared.
fn regions_or_fault(
    alloc: Global,
    directory: &Directory,
    names: &[Name],
    memo: Memo,
) -> Result<(Vec<SceneRegion>, Memo), PrepFault>
    ensures regions { MatchResult result (λ made. IsSceneOf (Ok made.0.items) directory.now.objects names.now) (λ fault. IsSceneOf (Err fault) directory.now.objects names.now) }
    ensures sound { IfOk result (λ made. IsScene made.0.items) }
{
    if let Some(name) = first_missing(directory, names) {
        return Err(PrepFault::Missing(name));
    }
    let size = size_of(alloc, directory, names)?;
    if size > MOST_SIZE {
        return Err(PrepFault::TooMany(size));
    }
    let made = regions_of(alloc, directory, names, memo)?;
    Ok(made)
}

/// The scene of a list of names: their regions in order, with places from 1. A solid is a region, and so is a combination that
/// is marked as one, whatever lies below it. Of another combination each member that its tree unites gives its regions, and each
/// node that it unites is one. A missing member and an empty combination give none. `Missing` comes first, for the first
/// name that is not in the directory, then `TooMany` where the size of the names is over `MOST_SIZE`.
pub fn prepare(alloc: Global, directory: &Directory, names: &[Name]) -> Result<Scene, PrepFault>
    ensures { IsSceneOf result directory.now.objects names.now }
{
    let (regions, _memo) = regions_or_fault(alloc, directory, names, Memo::new(alloc))?;
    Ok(Scene::new(alloc, regions)?)
}

/// The same scene, for which solids and bodies are taken again that stand at their places in the memo, without an index of its
/// instances. Where it fails the memo is empty after it.
pub fn prepare_again(
    alloc: Global,
    directory: &Directory,
    names: &[Name],
    memo: &mut Memo,
) -> Result<Scene, PrepFault>
    ensures { IsSceneOf result directory.now.objects names.now }
{
    let mut taken = std::mem::replace(memo, Memo::new(alloc));
    taken.restart();
    let (regions, made) = regions_or_fault(alloc, directory, names, taken)?;
    let scene = Scene::unindexed(alloc, regions)?;
    *memo = made;
    Ok(scene)
}
