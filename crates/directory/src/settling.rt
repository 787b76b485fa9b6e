//! A gathered list is judged as a whole: its depths are found at once, and where it may not stand, the first pair that makes
//! it so is found by halving.
ghost use Rattle.std.specs.Prelude.{◌≡◌, ◌<◌, ◌≤◌, ◌+◌, true, false, length, take, Some, OnOk, IfOk, IfErr};
ghost use Rattle.object_pages.specs.Entries.{AreFew};
ghost use Rattle.directory.specs.Depths.{AreDepths};
ghost use Rattle.directory.specs.Drafts.{gather_fault, IsFirstRefused, IsRefused};
ghost use Rattle.directory.specs.Edits.{appended, judged, Follows};
ghost use Rattle.directory.specs.Places.{known_depths};
ghost use Rattle.directory.specs.Walks.{IsSound, deepest, most_depth, most_objects};

use crate::contents::Contents;
use crate::depths::Depths;
use crate::draft::DraftFault;
use crate::fault::DirFault;
use crate::gathered::Gathered;
use crate::levels::{UNBOUNDED, greatest};
use crate::limit::DEPTH;
use crate::walk::find_first;
use memory_core::Memory;
use name_core::Name;
use object_pages::{OBJECTS, ObjectPages, nodes_of};
use object_set::Object;
use std::alloc::Global;

/// Adds a pair at the end, whether or not the result may stand.
pub(crate) fn gather(objects: &mut Gathered, name: &Name, object: Object) -> Result<(), DirFault>
    requires small { length objects.old ≤ most_objects }
    requires few { AreFew objects.old }
    ensures answer { Follows objects.old (gather_fault objects.old name.now) (appended objects.old name.now object) result objects.new }
    ensures small { length objects.new ≤ most_objects }
    ensures few { AreFew objects.new }
{
    let _nodes = nodes_of(&object);
    if objects.get(name).is_some() {
        return Err(DirFault::Exists);
    }
    if objects.len() >= OBJECTS {
        return Err(DirFault::Full);
    }
    match objects.push(name, object) {
        Ok(()) => Ok(()),
        Err(_) => Err(DirFault::Memory),
    }
}

/// So many depths, none of which is known.
fn unknown_depths(alloc: Global, count: usize) -> Result<Vec<u8>, Memory>
    ensures { IfOk result (λ depths. length depths.items ≡ count) }
{
    let mut depths = Vec::new(alloc);
    depths.resize(count, UNBOUNDED)?;
    Ok(depths)
}

/// Finds the depths of the first pairs, and says whether these may stand.
fn stand(objects: &Gathered, depths: &mut [u8], count: usize) -> bool
    requires len { length depths.old ≡ count }
    requires count { count ≤ length objects.now }
    ensures known { result ≡ true → depths.new ≡ known_depths (take count objects.now) }
    ensures sound { result ≡ true → deepest (take count objects.now) ≤ most_depth }
    ensures refused { result ≡ false → most_depth < deepest (take count objects.now) }
{
    find_first(objects, depths, count) && greatest(depths) <= DEPTH
}

/// Finds the depths of all pairs, and says whether they may stand.
fn all_stand(objects: &Gathered, depths: &mut Vec<u8>) -> bool
    requires { length depths.old.items ≡ length objects.now }
    ensures known { result ≡ true → depths.new.items ≡ known_depths objects.now }
    ensures sound { result ≡ true → deepest objects.now ≤ most_depth }
    ensures refused { result ≡ false → most_depth < deepest objects.now }
    ensures len { length depths.new.items ≡ length objects.now }
{
    stand(objects, depths.as_mut_slice(), objects.len())
}

/// How many pairs stand before the first that may not be put behind them.
fn count_standing(objects: &Gathered, depths: &mut [u8]) -> usize
    requires len { length depths.old ≡ length objects.now }
    requires refused { most_depth < deepest objects.now }
    ensures within { result < length objects.now }
    ensures sound { deepest (take result objects.now) ≤ most_depth }
    ensures refused { most_depth < deepest (take (result + 1) objects.now) }
{
    let mut standing = 0;
    let mut refused = objects.len();
    while refused - standing > 1 {
        let middle = standing + (refused - standing) / 2;
        if stand(objects, &mut depths[..middle], middle) {
            standing = middle;
        } else {
            refused = middle;
        }
    }
    standing
}

/// Why the first pairs, of which that of the name is the last, may not stand.
fn fault_of(objects: &Gathered, depths: &mut [u8], count: usize, name: &Name) -> DirFault
    requires len { length depths.old ≡ count }
    requires count { count ≤ length objects.now }
    requires refused { most_depth < deepest (take count objects.now) }
    ensures { judged (take count objects.now) name.now ≡ Some result }
{
    if find_first(objects, depths, count) {
        DirFault::Deep(u32::from(greatest(depths)))
    } else {
        DirFault::Cycle(*name)
    }
}

/// Why the pair at the place may not be put behind those before it.
fn fault_at(objects: &Gathered, depths: &mut [u8], place: usize) -> DirFault
    requires len { length depths.old ≡ length objects.now }
    requires small { length objects.now ≤ most_objects }
    requires within { place < length objects.now }
    requires sound { deepest (take place objects.now) ≤ most_depth }
    requires refused { most_depth < deepest (take (place + 1) objects.now) }
    ensures { IsFirstRefused objects.now place result }
{
    let _count = objects.len();
    match objects.at(place) {
        Some((name, _object)) => { fault_of(objects, &mut depths[..place + 1], place + 1, name) }
        None => unreachable!(),
    }
}

/// The first pair that may not be put behind those before it.
fn first_refused(objects: &Gathered, depths: &mut Vec<u8>) -> DraftFault
    requires len { length depths.old.items ≡ length objects.now }
    requires small { length objects.now ≤ most_objects }
    requires refused { most_depth < deepest objects.now }
    ensures { IsRefused objects.now result }
{
    let place = count_standing(objects, depths.as_mut_slice());
    let fault = fault_at(objects, depths.as_mut_slice(), place);
    DraftFault::At {
        place: place as u32,
        fault,
    }
}

/// The list on pages.
fn list_of(alloc: Global, objects: &Gathered) -> Result<ObjectPages, Memory>
    requires small { length objects.now ≤ most_objects }
    requires few { AreFew objects.now }
    ensures { IfOk result (λ l. l ≡ objects.now) }
{
    let count = objects.len();
    let mut list = ObjectPages::new(alloc);
    for place in 0..count {
        if let Some((name, object)) = objects.share_at(place)? {
            list = list.append(alloc, name, object)?;
        }
    }
    Ok(list)
}

/// The depths by name of those by place.
fn depths_of(alloc: Global, objects: &Gathered, depths: &[u8]) -> Result<Depths, Memory>
    requires { depths.now ≡ known_depths objects.now }
    ensures { IfOk result (λ levels. AreDepths objects.now levels) }
{
    let _count = objects.len();
    let mut levels = Depths::new(alloc);
    for place in 0..depths.len() {
        if let Some((name, _object)) = objects.at(place) {
            if depths[place] > 0 {
                levels = levels.set(alloc, name, depths[place])?;
            }
        }
    }
    Ok(levels)
}

/// The contents of a list that may stand, or its first pair that may not be put behind those before it.
pub(crate) fn settle_pairs(alloc: Global, objects: Gathered) -> Result<Contents, DraftFault>
    requires small { length objects ≤ most_objects }
    requires few { AreFew objects }
    ensures sound { OnOk result (IsSound objects) }
    ensures list { IfOk result (λ c. c ≡ objects) }
    ensures refused { IfErr result (λ fault. IsRefused objects fault) }
{
    let mut depths = unknown_depths(alloc, objects.len())?;
    if !all_stand(&objects, &mut depths) {
        return Err(first_refused(&objects, &mut depths));
    }
    let levels = depths_of(alloc, &objects, &depths)?;
    let list = list_of(alloc, &objects)?;
    Ok(Contents::of_parts(list, levels))
}
