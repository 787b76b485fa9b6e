//! Puts into objects what was gathered for their names.
ghost use Rattle.std.specs.Prelude.{◌≡◌, IfOk, IsSome, OnOk, Some};
ghost use Rattle.object_set.specs.Objects.{Parts};
ghost use Rattle.directory.specs.Edits.{replaced};
ghost use Rattle.directory.specs.declared.fault.DirFault.TheVariants as dir;
ghost use Rattle.directory.specs.Walks.{object_of};
ghost use Rattle.asc_form.specs.Gathering.{keeping, settled, AreTexts, IsGathered, KeepsNames, Settles};

use directory::{DirFault, Directory};
use indexmap::IndexMap;
use memory_core::Memory;
use name_core::Name;
use object_set::{KeptAttr, KeptAttrs, Object};
use std::alloc::Global;

/// Attributes that objects are to keep, by the objects' names.
pub(crate) type Gathered = IndexMap<Name, KeptAttrs>;

/// The object with these attributes kept.
fn with_kept(alloc: Global, object: &Object, pairs: &[KeptAttr]) -> Result<Object, Memory>
    requires { AreTexts pairs.now }
    ensures { IfOk result (λ o. o ≡ keeping object.now pairs.now) }
{
    let mut changed = object.copy(alloc)?;
    changed.keep(alloc, pairs)?;
    Ok(changed)
}

/// The object of the name with these attributes kept.
fn object_keeping(
    alloc: Global,
    directory: &Directory,
    name: &Name,
    pairs: &[KeptAttr],
) -> Result<Object, Memory>
    requires there { IsSome (object_of directory.now.objects name.now) }
    requires texts { AreTexts pairs.now }
    ensures { (p : Parts) → object_of directory.now.objects name.now ≡ Some p → IfOk result (λ o. o ≡ keeping p pairs.now) }
{
    match directory.get(name) {
        Some(object) => with_kept(alloc, object, pairs),
        None => unreachable!(),
    }
}

/// A fault that can be nothing but want of memory.
fn memory_of(fault: DirFault) -> Memory
    requires { fault ≡ dir.Memory }
{
    match fault {
        DirFault::Memory => Memory,
        _ => unreachable!(),
    }
}

/// Puts an object, which refers to the same names, in the place of that of the name.
fn exchange(directory: &mut Directory, name: &Name, object: Object) -> Result<(), Memory>
    requires { KeepsNames directory.old.objects name.now object }
    ensures { OnOk result (directory.new ≡ record directory.old { objects = replaced directory.old.objects name.now object }) }
{
    let _count = directory.len();
    match directory.replace(name, object) {
        Ok(()) => Ok(()),
        Err(fault) => Err(memory_of(fault)),
    }
}

/// Keeps what was gathered for a name of the name's object.
fn keep_gathered(
    alloc: Global,
    directory: &mut Directory,
    name: &Name,
    pairs: &[KeptAttr],
) -> Result<(), Memory>
    requires there { IsSome (object_of directory.old.objects name.now) }
    requires texts { AreTexts pairs.now }
    ensures { OnOk result (Settles name.now pairs.now directory.old directory.new) }
{
    let _count = directory.len();
    let object = object_keeping(alloc, directory, name, pairs)?;
    exchange(directory, name, object)
}

/// Each object keeps what was gathered for its name.
pub(crate) fn keep_all(
    alloc: Global,
    mut directory: Directory,
    gathered: Gathered,
) -> Result<Directory, Memory>
    requires { IsGathered directory.objects gathered.entries }
    ensures { IfOk result (λ d. d ≡ record directory { objects = settled directory.objects gathered.entries }) }
{
    for (name, pairs) in gathered {
        keep_gathered(alloc, &mut directory, &name, pairs.items())?;
    }
    Ok(directory)
}
