ghost use Rattle.std.specs.Prelude.{◌≡◌, ◌≤◌, IfOk, IsSome, Some};
ghost use Rattle.std.specs.List.{Contains};
ghost use Rattle.name_core.specs.declared.name.Name.{Name};
ghost use Rattle.region_attr.specs.Ranges.{HasRanges};
ghost use Rattle.object_set.specs.Keeping.{kept_after};
ghost use Rattle.command_set.specs.declared.command.Edit.TheVariants.{Remove, Place, Keep, Set};
ghost use Rattle.directory.specs.Walks.{members_of, comb_weight};
ghost use Rattle.edit_core.specs.Edits.{object_at, setting_attr};
ghost use Rattle.edit_core.specs.Refused.{refusal_of};
ghost use Rattle.edit_core.specs.Steps.{Answers, Changes, Exchanges};

use crate::answers::directory_answer;
use crate::extensions::with_comb;
use crate::trees::{tree_placed, tree_without};
use command_set::{KeptPairs, NameList, NearPlacement, Refusal, Setting};
use directory::Directory;
use memory_core::Memory;
use name_core::Name;
use object_set::{Body, Object};
use region_attr::Attr;
use std::alloc::Global;

/// The combination without the entries of these names.
pub(crate) fn comb_without(
    alloc: Global,
    directory: &Directory,
    name: &Name,
    members: &NameList,
) -> Result<Object, Refusal>
    ensures { Answers (refusal_of directory.now (Remove name.now members.now)) (Changes directory.now (Remove name.now members.now) name.now) result }
{
    let Some(object) = directory.get(name) else {
        return Err(Refusal::Missing(*name));
    };
    let Body::Comb { attr, tree } = object.body() else {
        return Err(Refusal::NotComb(*name));
    };
    let left = tree_without(alloc, name, tree, members)?;
    with_comb(alloc, object, *attr, left)
}

/// The combination with each leaf of the member's name at this placement.
pub(crate) fn comb_placed(
    alloc: Global,
    directory: &Directory,
    name: &Name,
    member: &Name,
    placement: &NearPlacement,
) -> Result<Object, Refusal>
    ensures { Answers (refusal_of directory.now (Place name.now member.now placement.now)) (Changes directory.now (Place name.now member.now placement.now) name.now) result }
{
    let Some(object) = directory.get(name) else {
        return Err(Refusal::Missing(*name));
    };
    let Body::Comb { attr, tree } = object.body() else {
        return Err(Refusal::NotComb(*name));
    };
    let moved = tree_placed(alloc, tree, member, placement)?;
    with_comb(alloc, object, *attr, moved)
}

/// The attributes with one of them set.
fn attr_set(attr: Attr, setting: &Setting) -> Attr
    requires { HasRanges attr }
    ensures value { result ≡ setting_attr setting.now attr }
    ensures ranges { HasRanges result }
{
    let mut changed = attr;
    if changed.set(setting.key().bytes(), setting.value()).is_err() {
        unreachable!();
    }
    changed
}

/// The combination with one of its attributes set.
pub(crate) fn comb_set(
    alloc: Global,
    directory: &Directory,
    name: &Name,
    setting: &Setting,
) -> Result<Object, Refusal>
    ensures { Answers (refusal_of directory.now (Set name.now setting.now)) (Changes directory.now (Set name.now setting.now) name.now) result }
{
    let Some(object) = directory.get(name) else {
        return Err(Refusal::Missing(*name));
    };
    let Body::Comb { attr, tree } = object.body() else {
        return Err(Refusal::NotComb(*name));
    };
    let Ok(same) = tree.copy(alloc) else {
        return Err(Refusal::Memory);
    };
    with_comb(alloc, object, attr_set(*attr, setting), same)
}

/// The object with these attributes kept.
fn with_kept(alloc: Global, object: &Object, pairs: &KeptPairs) -> Result<Object, Memory>
    ensures { IfOk result (λ o. o ≡ record object.now { kept = kept_after object.now.kept pairs.now }) }
{
    let mut changed = object.copy(alloc)?;
    changed.keep(alloc, pairs.items())?;
    Ok(changed)
}

/// The object of the name with these attributes kept.
pub(crate) fn object_keeping(
    alloc: Global,
    directory: &Directory,
    name: &Name,
    pairs: &KeptPairs,
) -> Result<Object, Refusal>
    ensures { Answers (refusal_of directory.now (Keep name.now pairs.now)) (Changes directory.now (Keep name.now pairs.now) name.now) result }
{
    let Some(object) = directory.get(name) else {
        return Err(Refusal::Missing(*name));
    };
    match with_kept(alloc, object, pairs) {
        Ok(changed) => Ok(changed),
        Err(Memory) => Err(Refusal::Memory),
    }
}

/// Puts the object, which refers to nothing new, in the place of that of the name.
pub(crate) fn exchange(
    directory: &mut Directory,
    name: &Name,
    object: Object,
) -> Result<(), Refusal>
    requires there { IsSome (object_at directory.old name.now) }
    requires weight { comb_weight (Some object) ≤ comb_weight (object_at directory.old name.now) }
    requires names { (member : Name) → Contains (members_of (Some object)) member → Contains (members_of (object_at directory.old name.now)) member }
    ensures { Exchanges directory.old name.now object result directory.new }
{
    let _count = directory.len();
    let replaced = directory.replace(name, object);
    directory_answer(name, name, replaced)
}
