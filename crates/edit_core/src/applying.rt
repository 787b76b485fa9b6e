ghost use Rattle.std.specs.Prelude.{◌≡◌, find, not};
ghost use Rattle.command_set.specs.declared.command.Edit.TheVariants.{Make, Remove, Kill, RenameAll, Place, Title, Keep, Set};
ghost use Rattle.edit_core.specs.Edits.{made};
ghost use Rattle.edit_core.specs.Refused.{is_there};
ghost use Rattle.edit_core.specs.Outcomes.{IsApplied, Tells};
ghost use Rattle.edit_core.specs.Steps.{extension};

use crate::answers::directory_answer;
use crate::extensions::{extended_comb, set_object};
use crate::objects::{comb_placed, comb_set, comb_without, exchange, object_keeping};
use command_set::{
    Edit, HeldObject, KeptPairs, MemberList, NameList, NearPlacement, Refusal, Setting, TitleText,
};
use directory::Directory;
use name_core::Name;
use std::alloc::Global;

/// Appends a new object.
fn make(directory: &mut Directory, name: &Name, object: &HeldObject) -> Result<(), Refusal>
    ensures applied { IsApplied result (Make name.now object.now) directory.old directory.new }
    ensures means { Tells result (made directory.old (Make name.now object.now)) }
{
    let Ok(share) = object.share() else {
        return Err(Refusal::Memory);
    };
    let put = directory.put_shared(name, share);
    directory_answer(name, name, put)
}

/// Makes a combination of these members, or appends them to one.
fn extend(
    alloc: Global,
    directory: &mut Directory,
    name: &Name,
    list: &MemberList,
    is_region: bool,
) -> Result<(), Refusal>
    ensures applied { IsApplied result (extension is_region name.now list.now) directory.old directory.new }
    ensures means { Tells result (made directory.old (extension is_region name.now list.now)) }
{
    let object = extended_comb(alloc, directory, name, list, is_region)?;
    set_object(directory, name, object)
}

/// Removes entries from a combination.
fn remove(
    alloc: Global,
    directory: &mut Directory,
    name: &Name,
    members: &NameList,
) -> Result<(), Refusal>
    ensures applied { IsApplied result (Remove name.now members.now) directory.old directory.new }
    ensures means { Tells result (made directory.old (Remove name.now members.now)) }
{
    let object = comb_without(alloc, directory, name, members)?;
    exchange(directory, name, object)
}

/// The first of the names that is not there.
fn first_missing(directory: &Directory, names: &[Name]) -> Option<Name>
    ensures { result ≡ find (λ name. not (is_there directory.now name)) names.now }
{
    names
        .iter()
        .copied()
        .find(|name| directory.get(name).is_none())
}

/// Removes objects, and leaves the references to them.
fn kill(alloc: Global, directory: &mut Directory, names: &NameList) -> Result<(), Refusal>
    ensures applied { IsApplied result (Kill names.now) directory.old directory.new }
    ensures means { Tells result (made directory.old (Kill names.now)) }
{
    if let Some(name) = first_missing(directory, names.items()) {
        return Err(Refusal::Missing(name));
    }
    if directory.remove_all(alloc, names.items()).is_err() {
        return Err(Refusal::Memory);
    }
    let _count = directory.len();
    Ok(())
}

/// Gives an object, and each member of its name, a new name.
fn rename_all(
    alloc: Global,
    directory: &mut Directory,
    old: &Name,
    new: &Name,
) -> Result<(), Refusal>
    ensures applied { IsApplied result (RenameAll old.now new.now) directory.old directory.new }
    ensures means { Tells result (made directory.old (RenameAll old.now new.now)) }
{
    let renamed = directory.rename_all(alloc, old, new);
    directory_answer(new, old, renamed)
}

/// Sets the placement of each leaf of a name.
fn place(
    alloc: Global,
    directory: &mut Directory,
    name: &Name,
    member: &Name,
    placement: &NearPlacement,
) -> Result<(), Refusal>
    ensures applied { IsApplied result (Place name.now member.now placement.now) directory.old directory.new }
    ensures means { Tells result (made directory.old (Place name.now member.now placement.now)) }
{
    let object = comb_placed(alloc, directory, name, member, placement)?;
    exchange(directory, name, object)
}

/// Sets the title.
fn set_title(alloc: Global, directory: &mut Directory, text: &TitleText) -> Result<(), Refusal>
    ensures applied { IsApplied result (Title text.now) directory.old directory.new }
    ensures means { Tells result (made directory.old (Title text.now)) }
{
    if directory.set_title(alloc, text.bytes()).is_err() {
        return Err(Refusal::Memory);
    }
    let _count = directory.len();
    Ok(())
}

/// Keeps attributes of an object.
fn keep(
    alloc: Global,
    directory: &mut Directory,
    name: &Name,
    pairs: &KeptPairs,
) -> Result<(), Refusal>
    ensures applied { IsApplied result (Keep name.now pairs.now) directory.old directory.new }
    ensures means { Tells result (made directory.old (Keep name.now pairs.now)) }
{
    let object = object_keeping(alloc, directory, name, pairs)?;
    exchange(directory, name, object)
}

/// Sets one of the attributes of a combination.
fn set(
    alloc: Global,
    directory: &mut Directory,
    name: &Name,
    setting: &Setting,
) -> Result<(), Refusal>
    ensures applied { IsApplied result (Set name.now setting.now) directory.old directory.new }
    ensures means { Tells result (made directory.old (Set name.now setting.now)) }
{
    let object = comb_set(alloc, directory, name, setting)?;
    exchange(directory, name, object)
}

/// Applies an edit to a directory. It is refused for the first refusal that holds, in the order of `Refusal`, of which
/// `Memory` may stand in place of any answer; the directory is then as before.
pub fn apply(alloc: Global, directory: &mut Directory, edit: &Edit) -> Result<(), Refusal>
    ensures applied { IsApplied result edit.now directory.old directory.new }

    // After `Cycle` and `Deep` the directory would have that cycle or that depth, and else it would be sound.
    ensures means { Tells result (made directory.old edit.now) }
{
    match edit {
        Edit::Make { name, object } => make(directory, name, object),
        Edit::Region { name, list } => extend(alloc, directory, name, list, true),
        Edit::Group { name, list } => extend(alloc, directory, name, list, false),
        Edit::Remove { comb, members } => remove(alloc, directory, comb, members),
        Edit::Kill { names } => kill(alloc, directory, names),
        Edit::RenameAll { old, new } => rename_all(alloc, directory, old, new),
        Edit::Place {
            comb,
            member,
            placement,
        } => place(alloc, directory, comb, member, placement),
        Edit::Title { text } => set_title(alloc, directory, text),
        Edit::Keep { name, pairs } => keep(alloc, directory, name, pairs),
        Edit::Set { name, setting } => set(alloc, directory, name, setting),
    }
}
