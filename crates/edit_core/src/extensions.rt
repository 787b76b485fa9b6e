ghost use Rattle.std.specs.Prelude.{◌≡◌, ◌∷◌, [], Some, None, length};
ghost use Rattle.region_attr.specs.Ranges.{HasRanges};
ghost use Rattle.object_set.specs.Objects.{IsComb};
ghost use Rattle.object_set.specs.declared.object.Body.TheVariants as bodies;
ghost use Rattle.edit_core.specs.Edits.{object_at, extended, set_object};
ghost use Rattle.edit_core.specs.Refused.{first_refusal, over_members};
ghost use Rattle.edit_core.specs.Outcomes.{Tells};
ghost use Rattle.edit_core.specs.Steps.{Answers, Becomes, new_attr, change_of_attr, extension_refusal, set_refusal};

use crate::answers::directory_answer;
use crate::trees::{tree_of, tree_with};
use comb_tree::CombTree;
use command_set::{MemberList, Refusal};
use directory::Directory;
use name_core::Name;
use object_set::{Body, Object};
use region_attr::Attr;
use std::alloc::Global;

/// The object with other attributes and another tree.
pub(crate) fn with_comb(
    alloc: Global,
    object: &Object,
    attr: Attr,
    tree: CombTree,
) -> Result<Object, Refusal>
    requires { IsComb attr tree }
    ensures { Answers None (λ o. o ≡ record { body = bodies.Comb attr tree; kept = object.now.kept }) result }
{
    match object.with_comb(alloc, attr, tree) {
        Ok(object) => Ok(object),
        Err(_) => Err(Refusal::Memory),
    }
}

/// The attributes of a new combination.
fn new_attr(is_region: bool) -> Attr
    ensures value { result ≡ new_attr is_region }
    ensures ranges { HasRanges result }
{
    if is_region {
        Attr::of_region()
    } else {
        Attr::of_group()
    }
}

/// The attributes of a combination that is extended.
fn changed_attr(attr: Attr, is_region: bool) -> Attr
    requires { HasRanges attr }
    ensures value { result ≡ change_of_attr is_region attr }
    ensures ranges { HasRanges result }
{
    if is_region {
        Attr {
            region: true,
            ..attr
        }
    } else {
        attr
    }
}

/// A new combination of these members.
fn new_comb(alloc: Global, list: &MemberList, is_region: bool) -> Result<Object, Refusal>
    ensures { Answers (first_refusal (over_members (length list.now) ∷ [])) (λ o. o ≡ extended (new_attr is_region) (change_of_attr is_region) list.now None) result }
{
    let tree = tree_of(alloc, list)?;
    Ok(Object::of_comb(alloc, new_attr(is_region), tree))
}

/// The combination with these members after its own.
fn longer_comb(
    alloc: Global,
    name: &Name,
    object: &Object,
    list: &MemberList,
    is_region: bool,
) -> Result<Object, Refusal>
    ensures { Answers (extension_refusal name.now list.now (Some object.now)) (λ o. o ≡ extended (new_attr is_region) (change_of_attr is_region) list.now (Some object.now)) result }
{
    let Body::Comb { attr, tree } = object.body() else {
        return Err(Refusal::NotComb(*name));
    };
    let longer = tree_with(alloc, name, tree, list)?;
    with_comb(alloc, object, changed_attr(*attr, is_region), longer)
}

/// A new combination of these members, or that of the name with them after its own.
pub(crate) fn extended_comb(
    alloc: Global,
    directory: &Directory,
    name: &Name,
    list: &MemberList,
    is_region: bool,
) -> Result<Object, Refusal>
    ensures { Answers (extension_refusal name.now list.now (object_at directory.now name.now)) (λ o. o ≡ extended (new_attr is_region) (change_of_attr is_region) list.now (object_at directory.now name.now)) result }
{
    match directory.get(name) {
        Some(object) => longer_comb(alloc, name, object, list, is_region),
        None => new_comb(alloc, list, is_region),
    }
}

/// Puts the object in the place of that of its name, or to the end where there is none.
pub(crate) fn set_object(
    directory: &mut Directory,
    name: &Name,
    object: Object,
) -> Result<(), Refusal>
    ensures set { Becomes (set_refusal directory.old.objects name.now object) directory.old (set_object directory.old.objects name.now object) result directory.new }
    ensures means { Tells result (record directory.old { objects = set_object directory.old.objects name.now object }) }
{
    if directory.get(name).is_some() {
        let replaced = directory.replace(name, object);
        return directory_answer(name, name, replaced);
    }
    let put = directory.put(name, object);
    directory_answer(name, name, put)
}
