ghost use Rattle.std.specs.Prelude.{◌∷◌, [], ◌++◌, length};
ghost use Rattle.comb_tree.specs.Lists.{tree_of_list};
ghost use Rattle.comb_tree.specs.Changes.{map_members, placed, without, is_among};
ghost use Rattle.edit_core.specs.Refused.{first_refusal, over_members};
ghost use Rattle.edit_core.specs.Steps.{Answers, list_or_empty, IsLawful, IsTree, IsLess, append_refusal, remove_refusal, place_refusal};

use crate::answers::tree_answer;
use comb_tree::{CombTree, TreeFault};
use command_set::{MemberList, NameList, NearPlacement, Refusal};
use name_core::Name;
use std::alloc::Global;

/// The tree of a list of members.
pub(crate) fn tree_of(alloc: Global, list: &MemberList) -> Result<CombTree, Refusal>
    ensures { Answers (first_refusal (over_members (length list.now) ∷ [])) (IsTree (tree_of_list list.now)) result }
{
    match CombTree::of_list(alloc, list.items()) {
        Ok(tree) => Ok(tree),
        Err(TreeFault::Members(count)) => Err(Refusal::Members(count)),
        Err(_) => Err(Refusal::Memory),
    }
}

/// The tree with a list of members after its own.
pub(crate) fn tree_with(
    alloc: Global,
    name: &Name,
    tree: &CombTree,
    list: &MemberList,
) -> Result<CombTree, Refusal>
    requires { IsLawful tree.now }
    ensures { Answers (append_refusal name.now list.now tree.now) (IsTree (tree_of_list (list_or_empty tree.now ++ list.now))) result }
{
    let Ok(mut longer) = tree.copy(alloc) else {
        return Err(Refusal::Memory);
    };
    let appended = longer.append(alloc, list.items());
    tree_answer(name, appended, longer)
}

/// The tree without the entries of these names.
pub(crate) fn tree_without(
    alloc: Global,
    name: &Name,
    tree: &CombTree,
    names: &NameList,
) -> Result<CombTree, Refusal>
    requires { IsLawful tree.now }
    ensures { Answers (remove_refusal name.now names.now tree.now) (IsLess tree.now (tree_of_list (without (is_among names.now) (list_or_empty tree.now)))) result }
{
    let Ok(mut left) = tree.copy(alloc) else {
        return Err(Refusal::Memory);
    };
    let removed = left.remove(alloc, names.items());
    tree_answer(name, removed, left)
}

/// The tree with each leaf of the name at this placement.
pub(crate) fn tree_placed(
    alloc: Global,
    tree: &CombTree,
    member: &Name,
    placement: &NearPlacement,
) -> Result<CombTree, Refusal>
    requires { IsLawful tree.now }
    ensures { Answers (place_refusal member.now tree.now) (IsLess tree.now (map_members (placed member.now placement.now) tree.now)) result }
{
    let Ok(mut moved) = tree.copy(alloc) else {
        return Err(Refusal::Memory);
    };
    if moved.place_leaf(member, placement.placement()) == 0 {
        return Err(Refusal::Absent(*member));
    }
    Ok(moved)
}
