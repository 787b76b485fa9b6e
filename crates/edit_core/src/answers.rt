ghost use Rattle.std.specs.Prelude.{◌≡◌};
ghost use Rattle.edit_core.specs.Steps.{tree_refusal, tree_answer, directory_refusal, directory_answer};

use comb_tree::{CombTree, TreeFault};
use command_set::Refusal;
use directory::DirFault;
use name_core::Name;

/// The refusal of an edit of a combination whose tree refuses it.
fn tree_refusal(name: &Name, fault: TreeFault) -> Refusal
    ensures { result ≡ tree_refusal name.now fault }
{
    match fault {
        TreeFault::NotList => Refusal::NotList(*name),
        TreeFault::Absent(member) => Refusal::Absent(member),
        TreeFault::Heads(member) => Refusal::Heads(member),
        TreeFault::Members(count) => Refusal::Members(count),
        TreeFault::Memory => Refusal::Memory,
    }
}

/// The tree after a change of it, or the refusal.
pub(crate) fn tree_answer(
    name: &Name,
    changed: Result<(), TreeFault>,
    tree: CombTree,
) -> Result<CombTree, Refusal>
    ensures { result ≡ tree_answer name.now changed tree }
{
    match changed {
        Ok(()) => Ok(tree),
        Err(fault) => Err(tree_refusal(name, fault)),
    }
}

/// The refusal of an edit that the directory refuses: of the name that is to be new, and of that which is to be there.
fn directory_refusal(new: &Name, old: &Name, fault: DirFault) -> Refusal
    ensures { result ≡ directory_refusal new.now old.now fault }
{
    match fault {
        DirFault::Exists => Refusal::Exists(*new),
        DirFault::Missing => Refusal::Missing(*old),
        DirFault::Full => Refusal::Full,
        DirFault::Cycle(name) => Refusal::Cycle(name),
        DirFault::Deep(depth) => Refusal::Deep(depth),
        DirFault::Memory => Refusal::Memory,
    }
}

/// The answer of an edit by that of the directory.
pub(crate) fn directory_answer(
    new: &Name,
    old: &Name,
    changed: Result<(), DirFault>,
) -> Result<(), Refusal>
    ensures { result ≡ directory_answer new.now old.now changed }
{
    match changed {
        Ok(()) => Ok(()),
        Err(fault) => Err(directory_refusal(new, old, fault)),
    }
}
