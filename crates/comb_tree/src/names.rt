ghost use Rattle.std.specs.Prelude.{◌≡◌, IfOk, map, find, not};
ghost use Rattle.std.specs.HashSet.{IsFromIterResult, contains};
ghost use Rattle.name_core.specs.Same.{same_name};
ghost use Rattle.comb_tree.specs.Changes.{names_of};

use crate::node::ListEntry;
use memory_core::Memory;
use name_core::Name;
use std::alloc::Global;
use std::collections::HashSet;

/// The names, to be looked up.
pub(crate) fn set_of(alloc: Global, names: &[Name]) -> Result<HashSet<Name>, Memory>
    ensures { IfOk result (IsFromIterResult same_name names.now) }
{
    Ok(names.iter().copied().collect(alloc)?)
}

/// The names of the entries, to be looked up.
pub(crate) fn set_of_entries(alloc: Global, list: &[ListEntry]) -> Result<HashSet<Name>, Memory>
    ensures { IfOk result (IsFromIterResult same_name (names_of list.now)) }
{
    Ok(list.iter().map(|entry| entry.name).collect(alloc)?)
}

pub(crate) fn has(set: &HashSet<Name>, name: Name) -> bool
    ensures { result ≡ contains same_name set.now name }
{
    set.contains(&name)
}

/// The first of the names that the set has not.
pub(crate) fn first_missing(names: &[Name], set: &HashSet<Name>) -> Option<Name>
    ensures { result ≡ find (λ n. not (contains same_name set.now n)) names.now }
{
    names.iter().copied().find(|name| !has(set, *name))
}
