ghost use Rattle.std.specs.Prelude.{◌≡◌, map, IfOk};
ghost use Rattle.std.specs.List.{IsDistinct};
ghost use Rattle.indexmap.specs.IndexMap.{IsUnique};
ghost use Rattle.name_core.specs.Same.{same_name};
ghost use Rattle.object_set.specs.Objects.{keys_of_kept};
ghost use Rattle.object_set.specs.Keeping.{kept_after};
ghost use Rattle.object_set.specs.Noting.{attribute_of, noted_after};

use crate::kept::{KeptAttr, KeptAttrs, copy_of_value};
use indexmap::IndexMap;
use item_list::Items;
use memory_core::Memory;
use name_core::Name;
use std::alloc::Global;

/// Attributes to be looked up by their keys, in the order in which the keys came first.
type Noted = IndexMap<Name, Items<u8>>;

/// Notes each pair in turn.
fn note_all(alloc: Global, noted: &mut Noted, pairs: &[KeptAttr]) -> Result<(), Memory>
    ensures { IfOk result (λ _. noted.new.entries ≡ noted_after noted.old.entries pairs.now) }
{
    for pair in pairs {
        let value = copy_of_value(alloc, pair.value.items())?;
        noted.insert(pair.name, value)?;
    }
    Ok(())
}

fn list_of(alloc: Global, noted: Noted) -> Result<KeptAttrs, Memory>
    ensures { IfOk result (λ v. v ≡ map attribute_of noted.entries) }
{
    let mut list = Items::new(alloc);
    for (name, value) in noted {
        list.push(KeptAttr { name, value })?;
    }
    Ok(list)
}

/// The attributes after each pair was kept in turn.
pub(crate) fn kept_with(
    alloc: Global,
    kept: &[KeptAttr],
    pairs: &[KeptAttr],
) -> Result<KeptAttrs, Memory>
    requires { IsDistinct same_name (keys_of_kept kept.now) }
    ensures { IfOk result (λ v. v ≡ kept_after kept.now pairs.now) }
{
    let mut noted = IndexMap::new(alloc);
    note_all(alloc, &mut noted, kept)?;
    note_all(alloc, &mut noted, pairs)?;
    list_of(alloc, noted)
}
