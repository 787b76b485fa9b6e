ghost use Rattle.std.specs.Prelude.{◌≡◌, ◌↔◌, All, IfOk, IsTrue};
ghost use Rattle.object_set.specs.declared.kept.KeptAttr.{KeptAttr};
ghost use Rattle.object_set.specs.TextValues.{IsTextValue};

use crate::text_value::is_text_value;
use item_list::Items;
use memory_core::Memory;
use name_core::Name;
use std::alloc::Global;

/// An attribute that has no effect and is written back: its key, and its value, a text of at most 1,024 bytes without
/// line feed and carriage return that can stand between braces.
#[derive(Debug, PartialEq, Eq, Drop)]
pub struct KeptAttr {
    pub name: Name,
    pub value: Items<u8>,
}

/// The kept attributes of an object, in the order in which their keys came first.
pub type KeptAttrs = Items<KeptAttr>;

pub(crate) fn copy_of_value(alloc: Global, value: &[u8]) -> Result<Items<u8>, Memory>
    ensures { IfOk result (λ v. v ≡ value.now) }
{
    Ok(Items::of_vec(Vec::from_slice(alloc, value)?))
}

impl KeptAttr {
    /// The same attribute again.
    pub fn copy(&self, alloc: Global) -> Result<KeptAttr, Memory>
        ensures { IfOk result (λ k. k ≡ self.now) }
    {
        let value = copy_of_value(alloc, self.value.items())?;
        Ok(KeptAttr {
            name: self.name,
            value,
        })
    }
}

/// Whether the value of each of the attributes is such a text.
pub fn have_text_values(pairs: &[KeptAttr]) -> bool
    ensures { IsTrue result ↔ All (λ (k : KeptAttr). IsTextValue k.value) pairs.now }
{
    pairs.iter().all(|pair| is_text_value(pair.value.items()))
}

/// The same attributes again.
pub(crate) fn copy_of_kept(alloc: Global, kept: &[KeptAttr]) -> Result<KeptAttrs, Memory>
    ensures { IfOk result (λ v. v ≡ kept.now) }
{
    let mut copies = Items::new(alloc);
    for attribute in kept {
        copies.push(attribute.copy(alloc)?)?;
    }
    Ok(copies)
}
