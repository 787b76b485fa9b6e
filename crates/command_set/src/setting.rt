ghost use Rattle.std.specs.Prelude.{◌≡◌, ◌↔◌, Err, IsOk, IfOk, IsNone, IsSomeAnd, IsTrue};
ghost use Rattle.region_attr.specs.Keys.{key_of};
ghost use Rattle.region_attr.specs.Attrs.{is_setting, IsValueOf};
ghost use Rattle.command_set.specs.Lawful.{KeyAndValue};

use name_core::Name;
use region_attr::{Attr, AttrFault};
use std::marker::Model;

/// One of the attributes of a combination, by its key, and a value that the key takes. Contracts see both.
#[derive(Debug, Drop)]
pub struct Setting {
    key: Name,
    value: Vec<u8>,
}

impl Model for Setting {
    ghost use Rattle.std.specs.Prelude.{IsTrue};
    ghost use Rattle.region_attr.specs.Attrs.{is_setting};
    ghost use Rattle.command_set.specs.Lawful.{KeyAndValue};

    ghost Value = { KeyAndValue };

    ghost view = { λ s. record { key = s.key; value = s.value.items } };

    ghost invariant = { λ s. IsTrue (is_setting s.key s.value.items) };
}

fn judged(key: &[u8], value: &[u8]) -> Result<(), AttrFault>
    ensures accepted { IsOk result ↔ IsTrue (is_setting key.now value.now) }
    ensures unknown { (result ≡ Err AttrFault.UnknownKey) ↔ IsNone (key_of key.now) }
    ensures bad { (result ≡ Err AttrFault.BadValue) ↔ IsSomeAnd (key_of key.now) (λ named. ¬ (IsValueOf named value.now)) }
{
    Attr::of_group().set(key, value)
}

impl Setting {
    /// The setting of a key and a value. `UnknownKey` comes where the key is none of `region`, `id`, `air`, `los`, `mater`,
    /// `rgb` and `inherit`, and else `BadValue` where the value is not one that the key takes.
    pub fn of_parts(key: Name, value: Vec<u8>) -> Result<Setting, AttrFault>
        ensures value { IfOk result (λ s. s ≡ record { key = key; value = value.items }) }
        ensures accepted { IsOk result ↔ IsTrue (is_setting key value.items) }
        ensures unknown { (result ≡ Err AttrFault.UnknownKey) ↔ IsNone (key_of key) }
        ensures bad { (result ≡ Err AttrFault.BadValue) ↔ IsSomeAnd (key_of key) (λ named. ¬ (IsValueOf named value.items)) }
    {
        judged(key.bytes(), &value)?;
        Ok(Setting { key, value })
    }

    /// The key.
    pub fn key(&self) -> &Name
        ensures value { result.now ≡ self.now.key }
        ensures lawful { IsTrue (is_setting self.now.key self.now.value) }
    {
        &self.key
    }

    /// Lends the value.
    pub fn value(&self) -> &[u8]
        ensures value { result.now ≡ self.now.value }
        ensures lawful { IsTrue (is_setting self.now.key self.now.value) }
    {
        &self.value
    }
}
