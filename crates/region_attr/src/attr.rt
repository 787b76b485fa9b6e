ghost use Rattle.std.specs.Prelude.{◌≡◌, ◌↔◌, OnOk, OnErr, IsOk, IsSomeAnd, IsNone, IsTrue};
ghost use Rattle.region_attr.specs.Keys.{key_of};
ghost use Rattle.region_attr.specs.Attrs as attrs;
ghost use Rattle.region_attr.specs.Ranges.{HasRanges};

use crate::colour::colour;
use crate::key::{Key, read_key};
use crate::limit::{MOST_LOS, MOST_NUMBER};
use crate::value::{number_to, truth};
use thiserror::Error;

/// A colour by its red, green and blue part.
#[derive(Clone, Copy, Debug, PartialEq, Eq, Hash)]
pub struct Rgb {
    pub r: u8,
    pub g: u8,
    pub b: u8,
}

/// The attributes of a combination.
#[derive(Clone, Copy, Debug, PartialEq, Eq, Hash)]
pub struct Attr {
    /// Whether the combination is a region.
    pub region: bool,
    /// The region's number, from 0 to 999,999.
    pub id: u32,
    /// The number of the air that the region is of, from 0 to 999,999; 0 where it is of no air.
    pub air: u32,
    /// The line-of-sight density in percent, from 0 to 100.
    pub los: u32,
    /// The number of the material, from 0 to 999,999.
    pub mater: u32,
    /// The colour, if it has one.
    pub rgb: Option<Rgb>,
    /// Whether the colour takes the place of those further down.
    pub inherit: bool,
}

/// Why an attribute was not set.
#[derive(Clone, Copy, Debug, PartialEq, Eq, Error)]
pub enum AttrFault {
    /// The key is none of `region`, `id`, `air`, `los`, `mater`, `rgb` and `inherit`.
    #[error("unknown attribute")]
    UnknownKey,
    /// The value is not one that the key takes.
    #[error("bad value of an attribute")]
    BadValue,
}

/// The attributes with one of them set to a value.
fn with_value(key: Key, value: &[u8], attr: Attr) -> Option<Attr>
    ensures { result ≡ attrs.with_value key value.now attr }
{
    let changed = match key {
        Key::Region => Attr {
            region: truth(value)?,
            ..attr
        },
        Key::Id => Attr {
            id: number_to(MOST_NUMBER, value)?,
            ..attr
        },
        Key::Air => Attr {
            air: number_to(MOST_NUMBER, value)?,
            ..attr
        },
        Key::Los => Attr {
            los: number_to(MOST_LOS, value)?,
            ..attr
        },
        Key::Mater => Attr {
            mater: number_to(MOST_NUMBER, value)?,
            ..attr
        },
        Key::Rgb => Attr {
            rgb: Some(colour(value)?),
            ..attr
        },
        Key::Inherit => Attr {
            inherit: truth(value)?,
            ..attr
        },
    };
    Some(changed)
}

fn changed(key: &[u8], value: &[u8], attr: Attr) -> Result<Attr, AttrFault>
    ensures { result ≡ attrs.set_attr key.now value.now attr }
{
    let key = read_key(key).ok_or(AttrFault::UnknownKey)?;
    with_value(key, value, attr).ok_or(AttrFault::BadValue)
}

impl Attr {
    /// The attributes of a new region.
    pub fn of_region() -> Attr
        ensures value { result ≡ attrs.region_attr }
        ensures ranges { HasRanges result }
    {
        Attr {
            region: true,
            id: 1000,
            air: 0,
            los: 100,
            mater: 1,
            rgb: None,
            inherit: false,
        }
    }

    /// The attributes of a new combination that is no region.
    pub fn of_group() -> Attr
        ensures value { result ≡ attrs.group_attr }
        ensures ranges { HasRanges result }
    {
        Attr {
            region: false,
            id: 0,
            air: 0,
            los: 0,
            mater: 0,
            rgb: None,
            inherit: false,
        }
    }

    /// Sets the attribute that the key names to a value. `region` and `inherit` take `yes`, `no`, `1` and `0`;
    /// `id`, `air` and `mater` a whole number from 0 to 999,999, `los` one from 0 to 100; and `rgb` three from
    /// 0 to 255, parted by blanks or by `/` without blanks. A refusal changes nothing.
    pub fn set(&mut self, key: &[u8], value: &[u8]) -> Result<(), AttrFault>
        ensures ok { OnOk result (attrs.set_attr key.now value.now self.old ≡ Ok self.new) }
        ensures set { OnOk result (IsSomeAnd (key_of key.now) (λ named. attrs.IsSetTo named value.now self.old self.new)) }
        ensures accepted { IsOk result ↔ IsTrue (attrs.is_setting key.now value.now) }
        ensures unknown { (result ≡ Err AttrFault.UnknownKey) ↔ IsNone (key_of key.now) }
        ensures bad { (result ≡ Err AttrFault.BadValue) ↔ IsSomeAnd (key_of key.now) (λ named. ¬ (attrs.IsValueOf named value.now)) }
        ensures err { OnErr result (self.new ≡ self.old) }
        ensures ranges { HasRanges self.old → HasRanges self.new }
    {
        *self = changed(key, value, *self)?;
        Ok(())
    }
}
