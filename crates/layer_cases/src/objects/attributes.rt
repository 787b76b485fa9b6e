//! Attributes of combinations.

use crate::objects::shown::put_attr;
use crate::objects::words::parted;
use case_text::{CaseFault, Shown};
use region_attr::{Attr, AttrFault};

/// `new-attributes region`, `new-attributes group`: those of a new combination.
pub fn answer_new(given: &[u8], out: &mut Shown) -> Result<(), CaseFault> {
    match given {
        b"region" => put_attr(&Attr::of_region(), out),
        b"group" => put_attr(&Attr::of_group(), out),
        _ => return Err(CaseFault::Line),
    }
    Ok(())
}

/// Puts in why an attribute was not set.
pub fn put_fault(fault: AttrFault, out: &mut Shown) {
    match fault {
        AttrFault::UnknownKey => out.put(b"unknown key"),
        AttrFault::BadValue => out.put(b"bad value"),
    }
}

/// `set KEY=VALUE`: the answer of setting an attribute of a new region, and all attributes after it.
pub fn answer_set(given: &[u8], out: &mut Shown) -> Result<(), CaseFault> {
    let (key, value) = parted(given, b'=')?;
    let mut attr = Attr::of_region();
    match attr.set(key, value) {
        Ok(()) => out.put(b"ok"),
        Err(fault) => put_fault(fault, out),
    }
    out.put(b"; ");
    put_attr(&attr, out);
    Ok(())
}
