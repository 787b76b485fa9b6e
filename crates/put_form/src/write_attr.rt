//! The attributes of a combination, put at the end of a line.
ghost use Rattle.std.specs.Prelude.{◌≡◌, ◌++◌, OnOk, decimal};
ghost use Rattle.put_form.specs.Written.{truth_text, colour_text, attr_text};
ghost use Rattle.put_form.specs.WritingSteps.{numbers_of_attr};

use crate::write_number::push_number;
use memory_core::Memory;
use region_attr::{Attr, Rgb};

fn truth(is_so: bool) -> &'static [u8]
    ensures { result.now ≡ truth_text is_so }
{
    if is_so { b"yes" } else { b"no" }
}

/// Puts a key, which has a blank on either side, and its number at the end of the line.
fn push_counted(line: &mut Vec<u8>, key: &[u8], number: u32) -> Result<(), Memory>
    ensures { OnOk result (line.new.items ≡ line.old.items ++ (key.now ++ decimal number)) }
{
    line.extend_from_slice(key)?;
    push_number(line, number)
}

fn push_colour(line: &mut Vec<u8>, rgb: Option<Rgb>) -> Result<(), Memory>
    ensures { OnOk result (line.new.items ≡ line.old.items ++ colour_text rgb) }
{
    let Some(rgb) = rgb else {
        return Ok(());
    };
    line.extend_from_slice(b" rgb {")?;
    push_number(line, rgb.r)?;
    line.push(b' ')?;
    push_number(line, rgb.g)?;
    line.push(b' ')?;
    push_number(line, rgb.b)?;
    line.push(b'}')?;
    Ok(())
}

/// Puts the attributes that are numbers at the end of the line.
fn push_attr_numbers(line: &mut Vec<u8>, attr: &Attr) -> Result<(), Memory>
    ensures { OnOk result (line.new.items ≡ line.old.items ++ numbers_of_attr attr.now) }
{
    push_counted(line, b" id ", attr.id)?;
    push_counted(line, b" air ", attr.air)?;
    push_counted(line, b" los ", attr.los)?;
    push_counted(line, b" mater ", attr.mater)
}

/// Puts the attributes, each with its key, at the end of the line.
pub(crate) fn push_attr(line: &mut Vec<u8>, attr: &Attr) -> Result<(), Memory>
    ensures { OnOk result (line.new.items ≡ line.old.items ++ attr_text attr.now) }
{
    line.extend_from_slice(b"region ")?;
    line.extend_from_slice(truth(attr.region))?;
    push_attr_numbers(line, attr)?;
    push_colour(line, attr.rgb)?;
    line.extend_from_slice(b" inherit ")?;
    line.extend_from_slice(truth(attr.inherit))?;
    Ok(())
}
