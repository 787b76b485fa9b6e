//! The texts of refusals.

use crate::objects::words::name_of;
use case_text::{CaseFault, Shown, first_word, number_of};
use command_set::{Refusal, RefusalText, ViewFault};
use plane_geom::ShapeFault;

/// A number below 2^32.
fn count_of(word: &[u8]) -> Result<u32, CaseFault> {
    match u32::try_from(number_of(word)?) {
        Ok(number) => Ok(number),
        Err(_) => Err(CaseFault::Number),
    }
}

/// The fault of a ray or a view of this name.
fn view_of(word: &str) -> Option<ViewFault> {
    match word {
        "Pixels" => Some(ViewFault::Pixels),
        "Side" => Some(ViewFault::Side),
        "Cell" => Some(ViewFault::Cell),
        "Direction" => Some(ViewFault::Direction),
        "World" => Some(ViewFault::World),
        _ => None,
    }
}

/// The number of a face.
fn face_of(word: &[u8]) -> Result<u8, CaseFault> {
    match u8::try_from(number_of(word)?) {
        Ok(number) => Ok(number),
        Err(_) => Err(CaseFault::Number),
    }
}

/// The fault of a solid of this name, and of the face that follows it.
fn shape_of(word: &str, face: &[u8]) -> Result<ShapeFault, CaseFault> {
    match word {
        "Flat" => Ok(ShapeFault::Flat),
        "NotPlanar" => Ok(ShapeFault::NotPlanar(face_of(face)?)),
        "NotConvex" => Ok(ShapeFault::NotConvex(face_of(face)?)),
        "Radius" => Ok(ShapeFault::Radius),
        "ZeroNormal" => Ok(ShapeFault::ZeroNormal),
        "Axis" => Ok(ShapeFault::Axis),
        _ => Err(CaseFault::Line),
    }
}

/// The word as a text.
fn text_of(word: &[u8]) -> Result<&str, CaseFault> {
    match str::from_utf8(word) {
        Ok(text) => Ok(text),
        Err(_) => Err(CaseFault::Line),
    }
}

/// The refusal of this name, which has an object's name.
fn named_of(word: &str, name: &[u8]) -> Result<Refusal, CaseFault> {
    let name = name_of(name)?;
    match word {
        "Exists" => Ok(Refusal::Exists(name)),
        "Missing" => Ok(Refusal::Missing(name)),
        "NotComb" => Ok(Refusal::NotComb(name)),
        "NotList" => Ok(Refusal::NotList(name)),
        "Absent" => Ok(Refusal::Absent(name)),
        "Heads" => Ok(Refusal::Heads(name)),
        "Cycle" => Ok(Refusal::Cycle(name)),
        _ => Err(CaseFault::Line),
    }
}

/// The refusal of this name, which has a number.
fn numbered_of(word: &str, count: u32) -> Option<Refusal> {
    match word {
        "Name" => Some(Refusal::Name(count)),
        "Number" => Some(Refusal::Number(count)),
        "Members" => Some(Refusal::Members(count)),
        "Deep" => Some(Refusal::Deep(count)),
        "Instances" => Some(Refusal::Instances(count)),
        _ => None,
    }
}

/// The refusal of this name, which has nothing.
fn plain_of(word: &str) -> Option<Refusal> {
    match word {
        "Syntax" => Some(Refusal::Syntax),
        "Full" => Some(Refusal::Full),
        "Quota" => Some(Refusal::Quota),
        "Memory" => Some(Refusal::Memory),
        _ => None,
    }
}

/// The refusal of this name, which has a fault of a ray, of a view or of a solid.
fn faulty_of(word: &str, rest: &[u8]) -> Result<Refusal, CaseFault> {
    let (fault, face) = first_word(rest);
    let fault = text_of(fault)?;
    if word == "Shape" {
        return Ok(Refusal::Shape(shape_of(fault, face)?));
    }
    match view_of(fault) {
        Some(fault) => Ok(Refusal::View(fault)),
        None => Err(CaseFault::Line),
    }
}

/// The refusal of this name, and of what follows it.
fn refusal_of(word: &str, rest: &[u8]) -> Result<Refusal, CaseFault> {
    if let Some(refusal) = plain_of(word) {
        return Ok(refusal);
    }
    if word == "View" || word == "Shape" {
        return faulty_of(word, rest);
    }
    if let Ok(count) = count_of(rest) {
        if let Some(refusal) = numbered_of(word, count) {
            return Ok(refusal);
        }
    }
    named_of(word, rest)
}

/// `refusal NAME ..`: the text of a refusal, which is named as the program names it, as `refusal NotComb cup.r`.
pub fn answer_refusal(given: &[u8], out: &mut Shown) -> Result<(), CaseFault> {
    let (word, rest) = first_word(given);
    let refusal = refusal_of(text_of(word)?, rest)?;
    let mut text = RefusalText::new();
    text.push(b"old");
    refusal.write_text(&mut text);
    out.put(text.bytes());
    Ok(())
}
