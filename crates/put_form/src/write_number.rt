//! Numbers, put at the end of a line. Lengths count tenths of a millimetre, and are written in millimetres.
ghost use Rattle.std.specs.Prelude.{◌≡◌, ◌++◌, OnOk};
ghost use Rattle.put_form.specs.Written.{tenth_text, size_text, length_text, number_text, words_text, number_words, vector_text};
ghost use Rattle.put_form.specs.WritingSteps.{placed_text};

use itoa::{Buffer, Integer};
use lattice_core::{MILLIMETRE, V3};
use memory_core::Memory;
use word_values::{NumberKind, NumberList};

/// How many tenths a millimetre has.
const TENTHS: u64 = MILLIMETRE as u64;

pub(crate) fn push_number<I: Integer>(line: &mut Vec<u8>, number: I) -> Result<(), Memory>
    ensures { OnOk result (line.new.items ≡ line.old.items ++ I.text number) }
{
    let mut buffer = Buffer::new();
    line.extend_from_slice(buffer.format(number).as_bytes())?;
    Ok(())
}

/// Puts the tenths that are left over, after a point, at the end of the line, and nothing where there are none.
fn push_tenth(line: &mut Vec<u8>, tenth: u64) -> Result<(), Memory>
    ensures { OnOk result (line.new.items ≡ line.old.items ++ tenth_text tenth) }
{
    if tenth == 0 {
        return Ok(());
    }
    line.push(b'.')?;
    push_number(line, tenth)
}

/// Puts so many tenths of a millimetre, in millimetres, at the end of the line.
fn push_size(line: &mut Vec<u8>, size: u64) -> Result<(), Memory>
    ensures { OnOk result (line.new.items ≡ line.old.items ++ size_text size) }
{
    push_number(line, size / TENTHS)?;
    push_tenth(line, size % TENTHS)
}

/// Puts a length, as `5` or `-0.5`, at the end of the line.
pub(crate) fn push_length(line: &mut Vec<u8>, length: i64) -> Result<(), Memory>
    ensures { OnOk result (line.new.items ≡ line.old.items ++ length_text length) }
{
    if length < 0 {
        line.push(b'-')?;
    }
    push_size(line, length.unsigned_abs())
}

/// Puts a number of a kind at the end of the line.
fn push_by_kind(line: &mut Vec<u8>, kind: NumberKind, number: i64) -> Result<(), Memory>
    ensures { OnOk result (line.new.items ≡ line.old.items ++ number_text kind number) }
{
    match kind {
        NumberKind::Whole(_) => push_number(line, number),
        NumberKind::Length(_) => push_length(line, number),
    }
}

/// Puts the number at a place of a list, after a blank where it is not the first, at the end of the line.
fn push_placed(
    line: &mut Vec<u8>,
    list: NumberList,
    place: usize,
    number: i64,
) -> Result<(), Memory>
    ensures { OnOk result (line.new.items ≡ line.old.items ++ placed_text list place number) }
{
    if place != 0 {
        line.push(b' ')?;
    }
    push_by_kind(line, list.kind_at(place), number)
}

/// Puts the numbers of a list, parted by blanks, at the end of the line.
pub(crate) fn push_numbers(
    line: &mut Vec<u8>,
    list: NumberList,
    numbers: &[i64],
) -> Result<(), Memory>
    ensures { OnOk result (line.new.items ≡ line.old.items ++ words_text (number_words list 0 numbers.now)) }
{
    for (place, number) in numbers.iter().enumerate() {
        push_placed(line, list, place, *number)?;
    }
    Ok(())
}

/// Puts a vector whose components are numbers of a kind, as `{0 0 0.5}`, at the end of the line.
pub(crate) fn push_vector(line: &mut Vec<u8>, kind: NumberKind, vector: V3) -> Result<(), Memory>
    ensures { OnOk result (line.new.items ≡ line.old.items ++ vector_text kind vector) }
{
    line.push(b'{')?;
    push_by_kind(line, kind, vector.x)?;
    line.push(b' ')?;
    push_by_kind(line, kind, vector.y)?;
    line.push(b' ')?;
    push_by_kind(line, kind, vector.z)?;
    line.push(b'}')?;
    Ok(())
}
