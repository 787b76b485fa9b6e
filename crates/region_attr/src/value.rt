ghost use Rattle.std.specs.Prelude.{◌≡◌, ◌<◌, ◌^◌, ◌||◌, IfSome, ◌≤◌, codes};
ghost use Rattle.std.specs.Str.{bytes_eq};
ghost use Rattle.region_attr.specs.Values as values;

use tcl_words::{is_word, read_number};

fn is_yes(value: &[u8]) -> bool
    ensures { result ≡ (bytes_eq value.now (codes "yes") || bytes_eq value.now (codes "1")) }
{
    is_word(value, b"yes") || is_word(value, b"1")
}

fn is_no(value: &[u8]) -> bool
    ensures { result ≡ (bytes_eq value.now (codes "no") || bytes_eq value.now (codes "0")) }
{
    is_word(value, b"no") || is_word(value, b"0")
}

/// What `yes` and `no` say, also spelled `1` and `0`.
pub(crate) fn truth(value: &[u8]) -> Option<bool>
    ensures { result ≡ values.truth_of value.now }
{
    if is_yes(value) {
        Some(true)
    } else if is_no(value) {
        Some(false)
    } else {
        None
    }
}

/// The number that a text spells, where it is from 0 to `most`.
pub(crate) fn number_to(most: u32, value: &[u8]) -> Option<u32>
    ensures { result ≡ values.number_to most value.now }
{
    let number = read_number(value)?;
    if 0 <= number && number <= i64::from(most) {
        Some(number as u32)
    } else {
        None
    }
}
