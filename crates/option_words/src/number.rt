//! The number of a demo, and of workers.
ghost use Rattle.std.specs.Prelude.{◌≡◌, ◌≤◌, ◌<◌, ◌^◌, IfSome, length};
ghost use Rattle.std.specs.List.{list_all};
ghost use Rattle.std.specs.Char.{is_ascii_digit};
ghost use Rattle.option_words.specs.Numbers as numbers;

fn are_digits(text: &[u8]) -> bool
    ensures { result ≡ list_all is_ascii_digit text.now }
{
    text.iter().all(|byte| byte.is_ascii_digit())
}

/// Whether a text is one to nine digits.
fn is_number(text: &[u8]) -> bool
    ensures { result ≡ numbers.is_number text.now }
{
    0 < text.len() && text.len() <= 9 && are_digits(text)
}

/// The value of at most nine digits.
fn value(digits: &[u8]) -> u32
    requires few { length digits.now ≤ 9 }
    requires are_digits { numbers.AreDigits digits.now }
    ensures value { result ≡ numbers.value digits.now }
    ensures small { result < 10 ^ 9 }
{
    let mut value = 0;
    for digit in digits {
        value = value * 10 + u32::from(*digit - b'0');
    }
    value
}

/// The number of one to nine digits.
pub(crate) fn read_number(text: &[u8]) -> Option<u32>
    ensures value { result ≡ numbers.number_of text.now }
    ensures small { IfSome result (λ n. n < 10 ^ 9) }
{
    if is_number(text) {
        Some(value(text))
    } else {
        None
    }
}
