ghost use Rattle.std.specs.Prelude.{◌≡◌, ◌≤◌, ◌<◌, ◌^◌, ◌==◌, length, Some, IfSome, IfNone, ℤ, pos, ◌*ℤ◌};
ghost use Rattle.std.specs.List.{prefix_len, list_all};
ghost use Rattle.tcl_words.specs.Numbers as numbers;
ghost use Rattle.tcl_words.specs.NumberForm.{IsNumber, IsLength};

fn is_zero(byte: u8) -> bool
    ensures { result ≡ numbers.is_zero byte }
{
    byte == b'0'
}

fn is_signed(atom: &[u8]) -> bool
    ensures { result ≡ numbers.begins numbers.is_sign atom.now }
{
    0 < atom.len() && (atom[0] == b'+' || atom[0] == b'-')
}

fn is_negative(atom: &[u8]) -> bool
    ensures { result ≡ numbers.begins (λ b. b == 45) atom.now }
{
    0 < atom.len() && atom[0] == b'-'
}

fn unsigned(atom: &[u8]) -> &[u8]
    ensures { result.now ≡ numbers.unsigned atom.now }
{
    if is_signed(atom) { &atom[1..] } else { atom }
}

fn digit_count(rest: &[u8]) -> usize
    ensures count { result ≡ numbers.digit_count rest.now }
    ensures within { result ≤ length rest.now }
{
    for (count, byte) in rest.iter().enumerate() {
        if !byte.is_ascii_digit() {
            return count;
        }
    }
    rest.len()
}

fn zero_count(digits: &[u8]) -> usize
    ensures count { result ≡ prefix_len numbers.is_zero digits.now }
    ensures within { result ≤ length digits.now }
{
    for (count, byte) in digits.iter().enumerate() {
        if !is_zero(*byte) {
            return count;
        }
    }
    digits.len()
}

fn are_zeros(rest: &[u8]) -> bool
    ensures { result ≡ list_all numbers.is_zero rest.now }
{
    rest.iter().all(|byte| is_zero(*byte))
}

fn is_tail(rest: &[u8]) -> bool
    ensures { result ≡ numbers.is_tail rest.now }
{
    rest.len() == 0 || (rest[0] == b'.' && are_zeros(&rest[1..]))
}

/// The value of at most nine digits.
fn value(digits: &[u8]) -> u32
    requires few { length digits.now ≤ 9 }
    requires are_digits { numbers.AreDigits digits.now }
    ensures { result ≡ numbers.value digits.now }
{
    let mut value = 0;
    for digit in digits {
        value = value * 10 + u32::from(*digit - b'0');
    }
    value
}

/// The digits without the zeros in front.
fn significant(digits: &[u8]) -> &[u8]
    ensures { result.now ≡ numbers.significant digits.now }
{
    &digits[zero_count(digits)..]
}

/// The value of digits, where at most nine stand after the leading zeros.
fn short_value(digits: &[u8]) -> Option<u32>
    requires { numbers.AreDigits digits.now }
    ensures { result ≡ numbers.short_value digits.now }
{
    if digits.len() <= 9 {
        return Some(value(digits));
    }
    let rest = significant(digits);
    if 9 < rest.len() {
        return None;
    }
    Some(value(rest))
}

fn magnitude(rest: &[u8]) -> Option<u32>
    ensures { result ≡ numbers.magnitude rest.now }
{
    let count = digit_count(rest);
    if count == 0 || !is_tail(&rest[count..]) {
        return None;
    }
    short_value(&rest[..count])
}

fn number(atom: &[u8]) -> Option<i64>
    ensures { result ≡ numbers.number_of atom.now }
{
    let size = i64::from(magnitude(unsigned(atom))?);
    Some(if is_negative(atom) { -size } else { size })
}

/// The whole number that an atom spells: maybe a sign, one or more digits, of which at most nine follow the
/// leading zeros, and maybe a point that any number of zeros and nothing else may follow. Else none.
pub fn read_number(atom: &[u8]) -> Option<i64>
    ensures exact { result ≡ numbers.number_of atom.now }
    ensures form { IfSome result (λ n. IsNumber atom.now n) }
    ensures none { IfNone result ((n : ℤ) → IsNumber atom.now n → ⊥) }
{
    number(atom)
}

fn is_decimal(rest: &[u8]) -> bool
    ensures { result ≡ numbers.is_decimal rest.now }
{
    1 < rest.len() && rest[0] == b'.' && rest[1].is_ascii_digit() && are_zeros(&rest[2..])
}

/// The tenths that stand behind the digits.
fn tenths_after(rest: &[u8]) -> Option<u8>
    ensures { result ≡ numbers.tenths_after rest.now }
{
    if is_tail(rest) {
        return Some(0);
    }
    if is_decimal(rest) {
        Some(rest[1] - b'0')
    } else {
        None
    }
}

fn tenths_magnitude(rest: &[u8]) -> Option<u64>
    ensures value { result ≡ numbers.tenths_magnitude rest.now }
    ensures small { IfSome result (λ n. n < 2 ^ 36) }
{
    let count = digit_count(rest);
    if count == 0 {
        return None;
    }
    let whole = u64::from(short_value(&rest[..count])?);
    let tenth = u64::from(tenths_after(&rest[count..])?);
    Some(whole * 10 + tenth)
}

fn tenths(atom: &[u8]) -> Option<i64>
    ensures { result ≡ numbers.tenths_of atom.now }
{
    let size = tenths_magnitude(unsigned(atom))? as i64;
    Some(if is_negative(atom) { -size } else { size })
}

/// The length that an atom spells, in tenths of its unit: a whole number as `read_number` reads it, where one digit may
/// stand behind the point before any zeros. So `-0.5` is -5, and `1` and `1.0` are 10. Else none.
pub fn read_tenths(atom: &[u8]) -> Option<i64>
    ensures exact { result ≡ numbers.tenths_of atom.now }
    ensures form { IfSome result (λ n. IsLength atom.now n) }
    ensures none { IfNone result ((n : ℤ) → IsLength atom.now n → ⊥) }
    ensures whole { IfSome (numbers.number_of atom.now) (λ n. result ≡ Some (pos 10 *ℤ n)) }
{
    tenths(atom)
}
