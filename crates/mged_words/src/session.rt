//! The session of a line.
ghost use Rattle.std.specs.Prelude.{◌≡◌, ◌≤◌, ◌<◌, length, Some, None, IfSome, IfNone};
ghost use Rattle.mged_words.specs.Scripts as scripts;

fn is_session_digit(byte: u8) -> bool
    ensures { result ≡ scripts.is_session_digit byte }
{
    b'1' <= byte && byte <= b'8'
}

/// The session that stands behind `@`, from 1 to 8, and what follows it.
fn at_session(behind: &[u8]) -> Option<(u8, &[u8])>
    ensures some { IfSome result (λ found. scripts.at_session behind.now ≡ Some (found.0, found.1.now)) }
    ensures none { IfNone result (scripts.at_session behind.now ≡ None) }
    ensures session { IfSome result (λ found. (1 ≤ found.0) × (found.0 ≤ 8)) }
    ensures shorter { IfSome result (λ found. length found.1.now ≤ length behind.now) }
{
    match behind {
        [digit] if is_session_digit(*digit) => Some((*digit - b'0', &behind[1..])),
        [digit, b' ', rest @ ..] if is_session_digit(*digit) => Some((*digit - b'0', rest)),
        _ => None,
    }
}

/// The session of a line, from 1 to 8, and what follows it. A line without `@` is of session 1.
pub(crate) fn session_and_rest(line: &[u8]) -> Option<(u8, &[u8])>
    ensures some { IfSome result (λ found. scripts.session_and_rest line.now ≡ Some (found.0, found.1.now)) }
    ensures none { IfNone result (scripts.session_and_rest line.now ≡ None) }
    ensures session { IfSome result (λ found. (1 ≤ found.0) × (found.0 ≤ 8)) }
    ensures shorter { IfSome result (λ found. length found.1.now ≤ length line.now) }
{
    match line {
        [b'@', behind @ ..] => at_session(behind),
        _ => Some((1, line)),
    }
}
