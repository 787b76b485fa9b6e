ghost use Rattle.std.specs.Prelude.{◌≡◌, ◌<◌, ◌↔◌, length, replicate, position, not, IsOk};
ghost use Rattle.name_core.specs.NameText.{is_first_byte, is_next_byte, first_bad, read_name, IsName};

use crate::limit::MOST_BYTES;
use std::alloc::AllocError;
use std::hash::{Hash, Hasher};
use std::marker::Model;
use thiserror::Error;

/// Why bytes are no name. The first that holds is answered.
#[derive(Clone, Copy, Debug, PartialEq, Eq, Error)]
pub enum NameFault {
    /// There is no byte.
    #[error("empty name")]
    Empty,
    /// There are over 64 bytes.
    #[error("name of over 64 bytes")]
    Long,
    /// The byte at this place, counted from 0, is the first that may not stand there.
    #[error("bad byte at {0}")]
    BadByte(u32),
}

/// A name: 1 to 64 bytes, of which the first is an ASCII letter, a digit or `_`, and the others may also
/// be `.` and `-`. Contracts see it as its bytes, and two names are equal where their bytes are.
#[derive(Copy, Debug)]
pub struct Name {
    buf: [u8; 64],
    len: u8,
}

impl Model for Name {
    ghost use Rattle.std.specs.Prelude.{List, ℕ};

    ghost Value = { List ℕ };

    ghost use Rattle.name_core.specs.NameParts.{bytes_of, IsStored, padded, padded_back};

    ghost view = { bytes_of };

    ghost invariant = { IsStored };

    ghost inverse = { padded };

    ghost inverse_ok = { padded_back };
}

impl Clone for Name {
    ghost use Rattle.std.specs.Prelude.{⊤};

    ghost is_clone = { λ name copy. copy ≡ name };

    ghost is_infallible = { λ _. ⊤ };

    /// All at once; a derived body would go over the bytes one by one.
    fn clone(&self) -> Result<Name, AllocError> {
        Ok(*self)
    }
}

impl PartialEq for Name {
    ghost use Rattle.name_core.specs.Same.{same_name, same_name_partial};

    ghost eq = { same_name };

    ghost laws = { same_name_partial };

    fn eq(&self, other: &Name) -> bool {
        self.bytes() == other.bytes()
    }
}

impl Eq for Name {
    ghost use Rattle.name_core.specs.Same.{same_name_equiv};

    ghost laws = { same_name_equiv };
}

impl Hash for Name {
    ghost use Rattle.name_core.specs.Same.{name_input, name_input_same};

    ghost hash_input = { name_input };

    ghost respects_eq = { name_input_same };

    fn hash<H: Hasher>(&self, state: &mut H) {
        self.bytes().hash(state);
    }
}

fn is_first(byte: u8) -> bool
    ensures { result ≡ is_first_byte byte }
{
    byte.is_ascii_alphanumeric() || byte == b'_'
}

fn is_next(byte: u8) -> bool
    ensures { result ≡ is_next_byte byte }
{
    is_first(byte) || byte == b'.' || byte == b'-'
}

fn zeros() -> [u8; 64]
    ensures { result ≡ replicate 64 0 }
{
    [0; 64]
}

fn bad_rest(rest: &[u8]) -> Option<usize>
    ensures { result ≡ position (λ b. not (is_next_byte b)) rest.now }
{
    rest.iter().position(|byte| !is_next(*byte))
}

fn bad_place(bytes: &[u8]) -> Option<usize>
    requires { 0 < length bytes.now }
    ensures { result ≡ first_bad bytes.now }
{
    if is_first(bytes[0]) {
        match bad_rest(&bytes[1..]) {
            Some(i) => Some(i + 1),
            None => None,
        }
    } else {
        Some(0)
    }
}

impl Name {
    /// The name of these bytes, or the first of the faults, looked for in the order of `NameFault`.
    pub fn read(bytes: &[u8]) -> Result<Name, NameFault>
        ensures exact { result ≡ read_name bytes.now }
        ensures accepted { IsOk result ↔ IsName bytes.now }
    {
        if bytes.is_empty() {
            return Err(NameFault::Empty);
        }
        if bytes.len() > MOST_BYTES {
            return Err(NameFault::Long);
        }
        if let Some(place) = bad_place(bytes) {
            return Err(NameFault::BadByte(place as u32));
        }
        let mut buf = zeros();
        buf[..bytes.len()].copy_from_slice(bytes);
        Ok(Name {
            buf,
            len: bytes.len() as u8,
        })
    }

    /// Lends the bytes.
    pub fn bytes(&self) -> &[u8]
        ensures value { result.now ≡ self.now }
        ensures named { IsName self.now }
    {
        &self.buf[..self.len as usize]
    }
}
