ghost use Rattle.std.specs.Prelude.{◌≡◌, ◌≤◌, ◌+◌, ◌++◌, [], length};

use arrayvec::ArrayVec;
use itoa::{Buffer, Integer};
use std::marker::Model;

/// A text of at most `N` bytes, which takes no memory. Contracts see it as its bytes.
#[derive(Drop)]
pub struct FixedText<const N: usize> {
    bytes: ArrayVec<u8, N>,
}

impl<const N: usize> Model for FixedText<N> {
    ghost use Rattle.std.specs.Prelude.{List, ℕ};

    ghost Value = { List ℕ };

    ghost view = { λ s. s.bytes.items };
}

impl<const N: usize> FixedText<N> {
    /// The empty text.
    pub fn new() -> Self
        ensures { result ≡ [] }
    {
        FixedText {
            bytes: ArrayVec::new(),
        }
    }

    /// Lends the bytes.
    pub fn bytes(&self) -> &[u8]
        ensures { result.now ≡ self.now }
    {
        self.bytes.as_slice()
    }

    /// Makes the text empty.
    pub fn clear(&mut self)
        ensures { self.new ≡ [] }
    {
        self.bytes.clear();
    }

    /// Puts bytes at the end.
    pub fn push(&mut self, piece: &[u8])
        requires { length self.old + length piece.now ≤ N }
        ensures { self.new ≡ self.old ++ piece.now }
    {
        if self.bytes.try_extend_from_slice(piece).is_err() {
            unreachable!()
        }
    }

    /// Puts a whole number at the end, in decimal, with `-` before a negative one.
    pub fn push_number<I: Integer>(&mut self, number: I)
        requires { length self.old + I.MAX_STR_LEN ≤ N }
        ensures { self.new ≡ self.old ++ I.text number }
    {
        let mut buffer = Buffer::new();
        self.push(buffer.format(number).as_bytes());
    }
}
