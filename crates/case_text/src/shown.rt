//! Texts that programs of cases print.

use crate::fault::CaseFault;
use itoa::{Buffer, Integer};
use std::alloc::Global;

/// A text that grows. Where there was no memory for a part it is no longer whole, and says so at its end, so that no part
/// needs an answer of its own.
#[derive(Drop)]
pub struct Shown {
    bytes: Vec<u8>,
    is_whole: bool,
}

impl Shown {
    /// The empty text.
    pub fn new(alloc: Global) -> Shown {
        Shown {
            bytes: Vec::new(alloc),
            is_whole: true,
        }
    }

    /// Puts a text at the end.
    pub fn put(&mut self, text: &[u8]) {
        if self.bytes.extend_from_slice(text).is_err() {
            self.is_whole = false;
        }
    }

    /// Puts a byte at the end.
    pub fn put_byte(&mut self, byte: u8) {
        if self.bytes.push(byte).is_err() {
            self.is_whole = false;
        }
    }

    /// Puts a whole number at the end, in decimal digits.
    pub fn put_number<I: Integer>(&mut self, number: I) {
        let mut buffer = Buffer::new();
        self.put(buffer.format(number).as_bytes());
    }

    /// Puts a text at the end, with what isn't a printed byte of ASCII as `\xHH`.
    pub fn put_printed(&mut self, text: &[u8]) {
        for byte in text {
            if byte.is_ascii_graphic() || *byte == b' ' {
                self.put_byte(*byte);
            } else {
                self.put(b"\\x");
                self.put_byte(digit(*byte >> 4));
                self.put_byte(digit(*byte & 15));
            }
        }
    }

    /// Puts the text of another at the end.
    pub fn put_all(&mut self, other: &Shown) {
        self.put(&other.bytes);
        self.is_whole = self.is_whole && other.is_whole;
    }

    /// Whether nothing was put in.
    pub fn is_empty(&self) -> bool {
        self.bytes.is_empty()
    }

    /// The text, where it is whole.
    pub fn bytes(&self) -> Result<&[u8], CaseFault> {
        if self.is_whole {
            Ok(&self.bytes)
        } else {
            Err(CaseFault::Memory)
        }
    }
}

/// The hexadecimal digit of a number below 16.
fn digit(number: u8) -> u8 {
    if number < 10 {
        b'0'.saturating_add(number)
    } else {
        b'W'.saturating_add(number)
    }
}
