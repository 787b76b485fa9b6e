ghost use Rattle.std.specs.Prelude.{◌≡◌, ◌<◌};
ghost use Rattle.shared_pages.specs.Buckets.{name_number, next_number};

use name_core::Name;

/// The number after one more byte.
fn next(number: u32, byte: u8) -> u32
    requires { number < 65521 }
    ensures value { result ≡ next_number number byte }
    ensures small { result < 65521 }
{
    (number * 31 + byte as u32) % 65521
}

/// A number of the bytes, from which it is told where the name stands.
pub(crate) fn number_of(name: &Name) -> u32
    ensures { result ≡ name_number name.now }
{
    let mut number = 0;
    for byte in name.bytes() {
        number = next(number, *byte);
    }
    number
}
