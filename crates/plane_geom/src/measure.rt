//! Products, lengths and differences of vectors, within the sizes that planes have.

ghost use Rattle.std.specs.Prelude.{◌≡◌, ◌*ℤ◌, ◌-ℤ◌, ◌≤◌, ◌^◌, pos};
ghost use Rattle.lattice_core.specs.Limits.{IsAtMost, IsWithin};
ghost use Rattle.lattice_core.specs.Vectors.{dot_product, vector_difference};
ghost use Rattle.plane_geom.specs.Vectors.{cross_product, square_of, length_squared};

use crate::limit::NORMAL;
use lattice_core::{COORD, FAR, V3};

/// A product of a normal's and a point's component.
fn product(component: i64, coordinate: i64) -> i128
    requires component { IsAtMost NORMAL component }
    requires coordinate { IsAtMost FAR coordinate }
    ensures value { result ≡ component *ℤ coordinate }
    ensures size { IsAtMost (NORMAL *ℤ FAR) result }
{
    i128::from(component) * i128::from(coordinate)
}

/// The dot product of a normal and a point or a shift.
pub fn dot(normal: V3, point: V3) -> i128
    requires normal { IsWithin NORMAL normal }
    requires point { IsWithin FAR point }
    ensures { result ≡ dot_product normal point }
{
    let x = product(normal.x, point.x);
    let y = product(normal.y, point.y);
    let z = product(normal.z, point.z);
    x + y + z
}

/// A product of a normal's component and any number.
fn high_product(component: i64, coordinate: i64) -> i128
    requires { IsAtMost NORMAL component }
    ensures value { result ≡ component *ℤ coordinate }
    ensures size { IsAtMost (NORMAL *ℤ pos (2 ^ 63)) result }
{
    i128::from(component) * i128::from(coordinate)
}

/// The dot product of a normal and any point.
pub fn high_dot(normal: V3, point: V3) -> i128
    requires { IsWithin NORMAL normal }
    ensures value { result ≡ dot_product normal point }
    ensures size { IsAtMost (pos 3 *ℤ (NORMAL *ℤ pos (2 ^ 63))) result }
{
    let x = high_product(normal.x, point.x);
    let y = high_product(normal.y, point.y);
    let z = high_product(normal.z, point.z);
    x + y + z
}

/// The vector from one point to another.
pub fn from_to(a: V3, b: V3) -> V3
    requires first { IsWithin COORD a }
    requires second { IsWithin COORD b }
    ensures value { result ≡ vector_difference b a }
    ensures size { IsWithin (pos 2 *ℤ COORD) result }
{
    V3 {
        x: b.x - a.x,
        y: b.y - a.y,
        z: b.z - a.z,
    }
}

fn short_product(a: i64, b: i64) -> i64
    requires first { IsAtMost (pos 2 *ℤ COORD) a }
    requires second { IsAtMost (pos 2 *ℤ COORD) b }
    ensures value { result ≡ a *ℤ b }
    ensures size { IsAtMost ((pos 4 *ℤ COORD) *ℤ COORD) result }
{
    a * b
}

/// `a * d - b * c`
fn determinant(a: i64, b: i64, c: i64, d: i64) -> i64
    requires first { IsAtMost (pos 2 *ℤ COORD) a }
    requires second { IsAtMost (pos 2 *ℤ COORD) b }
    requires third { IsAtMost (pos 2 *ℤ COORD) c }
    requires fourth { IsAtMost (pos 2 *ℤ COORD) d }
    ensures value { result ≡ (a *ℤ d) -ℤ (b *ℤ c) }
    ensures size { IsAtMost NORMAL result }
{
    let down = short_product(a, d);
    let up = short_product(b, c);
    down - up
}

/// The cross product of two vectors between points of a solid.
pub fn cross(a: V3, b: V3) -> V3
    requires first { IsWithin (pos 2 *ℤ COORD) a }
    requires second { IsWithin (pos 2 *ℤ COORD) b }
    ensures value { result ≡ cross_product a b }
    ensures size { IsWithin NORMAL result }
{
    V3 {
        x: determinant(a.y, a.z, b.y, b.z),
        y: determinant(a.z, a.x, b.z, b.x),
        z: determinant(a.x, a.y, b.x, b.y),
    }
}

/// The square of a normal's component.
pub fn square(component: i64) -> u128
    requires { IsAtMost NORMAL component }
    ensures value { result ≡ square_of component }
    ensures size { result ≤ square_of NORMAL }
{
    let size = u128::from(component.unsigned_abs());
    size * size
}

/// The square of a normal's length.
pub fn square_of_length(normal: V3) -> u128
    requires { IsWithin NORMAL normal }
    ensures { result ≡ length_squared normal }
{
    square(normal.x) + square(normal.y) + square(normal.z)
}
