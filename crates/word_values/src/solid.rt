//! Makes solids of numbers.
ghost use Rattle.std.specs.Prelude.{◌≡◌, ◌≤◌, ◌<◌, ◌+◌, All, length, map, Some};
ghost use Rattle.lattice_core.specs.declared.limit.TheConstants.{COORD, HALF_NORMAL};
ghost use Rattle.lattice_core.specs.Limits.{IsAtMost, IsWithin};
ghost use Rattle.word_values.specs.Kinds.{AllWithinKinds};
ghost use Rattle.word_values.specs.Solids as solids;
ghost use Rattle.word_values.specs.declared.atoms.NumberList.TheVariants as lists;

use lattice_core::V3;
use plane_geom::ShapeFault;
use prim_arb8::Arb8;
use prim_half::Half;
use prim_rcc::Rcc;
use prim_sphere::Sphere;
use solid_set::Solid;
use tcl_words::is_word;

/// The kinds of solids that `in` makes.
#[derive(Clone, Copy, Debug, PartialEq, Eq)]
pub enum SolidKind {
    /// A half-space by a normal and a distance.
    Half,
    /// A box by its ranges of x, y and z.
    Rpp,
    /// A solid by eight vertices.
    Arb8,
    /// A sphere by a centre and a radius.
    Sphere,
    /// A cylinder by the centre of its base, the vector from there to that of its top, and a radius.
    Rcc,
}

impl SolidKind {
    /// The kind that a word names.
    pub fn of_word(word: &[u8]) -> Option<SolidKind>
        ensures { result ≡ solids.kind_of word.now }
    {
        if is_word(word, b"half") {
            Some(SolidKind::Half)
        } else if is_word(word, b"rpp") {
            Some(SolidKind::Rpp)
        } else if is_word(word, b"arb8") {
            Some(SolidKind::Arb8)
        } else if is_word(word, b"sph") {
            Some(SolidKind::Sphere)
        } else if is_word(word, b"rcc") {
            Some(SolidKind::Rcc)
        } else {
            None
        }
    }

    /// How many numbers make such a solid: at most 24.
    pub fn number_count(self) -> usize
        ensures exact { result ≡ solids.number_count self }
        ensures small { result ≤ 24 }
    {
        match self {
            SolidKind::Half => 4,
            SolidKind::Rpp => 6,
            SolidKind::Arb8 => 24,
            SolidKind::Sphere => 4,
            SolidKind::Rcc => 7,
        }
    }

    /// The solid of these numbers, or its first fault. Lengths count tenths of a millimetre.
    pub fn make(self, numbers: &[i64]) -> Result<Solid, ShapeFault>
        requires count { length numbers.now ≡ solids.number_count self }
        requires sizes { AllWithinKinds (lists.Solid self) numbers.now }
        ensures { result ≡ solids.solid_made self (map (λ n. Some n) numbers.now) }
    {
        match self {
            SolidKind::Half => half(vector_at(numbers, 0), number_at(numbers, 3)),
            SolidKind::Rpp => box_of(numbers),
            SolidKind::Arb8 => arb8(vertices(numbers)),
            SolidKind::Sphere => sphere(vector_at(numbers, 0), number_at(numbers, 3)),
            SolidKind::Rcc => rcc(
                vector_at(numbers, 0),
                vector_at(numbers, 3),
                number_at(numbers, 6),
            ),
        }
    }
}

fn number_at(numbers: &[i64], place: usize) -> i64
    requires { place < length numbers.now }
    ensures value { result ≡ solids.nth_number (map (λ n. Some n) numbers.now) place }
    ensures size { All (IsAtMost COORD) numbers.now → IsAtMost COORD result }
{
    numbers[place]
}

/// The three numbers from a place on.
pub fn vector_at(numbers: &[i64], place: usize) -> V3
    requires { place + 3 ≤ length numbers.now }
    ensures value { result ≡ solids.vector_at (map (λ n. Some n) numbers.now) place }
    ensures size { All (IsAtMost COORD) numbers.now → IsWithin COORD result }
{
    V3 {
        x: number_at(numbers, place),
        y: number_at(numbers, place + 1),
        z: number_at(numbers, place + 2),
    }
}

fn half(normal: V3, distance: i64) -> Result<Solid, ShapeFault>
    requires normal { IsWithin HALF_NORMAL normal }
    requires distance { IsAtMost COORD distance }
    ensures { result ≡ solids.half_made normal distance }
{
    Ok(Solid::Half(Half::new(normal, distance)?))
}

fn sphere(centre: V3, radius: i64) -> Result<Solid, ShapeFault>
    requires centre { IsWithin COORD centre }
    requires radius { IsAtMost COORD radius }
    ensures { result ≡ solids.sphere_made centre radius }
{
    Ok(Solid::Sphere(Sphere::new(centre, radius)?))
}

fn rcc(base: V3, height: V3, radius: i64) -> Result<Solid, ShapeFault>
    requires base { IsWithin COORD base }
    requires height { IsWithin COORD height }
    requires radius { IsAtMost COORD radius }
    ensures { result ≡ solids.rcc_made base height radius }
{
    Ok(Solid::Rcc(Rcc::new(base, height, radius)?))
}

fn arb8(vertices: [V3; 8]) -> Result<Solid, ShapeFault>
    requires { All (IsWithin COORD) vertices }
    ensures { result ≡ solids.arb8_made vertices }
{
    Ok(Solid::Arb8(Arb8::new(vertices)?))
}

/// The box of the ranges of x, y and z.
fn box_of(numbers: &[i64]) -> Result<Solid, ShapeFault>
    requires count { length numbers.now ≡ 6 }
    requires size { All (IsAtMost COORD) numbers.now }
    ensures { result ≡ solids.solid_made SolidKind.Rpp (map (λ n. Some n) numbers.now) }
{
    Solid::rpp(
        number_at(numbers, 0),
        number_at(numbers, 1),
        number_at(numbers, 2),
        number_at(numbers, 3),
        number_at(numbers, 4),
        number_at(numbers, 5),
    )
}

/// Eight vertices by 24 numbers.
fn vertices(numbers: &[i64]) -> [V3; 8]
    requires count { length numbers.now ≡ 24 }
    requires size { All (IsAtMost COORD) numbers.now }
    ensures value { result ≡ solids.vertices_in (map (λ n. Some n) numbers.now) }
    ensures size { All (IsWithin COORD) result }
{
    [
        vector_at(numbers, 0),
        vector_at(numbers, 3),
        vector_at(numbers, 6),
        vector_at(numbers, 9),
        vector_at(numbers, 12),
        vector_at(numbers, 15),
        vector_at(numbers, 18),
        vector_at(numbers, 21),
    ]
}
