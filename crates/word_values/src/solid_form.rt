//! How solids are given by keys: the word of each form, its keys, and what is made of their numbers.
ghost use Rattle.std.specs.Prelude.{◌≡◌};
ghost use Rattle.word_values.specs.SolidForms as forms;
ghost use Rattle.word_values.specs.KeySteps as steps;

use crate::atoms::{NumberKind, coordinate_kind, normal_kind};
use crate::solid::SolidKind;
use std::marker::Model;
use tcl_words::is_word;

/// How a solid is given.
#[derive(Clone, Copy, Debug, PartialEq, Eq)]
pub enum SolidForm {
    /// `sph`: a centre `V` and a radius `r`.
    Sphere,
    /// `ell`: a centre `V` and three axes `A`, `B` and `C` of one length along x, y and z, which is a sphere.
    Ellipsoid,
    /// `half`: a normal `N` and a distance `d`.
    Half,
    /// `arb8`: eight vertices `V1` to `V8`.
    Arb8,
    /// `rcc`: the centre `V` of the base, the vector `H` from there to that of the top, and a radius `r`.
    Rcc,
}

impl SolidForm {
    ghost use Rattle.std.specs.Prelude.{◌≡◌, ◌<◌, length, Some};
    ghost use Rattle.word_values.specs.SolidForms as forms;

    /// The form that a word names.
    pub fn of_word(word: &[u8]) -> Option<SolidForm>
        ensures { result ≡ forms.form_of word.now }
    {
        if is_word(word, b"sph") {
            Some(SolidForm::Sphere)
        } else if is_word(word, b"ell") {
            Some(SolidForm::Ellipsoid)
        } else if is_word(word, b"half") {
            Some(SolidForm::Half)
        } else if is_word(word, b"arb8") {
            Some(SolidForm::Arb8)
        } else if is_word(word, b"rcc") {
            Some(SolidForm::Rcc)
        } else {
            None
        }
    }

    /// What is made of the numbers that are given.
    pub fn made_as(self) -> SolidKind
        ensures { result ≡ forms.made_as self }
    {
        match self {
            SolidForm::Sphere => SolidKind::Sphere,
            SolidForm::Ellipsoid => SolidKind::Sphere,
            SolidForm::Half => SolidKind::Half,
            SolidForm::Arb8 => SolidKind::Arb8,
            SolidForm::Rcc => SolidKind::Rcc,
        }
    }

    /// How many keys there are.
    pub fn key_count(self) -> usize
        ensures { result ≡ length (forms.keys_of self) }
    {
        match self {
            SolidForm::Sphere => 2,
            SolidForm::Ellipsoid => 4,
            SolidForm::Half => 2,
            SolidForm::Arb8 => 8,
            SolidForm::Rcc => 3,
        }
    }

    /// The key at a place, counted from 0.
    pub fn key_at(self, place: usize) -> Key
        requires { place < length (forms.keys_of self) }
        ensures { result ≡ forms.key_at self place }
    {
        key_by(self, place)
    }

    /// The key of a name.
    pub fn key_in(self, name: &[u8]) -> Option<Key>
        ensures { result ≡ forms.key_in (forms.keys_of self) (Some name.now) }
    {
        for place in 0..self.key_count() {
            let key = self.key_at(place);
            if *key.name() == *name {
                return Some(key);
            }
        }
        None
    }
}

/// A key, how many numbers its value has, one atom or a group of three, and of which kind they are.
#[derive(Drop)]
pub struct Key {
    name: &'static [u8],
    count: usize,
    kind: NumberKind,
}

impl Model for Key {
    ghost use Rattle.word_values.specs.SolidForms.{Key};

    ghost Value = { Key };

    ghost view = { λ s. record { name = s.name.now; count = s.count; kind = s.kind } };
}

impl Key {
    ghost use Rattle.std.specs.Prelude.{◌≡◌};

    /// The word that stands before the value.
    pub fn name(&self) -> &[u8]
        ensures { result.now ≡ self.now.name }
    {
        self.name
    }

    /// How many numbers the value has.
    pub fn count(&self) -> usize
        ensures { result ≡ self.now.count }
    {
        self.count
    }

    /// Of which kind these are.
    pub fn kind(&self) -> NumberKind
        ensures { result ≡ self.now.kind }
    {
        self.kind
    }
}

/// The key of three lengths.
pub fn vector_key(name: &'static [u8]) -> Key
    ensures { result ≡ forms.vector_key name.now }
{
    Key {
        name,
        count: 3,
        kind: coordinate_kind(),
    }
}

/// The key of three whole numbers.
fn normal_key(name: &'static [u8]) -> Key
    ensures { result ≡ forms.normal_key name.now }
{
    Key {
        name,
        count: 3,
        kind: normal_kind(),
    }
}

/// The key of one length.
fn number_key(name: &'static [u8]) -> Key
    ensures { result ≡ forms.number_key name.now }
{
    Key {
        name,
        count: 1,
        kind: coordinate_kind(),
    }
}

fn ellipsoid_name(place: usize) -> &'static [u8]
    ensures { result.now ≡ steps.ellipsoid_name place }
{
    match place {
        0 => b"V",
        1 => b"A",
        2 => b"B",
        _ => b"C",
    }
}

fn vertex_name(place: usize) -> &'static [u8]
    ensures { result.now ≡ steps.vertex_name place }
{
    match place {
        0 => b"V1",
        1 => b"V2",
        2 => b"V3",
        3 => b"V4",
        4 => b"V5",
        5 => b"V6",
        6 => b"V7",
        _ => b"V8",
    }
}

/// The key at a place, the last one from the last place on.
fn key_by(form: SolidForm, place: usize) -> Key
    ensures { result ≡ steps.key_by form place }
{
    match form {
        SolidForm::Sphere => match place {
            0 => vector_key(b"V"),
            _ => number_key(b"r"),
        },
        SolidForm::Ellipsoid => vector_key(ellipsoid_name(place)),
        SolidForm::Half => match place {
            0 => normal_key(b"N"),
            _ => number_key(b"d"),
        },
        SolidForm::Arb8 => vector_key(vertex_name(place)),
        SolidForm::Rcc => match place {
            0 => vector_key(b"V"),
            1 => vector_key(b"H"),
            _ => number_key(b"r"),
        },
    }
}
