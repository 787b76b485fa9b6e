//! Reads solids by their keys and numbers.
ghost use Rattle.std.specs.Prelude.{◌≡◌, ◌≤◌, map, take, length, IfOk, IfSome, is_some, unwrap_or, pos};
ghost use Rattle.std.specs.List.{list_all};
ghost use Rattle.std.specs.Option.{option_copied, option_map};
ghost use Rattle.tcl_words.specs.TopWords.{AreTokensIn, IsWordOf};
ghost use Rattle.word_values.specs.Solids.{number_count, solid_made};
ghost use Rattle.word_values.specs.SolidForms as forms;
ghost use Rattle.word_values.specs.SolidForms.{made_as};
ghost use Rattle.word_values.specs.Kinds.{number_as};
ghost use Rattle.word_values.specs.declared.atoms.NumberList.TheVariants as lists;
ghost use Rattle.put_form.specs.Solids as solids;
ghost use Rattle.put_form.specs.Puts.{solid_of};
ghost use Rattle.put_form.specs.SolidSteps as steps;
ghost use Rattle.put_form.specs.Steps.{HaveWords, IsPutRead, word_of};

use crate::fault::PutFault;
use crate::name::read_name;
use crate::pairs::{KeyValue, is_key, pair_of};
use memory_core::Memory;
use name_core::Name;
use object_set::Object;
use plane_geom::ShapeFault;
use solid_set::Solid;
use std::alloc::Global;
use tcl_words::{Token, Word, atom_text};
use word_values::{Key, NumberKind, SolidForm, group_atoms, vector_key};

/// A list of one atom.
fn single(alloc: Global, atom: Option<&[u8]>) -> Result<Option<Vec<&[u8]>>, Memory>
    ensures { IfOk result (λ found. option_map (λ atoms. map (λ a. a.now) atoms.items) found ≡ solids.single (option_copied atom.entry)) }
{
    match atom {
        Some(atom) => {
            let mut atoms = Vec::with_capacity(alloc, 1)?;
            atoms.push(atom)?;
            Ok(Some(atoms))
        }
        None => Ok(None),
    }
}

/// The atoms, where there are so many.
fn of_count(count: usize, atoms: Option<Vec<&[u8]>>) -> Option<Vec<&[u8]>>
    ensures { option_map (λ atoms. map (λ a. a.now) atoms.items) result ≡ solids.of_count count (option_map (λ atoms. map (λ a. a.now) atoms.items) atoms.entry) }
{
    match atoms {
        Some(atoms) => {
            if atoms.len() == count {
                Some(atoms)
            } else {
                None
            }
        }
        None => None,
    }
}

/// The atoms of a value: one, or the three of a group.
fn value_atoms<'a>(
    alloc: Global,
    text: &'a [u8],
    tokens: &[Token],
    count: usize,
    value: Word,
) -> Result<Option<Vec<&'a [u8]>>, Memory>
    requires tokens { AreTokensIn (length text.now) tokens.now }
    requires word { IsWordOf tokens.now value }
    ensures { IfOk result (λ found. option_map (λ atoms. map (λ a. a.now) atoms.items) found ≡ solids.value_atoms text.now tokens.now count value) }
{
    if count == 1 {
        single(alloc, atom_text(text, tokens, value))
    } else {
        Ok(of_count(count, group_atoms(alloc, text, tokens, value)?))
    }
}

/// The numbers of a kind that atoms are, each of which may be none in its range.
fn numbers_as(alloc: Global, kind: NumberKind, atoms: &[&[u8]]) -> Result<Vec<Option<i64>>, Memory>
    ensures { IfOk result (λ v. v.items ≡ map (number_as kind) (map (λ a. a.now) atoms.now)) }
{
    let mut numbers = Vec::with_capacity(alloc, atoms.len())?;
    for atom in atoms {
        numbers.push(kind.read(atom))?;
    }
    Ok(numbers)
}

/// The numbers of a key's value.
fn value_numbers(
    alloc: Global,
    text: &[u8],
    tokens: &[Token],
    key: &Key,
    value: Word,
) -> Result<Option<Vec<Option<i64>>>, Memory>
    requires tokens { AreTokensIn (length text.now) tokens.now }
    requires word { IsWordOf tokens.now value }
    ensures { IfOk result (λ found. option_map (λ v. v.items) found ≡ solids.value_numbers text.now tokens.now key.now value) }
{
    match value_atoms(alloc, text, tokens, key.count(), value)? {
        Some(atoms) => Ok(Some(numbers_as(alloc, key.kind(), &atoms)?)),
        None => Ok(None),
    }
}

/// The numbers of a key, none where it is missing or its value is not in its form.
fn key_numbers(
    alloc: Global,
    text: &[u8],
    tokens: &[Token],
    pairs: &[KeyValue],
    key: &Key,
) -> Result<Option<Vec<Option<i64>>>, Memory>
    requires tokens { AreTokensIn (length text.now) tokens.now }
    requires words { HaveWords tokens.now pairs.now }
    ensures { IfOk result (λ found. option_map (λ v. v.items) found ≡ solids.key_numbers text.now tokens.now pairs.now key.now) }
{
    match pair_of(key.name(), pairs) {
        Some(pair) => value_numbers(alloc, text, tokens, key, pair.value()),
        None => Ok(None),
    }
}

/// The numbers of all keys, in the order of the keys.
fn all_numbers(
    alloc: Global,
    text: &[u8],
    tokens: &[Token],
    pairs: &[KeyValue],
    form: SolidForm,
) -> Result<Option<Vec<Option<i64>>>, Memory>
    requires tokens { AreTokensIn (length text.now) tokens.now }
    requires words { HaveWords tokens.now pairs.now }
    ensures { IfOk result (λ found. option_map (λ v. v.items) found ≡ solids.all_numbers text.now tokens.now pairs.now (forms.keys_of form)) }
{
    let mut numbers = Vec::with_capacity(alloc, 24)?;
    for place in 0..form.key_count() {
        let key = form.key_at(place);
        let Some(found) = key_numbers(alloc, text, tokens, pairs, &key)? else {
            return Ok(None);
        };
        numbers.extend_from_slice(&found)?;
    }
    Ok(Some(numbers))
}

/// The numbers of a solid, where each of its keys is given once with a value in its form, and no other.
fn numbers_of(
    alloc: Global,
    text: &[u8],
    tokens: &[Token],
    form: SolidForm,
    pairs: &[KeyValue],
) -> Result<Option<Vec<Option<i64>>>, Memory>
    requires tokens { AreTokensIn (length text.now) tokens.now }
    requires words { HaveWords tokens.now pairs.now }
    ensures { IfOk result (λ found. option_map (λ v. v.items) found ≡ solids.numbers_of text.now tokens.now form pairs.now) }
{
    if pairs.len() == form.key_count() {
        all_numbers(alloc, text, tokens, pairs, form)
    } else {
        Ok(None)
    }
}

fn or_no_numbers(alloc: Global, numbers: Option<Vec<Option<i64>>>) -> Vec<Option<i64>>
    ensures { result.items ≡ solids.or_no_numbers (option_map (λ v. v.items) numbers) }
{
    match numbers {
        Some(numbers) => numbers,
        None => Vec::new(alloc),
    }
}

fn key_of_pair(form: SolidForm, name: Option<&[u8]>) -> Option<Key>
    ensures { result ≡ forms.key_in (forms.keys_of form) (option_copied name.entry) }
{
    match name {
        Some(name) => form.key_in(name),
        None => None,
    }
}

/// The numbers of a pair, by its own key.
fn pair_numbers(
    alloc: Global,
    text: &[u8],
    tokens: &[Token],
    form: SolidForm,
    pair: &KeyValue,
) -> Result<Vec<Option<i64>>, Memory>
    requires tokens { AreTokensIn (length text.now) tokens.now }
    requires word { IsWordOf tokens.now pair.now.value }
    ensures { IfOk result (λ v. v.items ≡ solids.pair_numbers text.now tokens.now form pair.now) }
{
    match key_of_pair(form, pair.key()) {
        Some(key) => {
            let numbers = value_numbers(alloc, text, tokens, &key, pair.value())?;
            Ok(or_no_numbers(alloc, numbers))
        }
        None => Ok(Vec::new(alloc)),
    }
}

/// The number at a place, if there is one in its range.
fn nth_number(numbers: &[Option<i64>], place: usize) -> Option<i64>
    ensures { result ≡ solids.nth_number numbers.now place }
{
    if place < numbers.len() {
        numbers[place]
    } else {
        None
    }
}

fn is_number(n: i64, number: Option<i64>) -> bool
    ensures { result ≡ solids.is_number n number }
{
    match number {
        Some(m) => n == m,
        None => false,
    }
}

/// Whether a number is the radius, or anything where there is none.
fn is_radius(radius: Option<i64>, number: Option<i64>) -> bool
    ensures { result ≡ solids.is_radius radius number }
{
    match radius {
        Some(r) => is_number(r, number),
        None => true,
    }
}

/// Whether the number of a component is the radius on its own axis, and 0 on another.
fn is_component(axis: usize, radius: Option<i64>, numbers: &[Option<i64>], place: usize) -> bool
    ensures { result ≡ steps.is_component axis radius numbers.now place }
{
    if axis == place {
        is_radius(radius, nth_number(numbers, place))
    } else {
        is_number(0, nth_number(numbers, place))
    }
}

fn is_along(axis: usize, radius: Option<i64>, numbers: &[Option<i64>]) -> bool
    ensures { result ≡ solids.is_along axis radius numbers.now }
{
    is_component(axis, radius, numbers, 0)
        && is_component(axis, radius, numbers, 1)
        && is_component(axis, radius, numbers, 2)
}

/// The axis of an ellipsoid that a key stands for.
fn axis_of(key: Option<&[u8]>) -> Option<usize>
    ensures { result ≡ solids.axis_of (option_copied key.entry) }
{
    if is_key(b"A", key) {
        Some(0)
    } else if is_key(b"B", key) {
        Some(1)
    } else if is_key(b"C", key) {
        Some(2)
    } else {
        None
    }
}

fn is_on(axis: Option<usize>, radius: Option<i64>, numbers: &[Option<i64>]) -> bool
    ensures { result ≡ solids.is_on axis radius numbers.now }
{
    match axis {
        Some(axis) => is_along(axis, radius, numbers),
        None => true,
    }
}

/// Whether the numbers of a key may be an axis of this solid.
fn has_axis(
    form: SolidForm,
    key: Option<&[u8]>,
    radius: Option<i64>,
    numbers: &[Option<i64>],
) -> bool
    ensures { result ≡ solids.has_axis form (option_copied key.entry) radius numbers.now }
{
    match form {
        SolidForm::Ellipsoid => is_on(axis_of(key), radius, numbers),
        _ => true,
    }
}

fn are_all_there(numbers: &[Option<i64>]) -> bool
    ensures { result ≡ list_all is_some numbers.now }
{
    numbers.iter().all(|number| number.is_some())
}

/// Whether the numbers of a pair are in their range, and those of an axis in their form.
fn is_good(
    alloc: Global,
    text: &[u8],
    tokens: &[Token],
    form: SolidForm,
    radius: Option<i64>,
    pair: &KeyValue,
) -> Result<bool, Memory>
    requires tokens { AreTokensIn (length text.now) tokens.now }
    requires word { IsWordOf tokens.now pair.now.value }
    ensures { IfOk result (λ good. good ≡ steps.is_good text.now tokens.now form radius pair.now) }
{
    let numbers = pair_numbers(alloc, text, tokens, form, pair)?;
    Ok(are_all_there(&numbers) && has_axis(form, pair.key(), radius, &numbers))
}

/// The radius of an ellipsoid: the first number of `A`, where it is a number in its range.
fn radius_in(
    alloc: Global,
    text: &[u8],
    tokens: &[Token],
    pairs: &[KeyValue],
) -> Result<Option<i64>, Memory>
    requires tokens { AreTokensIn (length text.now) tokens.now }
    requires words { HaveWords tokens.now pairs.now }
    ensures { IfOk result (λ radius. radius ≡ solids.radius_in text.now tokens.now pairs.now) }
{
    let numbers = key_numbers(alloc, text, tokens, pairs, &vector_key(b"A"))?;
    Ok(nth_number(&or_no_numbers(alloc, numbers), 0))
}

/// The number of the first word whose numbers are not good.
fn bad_word(
    alloc: Global,
    text: &[u8],
    tokens: &[Token],
    form: SolidForm,
    pairs: &[KeyValue],
) -> Result<Option<u32>, Memory>
    requires tokens { AreTokensIn (length text.now) tokens.now }
    requires words { HaveWords tokens.now pairs.now }
    ensures { IfOk result (λ found. found ≡ word_of (solids.bad_pair text.now tokens.now form pairs.now)) }
{
    let radius = radius_in(alloc, text, tokens, pairs)?;
    for pair in pairs {
        if !is_good(alloc, text, tokens, form, radius, pair)? {
            return Ok(Some(pair.place()));
        }
    }
    Ok(None)
}

/// The numbers, those that are none being 0.
fn whole_numbers(numbers: &[Option<i64>]) -> [i64; 24]
    requires { length numbers.now ≤ 24 }
    ensures { take (length numbers.now) result ≡ map steps.or_zero numbers.now }
{
    let mut whole = [0; 24];
    for (i, number) in numbers.iter().enumerate() {
        whole[i] = number.unwrap_or(0);
    }
    whole
}

/// The solid that the first of the numbers make, or its first fault.
fn make_solid(form: SolidForm, numbers: &[Option<i64>]) -> Result<Solid, ShapeFault>
    requires count { number_count (made_as form) ≤ length numbers.now }
    requires sizes { steps.AreOfKinds (lists.Solid (made_as form)) numbers.now }
    ensures { result ≡ solid_made (made_as form) (take (number_count (made_as form)) numbers.now) }
{
    let kind = form.made_as();
    let count = kind.number_count();
    let numbers = whole_numbers(&numbers[..count]);
    kind.make(&numbers[..count])
}

/// The solid of a name, where its numbers are good.
fn named_solid(
    alloc: Global,
    name: Option<&[u8]>,
    form: SolidForm,
    numbers: &[Option<i64>],
    bad: Option<u32>,
) -> Result<(Name, Object), PutFault>
    requires count { number_count (made_as form) ≤ length numbers.now }
    requires sizes { steps.AreOfKinds (lists.Solid (made_as form)) numbers.now }
    ensures { IsPutRead result (steps.named_solid (option_copied name.entry) form numbers.now bad) }
{
    let name = read_name(name)?;
    if let Some(place) = bad {
        return Err(PutFault::Number(place));
    }
    match make_solid(form, numbers) {
        Ok(solid) => Ok((name, Object::of_solid(alloc, solid))),
        Err(fault) => Err(PutFault::Shape(fault)),
    }
}

/// The solid that keys and values are, or the first fault.
pub(crate) fn read_solid(
    alloc: Global,
    text: &[u8],
    tokens: &[Token],
    form: SolidForm,
    name: Option<&[u8]>,
    pairs: &[KeyValue],
) -> Result<(Name, Object), PutFault>
    requires tokens { AreTokensIn (length text.now) tokens.now }
    requires words { HaveWords tokens.now pairs.now }
    ensures { IsPutRead result (solid_of text.now tokens.now form (option_copied name.entry) pairs.now) }
{
    match numbers_of(alloc, text, tokens, form, pairs)? {
        Some(numbers) => {
            let bad = bad_word(alloc, text, tokens, form, pairs)?;
            named_solid(alloc, name, form, &numbers, bad)
        }
        None => Err(PutFault::Attr),
    }
}
