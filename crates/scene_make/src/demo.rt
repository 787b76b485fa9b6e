//! The demo of a number.
ghost use Rattle.std.specs.Prelude.{◌≡◌, ◌<◌, ◌^◌, ◌++◌, ◌∷◌, [], OnOk, IfOk, length};
ghost use Rattle.asc_form.specs.Written.{written};
ghost use Rattle.text_laws.specs.TextAgain.{IsTextAgain};
ghost use Rattle.scene_make.specs.Demo as demo;
ghost use Rattle.scene_make.specs.Draws.{after};
ghost use Rattle.scene_make.specs.Steps.{entries_text};

use crate::draws::Draws;
use crate::names::{all_name, cut_name, region_name, sphere_name};
use crate::objects::{cut, region, sphere};
use crate::union::all;
use item_list::Items;
use itoa::Buffer;
use memory_core::Memory;
use name_core::Name;
use object_set::Object;
use put_form::write_put;
use std::alloc::Global;

/// A model as a text, and a script for it.
#[derive(Debug, Drop)]
pub struct Demo {
    pub load: Items<u8>,
    pub script: Items<u8>,
}

/// The text of the title and of the unit.
fn heading(alloc: Global, n: u32) -> Result<Vec<u8>, Memory>
    ensures { IfOk result (λ text. text.items ≡ written (record { title = demo.title_of n; objects = [] })) }
{
    let mut buffer = Buffer::new();
    let mut text = Vec::new(alloc);
    text.extend_from_slice(b"title {Demo ")?;
    text.extend_from_slice(buffer.format(n).as_bytes())?;
    text.extend_from_slice(b"}\nunits mm\n")?;
    Ok(text)
}

/// Puts an object at the end of the text.
fn push_object(
    alloc: Global,
    text: &mut Vec<u8>,
    name: &Name,
    object: &Object,
) -> Result<(), Memory>
    ensures { OnOk result (text.new.items ≡ text.old.items ++ entries_text ((name.now, object.now) ∷ [])) }
{
    write_put(alloc, name, object, text)
}

/// Puts a sphere and its region at the end of the text.
fn push_pair(alloc: Global, text: &mut Vec<u8>, draws: &mut Draws, i: u32) -> Result<(), Memory>
    requires { i < 1000 }
    ensures text { OnOk result (text.new.items ≡ text.old.items ++ entries_text (demo.pair_of draws.old.last i)) }
    ensures draws { draws.new.last ≡ after draws.old.last 5 }
{
    let drawn = draws.sphere();
    push_object(
        alloc,
        text,
        &sphere_name(i),
        &sphere(alloc, i, drawn.radius),
    )?;
    let region = region(alloc, i, drawn.turn, drawn.colour)?;
    push_object(alloc, text, &region_name(i), &region)
}

/// Puts all spheres, each with its region, at the end of the text.
fn push_pairs(alloc: Global, text: &mut Vec<u8>, n: u32) -> Result<(), Memory>
    ensures { OnOk result (text.new.items ≡ text.old.items ++ entries_text (demo.pairs n 1000)) }
{
    let mut draws = Draws::new(n);
    for i in 0..1000 {
        push_pair(alloc, text, &mut draws, i)?;
    }
    Ok(())
}

/// The text of the model.
fn model(alloc: Global, n: u32) -> Result<Vec<u8>, Memory>
    ensures { IfOk result (λ text. text.items ≡ written (demo.demo n)) }
{
    let mut text = heading(alloc, n)?;
    push_object(alloc, &mut text, &cut_name(), &cut(alloc))?;
    push_pairs(alloc, &mut text, n)?;
    push_object(alloc, &mut text, &all_name(), &all(alloc)?)?;
    Ok(text)
}

fn script(alloc: Global) -> Result<Vec<u8>, Memory>
    ensures { IfOk result (λ text. text.items ≡ demo.demo_script) }
{
    let mut text = Vec::new(alloc);
    text.extend_from_slice(b"rt demo1.ppm -z -1105 1105 1500 10 222 222 all\n")?;
    text.extend_from_slice(b"rtcheck -z -1105 1105 1500 10 222 222 all\n")?;
    text.extend_from_slice(b"cattr r555 rgb 255 0 0\n")?;
    text.extend_from_slice(b"rt demo2.ppm -z -1105 1105 1500 10 222 222 all\n")?;
    text.extend_from_slice(b"nirt -2000 -900 -900 +x all\n")?;
    Ok(text)
}

/// The demo of a number: a model of 1,000 regions, each a sphere from which a box is cut, and a script that makes two
/// pictures of it with a change between them. The spheres stand in a cube of 10 by 10 by 10, 200 millimetres apart; their
/// radii, from 20 to 79 millimetres, the turns of the box and the colours are drawn by the number. The text reads as the
/// model.
pub fn make_demo(alloc: Global, n: u32) -> Result<Demo, Memory>
    requires { n < 2 ^ 31 }
    ensures load { IfOk result (λ d. d.load ≡ written (demo.demo n)) }
    ensures script { IfOk result (λ d. d.script ≡ demo.demo_script) }
    ensures again { IfOk result (λ d. IsTextAgain (demo.demo n)) }
    ensures short { IfOk result (λ d. (length d.load < 2 ^ 24) × (length d.script < 2 ^ 22)) }
{
    let load = Items::of_vec(model(alloc, n)?);
    let script = Items::of_vec(script(alloc)?);
    Ok(Demo { load, script })
}
