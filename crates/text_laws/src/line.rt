//! The written line of an object reads as that object. The functions here do nothing: the contract of each is a law, and
//! its body calls what tells a proof what the arguments keep.
ghost use Rattle.std.specs.Prelude.{All};
ghost use Rattle.solid_set.specs.declared.solid.Solid.TheVariants as solids;
ghost use Rattle.comb_tree.specs.Nodes.{members};
ghost use Rattle.object_set.specs.declared.object.Body.TheVariants as bodies;
ghost use Rattle.object_set.specs.Objects.{IsComb};
ghost use Rattle.text_laws.specs.Fits.{IsColour, HasColour, IsNear, IsFitTree};
ghost use Rattle.text_laws.specs.PutAgain.{IsPutAgain};

use comb_tree::CombTree;
use name_core::Name;
use object_set::{Body, Object, recall_names};
use prim_arb8::Arb8;
use prim_half::Half;
use prim_rcc::Rcc;
use prim_sphere::Sphere;
use region_attr::{Attr, Rgb};
use solid_set::Solid;

/// The written line of a sphere reads as that sphere.
fn sphere_line_reads_again(name: &Name, sphere: &Sphere)
    ensures { IsPutAgain name.now (bodies.Solid (solids.Sphere sphere.now)) }
{
    let _bytes = name.bytes();
    let _centre = sphere.centre();
    let _radius = sphere.radius();
}

/// The written line of a half-space reads as that half-space.
fn half_line_reads_again(name: &Name, half: &Half)
    ensures { IsPutAgain name.now (bodies.Solid (solids.Half half.now)) }
{
    let _bytes = name.bytes();
    let _normal = half.normal();
    let _distance = half.distance();
}

/// The written line of a solid of eight vertices reads as that solid.
fn arb8_line_reads_again(name: &Name, arb8: &Arb8)
    ensures { IsPutAgain name.now (bodies.Solid (solids.Arb8 arb8.now)) }
{
    let _bytes = name.bytes();
    let _vertices = arb8.vertices();
}

/// The written line of a cylinder reads as that cylinder.
fn rcc_line_reads_again(name: &Name, rcc: &Rcc)
    ensures { IsPutAgain name.now (bodies.Solid (solids.Rcc rcc.now)) }
{
    let _bytes = name.bytes();
    let _base = rcc.base();
    let _height = rcc.height();
    let _radius = rcc.radius();
}

/// The written line of a solid reads as that solid.
fn solid_line_reads_again(name: &Name, solid: &Solid)
    ensures { IsPutAgain name.now (bodies.Solid solid.now) }
{
    match solid {
        Solid::Sphere(sphere) => sphere_line_reads_again(name, sphere),
        Solid::Half(half) => half_line_reads_again(name, half),
        Solid::Arb8(arb8) => arb8_line_reads_again(name, arb8),
        Solid::Rcc(rcc) => rcc_line_reads_again(name, rcc),
    }
}

/// The leaves of a tree are few, with names, and near.
fn recall_tree(tree: &CombTree)
    requires near { All IsNear (members tree.now) }
    ensures { IsFitTree tree.now }
{
    recall_names(tree.nodes());
}

/// The parts of a colour are bytes.
fn recall_parts(colour: Rgb)
    ensures { IsColour colour }
{}

/// The same for a colour that may be there.
fn recall_colour(colour: Option<Rgb>)
    ensures { HasColour colour }
{
    if let Some(colour) = colour {
        recall_parts(colour);
    }
}

/// The written line of a combination reads as that combination.
fn comb_line_reads_again(name: &Name, attr: &Attr, tree: &CombTree)
    requires { IsComb attr.now tree.now }
    ensures { IsPutAgain name.now (bodies.Comb attr.now tree.now) }
{
    let _bytes = name.bytes();
    recall_tree(tree);
    recall_colour(attr.rgb);
}

/// The written line of an object reads as that object, without what it keeps.
pub fn put_line_reads_again(name: &Name, object: &Object)
    ensures { IsPutAgain name.now object.now.body }
{
    match object.body() {
        Body::Solid(solid) => solid_line_reads_again(name, solid),
        Body::Comb { attr, tree } => comb_line_reads_again(name, attr, tree),
    }
}
