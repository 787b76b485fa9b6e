//! What preparing made last, which is taken again where it is made of the same values.
ghost use Rattle.std.specs.Prelude.{◌≡◌, ◌∷◌, ◌<◌, ◌^◌, [], true, IfOk, map, length, vec_len};
ghost use Rattle.std.specs.Arc.{arc_value};
ghost use Rattle.lattice_core.specs.declared.limit.TheConstants.{SHIFT};
ghost use Rattle.lattice_core.specs.Limits.{IsWithin};
ghost use Rattle.tree_forms.specs.Trees.{leaves};
ghost use Rattle.shot_core.specs.Regions.{HasLeavesBelow};
ghost use Rattle.shot_core.specs.Prepared.{instance_of};
ghost use Rattle.scene_prep.specs.Solids.{in_world};

use bool_weave::MaskTree;
use lattice_core::Placement;
use memory_core::Memory;
use prim_arb8::Arb8;
use prim_half::Half;
use prim_rcc::Rcc;
use prim_sphere::Sphere;
use region_attr::Rgb;
use shot_core::PrepRegion;
use solid_set::{Placed, Solid};
use std::alloc::Global;
use std::sync::Arc;

/// Whether two solids of eight vertices are the same one.
fn is_same_arb8(one: &Arb8, two: &Arb8) -> bool
    ensures { result ≡ true → one.now ≡ two.now }
{
    one.vertices() == two.vertices()
}

fn is_same_sphere(one: &Sphere, two: &Sphere) -> bool
    ensures { result ≡ true → one.now ≡ two.now }
{
    one == two
}

fn is_same_half(one: &Half, two: &Half) -> bool
    ensures { result ≡ true → one.now ≡ two.now }
{
    one == two
}

fn is_same_rcc(one: &Rcc, two: &Rcc) -> bool
    ensures { result ≡ true → one.now ≡ two.now }
{
    one == two
}

/// Whether two solids are the same one.
fn is_same_solid(solid: &Solid, other: &Solid) -> bool
    ensures { result ≡ true → solid.now ≡ other.now }
{
    match (solid, other) {
        (Solid::Arb8(one), Solid::Arb8(two)) => is_same_arb8(one, two),
        (Solid::Sphere(one), Solid::Sphere(two)) => is_same_sphere(one, two),
        (Solid::Half(one), Solid::Half(two)) => is_same_half(one, two),
        (Solid::Rcc(one), Solid::Rcc(two)) => is_same_rcc(one, two),
        _ => false,
    }
}

/// A solid that was placed, with the solid and the placement.
#[derive(Clone, Copy)]
struct PlacedAt {
    solid: Solid,
    by: Placement,
    placed: Placed,
    pub ghost is: { instance_of placed ≡ in_world (record { solid = solid; placements = by ∷ [] }) },
}

impl PlacedAt {
    /// The solid where this placement takes it.
    fn new(solid: &Solid, by: &Placement) -> PlacedAt
        requires { IsWithin SHIFT by.now.shift }
        ensures solid { result.solid ≡ solid.now }
        ensures by { result.by ≡ by.now }
    {
        PlacedAt {
            solid: *solid,
            by: *by,
            placed: solid.placed(by),
        }
    }

    /// Whether it is that solid where that placement takes it.
    fn is_of(&self, solid: &Solid, by: &Placement) -> bool
        ensures { result ≡ true → instance_of self.now.placed ≡ in_world (record { solid = solid.now; placements = by.now ∷ [] }) }
    {
        is_same_placement(&self.by, by) && is_same_solid(&self.solid, solid)
    }
}

fn is_same_placement(one: &Placement, two: &Placement) -> bool
    ensures { result ≡ true → one.now ≡ two.now }
{
    one == two
}

fn is_same_colour(one: &Rgb, two: &Rgb) -> bool
    ensures { result ≡ true → one.now ≡ two.now }
{
    one == two
}

fn is_same_tree(one: &MaskTree, two: &MaskTree) -> bool
    ensures { result ≡ true → one.now ≡ two.now }
{
    one.nodes() == two.nodes()
}

fn are_same_solids(one: &[Placed], two: &[Placed]) -> bool
    ensures { result ≡ true → map instance_of one.now ≡ map instance_of two.now }
{
    one == two
}

/// Whether a body has these parts.
fn has_parts(
    body: &PrepRegion,
    id: u32,
    air: u32,
    rgb: &Rgb,
    tree: &MaskTree,
    solids: &[Placed],
) -> bool
    ensures id { result ≡ true → body.now.id ≡ id }
    ensures air { result ≡ true → body.now.air ≡ air }
    ensures rgb { result ≡ true → body.now.rgb ≡ rgb.now }
    ensures tree { result ≡ true → body.now.tree ≡ tree.now }
    ensures solids { result ≡ true → body.now.instances ≡ map instance_of solids.now }
{
    body.id() == id
        && body.air() == air
        && is_same_colour(&body.rgb(), rgb)
        && is_same_tree(body.tree(), tree)
        && are_same_solids(body.solids(), solids)
}

/// The solids and bodies that preparing made last, in their order. Each is what is made of the values that it is of, whatever
/// the directory is. What preparing makes next is compared with what stands at the same place.
#[derive(Drop)]
pub struct Memo {
    solids: Vec<PlacedAt>,
    next_solid: usize,
    bodies: Vec<Arc<PrepRegion>>,
    next_body: usize,
    placed: u32,
}

impl Memo {
    /// Nothing was made. It takes no memory.
    pub fn new(alloc: Global) -> Memo
        ensures solids { result.solids.items ≡ [] }
        ensures bodies { result.bodies.items ≡ [] }
        ensures placed { result.placed ≡ 0 }
    {
        Memo {
            solids: Vec::new(alloc),
            next_solid: 0,
            bodies: Vec::new(alloc),
            next_body: 0,
            placed: 0,
        }
    }

    /// Begins again with the first place.
    pub(crate) fn restart(&mut self)
        ensures solids { self.new.solids ≡ self.old.solids }
        ensures bodies { self.new.bodies ≡ self.old.bodies }
        ensures first_solid { self.new.next_solid ≡ 0 }
        ensures first_body { self.new.next_body ≡ 0 }
        ensures placed { self.new.placed ≡ 0 }
    {
        self.next_solid = 0;
        self.next_body = 0;
        self.placed = 0;
    }

    /// How many solids were placed since it began, and not taken again.
    pub(crate) fn placed(&self) -> u32
        ensures { result ≡ self.now.placed }
    {
        self.placed
    }

    /// Puts a solid at the next place.
    fn keep_solid(&mut self, one: &PlacedAt) -> Result<(), Memory> {
        self.placed = self.placed.saturating_add(1);
        match self.solids.get_mut(self.next_solid) {
            Some(old) => *old = *one,
            None => self.solids.push(*one)?,
        }
        Ok(())
    }

    /// The solid where the placement takes it: the one at the next place where it is that, else it is made.
    pub(crate) fn place(&mut self, solid: &Solid, by: &Placement) -> Result<Placed, Memory>
        requires { IsWithin SHIFT by.now.shift }
        ensures { IfOk result (λ placed. instance_of placed ≡ in_world (record { solid = solid.now; placements = by.now ∷ [] })) }
    {
        if let Some(old) = self.solids.get(self.next_solid) {
            if old.is_of(solid, by) {
                let placed = old.placed;
                self.next_solid = self.next_solid.saturating_add(1);
                return Ok(placed);
            }
        }
        let one = PlacedAt::new(solid, by);
        self.keep_solid(&one)?;
        self.next_solid = self.next_solid.saturating_add(1);
        Ok(one.placed)
    }

    /// Puts a share of a body at the next place.
    fn keep_body(&mut self, body: &Arc<PrepRegion>) -> Result<(), Memory> {
        let share = Arc::try_clone(body)?;
        match self.bodies.get_mut(self.next_body) {
            Some(old) => *old = share,
            None => self.bodies.push(share)?,
        }
        Ok(())
    }

    /// A share of the body of these parts: of the one at the next place where it has them, else it is made.
    pub(crate) fn body(
        &mut self,
        alloc: Global,
        id: u32,
        air: u32,
        rgb: Rgb,
        tree: MaskTree,
        solids: Vec<Placed>,
    ) -> Result<Arc<PrepRegion>, Memory>
        requires leaves { HasLeavesBelow (vec_len solids) tree }
        requires few { length (leaves tree) < 2 ^ 32 }
        ensures { IfOk result (λ r. arc_value r ≡ record { id = id; air = air; rgb = rgb; tree = tree; instances = map instance_of solids.items }) }
    {
        if let Some(old) = self.bodies.get(self.next_body) {
            if has_parts(old, id, air, &rgb, &tree, &solids) {
                let share = Arc::try_clone(old)?;
                self.next_body = self.next_body.saturating_add(1);
                return Ok(share);
            }
        }
        let body = Arc::new(alloc, PrepRegion::new(alloc, id, air, rgb, tree, solids)?)?;
        self.keep_body(&body)?;
        self.next_body = self.next_body.saturating_add(1);
        Ok(body)
    }
}
