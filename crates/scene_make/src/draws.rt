//! What is drawn for the spheres of a demo.
ghost use Rattle.std.specs.Prelude.{◌≡◌, ◌<◌};
ghost use Rattle.prim_sphere.specs.Spheres.{IsRadius};
ghost use Rattle.scene_make.specs.Draws as draws;
ghost use Rattle.scene_make.specs.Draws.{after, draw};
ghost use Rattle.scene_make.specs.Demo.{drawn_radius, drawn_turn, drawn_colour};

use lattice_core::{MILLIMETRE, Turn};
use region_attr::Rgb;

/// Draws numbers. Each comes from the one before it.
#[derive(Drop)]
pub(crate) struct Draws {
    last: u32,
}

/// What is drawn for one sphere.
#[derive(Clone, Copy)]
pub(crate) struct Drawn {
    pub(crate) radius: i64,
    pub(crate) turn: Turn,
    pub(crate) colour: Rgb,
}

/// The number after another one.
fn next(x: u32) -> u32
    ensures { result ≡ draws.next x }
{
    ((u64::from(x) * 1_103_515_245 + 12_345) % 2_147_483_648) as u32
}

impl Draws {
    pub(crate) fn new(n: u32) -> Self
        ensures { result.last ≡ n }
    {
        Draws { last: n }
    }

    /// Draws a number below a bound.
    fn draw(&mut self, bound: u32) -> u32
        requires { 0 < bound }
        ensures last { self.new.last ≡ draws.next self.old.last }
        ensures value { result ≡ draw self.old.last 0 bound }
        ensures below { result < bound }
    {
        self.last = next(self.last);
        self.last / 65_536 % bound
    }

    fn radius(&mut self) -> i64
        ensures last { self.new.last ≡ draws.next self.old.last }
        ensures value { result ≡ drawn_radius self.old.last }
        ensures size { IsRadius result }
    {
        (20 + i64::from(self.draw(60))) * MILLIMETRE
    }

    fn turn(&mut self) -> Turn
        ensures last { self.new.last ≡ draws.next self.old.last }
        ensures value { result.number ≡ draw self.old.last 0 48 }
    {
        match Turn::of_number(self.draw(48) as u8) {
            Some(turn) => turn,
            None => unreachable!(),
        }
    }

    /// Draws a part of a colour.
    fn part(&mut self) -> u8
        ensures last { self.new.last ≡ draws.next self.old.last }
        ensures value { result ≡ draw self.old.last 0 256 }
    {
        self.draw(256) as u8
    }

    fn colour(&mut self) -> Rgb
        ensures last { self.new.last ≡ after self.old.last 3 }
        ensures r { result.r ≡ draw self.old.last 0 256 }
        ensures g { result.g ≡ draw self.old.last 1 256 }
        ensures b { result.b ≡ draw self.old.last 2 256 }
    {
        let r = self.part();
        let g = self.part();
        let b = self.part();
        Rgb { r, g, b }
    }

    /// Draws what a sphere needs.
    pub(crate) fn sphere(&mut self) -> Drawn
        ensures last { self.new.last ≡ after self.old.last 5 }
        ensures radius { result.radius ≡ drawn_radius self.old.last }
        ensures size { IsRadius result.radius }
        ensures turn { result.turn ≡ drawn_turn self.old.last }
        ensures colour { result.colour ≡ drawn_colour self.old.last }
    {
        let radius = self.radius();
        let turn = self.turn();
        let colour = self.colour();
        Drawn {
            radius,
            turn,
            colour,
        }
    }
}
