//! What of a ray the faces of a placed solid hold: a start and an end that are kept from face to face.

ghost use Rattle.std.specs.Prelude.{◌≡◌, ◌<◌, ◌≤◌, ◌<ℤ◌, ◌≤ℤ◌, pos};
ghost use Rattle.std.specs.Option.{ForSome};
ghost use Rattle.plane_geom.specs.Chords.{length_squared};
ghost use Rattle.surd_quot.specs.Range.{IsFractionInRange, IsRootInRange};
ghost use Rattle.surd_quot.specs.Spelled.{spelled_quotient};
ghost use Rattle.oblique_ray.specs.Runs.{IsKnown};

use crate::measure::{
    gap_at, half_chord_along, holds_along, nearest_along, over_at, pace_of, slope_along,
};
use crate::stretch::{Stretch, between, earlier, later};
use lattice_core::{FAR, V3};
use plane_geom::{Plane, apart_from};
use prim_rcc::Axis;
use solid_set::Round;
use std::cmp::Ordering;
use surd_quot::QPos;

/// The part of a ray that the faces so far hold, and whether one of them misses it.
#[derive(Clone, Copy)]
pub struct Run {
    start: QPos,
    end: QPos,
    missed: bool,
}

/// The fraction `p / q`.
fn fraction_at(p: i128, q: i128) -> QPos
    requires { IsFractionInRange p q }
    ensures value { result ≡ spelled_quotient (QPos.Frac p q) }
    ensures known { IsKnown result }
{
    QPos::frac(p, q)
}

/// `(a + √k) / q`, or with `plus` false `(a - √k) / q`.
fn root_at(a: i64, plus: bool, k: u64, q: u8) -> QPos
    requires { IsRootInRange a k q }
    ensures value { result ≡ spelled_quotient (QPos.Quot a plus k q) }
    ensures known { IsKnown result }
{
    QPos::quot(a, plus, k, q)
}

impl Run {
    ghost use Rattle.std.specs.Prelude.{◌≡◌, ◌<ℤ◌, ◌≤ℤ◌, pos, All, Option};
    ghost use Rattle.std.specs.Option.{ForSome};
    ghost use Rattle.lattice_core.specs.declared.limit.TheConstants.{COORD, PLACED, WORLD};
    ghost use Rattle.lattice_core.specs.Limits.{IsAtMost, IsWithin};
    ghost use Rattle.plane_geom.specs.Chords.{IsRadius, length_squared};
    ghost use Rattle.plane_geom.specs.Planes.{IsWorldPlane};
    ghost use Rattle.solid_set.specs.PlacedFaces.{side_around, IsRoundSized};
    ghost use Rattle.slant_ray.specs.declared.ray.TheConstants.{STEP};
    ghost use Rattle.oblique_ray.specs.declared.limit.TheConstants.{PACE, NEAREST, CHORD};
    ghost use Rattle.oblique_ray.specs.Cuts.{held_or_missed, plane_cut, face_cut, chord_cut, ball_cut, side_cut, cut_around, round_cut, planes_cut};
    ghost use Rattle.oblique_ray.specs.Runs.{IsKnown, IsRunKnown, whole_run, run_past, run_entered, run_left, stretch_of_run};
    ghost use Rattle.oblique_ray.specs.Sizes.{AreEndsInRange};

    /// All of a ray.
    pub fn whole() -> Run
        ensures value { result ≡ whole_run }
        ensures known { IsRunKnown result }
    {
        Run {
            start: QPos::Frac { p: 0, q: 1 },
            end: QPos::Frac {
                p: FAR as i128,
                q: 1,
            },
            missed: false,
        }
    }

    /// Held from a place on.
    fn entered(self, place: QPos) -> Run
        requires run { IsRunKnown self }
        requires place { IsKnown place }
        ensures value { result ≡ run_entered self place }
        ensures known { IsRunKnown result }
    {
        Run {
            start: later(self.start, place),
            ..self
        }
    }

    /// Held up to a place.
    fn left(self, place: QPos) -> Run
        requires run { IsRunKnown self }
        requires place { IsKnown place }
        ensures value { result ≡ run_left self place }
        ensures known { IsRunKnown result }
    {
        Run {
            end: earlier(self.end, place),
            ..self
        }
    }

    /// Held, or not.
    fn held(self, holds: bool) -> Run
        requires { IsRunKnown self }
        ensures value { result ≡ run_past self (held_or_missed holds) }
        ensures known { IsRunKnown result }
    {
        Run {
            missed: !holds || self.missed,
            ..self
        }
    }

    /// Behind a plane.
    fn past_plane(self, plane: &Plane, o: V3, e: V3) -> Run
        requires run { IsRunKnown self }
        requires plane { IsWorldPlane plane.now }
        requires origin { IsWithin WORLD o }
        requires direction { IsWithin STEP e }
        ensures value { result ≡ run_past self (plane_cut plane.now o e) }
        ensures known { IsRunKnown result }
    {
        let slope = slope_along(plane, e);
        let gap = gap_at(plane, o);
        match slope.cmp(&0) {
            Ordering::Less => self.entered(fraction_at(-gap, -slope)),
            Ordering::Equal => self.held(holds_along(plane.n, gap)),
            Ordering::Greater => self.left(fraction_at(gap, slope)),
        }
    }

    /// Behind a face, where it has a plane.
    fn past_face(self, side: &Option<Plane>, o: V3, e: V3) -> Run
        requires run { IsRunKnown self }
        requires plane { ForSome side.now IsWorldPlane }
        requires origin { IsWithin WORLD o }
        requires direction { IsWithin STEP e }
        ensures value { result ≡ run_past self (face_cut side.now o e) }
        ensures known { IsRunKnown result }
    {
        match side {
            Some(plane) => self.past_plane(plane, o, e),
            None => self,
        }
    }

    /// Behind the planes of faces; a degenerate face has none.
    pub fn past_planes(self, planes: &[Option<Plane>], o: V3, e: V3) -> Run
        requires run { IsRunKnown self }
        requires planes { All (λ side. ForSome side IsWorldPlane) planes.now }
        requires origin { IsWithin WORLD o }
        requires direction { IsWithin STEP e }
        ensures value { result ≡ run_past self (planes_cut planes.now o e) }
        ensures known { IsRunKnown result }
    {
        let mut run = self;
        for side in planes {
            run = run.past_face(side, o, e);
        }
        run
    }

    /// Behind what is round, by the numbers of its chord.
    fn past_chord(self, pace: i64, nearest: i64, k: i64) -> Run
        requires run { IsRunKnown self }
        requires some { pos 0 <ℤ pace }
        requires pace { pace ≤ℤ PACE }
        requires nearest { IsAtMost NEAREST nearest }
        requires chord { k ≤ℤ CHORD }
        ensures value { result ≡ run_past self (chord_cut pace nearest k) }
        ensures known { IsRunKnown result }
    {
        if k > 0 {
            let start = root_at(nearest, false, k as u64, pace as u8);
            let end = root_at(nearest, true, k as u64, pace as u8);
            self.entered(start).left(end)
        } else {
            self.held(false)
        }
    }

    /// Behind a ball.
    fn past_ball(self, centre: V3, radius: i64, o: V3, e: V3) -> Run
        requires run { IsRunKnown self }
        requires centre { IsWithin PLACED centre }
        requires radius { IsRadius radius }
        requires origin { IsWithin WORLD o }
        requires direction { IsWithin STEP e }
        requires some { pos 0 <ℤ length_squared e }
        ensures value { result ≡ run_past self (ball_cut centre radius o e) }
        ensures known { IsRunKnown result }
    {
        let apart = apart_from(o, centre);
        let nearest = nearest_along(apart, e);
        self.past_chord(pace_of(e), nearest, half_chord_along(apart, radius, e))
    }

    /// Behind a round side, with all vectors cut to the two axes across its own.
    fn past_side(self, centre: V3, radius: i64, axis: Axis, o: V3, e: V3) -> Run
        requires run { IsRunKnown self }
        requires centre { IsWithin PLACED centre }
        requires radius { IsRadius radius }
        requires origin { IsWithin WORLD o }
        requires direction { IsWithin STEP e }
        ensures value { result ≡ run_past self (side_cut (side_around centre radius axis) o e) }
        ensures known { IsRunKnown result }
    {
        let apart = axis.across(apart_from(o, centre));
        let across = axis.across(e);
        let pace = pace_of(across);
        if pace == 0 {
            self.held(over_at(apart, radius) > 0)
        } else {
            let nearest = nearest_along(apart, across);
            self.past_chord(pace, nearest, half_chord_along(apart, radius, across))
        }
    }

    /// Behind what is round.
    fn past_surface(self, round: &Round, o: V3, e: V3) -> Run
        requires run { IsRunKnown self }
        requires round { IsRoundSized round.now }
        requires origin { IsWithin WORLD o }
        requires direction { IsWithin STEP e }
        requires some { pos 0 <ℤ length_squared e }
        ensures value { result ≡ run_past self (cut_around round.now.axis round.now.centre round.now.radius o e) }
        ensures known { IsRunKnown result }
    {
        match round.axis {
            None => self.past_ball(round.centre, round.radius, o, e),
            Some(axis) => self.past_side(round.centre, round.radius, axis, o, e),
        }
    }

    /// Behind the round face, where there is one.
    pub fn past_round(self, round: Option<Round>, o: V3, e: V3) -> Run
        requires run { IsRunKnown self }
        requires round { ForSome round IsRoundSized }
        requires origin { IsWithin WORLD o }
        requires direction { IsWithin STEP e }
        requires some { pos 0 <ℤ length_squared e }
        ensures value { result ≡ run_past self (round_cut round o e) }
        ensures known { IsRunKnown result }
    {
        match round {
            Some(round) => self.past_surface(&round, o, e),
            None => self,
        }
    }

    /// What remains.
    pub fn ended(self) -> Option<Stretch>
        requires { IsRunKnown self }
        ensures value { result ≡ stretch_of_run self }
        ensures range { ForSome result AreEndsInRange }
    {
        if self.missed {
            None
        } else {
            between(self.start, self.end)
        }
    }
}
