//! Rays in lattice directions, and which boxes one crosses.

ghost use Rattle.std.specs.Prelude.{◌≡◌, ◌-ℤ◌, ◌*ℤ◌};
ghost use Rattle.lattice_core.specs.Limits.{IsAtMost};
ghost use Rattle.slant_ray.specs.declared.ray.TheConstants.{STEP};
ghost use Rattle.slant_ray.specs.Rays.{IsSlantRay, direction_of};
ghost use Rattle.box_index.specs.Lines.{pace_of, line_of, whole_line, empty_stretch, has_some, holds, begun, ended, through, clipped, in_extent, is_crossed};
ghost use Rattle.box_index.specs.declared.cut.Axis.TheVariants.{Y, Z};

use crate::cut::{Axis, is_side_above, is_side_below};
use lattice_core::{Box3, Extent, FAR, Side, V3};
use slant_ray::SlantRay;
use std::cmp::Ordering;

/// The number of parts of a step of a ray. Each component of a direction divides it, so that a ray meets each whole coordinate
/// after a whole number of them.
const PARTS: i64 = 12;

/// Where a ray starts, and after how many parts of a step each coordinate is 1 more: after 0 where it stays the same.
#[derive(Clone, Copy, Debug, PartialEq, Eq)]
pub(crate) struct Line {
    pub origin: V3,
    pub pace: V3,
}

/// The places on a ray from one to another, each as a number of parts of a step. There are none where the last is below the first.
#[derive(Clone, Copy, Debug, PartialEq, Eq)]
pub(crate) struct Stretch {
    pub from: i128,
    pub to: i128,
}

impl Stretch {
    /// A whole ray.
    pub(crate) fn whole() -> Stretch
        ensures { result ≡ whole_line }
    {
        Stretch {
            from: 0,
            to: PARTS as i128 * FAR as i128,
        }
    }

    fn empty() -> Stretch
        ensures { result ≡ empty_stretch }
    {
        Stretch { from: 1, to: 0 }
    }

    /// Whether it has places.
    pub(crate) fn has_some(self) -> bool
        ensures { result ≡ has_some self }
    {
        self.from <= self.to
    }
}

/// After how many parts of a step a coordinate is 1 more that changes by a component in each step.
fn pace_of(component: i64) -> i64
    requires { IsAtMost STEP component }
    ensures { result ≡ pace_of component }
{
    if component == 0 {
        return 0;
    }
    PARTS / component
}

/// After how many parts of a step a coordinate is `at`.
fn crossing(at: i64, origin: i64, pace: i64) -> i128
    ensures { result ≡ (at -ℤ origin) *ℤ pace }
{
    (at as i128 - origin as i128) * pace as i128
}

/// Whether a coordinate lies in an extent.
fn holds(extent: Extent, at: i64) -> bool
    ensures { result ≡ holds extent at }
{
    !is_side_above(extent.low, at) && !is_side_below(extent.high, at)
}

/// The first place of a stretch at which a ray has entered through a side.
fn begun(side: Side, origin: i64, pace: i64, from: i128) -> i128
    ensures { result ≡ begun side origin pace from }
{
    match side {
        Side::Open => from,
        Side::At(at) => from.max(crossing(at, origin, pace)),
    }
}

/// The last place of a stretch at which a ray has not left through a side.
fn ended(side: Side, origin: i64, pace: i64, to: i128) -> i128
    ensures { result ≡ ended side origin pace to }
{
    match side {
        Side::Open => to,
        Side::At(at) => to.min(crossing(at, origin, pace)),
    }
}

/// The part of a stretch from where a ray enters through one side to where it leaves through another.
fn through(near: Side, far: Side, origin: i64, pace: i64, stretch: Stretch) -> Stretch
    ensures { result ≡ through near far origin pace stretch }
{
    Stretch {
        from: begun(near, origin, pace, stretch.from),
        to: ended(far, origin, pace, stretch.to),
    }
}

/// The part of a stretch at which a coordinate lies in an extent.
fn clipped(extent: Extent, origin: i64, pace: i64, stretch: Stretch) -> Stretch
    ensures { result ≡ clipped extent origin pace stretch }
{
    match pace.cmp(&0) {
        Ordering::Greater => through(extent.low, extent.high, origin, pace, stretch),
        Ordering::Less => through(extent.high, extent.low, origin, pace, stretch),
        Ordering::Equal => {
            if holds(extent, origin) {
                stretch
            } else {
                Stretch::empty()
            }
        }
    }
}

impl Line {
    /// The line of a ray.
    pub(crate) fn of(ray: &SlantRay) -> Line
        requires { IsSlantRay ray.now }
        ensures { result ≡ line_of ray.now.origin (direction_of ray.now) }
    {
        let step = ray.direction();
        Line {
            origin: ray.origin,
            pace: V3 {
                x: pace_of(step.x),
                y: pace_of(step.y),
                z: pace_of(step.z),
            },
        }
    }

    fn in_extent(&self, extent: Extent, axis: Axis, stretch: Stretch) -> Stretch
        ensures { result ≡ in_extent self.now extent axis stretch }
    {
        match axis {
            Axis::X => clipped(extent, self.origin.x, self.pace.x, stretch),
            Axis::Y => clipped(extent, self.origin.y, self.pace.y, stretch),
            Axis::Z => clipped(extent, self.origin.z, self.pace.z, stretch),
        }
    }

    /// Whether the line has places in a box.
    pub(crate) fn crosses(&self, b: &Box3) -> bool
        ensures { result ≡ is_crossed self.now whole_line b.now }
    {
        match b {
            Box3::Empty => false,
            Box3::Span { x, y, z } => {
                let in_x = self.in_extent(*x, Axis::X, Stretch::whole());
                in_x.has_some() && self.crosses_in(*y, *z, in_x)
            }
        }
    }

    /// Whether a stretch has places in an extent across the second axis and one across the third.
    fn crosses_in(&self, y: Extent, z: Extent, stretch: Stretch) -> bool
        ensures { result ≡ has_some (in_extent self.now z Z (in_extent self.now y Y stretch)) }
    {
        let in_y = self.in_extent(y, Axis::Y, stretch);
        in_y.has_some() && self.in_extent(z, Axis::Z, in_y).has_some()
    }
}
