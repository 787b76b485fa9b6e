//! Places of a ray in their order, each once, and the numbers that they have there.

ghost use Rattle.std.specs.Prelude.{◌≡◌, ◌<◌, ◌≤◌, ◌+◌, ◌&&◌, ℕ, true, false, length, slice_index_or, nat_lt, cond, OnOk};
ghost use Rattle.std.specs.Ordering.{is_eq};
ghost use Rattle.lattice_core.specs.declared.limit.TheConstants.{FAR};
ghost use Rattle.bool_weave.specs.Cuts.{end_at};
ghost use Rattle.bool_weave.specs.Lines.{comes_before, put_among};
ghost use Rattle.order_laws.specs.Parts.{number_of};
ghost use Rattle.order_laws.specs.Ranks.{rank_among, whole};
ghost use Rattle.surd_quot.specs.declared.position.QPos.{QPos};
ghost use Rattle.surd_quot.specs.PlaceOrder.{quotient_cmp};
ghost use Rattle.surd_quot.specs.Range.{IsQuotientInRange};
ghost use Rattle.oblique_ray.specs.CutSteps.{AreRising};
ghost use Rattle.oblique_ray.specs.Segments.{slant_start, slant_end};

use lattice_core::FAR;
use memory_core::Memory;
use surd_order::Pos;
use surd_quot::QPos;

/// How many of the rising places are before a place.
pub fn rank_in(places: &[QPos], place: &QPos) -> usize
    requires places { AreRising places.now }
    requires place { IsQuotientInRange place.now }
    ensures within { result ≤ length places.now }
    ensures before { (k : ℕ) (d : QPos) → k < result → comes_before quotient_cmp (slice_index_or places.now k d) place.now ≡ true }
    ensures after { (k : ℕ) (d : QPos) → result ≤ k → k < length places.now → comes_before quotient_cmp (slice_index_or places.now k d) place.now ≡ false }
{
    let mut low = 0;
    let mut high = places.len();
    while low < high {
        let middle = low + (high - low) / 2;
        if places[middle].cmp(place).is_lt() {
            low = middle + 1;
        } else {
            high = middle;
        }
    }
    low
}

/// Whether the place of that number is the place.
fn is_at(places: &[QPos], number: usize, place: &QPos) -> bool
    requires places { AreRising places.now }
    requires place { IsQuotientInRange place.now }
    ensures { result ≡ (nat_lt number (length places.now) && is_eq (quotient_cmp (slice_index_or places.now number slant_start) place.now)) }
{
    number < places.len() && places[number].cmp(place).is_eq()
}

/// Puts a place among rising places, where it is not there yet.
pub fn put(places: &mut Vec<QPos>, place: QPos) -> Result<(), Memory>
    requires places { AreRising places.old.items }
    requires place { IsQuotientInRange place }
    ensures { OnOk result (places.new.items ≡ put_among quotient_cmp place places.old.items) }
{
    let number = rank_in(places, &place);
    if is_at(places, number, &place) {
        return Ok(());
    }
    places.insert(number, place)?;
    Ok(())
}

/// The number of a place among the cuts of a ray, as a place of a ray that is as long as all: its end is the end there.
pub fn ranked(cuts: &[QPos], place: &QPos) -> Pos
    requires cuts { AreRising cuts.now }
    requires place { IsQuotientInRange place.now }
    ensures { result ≡ cond (is_eq (quotient_cmp place.now (slant_end FAR))) (end_at FAR) (whole (rank_among quotient_cmp cuts.now place.now)) }
{
    let end = QPos::Frac {
        p: FAR as i128,
        q: 1,
    };
    if place.cmp(&end).is_eq() {
        return Pos::Frac {
            p: FAR as i128,
            q: 1,
        };
    }
    Pos::Frac {
        p: i128::from(rank_in(cuts, place) as u64),
        q: 1,
    }
}

/// Which of so many cuts has that number; what is over the last is the last.
fn number_of(count: usize, place: &Pos) -> usize
    requires { 0 < count }
    ensures value { result ≡ number_of count place.now }
    ensures within { result < count }
{
    match *place {
        Pos::Frac { p, .. } => {
            if p < 0 {
                0
            } else {
                (p as u128).min((count - 1) as u128) as usize
            }
        }
        Pos::Surd { .. } => 0,
    }
}

/// The cut that has a number.
pub fn cut_at(cuts: &[QPos], place: &Pos) -> QPos
    requires { 0 < length cuts.now }
    ensures { result ≡ slice_index_or cuts.now (number_of (length cuts.now) place.now) slant_start }
{
    cuts[number_of(cuts.len(), place)]
}
