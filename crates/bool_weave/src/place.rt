ghost use Rattle.std.specs.Prelude.{◌≡◌, ◌<◌, ◌≤◌, ◌+◌, ℕ, true, false, length, slice_index_or, vec_len, vec_capacity, nat_lt, ◌&&◌, All};
ghost use Rattle.std.specs.Ordering.{is_eq};
ghost use Rattle.surd_order.specs.PlaceOrder.{place_cmp};
ghost use Rattle.surd_order.specs.declared.position.Pos.{Pos};
ghost use Rattle.surd_order.specs.Range.{IsInRange};
ghost use Rattle.bool_weave.specs.Cuts.{put_in, ray_start};
ghost use Rattle.bool_weave.specs.Claims.{is_before};
ghost use Rattle.bool_weave.specs.Tables.{IsSearchable};

use surd_order::Pos;

/// How many of the rising places are before a place, which is the number of that place where it is among them.
pub fn place_in(places: &[Pos], place: &Pos) -> usize
    requires places { IsSearchable places.now }
    requires place { IsInRange place.now }
    ensures within { result ≤ length places.now }
    ensures before { (k : ℕ) (d : Pos) → k < result → is_before (slice_index_or places.now k d) place.now ≡ true }
    ensures after { (k : ℕ) (d : Pos) → result ≤ k → k < length places.now → is_before (slice_index_or places.now k d) place.now ≡ false }
{
    let mut low = 0;
    let mut high = places.len();
    while low < high {
        let middle = low + (high - low) / 2;
        if places[middle].cmp(place).is_lt() {
            low = middle + 1;
        } else {
            high = middle;
        }
    }
    low
}

/// Whether the place of that number is the place.
fn is_at(places: &[Pos], number: usize, place: &Pos) -> bool
    requires ranges { All IsInRange places.now }
    requires place { IsInRange place.now }
    ensures { result ≡ (nat_lt number (length places.now) && is_eq (place_cmp (slice_index_or places.now number ray_start) place.now)) }
{
    number < places.len() && places[number].cmp(place).is_eq()
}

/// Puts a place among rising places, where it is not there yet. There is room for it.
pub(crate) fn put(places: &mut Vec<Pos>, place: Pos)
    requires places { IsSearchable places.old.items }
    requires place { IsInRange place }
    requires room { vec_len places.old < vec_capacity places.old }
    ensures places { places.new.items ≡ put_in place places.old.items }
    ensures room { vec_capacity places.old ≤ vec_capacity places.new }
    ensures len { vec_len places.new ≤ vec_len places.old + 1 }
{
    let number = place_in(places, &place);
    if is_at(places, number, &place) {
        return;
    }
    if places.insert(number, place).is_err() {
        unreachable!();
    }
}
