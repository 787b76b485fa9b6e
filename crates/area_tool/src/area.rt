//! How many pixels present each region.

ghost use Rattle.std.specs.Prelude.{◌≡◌, ◌<◌, ◌≤◌, ◌+◌, ◌^◌, ◌==◌, ℕ, All, IfOk, sum, length, vec_len, slice_index};
ghost use Rattle.std.specs.Int.{from_bool};
ghost use Rattle.area_tool.specs.Areas.{area, areas_of};
ghost use Rattle.area_tool.specs.Steps.{IsCounted};

use memory_core::Memory;
use std::alloc::Global;

/// Counts one more pixel that presents a region, or none.
fn count_pixel(counts: &mut Vec<u64>, place: u32)
    requires place { place ≤ vec_len counts.old }
    requires room { (k : ℕ) → k < vec_len counts.old → slice_index counts.old.items k + 1 < 2 ^ 64 }
    ensures { IsCounted place counts.old.items counts.new.items }
{
    if place != 0 {
        counts[place as usize - 1] += 1;
    }
}

/// The areas of so many regions: how many pixels present the region at each place, from 1. `all` has what each pixel presents,
/// the place of a region or 0 for none. The areas and the pixels that present none sum up to all pixels. `Memory` where
/// there is none for the counts.
pub fn areas(alloc: Global, all: &[u32], regions: u32) -> Result<Vec<u64>, Memory>
    requires { All (λ place. place ≤ regions) all.now }
    ensures areas { IfOk result (λ v. v.items ≡ areas_of all.now regions) }
    ensures sum { IfOk result (λ v. sum v.items + area all.now 0 ≡ length all.now) }
{
    let mut counts = vec![in alloc; 0; regions as usize]?;
    for place in all {
        count_pixel(&mut counts, *place);
    }
    Ok(counts)
}
