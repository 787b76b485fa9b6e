ghost use Rattle.std.specs.Prelude.{◌≡◌, ◌<◌, ◌≤◌, ◌+◌, Some, length, slice_get};
ghost use Rattle.shared_pages.specs.Pages.{RiseFrom, IsPlace, StandsFrom, pairs_at, pairs_of};

use crate::page::Page;
use crate::shares::Shares;

/// The number of the page at the place.
pub(crate) fn number_at<V: Drop>(pages: &Shares<Page<V>>, place: usize) -> u64
    requires { place < length pages.now }
    ensures { IsPlace pages.now result (Some place) }
{
    match pages.get(place) {
        Some(page) => page.number(),
        None => unreachable!(),
    }
}

/// How many pages have a lesser number.
fn first_from<V: Drop>(pages: &Shares<Page<V>>, number: u64) -> usize
    requires { RiseFrom 0 pages.now }
    ensures { StandsFrom pages.now number result }
{
    let mut low = 0;
    let mut high = pages.len();
    while low < high {
        let middle = low + (high - low) / 2;
        if number_at(pages, middle) < number {
            low = middle + 1;
        } else {
            high = middle;
        }
    }
    low
}

/// Where the page of the number stands.
pub(crate) fn place_of<V: Drop>(pages: &Shares<Page<V>>, number: u64) -> Option<usize>
    requires { RiseFrom 0 pages.now }
    ensures { IsPlace pages.now number result }
{
    let place = first_from(pages, number);
    match pages.get(place) {
        Some(page) => {
            if page.number() == number {
                Some(place)
            } else {
                None
            }
        }
        None => None,
    }
}

/// The number of pairs on the page at the place.
fn len_at<V: Drop>(pages: &Shares<Page<V>>, place: usize) -> usize
    requires { place < length pages.now }
    ensures { result ≡ length (pairs_at pages.now place) }
{
    match pages.get(place) {
        Some(page) => page.pairs().len(),
        None => unreachable!(),
    }
}

/// On which page the pair at a place among all pairs stands, and at which place there. Past the last pair it is no page, and
/// what is left of the place.
pub(crate) fn find<V: Drop>(pages: &Shares<Page<V>>, place: usize) -> (usize, usize)
    ensures here { result.0 < length pages.now → place < length (pairs_of pages.now) }
    ensures past { length pages.now ≤ result.0 → place ≡ length (pairs_of pages.now) + result.1 }
    ensures found { slice_get (pairs_of pages.now) place ≡ slice_get (pairs_at pages.now result.0) result.1 }
{
    let mut rest = place;
    for page in 0..pages.len() {
        let count = len_at(pages, page);
        if rest < count {
            return (page, rest);
        }
        rest -= count;
    }
    (pages.len(), rest)
}
