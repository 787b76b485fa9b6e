ghost use Rattle.std.specs.Prelude.{◌≡◌, ◌<◌, ◌+◌, Some, length, slice_get, nat_eq};
ghost use Rattle.std.specs.Option.{option_copied};
ghost use Rattle.std.specs.Map.{lookup};
ghost use Rattle.shared_pages.specs.Pages.{RiseFrom, IsPlace, StandsFrom};
ghost use Rattle.shared_pages.specs.Groups.{AreFilled, AreInOrder, IsSpot, firsts, group_at, pages_in};

use crate::group::Group;
use crate::page::Page;
use crate::pairs::Pairs;
use crate::root::Root;
use crate::search::{number_at, place_of};
use crate::shares::Shares;

/// Where a page stands: in which group, and at which place there.
#[derive(Clone, Copy)]
pub(crate) struct Spot {
    pub(crate) group: usize,
    pub(crate) page: usize,
}

/// The number of the first page of the group at the place.
fn first_at<V: Drop>(groups: &Shares<Group<V>>, place: usize) -> u64
    requires there { place < length groups.now }
    requires filled { AreFilled groups.now }
    ensures { IsPlace (firsts groups.now) result (Some place) }
{
    match groups.get(place) {
        Some(group) => number_at(group.pages(), 0),
        None => unreachable!(),
    }
}

/// How many groups begin with this number or a lesser one.
fn groups_upto<V: Drop>(groups: &Shares<Group<V>>, number: u64) -> usize
    requires { AreInOrder groups.now }
    ensures { StandsFrom (firsts groups.now) (number + 1) result }
{
    let mut low = 0;
    let mut high = groups.len();
    while low < high {
        let middle = low + (high - low) / 2;
        if first_at(groups, middle) <= number {
            low = middle + 1;
        } else {
            high = middle;
        }
    }
    low
}

/// Where the page of the number stands.
pub(crate) fn spot_of<V: Drop>(groups: &Shares<Group<V>>, number: u64) -> Option<Spot>
    requires { AreInOrder groups.now }
    ensures { IsSpot groups.now number result }
{
    let upto = groups_upto(groups, number);
    if upto == 0 {
        return None;
    }
    let group = upto - 1;
    match groups.get(group) {
        Some(pages) => {
            let Some(page) = place_of(pages.pages(), number) else {
                return None;
            };
            Some(Spot { group, page })
        }
        None => unreachable!(),
    }
}

/// The page at the spot, where there is one.
pub(crate) fn page_on<'a, V: Drop>(groups: &'a Shares<Group<V>>, spot: &Spot) -> Option<&'a Page<V>>
    ensures { option_copied result ≡ slice_get (group_at groups.now spot.now.group) spot.now.page }
{
    match groups.get(spot.group) {
        Some(group) => group.pages().get(spot.page),
        None => None,
    }
}

/// Lends the pairs of the page of the number, or `None` exactly where no group has it.
pub(crate) fn pairs_in<V: Drop>(closed: &Root<Group<V>>, number: u64) -> Option<&Pairs<V>>
    requires { AreInOrder closed.now }
    ensures { option_copied result ≡ lookup (nat_eq number) (pages_in closed.now) }
{
    let Some(groups) = closed.list() else {
        return None;
    };
    match spot_of(groups, number) {
        Some(spot) => match page_on(groups, &spot) {
            Some(page) => Some(page.pairs()),
            None => unreachable!(),
        },
        None => None,
    }
}

/// Lends the pairs of the page of the number, or `None` exactly where it is not among the pages.
pub(crate) fn pairs_among<V: Drop>(pages: &Shares<Page<V>>, number: u64) -> Option<&Pairs<V>>
    requires { RiseFrom 0 pages.now }
    ensures { option_copied result ≡ lookup (nat_eq number) pages.now }
{
    match place_of(pages, number) {
        Some(place) => match pages.get(place) {
            Some(page) => Some(page.pairs()),
            None => unreachable!(),
        },
        None => None,
    }
}
