ghost use Rattle.std.specs.Prelude.{◌≡◌, ◌<◌, ◌≤◌, ◌+◌, length, slice_get, IfSome};
ghost use Rattle.std.specs.Option.{option_map};
ghost use Rattle.std.specs.Map.Iter.{deref_pair};
ghost use Rattle.shared_pages.specs.Pages.{pairs_at, pairs_of};
ghost use Rattle.shared_pages.specs.Groups.{group_at, pages_in};

use crate::group::Group;
use crate::page::Page;
use crate::root::Root;
use crate::search::find;
use crate::shares::Shares;
use crate::spot::{Spot, page_on};
use name_core::Name;

/// The number of pages in the group at the place.
fn len_in<V: Drop>(groups: &Shares<Group<V>>, place: usize) -> usize
    requires { place < length groups.now }
    ensures { result ≡ length (group_at groups.now place) }
{
    match groups.get(place) {
        Some(group) => group.pages().len(),
        None => unreachable!(),
    }
}

/// On which page of a group the pair at a place among the group's pairs stands, and at which place there. Past its last
/// pair it is no page, and what is left of the place.
fn find_at<V: Drop>(groups: &Shares<Group<V>>, group: usize, place: usize) -> (usize, usize)
    requires { group < length groups.now }
    ensures found { slice_get (pairs_of (group_at groups.now group)) place ≡ slice_get (pairs_at (group_at groups.now group) result.0) result.1 }
    ensures here { result.0 < length (group_at groups.now group) → place < length (pairs_of (group_at groups.now group)) }
    ensures past { length (group_at groups.now group) ≤ result.0 → place ≡ length (pairs_of (group_at groups.now group)) + result.1 }
{
    match groups.get(group) {
        Some(group) => find(group.pages(), place),
        None => unreachable!(),
    }
}

/// What is left of a place among the pairs from the group on, where it is told to lie behind that group.
fn past_group<V: Drop>(groups: &Shares<Group<V>>, group: usize, rest: usize) -> Option<usize>
    requires { group < length groups.now }
    ensures { IfSome result (λ left. rest ≡ length (pairs_of (group_at groups.now group)) + left) }
{
    match groups.get(group) {
        Some(group) => match group.count() {
            Some(count) if count <= rest => Some(rest - count),
            _ => None,
        },
        None => None,
    }
}

/// On which page the pair at a place among all pairs stands, and at which place there.
fn find_in<V: Drop>(groups: &Shares<Group<V>>, place: usize) -> (Spot, usize)
    ensures { slice_get (pairs_of (pages_in groups.now)) place ≡ slice_get (pairs_at (group_at groups.now result.0.group) result.0.page) result.1 }
{
    let mut rest = place;
    for group in 0..groups.len() {
        if let Some(left) = past_group(groups, group, rest) {
            rest = left;
            continue;
        }
        let (page, left) = find_at(groups, group, rest);
        if page < len_in(groups, group) {
            return (Spot { group, page }, left);
        }
        rest = left;
    }
    let past = Spot {
        group: groups.len(),
        page: 0,
    };
    (past, rest)
}

/// Lends the name and the value at the place among all pairs of the groups, or `None` exactly past the end.
pub(crate) fn pair_in<V: Drop>(closed: &Root<Group<V>>, place: usize) -> Option<(&Name, &V)>
    ensures { option_map deref_pair result ≡ slice_get (pairs_of (pages_in closed.now)) place }
{
    let Some(groups) = closed.list() else {
        return None;
    };
    let (spot, rest) = find_in(groups, place);
    match page_on(groups, &spot) {
        Some(page) => page.pairs().at(rest),
        None => None,
    }
}

/// Lends the name and the value at the place among all pairs of the pages, or `None` exactly past the end.
pub(crate) fn pair_among<V: Drop>(pages: &Shares<Page<V>>, place: usize) -> Option<(&Name, &V)>
    ensures { option_map deref_pair result ≡ slice_get (pairs_of pages.now) place }
{
    let (page, rest) = find(pages, place);
    match pages.get(page) {
        Some(page) => page.pairs().at(rest),
        None => None,
    }
}
