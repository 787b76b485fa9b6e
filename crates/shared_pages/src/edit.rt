ghost use Rattle.std.specs.Prelude.{◌≡◌, ◌<◌, ◌++◌, IsSome, length, nat_eq, OnOk, IfOk};
ghost use Rattle.std.specs.Arc.{arc_value};
ghost use Rattle.std.specs.Map.{lookup, set_value, remove_entry};
ghost use Rattle.name_core.specs.Same.{same_name};
ghost use Rattle.shared_pages.specs.Pages.{page_of, set_page};
ghost use Rattle.shared_pages.specs.Groups.{AreFilled, AreInOrder, group_put, pages_in};

use crate::group::Group;
use crate::page::Page;
use crate::pairs::Pairs;
use crate::put::put_page;
use crate::root::Root;
use crate::shares::Shares;
use crate::spot::spot_of;
use memory_core::Memory;
use name_core::Name;
use std::alloc::Global;
use std::sync::Arc;

/// The greatest number of pages in a group, and in a tail.
const MOST_PAGES: usize = 32;

/// Puts a group of these pages in the place of another one, or takes that out where there are none.
fn put_group<V: Drop>(
    alloc: Global,
    groups: &mut Shares<Group<V>>,
    place: usize,
    pages: Shares<Page<V>>,
) -> Result<(), Memory>
    requires { place < length groups.old }
    ensures { OnOk result (groups.new ≡ group_put groups.old place pages) }
{
    if pages.len() == 0 {
        groups.remove(place);
        return Ok(());
    }
    groups.set(alloc, place, Group::of_pages(pages))
}

/// Puts these pairs on the page of the number, and takes the page out where there are none.
pub(crate) fn set_pairs<V: Drop>(
    alloc: Global,
    groups: &mut Shares<Group<V>>,
    number: u64,
    pairs: Pairs<V>,
) -> Result<(), Memory>
    requires order { AreInOrder groups.old }
    requires there { IsSome (lookup (nat_eq number) (pages_in groups.old)) }
    ensures pages { OnOk result (pages_in groups.new ≡ set_page (pages_in groups.old) number pairs) }
    ensures filled { OnOk result (AreFilled groups.new) }
{
    let Some(spot) = spot_of(groups, number) else {
        unreachable!();
    };
    let group = groups.take_at(alloc, spot.group)?;
    let mut pages = group.into_pages();
    put_page(alloc, &mut pages, spot.page, number, pairs)?;
    put_group(alloc, groups, spot.group, pages)
}

/// Gives a name on the page of the number this value.
pub(crate) fn set_name<V: Drop>(
    alloc: Global,
    groups: &mut Shares<Group<V>>,
    number: u64,
    name: &Name,
    value: Arc<V>,
) -> Result<(), Memory>
    requires order { AreInOrder groups.old }
    requires there { IsSome (lookup (same_name name.now) (page_of (pages_in groups.old) number)) }
    ensures pages { OnOk result (pages_in groups.new ≡ set_page (pages_in groups.old) number (set_value (same_name name.now) (page_of (pages_in groups.old) number) (arc_value value))) }
    ensures filled { OnOk result (AreFilled groups.new) }
{
    let Some(spot) = spot_of(groups, number) else {
        unreachable!();
    };
    let group = groups.take_at(alloc, spot.group)?;
    let mut pages = group.into_pages();
    let page = pages.take_at(alloc, spot.page)?.with(name, value)?;
    pages.set(alloc, spot.page, page)?;
    put_group(alloc, groups, spot.group, pages)
}

/// Takes a name off the page of the number, and takes the page out where that was its last one.
pub(crate) fn drop_name<V: Drop>(
    alloc: Global,
    groups: &mut Shares<Group<V>>,
    number: u64,
    name: &Name,
) -> Result<(), Memory>
    requires order { AreInOrder groups.old }
    requires there { IsSome (lookup (same_name name.now) (page_of (pages_in groups.old) number)) }
    ensures pages { OnOk result (pages_in groups.new ≡ set_page (pages_in groups.old) number (remove_entry (same_name name.now) (page_of (pages_in groups.old) number))) }
    ensures filled { OnOk result (AreFilled groups.new) }
{
    let Some(spot) = spot_of(groups, number) else {
        unreachable!();
    };
    let group = groups.take_at(alloc, spot.group)?;
    let mut pages = group.into_pages();
    let pairs = pages.take_at(alloc, spot.page)?.without(name);
    put_page(alloc, &mut pages, spot.page, number, pairs)?;
    put_group(alloc, groups, spot.group, pages)
}

/// The closed groups and the tail. Where the tail has one page too many for a group, all but its last page become one.
pub(crate) fn close_full<V: Drop>(
    alloc: Global,
    closed: Root<Group<V>>,
    tail: Shares<Page<V>>,
) -> Result<(Root<Group<V>>, Shares<Page<V>>), Memory>
    requires { AreFilled closed }
    ensures pages { IfOk result (λ r. pages_in r.0 ++ r.1 ≡ pages_in closed ++ tail) }
    ensures filled { IfOk result (λ r. AreFilled r.0) }
{
    if tail.len() <= MOST_PAGES {
        return Ok((closed, tail));
    }
    let mut pages = tail;
    let Some(last) = pages.take_last() else {
        unreachable!();
    };
    let mut next = Shares::new(alloc);
    next.push_share(last)?;
    let mut groups = closed.own(alloc)?;
    groups.push(alloc, Group::of_pages(pages))?;
    let closed = Root::of_list(alloc, groups)?;
    Ok((closed, next))
}
