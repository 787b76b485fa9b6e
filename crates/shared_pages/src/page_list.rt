ghost use Rattle.std.specs.Prelude.{◌≡◌, cond, ◌<◌, ◌≤◌, ◌++◌, ◌∷◌, ◌⊎◌, [], ℕ, Some, None, length, slice_get, nat_eq, IfOk, IsSome};
ghost use Rattle.std.specs.Arc.{arc_value};
ghost use Rattle.std.specs.Option.{option_copied, option_map};
ghost use Rattle.std.specs.List.{IsDistinct};
ghost use Rattle.std.specs.Map.{lookup, keys_of, set_value, remove_entry};
ghost use Rattle.std.specs.Map.Iter.{deref_pair};
ghost use Rattle.name_core.specs.Same.{same_name};
ghost use Rattle.shared_pages.specs.Pages.{most_pairs, pairs_of, page_of, set_page, pushed, last_number, ArePages};
ghost use Rattle.shared_pages.specs.Groups.{AreFilled, AreInOrder, pages_in};

use crate::edit::{close_full, drop_name, set_name, set_pairs};
use crate::group::Group;
use crate::page::Page;
use crate::pairs::Pairs;
use crate::put::push_pair;
use crate::root::Root;
use crate::search::find;
use crate::shares::Shares;
use crate::spot::{pairs_among, pairs_in};
use crate::walk::{pair_among, pair_in};
use memory_core::Memory;
use name_core::Name;
use std::alloc::Global;
use std::marker::Model;
use std::sync::Arc;

/// Pairs on pages, in order, of which a copy shares all pages. A page has 1 to 8 pairs and keeps its number as long as it
/// has one, and the numbers rise from page to page. Pages stand in groups, which a copy shares whole and a walk steps over,
/// and the last ones may stand in a tail behind them: a pair that is added touches the tail alone. Another change touches
/// one page, its group and the list of the groups: what a copy shares is copied first, and what none shares is changed
/// where it stands. Contracts see the pages with their numbers and pairs.
#[derive(Drop)]
pub struct PageList<V> {
    /// The groups that are closed. No group is empty.
    closed: Root<Group<V>>,
    /// The pages behind them.
    tail: Shares<Page<V>>,
    /// The number of all pairs.
    count: usize,
}

impl<V> Model for PageList<V> {
    ghost use Rattle.std.specs.Prelude.{◌++◌};
    ghost use Rattle.shared_pages.specs.Pages.{Pages};
    ghost use Rattle.shared_pages.specs.Groups.{AreGroups, pages_in};

    ghost Value = { Pages V };

    ghost view = { λ s. pages_in s.closed ++ s.tail };

    ghost invariant = { λ s. AreGroups s.closed s.tail s.count };
}

impl<V: Drop> PageList<V> {
    /// No pages. It takes no memory.
    pub fn new(alloc: Global) -> PageList<V>
        ensures { result ≡ [] }
    {
        PageList {
            closed: Root::new(),
            tail: Shares::new(alloc),
            count: 0,
        }
    }

    /// The number of all pairs.
    pub fn len(&self) -> usize
        ensures value { result ≡ length (pairs_of self.now) }

        // The numbers of the pages rise, and each has 1 to 8 pairs.
        ensures pages { ArePages self.now result }
    {
        self.count
    }

    /// The same pages again. They are all shared. An `Err` is want of memory, and this list is as before.
    pub fn copy(&self) -> Result<PageList<V>, Memory>
        ensures { IfOk result (λ l. l ≡ self.now) }
    {
        let closed = self.closed.copy()?;
        let tail = self.tail.copy()?;
        Ok(PageList {
            closed,
            tail,
            count: self.count,
        })
    }

    /// Lends the pairs of the page of the number, or `None` exactly where there is no such page.
    pub fn page(&self, number: u64) -> Option<&Pairs<V>>
        ensures { option_copied result ≡ lookup (nat_eq number) self.now }
    {
        match pairs_in(&self.closed, number) {
            Some(pairs) => Some(pairs),
            None => pairs_among(&self.tail, number),
        }
    }

    /// The number of pairs on the page of the number.
    fn len_of(&self, number: u64) -> usize
        ensures { result ≡ length (page_of self.now number) }
    {
        match self.page(number) {
            Some(pairs) => pairs.len(),
            None => 0,
        }
    }

    /// The list of these groups, so many pairs.
    fn of_groups(
        alloc: Global,
        groups: Shares<Group<V>>,
        count: usize,
    ) -> Result<PageList<V>, Memory>
        requires pages { ArePages (pages_in groups) count }
        requires filled { AreFilled groups }
        ensures { IfOk result (λ l. l ≡ pages_in groups) }
    {
        let closed = Root::of_list(alloc, groups)?;
        Ok(PageList {
            closed,
            tail: Shares::new(alloc),
            count,
        })
    }

    /// All pages in groups. The tail becomes the last group.
    fn groups(self, alloc: Global) -> Result<Shares<Group<V>>, Memory>
        ensures pages { IfOk result (λ g. pages_in g ≡ self) }
        ensures order { IfOk result AreInOrder }
    {
        let PageList { closed, tail, .. } = self;
        let mut groups = closed.own(alloc)?;
        if tail.len() == 0 {
            return Ok(groups);
        }
        groups.push(alloc, Group::of_pages(tail))?;
        Ok(groups)
    }

    /// The closed groups and the tail, which is the last group where there was none.
    fn opened(self, alloc: Global) -> Result<(Root<Group<V>>, Shares<Page<V>>), Memory>
        ensures pages { IfOk result (λ r. pages_in r.0 ++ r.1 ≡ self) }
        ensures filled { IfOk result (λ r. AreFilled r.0) }
        ensures some { IfOk result (λ r. (r.0 ≡ []) ⊎ (0 < length r.1)) }
    {
        let PageList { closed, tail, .. } = self;
        if tail.len() > 0 {
            return Ok((closed, tail));
        }
        let mut groups = closed.own(alloc)?;
        let group = groups.last_taken(alloc)?;
        let pages = group.into_pages();
        let closed = Root::of_list(alloc, groups)?;
        Ok((closed, pages))
    }

    /// The list with these pairs on the page of the number, and without the page where there are none. It takes this list
    /// over; its other pages stay shared, and the copies of this list keep the page as it was. An `Err` is want of memory:
    /// this list and the pairs are gone then, and the copies are as before.
    pub fn with_page(
        self,
        alloc: Global,
        number: u64,
        pairs: Pairs<V>,
    ) -> Result<PageList<V>, Memory>
        requires small { length pairs ≤ most_pairs }
        requires there { IsSome (lookup (nat_eq number) self) }
        ensures list { IfOk result (λ l. l ≡ set_page self number pairs) }
        ensures pages { IfOk result (λ l. (n : ℕ) → page_of l n ≡ cond (nat_eq number n) pairs (page_of self n)) }
    {
        let rest = self.count - self.len_of(number);
        let Some(count) = rest.checked_add(pairs.len()) else {
            return Err(Memory);
        };
        let mut groups = self.groups(alloc)?;
        set_pairs(alloc, &mut groups, number, pairs)?;
        let list = PageList::of_groups(alloc, groups, count)?;
        Ok(list)
    }

    /// The list with a pair more at the end, and the number of the page on which it stands. It takes this list over. A last
    /// page that no copy shares is not copied, so a list is gathered pair by pair at the cost of one insert each; the
    /// copies of this list keep theirs as it was. An `Err` is want of memory, or of a number for a new page: this list and
    /// the share of the value are gone then, and the copies are as before.
    pub fn push(
        self,
        alloc: Global,
        name: &Name,
        value: Arc<V>,
    ) -> Result<(PageList<V>, u64), Memory>
        requires { lookup (same_name name.now) (pairs_of self) ≡ None }
        ensures list { IfOk result (λ r. r.0 ≡ pushed self name.now (arc_value value)) }
        ensures number { IfOk result (λ r. r.1 ≡ last_number r.0) }
        ensures pages { IfOk result (λ r. (n : ℕ) → page_of r.0 n ≡ cond (nat_eq r.1 n) (page_of self n ++ (name.now, arc_value value) ∷ []) (page_of self n)) }
        ensures pairs { IfOk result (λ r. pairs_of r.0 ≡ pairs_of self ++ (name.now, arc_value value) ∷ []) }
    {
        let Some(count) = self.count.checked_add(1) else {
            return Err(Memory);
        };
        let (closed, mut tail) = self.opened(alloc)?;
        let number = push_pair(alloc, &mut tail, name, value)?;
        let (closed, tail) = close_full(alloc, closed, tail)?;
        let list = PageList {
            closed,
            tail,
            count,
        };
        Ok((list, number))
    }

    /// The list in which a name on the page of the number has this value, in its place. It takes this list over; its other
    /// pages stay shared, and the copies of this list keep the page as it was. An `Err` is want of memory: this list and
    /// the share of the value are gone then, and the copies are as before.
    pub fn with(
        self,
        alloc: Global,
        number: u64,
        name: &Name,
        value: Arc<V>,
    ) -> Result<PageList<V>, Memory>
        requires { IsSome (lookup (same_name name.now) (page_of self number)) }
        ensures list { IfOk result (λ l. l ≡ set_page self number (set_value (same_name name.now) (page_of self number) (arc_value value))) }
        ensures pages { IfOk result (λ l. (n : ℕ) → page_of l n ≡ cond (nat_eq number n) (set_value (same_name name.now) (page_of self number) (arc_value value)) (page_of self n)) }

        // The name keeps its place among all pairs, of which no two have one name.
        ensures pairs { IfOk result (λ l. IsDistinct same_name (keys_of (pairs_of self)) → pairs_of l ≡ set_value (same_name name.now) (pairs_of self) (arc_value value)) }
    {
        let _count = self.len();
        let count = self.count;
        let mut groups = self.groups(alloc)?;
        set_name(alloc, &mut groups, number, name, value)?;
        let list = PageList::of_groups(alloc, groups, count)?;
        Ok(list)
    }

    /// The list without a name on the page of the number, and without the page where that was its last one. It takes this
    /// list over; its other pages stay shared, and the copies of this list keep the page as it was. An `Err` is want of
    /// memory: this list is gone then, and the copies are as before.
    pub fn without(self, alloc: Global, number: u64, name: &Name) -> Result<PageList<V>, Memory>
        requires { IsSome (lookup (same_name name.now) (page_of self number)) }
        ensures list { IfOk result (λ l. l ≡ set_page self number (remove_entry (same_name name.now) (page_of self number))) }
        ensures pages { IfOk result (λ l. (n : ℕ) → page_of l n ≡ cond (nat_eq number n) (remove_entry (same_name name.now) (page_of self number)) (page_of self n)) }
        ensures pairs { IfOk result (λ l. IsDistinct same_name (keys_of (pairs_of self)) → pairs_of l ≡ remove_entry (same_name name.now) (pairs_of self)) }
    {
        let _count = self.len();
        let count = self.count;
        let mut groups = self.groups(alloc)?;
        drop_name(alloc, &mut groups, number, name)?;
        let list = PageList::of_groups(alloc, groups, count - 1)?;
        Ok(list)
    }

    /// Lends the name and the value at the place among all pairs, counted from 0, or `None` exactly past the end. It steps
    /// over the groups before it, and walks over the pages of one.
    pub fn at(&self, place: usize) -> Option<(&Name, &V)>
        ensures { option_map deref_pair result ≡ slice_get (pairs_of self.now) place }
    {
        let (_page, before) = find(&self.tail, self.count);
        if place < before {
            return pair_in(&self.closed, place);
        }
        pair_among(&self.tail, place - before)
    }
}
