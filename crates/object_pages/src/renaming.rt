ghost use Rattle.std.specs.Prelude.{◌≡◌, ◌≢◌, ◌<◌, ◌+◌, ℕ, [], None, IfOk, OnOk, IsSome, take, length, nat_eq, cond, unwrap_or};
ghost use Rattle.std.specs.Option.{option_copied};
ghost use Rattle.std.specs.List.{IsDistinct};
ghost use Rattle.name_core.specs.Same.{same_name};
ghost use Rattle.std.specs.Arc.{arc_value};
ghost use Rattle.std.specs.Map.{lookup, keys_of};
ghost use Rattle.object_set.specs.Renaming.{new_name, renamed_object};
ghost use Rattle.shared_pages.specs.Pages.{page_of, pairs_of};
ghost use Rattle.object_pages.specs.Entries.{object_of};
ghost use Rattle.object_pages.specs.Changes.{renamed_all};
ghost use Rattle.object_pages.specs.Tallies.{count_on, AreReferences, RenamesPages};

use crate::members::leaves_named;
use crate::shared_tally::SharedTally;
use memory_core::Memory;
use name_core::Name;
use object_set::Object;
use shared_pages::{PageList, Pairs};
use std::alloc::Global;
use std::sync::Arc;

/// The name, or the new one in the place of the old one.
fn renamed_name(name: &Name, old: &Name, new: &Name) -> Name
    ensures { result ≡ new_name old.now new.now name.now }
{
    if *name == *old { *new } else { *name }
}

/// The object whose members of the old name have the new one: another share of it where it has no such member, else a copy.
fn renamed_share(
    alloc: Global,
    object: &Arc<Object>,
    old: &Name,
    new: &Name,
) -> Result<Arc<Object>, Memory>
    ensures { IfOk result (λ o. arc_value o ≡ renamed_object old.now new.now (arc_value object.now)) }
{
    if leaves_named(object, old) == 0 {
        let share = object.clone()?;
        return Ok(share);
    }
    let mut copy = object.copy(alloc)?;
    copy.rename_members(old, new);
    let share = Arc::new(alloc, copy)?;
    Ok(share)
}

/// Adds the pair at the place to the renamed ones.
fn push_renamed(
    alloc: Global,
    pairs: &Pairs<Object>,
    place: usize,
    renamed: &mut Pairs<Object>,
    old: &Name,
    new: &Name,
) -> Result<(), Memory>
    requires absent { object_of pairs.now new.now ≡ None }
    requires before { renamed.old ≡ renamed_all (take place pairs.now) old.now new.now }
    requires within { place < length pairs.now }
    ensures { OnOk result (renamed.new ≡ renamed_all (take (place + 1) pairs.now) old.now new.now) }
{
    let _count = pairs.len();
    match (pairs.at(place), pairs.share_at(place)) {
        (Some((name, _object)), Some(object)) => {
            let share = renamed_share(alloc, object, old, new)?;
            renamed.insert(&renamed_name(name, old, new), share)
        }
        _ => unreachable!(),
    }
}

/// The pairs of a page with the new name in the place of the old one.
fn renamed_pairs(
    alloc: Global,
    pairs: &Pairs<Object>,
    old: &Name,
    new: &Name,
) -> Result<Pairs<Object>, Memory>
    requires { object_of pairs.now new.now ≡ None }
    ensures { IfOk result (λ p. p ≡ renamed_all pairs.now old.now new.now) }
{
    let mut renamed = Pairs::new(alloc);
    for place in 0..pairs.len() {
        push_renamed(alloc, pairs, place, &mut renamed, old, new)?;
    }
    Ok(renamed)
}

/// The pages with the new name in the place of the old one on the page of the number.
fn rename_page(
    alloc: Global,
    pages: PageList<Object>,
    number: u64,
    old: &Name,
    new: &Name,
) -> Result<PageList<Object>, Memory>
    requires there { IsSome (lookup (nat_eq number) pages) }
    requires absent { object_of (page_of pages number) new.now ≡ None }
    ensures { IfOk result (λ l. (n : ℕ) → page_of l n ≡ cond (nat_eq number n) (renamed_all (page_of pages number) old.now new.now) (page_of pages n)) }
{
    let _count = pages.len();
    let renamed = match pages.page(number) {
        Some(pairs) => renamed_pairs(alloc, pairs, old, new)?,
        None => unreachable!(),
    };
    pages.with_page(alloc, number, renamed)
}

/// The pages with the new name in the leaves of each page but the own one on which the tally has some.
fn rename_users(
    alloc: Global,
    pages: PageList<Object>,
    own: u64,
    users: Option<&SharedTally>,
    old: &Name,
    new: &Name,
) -> Result<PageList<Object>, Memory>
    requires there { (n : ℕ) → 0 < count_on (unwrap_or (option_copied users) []) n → 0 < length (page_of pages n) }
    requires absent { (n : ℕ) → own ≢ n → object_of (page_of pages n) new.now ≡ None }
    ensures { IfOk result (λ l. (n : ℕ) → page_of l n ≡ cond (nat_eq own n) (page_of pages n) (cond (nat_eq (count_on (unwrap_or (option_copied users.entry) []) n) 0) (page_of pages n) (renamed_all (page_of pages n) old.now new.now))) }
{
    let Some(tally) = users else {
        return Ok(pages);
    };
    let mut renamed = pages;
    for place in 0..tally.len() {
        if let Some((number, leaves)) = tally.at(place) {
            if number != own && leaves > 0 {
                renamed = rename_page(alloc, renamed, number, old, new)?;
            }
        }
    }
    Ok(renamed)
}

/// The pages with the new name in the place of the old one, which stands on its own page, and in the leaves of the pages of
/// the tally.
pub(crate) fn rename_pages(
    alloc: Global,
    pages: PageList<Object>,
    own: u64,
    users: Option<&SharedTally>,
    old: &Name,
    new: &Name,
) -> Result<PageList<Object>, Memory>
    requires there { IsSome (object_of (page_of pages own) old.now) }
    requires absent { object_of (pairs_of pages) new.now ≡ None }
    requires distinct { IsDistinct same_name (keys_of (pairs_of pages)) }
    requires counted { AreReferences pages old.now (unwrap_or (option_copied users) []) }
    ensures pages { IfOk result (RenamesPages old.now new.now pages) }
    ensures pairs { IfOk result (λ l. pairs_of l ≡ renamed_all (pairs_of pages) old.now new.now) }
{
    let _count = pages.len();
    let begun = rename_page(alloc, pages, own, old, new)?;
    let renamed = rename_users(alloc, begun, own, users, old, new)?;
    let _same = renamed.len();
    Ok(renamed)
}
