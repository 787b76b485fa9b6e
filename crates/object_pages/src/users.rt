ghost use Rattle.std.specs.Prelude.{◌≡◌, true, OnOk};
ghost use Rattle.std.specs.List.{Contains};
ghost use Rattle.name_core.specs.declared.name.Name.{Name as Bytes};
ghost use Rattle.comb_tree.specs.Changes.{is_among};
ghost use Rattle.object_set.specs.Objects.{member_names};
ghost use Rattle.shared_pages.specs.Pages.{page_of, pairs_of};
ghost use Rattle.object_pages.specs.Entries.{HoldsUsers};
ghost use Rattle.object_pages.specs.Tallies.{AreReferences};

use crate::members::leaves_named;
use crate::name_set::NameSet;
use crate::shared_tally::SharedTally;
use memory_core::Memory;
use name_core::Name;
use object_set::Object;
use shared_pages::{PageList, Pairs};

/// Puts the user's name among the names, where its object refers to the name.
fn put_user(user: &Name, object: &Object, name: &Name, names: &mut NameSet) -> Result<(), Memory>
    ensures user { OnOk result (Contains (member_names object.now.body) name.now → is_among names.new user.now ≡ true) }
    ensures kept { OnOk result ((x : Bytes) → is_among names.old x ≡ true → is_among names.new x ≡ true) }
{
    if leaves_named(object, name) > 0 {
        names.insert(user)?;
    }
    Ok(())
}

/// Puts the names of the objects on a page that refer to the name among the names.
fn put_users(pairs: &Pairs<Object>, name: &Name, names: &mut NameSet) -> Result<(), Memory>
    ensures users { OnOk result (HoldsUsers pairs.now name.now names.new) }
    ensures kept { OnOk result ((x : Bytes) → is_among names.old x ≡ true → is_among names.new x ≡ true) }
{
    for place in 0..pairs.len() {
        if let Some((user, object)) = pairs.at(place) {
            put_user(user, object, name, names)?;
        }
    }
    Ok(())
}

/// The same for the page of the number.
fn put_page_users(
    pages: &PageList<Object>,
    number: u64,
    name: &Name,
    names: &mut NameSet,
) -> Result<(), Memory>
    ensures users { OnOk result (HoldsUsers (page_of pages.now number) name.now names.new) }
    ensures kept { OnOk result ((x : Bytes) → is_among names.old x ≡ true → is_among names.new x ≡ true) }
{
    match pages.page(number) {
        Some(pairs) => put_users(pairs, name, names),
        None => Ok(()),
    }
}

/// The same for all pages, of which the tally tells those with such objects.
pub(crate) fn put_all_users(
    pages: &PageList<Object>,
    tally: &SharedTally,
    name: &Name,
    names: &mut NameSet,
) -> Result<(), Memory>
    requires { AreReferences pages.now name.now tally.now }
    ensures users { OnOk result (HoldsUsers (pairs_of pages.now) name.now names.new) }
    ensures kept { OnOk result ((x : Bytes) → is_among names.old x ≡ true → is_among names.new x ≡ true) }
{
    let _count = pages.len();
    for place in 0..tally.len() {
        if let Some(number) = tally.page_at(place) {
            put_page_users(pages, number, name, names)?;
        }
    }
    Ok(())
}
