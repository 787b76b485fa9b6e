ghost use Rattle.std.specs.Prelude.{◌≡◌, ◌<◌, None, length, OnOk, IfOk};
ghost use Rattle.std.specs.Arc.{arc_value};
ghost use Rattle.std.specs.Map.{lookup};
ghost use Rattle.name_core.specs.Same.{same_name};
ghost use Rattle.shared_pages.specs.Pages.{pairs_of, put_at, pushed, last_number};

use crate::limit::MOST_PAIRS;
use crate::page::Page;
use crate::pairs::Pairs;
use crate::shares::Shares;
use memory_core::Memory;
use name_core::Name;
use std::alloc::Global;
use std::sync::Arc;

/// Puts a page of this number and these pairs in the place of another one, or takes that out where there are none.
pub(crate) fn put_page<V: Drop>(
    alloc: Global,
    pages: &mut Shares<Page<V>>,
    place: usize,
    number: u64,
    pairs: Pairs<V>,
) -> Result<(), Memory>
    requires { place < length pages.old }
    ensures { OnOk result (pages.new ≡ put_at pages.old place number pairs) }
{
    if pairs.len() == 0 {
        pages.remove(place);
        return Ok(());
    }
    pages.set(alloc, place, Page::of_pairs(number, pairs))
}

/// Adds a pair on the last page, or on a new one where that is full, and answers the number of that page. A last page that
/// is shared and takes the pair is copied.
pub(crate) fn push_pair<V: Drop>(
    alloc: Global,
    pages: &mut Shares<Page<V>>,
    name: &Name,
    value: Arc<V>,
) -> Result<u64, Memory>
    requires { lookup (same_name name.now) (pairs_of pages.old) ≡ None }
    ensures list { OnOk result (pages.new ≡ pushed pages.old name.now (arc_value value)) }
    ensures number { IfOk result (λ n. n ≡ last_number pages.new) }
{
    let last = match pages.take_last() {
        Some(share) => share,
        None => {
            pages.push(alloc, Page::of_pair(alloc, 0, name, value)?)?;
            return Ok(0);
        }
    };
    if last.pairs().len() < MOST_PAIRS {
        let page = Page::own(last)?.with(name, value)?;
        let number = page.number();
        pages.push(alloc, page)?;
        return Ok(number);
    }
    let Some(number) = last.number().checked_add(1) else {
        return Err(Memory);
    };
    pages.push_share(last)?;
    pages.push(alloc, Page::of_pair(alloc, number, name, value)?)?;
    Ok(number)
}
