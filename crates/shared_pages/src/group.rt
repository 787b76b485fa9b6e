ghost use Rattle.std.specs.Prelude.{◌≡◌, IfOk};
ghost use Rattle.shared_pages.specs.Groups.{CountsPairs};

use crate::page::Page;
use crate::search::find;
use crate::shares::Shares;
use memory_core::Memory;
use std::marker::Model;

/// A group of pages, with the number of their pairs, so that a walk steps over it. Contracts see the pages.
#[derive(Drop)]
pub(crate) struct Group<V> {
    pages: Shares<Page<V>>,
    /// None where there are too many for a number.
    count: Option<usize>,
}

impl<V> Model for Group<V> {
    ghost use Rattle.shared_pages.specs.Pages.{Pages};
    ghost use Rattle.shared_pages.specs.Groups.{CountsPairs};

    ghost Value = { Pages V };

    ghost view = { λ s. s.pages };

    ghost invariant = { λ s. CountsPairs s.pages s.count };
}

impl<V: Drop> Group<V> {
    /// The group of these pages. It looks at each.
    pub(crate) fn of_pages(pages: Shares<Page<V>>) -> Group<V>
        ensures { result ≡ pages }
    {
        let (page, rest) = find(&pages, usize::MAX);
        let count = if page < pages.len() {
            None
        } else {
            Some(usize::MAX - rest)
        };
        Group { pages, count }
    }

    /// Lends the pages.
    pub(crate) fn pages(&self) -> &Shares<Page<V>>
        ensures { result.now ≡ self.now }
    {
        &self.pages
    }

    /// The pages.
    pub(crate) fn into_pages(self) -> Shares<Page<V>>
        ensures { result ≡ self }
    {
        let Group { pages, .. } = self;
        pages
    }

    /// The number of pairs, where it is known.
    pub(crate) fn count(&self) -> Option<usize>
        ensures { CountsPairs self.now result }
    {
        self.count
    }

    /// The same group again. It shares the pages.
    pub(crate) fn copy(&self) -> Result<Group<V>, Memory>
        ensures { IfOk result (λ g. g ≡ self.now) }
    {
        let pages = self.pages.copy()?;
        Ok(Group {
            pages,
            count: self.count,
        })
    }
}
