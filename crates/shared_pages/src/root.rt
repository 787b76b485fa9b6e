ghost use Rattle.std.specs.Prelude.{◌≡◌, [], IfOk};
ghost use Rattle.std.specs.Option.{option_copied, unwrap_or};

use crate::shares::Shares;
use memory_core::Memory;
use std::alloc::Global;
use std::marker::Model;
use std::sync::Arc;

/// A list that copies share whole, with one count, until one of them changes it. Contracts see the list.
#[derive(Drop)]
pub(crate) struct Root<T> {
    /// None where the list is empty and has taken no memory.
    list: Option<Arc<Shares<T>>>,
}

impl<T> Model for Root<T> {
    ghost use Rattle.std.specs.Prelude.{List};
    ghost use Rattle.shared_pages.specs.Sharing.{shared_or_none};

    ghost Value = { List T };

    ghost view = { λ s. shared_or_none s.list };
}

impl<T: Drop> Root<T> {
    /// The empty list. It takes no memory.
    pub(crate) fn new() -> Root<T>
        ensures { result ≡ [] }
    {
        Root { list: None }
    }

    /// The list, to be shared.
    pub(crate) fn of_list(alloc: Global, list: Shares<T>) -> Result<Root<T>, Memory>
        ensures { IfOk result (λ r. r ≡ list) }
    {
        let share = Arc::new(alloc, list)?;
        Ok(Root { list: Some(share) })
    }

    /// Lends the list. Where there is none it is empty.
    pub(crate) fn list(&self) -> Option<&Shares<T>>
        ensures { unwrap_or (option_copied result) [] ≡ self.now }
    {
        match &self.list {
            Some(share) => Some(&**share),
            None => None,
        }
    }

    /// The same list again. It is shared.
    pub(crate) fn copy(&self) -> Result<Root<T>, Memory>
        ensures { IfOk result (λ r. r ≡ self.now) }
    {
        let Some(share) = &self.list else {
            return Ok(Root { list: None });
        };
        let share = Arc::try_clone(share)?;
        Ok(Root { list: Some(share) })
    }

    /// The list itself where no copy shares it, else a copy of it.
    pub(crate) fn own(self, alloc: Global) -> Result<Shares<T>, Memory>
        ensures { IfOk result (λ s. s ≡ self) }
    {
        let Root { list } = self;
        let Some(share) = list else {
            return Ok(Shares::new(alloc));
        };
        match Arc::try_unwrap(share) {
            Ok(list) => Ok(list),
            Err(share) => share.copy(),
        }
    }
}
