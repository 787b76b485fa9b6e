use crate::again::Again;
use crate::bucket::Bucket;
use crate::group::Group;
use crate::page::Page;
use crate::pairs::Pairs;
use crate::shares::Shares;
use std::alloc::Global;

/// A type with copies and with an empty value, which takes no memory.
pub trait Blank: Again {
    ghost use Rattle.std.specs.Prelude.{◌≡◌};

    ghost empty: { Self };

    /// The empty value.
    fn blank(alloc: Global) -> Self
        ensures { result ≡ empty };
}

impl<V: Again> Blank for Bucket<V> {
    ghost use Rattle.std.specs.Prelude.{[]};

    ghost empty = { [] };

    fn blank(alloc: Global) -> Bucket<V> {
        Bucket::new(alloc)
    }
}

impl<V: Drop> Blank for Page<V> {
    ghost use Rattle.std.specs.Prelude.{[]};

    ghost empty = { (0, []) };

    fn blank(alloc: Global) -> Page<V> {
        Page::of_pairs(0, Pairs::new(alloc))
    }
}

impl<V: Drop> Blank for Group<V> {
    ghost use Rattle.std.specs.Prelude.{[]};

    ghost empty = { [] };

    fn blank(alloc: Global) -> Group<V> {
        Group::of_pages(Shares::new(alloc))
    }
}

impl<T: Drop> Blank for Shares<T> {
    ghost use Rattle.std.specs.Prelude.{[]};

    ghost empty = { [] };

    fn blank(alloc: Global) -> Shares<T> {
        Shares::new(alloc)
    }
}
