use crate::bucket::Bucket;
use crate::group::Group;
use crate::page::Page;
use crate::shares::Shares;
use memory_core::Memory;

/// A type with copies. A copy may share what it holds.
pub trait Again: Drop {
    ghost use Rattle.std.specs.Prelude.{◌≡◌, IfOk};

    /// The same value again. An `Err` is want of memory.
    fn again(&self) -> Result<Self, Memory>
        ensures { IfOk result (λ v. v ≡ self.now) };
}

impl Again for u8 {
    fn again(&self) -> Result<u8, Memory> {
        Ok(*self)
    }
}

impl Again for u64 {
    fn again(&self) -> Result<u64, Memory> {
        Ok(*self)
    }
}

impl<V: Again> Again for Bucket<V> {
    fn again(&self) -> Result<Bucket<V>, Memory> {
        self.copy()
    }
}

impl<V: Drop> Again for Page<V> {
    fn again(&self) -> Result<Page<V>, Memory> {
        self.copy()
    }
}

impl<V: Drop> Again for Group<V> {
    fn again(&self) -> Result<Group<V>, Memory> {
        self.copy()
    }
}

impl<T: Drop> Again for Shares<T> {
    fn again(&self) -> Result<Shares<T>, Memory> {
        self.copy()
    }
}
