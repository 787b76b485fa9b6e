ghost use Rattle.std.specs.Prelude.{◌≡◌, max};
ghost use Rattle.directory.specs.Walks.{greatest_of};
ghost use Rattle.directory.specs.Edits.{judged_by};

use crate::fault::DirFault;
use crate::limit::DEPTH;
use name_core::Name;

/// More than the depth of any name after one edit of a sound directory without a cycle. It stands for a depth that is not
/// known.
pub(crate) const UNBOUNDED: u8 = 34;

/// The larger of two depths.
pub(crate) fn larger(one: u8, other: u8) -> u8
    ensures { result ≡ max one other }
{
    if one < other { other } else { one }
}

/// The greatest of the depths.
pub(crate) fn greatest(depths: &[u8]) -> u8
    ensures { result ≡ greatest_of depths.now }
{
    let mut most = 0;
    for depth in depths {
        most = larger(most, *depth);
    }
    most
}

/// Why a directory of this greatest depth may not stand, where the name is the edited one.
pub(crate) fn judge(most: u8, edited: &Name) -> Option<DirFault>
    ensures { result ≡ judged_by most edited.now }
{
    if most >= UNBOUNDED {
        return Some(DirFault::Cycle(*edited));
    }
    if most > DEPTH {
        return Some(DirFault::Deep(u32::from(most)));
    }
    None
}
