ghost use Rattle.std.specs.Prelude.{◌≡◌};
ghost use Rattle.tcl_words.specs.GroupText as texts;

use crate::read::{fault_of, groups_after};

/// Whether a text reads as one group where it stands between braces, so that it can be a group's raw text.
pub fn is_group_text(value: &[u8]) -> bool
    ensures { result ≡ texts.is_group_text value.now }
{
    let mut groups = 1;
    let mut last = b'{';
    for byte in value {
        // Where a fault is does not matter.
        if fault_of(*byte, last, groups, 0).is_some() {
            return false;
        }
        groups = groups_after(*byte, groups);
        if groups == 0 {
            return false;
        }
        last = *byte;
    }
    groups == 1
}
