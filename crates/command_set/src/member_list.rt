ghost use Rattle.std.specs.Prelude.{◌≡◌, ◌<◌, ◌^◌, length, vec_len};
ghost use Rattle.command_set.specs.Lawful.{AreNear};

use comb_tree::ListEntry;
use std::marker::Model;

/// A list of fewer than 2^31 members, whose shifts have components of at most `COORD` in size. Contracts see that list.
#[derive(Debug, Drop)]
pub struct MemberList {
    entries: Vec<ListEntry>,
}

impl Model for MemberList {
    ghost use Rattle.std.specs.Prelude.{◌<◌, ◌^◌, List, vec_len};
    ghost use Rattle.comb_tree.specs.declared.node.ListEntry.{ListEntry};
    ghost use Rattle.command_set.specs.Lawful.{AreNear};

    ghost Value = { List ListEntry };

    ghost view = { λ s. s.entries.items };

    ghost invariant = { λ s. (vec_len s.entries < 2 ^ 31) × AreNear s.entries.items };
}

impl MemberList {
    /// The list of a vector's members.
    pub fn of_vec(entries: Vec<ListEntry>) -> MemberList
        requires short { vec_len entries < 2 ^ 31 }
        requires near { AreNear entries.items }
        ensures { result ≡ entries.items }
    {
        MemberList { entries }
    }

    /// Lends the members.
    pub fn items(&self) -> &[ListEntry]
        ensures value { result.now ≡ self.now }
        ensures short { length result.now < 2 ^ 31 }
        ensures near { AreNear result.now }
    {
        &self.entries
    }
}
