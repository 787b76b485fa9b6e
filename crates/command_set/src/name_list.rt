ghost use Rattle.std.specs.Prelude.{◌≡◌, ◌<◌, ◌^◌, length, vec_len};

use name_core::Name;
use std::marker::Model;

/// A list of fewer than 2^31 names. Contracts see that list.
#[derive(Debug, Drop)]
pub struct NameList {
    names: Vec<Name>,
}

impl Model for NameList {
    ghost use Rattle.std.specs.Prelude.{◌<◌, ◌^◌, List, vec_len};
    ghost use Rattle.name_core.specs.declared.name.Name.{Name};

    ghost Value = { List Name };

    ghost view = { λ s. s.names.items };

    ghost invariant = { λ s. vec_len s.names < 2 ^ 31 };
}

impl NameList {
    /// The list of a vector's names.
    pub fn of_vec(names: Vec<Name>) -> NameList
        requires { vec_len names < 2 ^ 31 }
        ensures { result ≡ names.items }
    {
        NameList { names }
    }

    /// Lends the names.
    pub fn items(&self) -> &[Name]
        ensures value { result.now ≡ self.now }
        ensures short { length result.now < 2 ^ 31 }
    {
        &self.names
    }
}
