//! Lists of names.

ghost use Rattle.std.specs.Prelude.{◌≡◌};

use crate::name::Name;
use std::marker::Model;

/// A list of names, in the order in which they were given.
#[derive(Debug, Drop)]
pub struct NameList {
    names: Vec<Name>,
}

impl Model for NameList {
    ghost use Rattle.std.specs.Prelude.{List, ℕ};

    ghost Value = { List (List ℕ) };

    ghost view = { λ l. l.names.items };
}

impl NameList {
    /// Holds these names, and takes no memory.
    pub fn of(names: Vec<Name>) -> NameList
        ensures { result ≡ names.items }
    {
        NameList { names }
    }

    /// The names.
    pub fn names(&self) -> &[Name]
        ensures { result.now ≡ self.now }
    {
        self.names.as_slice()
    }
}
