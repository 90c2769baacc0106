// The last name of a path.
ghost use Rattle.std.specs.Prelude.{◌≡◌};

use kern_model::Name;
use std::marker::Model;

/// The last name of a path, lent from the path. To clauses it is the name.
#[derive(Debug, Drop)]
pub struct LastName<'a> {
    name: &'a Name,
}

impl<'a> Model for LastName<'a> {
    ghost use Rattle.fs_path.specs.Name.{Name};

    ghost Value = { Name };

    ghost view = { λ n. n.name.now };
}

impl<'a> LastName<'a> {
    /// This name, as the last one of a path.
    pub fn new(name: &'a Name) -> Self
        ensures { result ≡ name.now }
    {
        LastName { name }
    }

    /// The name.
    pub fn name(&self) -> &'a Name
        ensures { result.now ≡ self.now }
    {
        self.name
    }
}
