// The paths of a call.
ghost use Rattle.std.specs.Prelude.{◌≡◌};
ghost use Rattle.kern_model.specs.Walk.{dir_place, last_place};
ghost use Rattle.sys_lookup.specs.Walks.{place_in};

use kern_model::{Path, Place};

/// Which path of a call it is.
#[derive(Clone, Copy, Debug, PartialEq, Eq)]
pub enum PathArgument {
    First,
    Second,
}

impl PathArgument {
    /// The place of the directory that is reached after this many names.
    pub fn place(self, names: u8) -> Place
        ensures { result ≡ place_in self names }
    {
        match self {
            PathArgument::First => Place::First(names),
            PathArgument::Second => Place::Second(names),
        }
    }

    /// The place of the object at the end of a path.
    pub fn last_place(self, path: &Path) -> Place
        ensures { result ≡ last_place (place_in self) path.now }
    {
        self.place(path.components().len() as u8)
    }

    /// The place of the directory in which the last name of a path stands.
    pub fn dir_place(self, path: &Path) -> Place
        ensures { result ≡ dir_place (place_in self) path.now }
    {
        self.place(path.components().len().saturating_sub(1) as u8)
    }
}
