// Objects, and what is reported of them.
ghost use Rattle.std.specs.Prelude.{◌≡◌, IfOk};

use crate::{Gid, Mode, Oid, Uid};
use cap_bits::FileCaps;
use fs_path::{ByteList, NoMemory};
use lab_lattice::Label;

#[derive(Clone, Copy, Debug, PartialEq, Eq)]
pub enum Kind {
    Dir,
    File,
    Fifo,
    Pipe,
}

/// Who owns an object, its permission bits and its capabilities.
#[derive(Clone, Copy, Debug, PartialEq, Eq)]
pub struct Attr {
    pub owner: Uid,
    pub group: Gid,
    pub mode: Mode,
    /// The capabilities of a file; none for anything else.
    pub caps: FileCaps,
}

/// What a new object is, and what it holds.
#[derive(Debug, Drop)]
pub enum Body {
    Dir,
    File(ByteList),
    Fifo,
    Pipe,
}

impl Body {
    /// A copy of the body.
    pub fn copy(&self) -> Result<Body, NoMemory>
        ensures { IfOk result (λ body. body ≡ self.now) }
    {
        match self {
            Body::Dir => Ok(Body::Dir),
            Body::File(bytes) => Ok(Body::File(bytes.copy()?)),
            Body::Fifo => Ok(Body::Fifo),
            Body::Pipe => Ok(Body::Pipe),
        }
    }
}

/// An object with its present label. The bytes are the content of a file, or those that wait in a pipe or FIFO;
/// entries of a directory stand in the state.
#[derive(Debug)]
pub struct Object {
    pub kind: Kind,
    pub label: Label,
    pub attr: Attr,
    pub bytes: ByteList,
}

impl Drop for Object {
    fn drop(self) {
        let Object {
            kind: _,
            label: _,
            attr: _,
            bytes: _,
        } = self;
    }
}

/// What `stat` and `fstat` report of an object.
#[derive(Clone, Copy, Debug, PartialEq, Eq)]
pub struct StatAnswer {
    pub kind: Kind,
    pub mode: Mode,
    pub owner: Uid,
    pub group: Gid,
    /// Bytes, or entries of a directory.
    pub size: u64,
    /// Names of a file or FIFO; 1 for a directory and 0 for a pipe.
    pub names: u32,
    pub id: Oid,
    /// The present label.
    pub label: Label,
}
