// An open description.
use kern_model::Oid;

/// What a description is open for.
#[derive(Clone, Copy, Debug, PartialEq, Eq)]
pub struct How {
    pub reads: bool,
    pub writes: bool,
    /// Whether each write goes to the end of the file.
    pub appends: bool,
}

/// An open description, which descriptors share.
#[derive(Clone, Copy)]
pub struct Shared {
    pub object: Oid,
    pub how: How,
    /// Where it stands in a file, in bytes.
    pub offset: u32,
    /// How many descriptors refer to it.
    pub holders: usize,
}
