//! The limits of the profile: what each limits, and in which unit. `fs_path`, which reads lines, has the limit of a line.

pub use fs_path::MAX_LINE;

/// Objects whose numbers are drawn at one label.
pub const MAX_OBJECTS: usize = 65_535;

/// Processes whose numbers are drawn at one label.
pub const MAX_PROCS: usize = 4_095;

/// Open descriptions whose numbers are drawn at one label.
pub const MAX_DESCRIPTIONS: usize = 65_535;

/// Descriptors of a process. They are numbered from 0 on.
pub const MAX_DESCRIPTORS: usize = 32;

/// Supplementary groups of a process.
pub const MAX_GROUPS: usize = 16;

/// Names of an object that is not a directory.
pub const MAX_LINKS: usize = 1_024;

/// Bytes of a file, and the bytes that one `read` asks for.
pub const MAX_FILE_BYTES: usize = 65_536;

/// Bytes that wait in a pipe or FIFO.
pub const MAX_PIPE_BYTES: usize = 4_096;

/// The largest offset of an `lseek`, in bytes, forwards or backwards.
pub const MAX_OFFSET: u64 = 4_294_967_295;

/// The greatest number of an argument, as of a descriptor, a user or a group.
pub const MAX_NUMBER: u32 = 4_294_967_295;

/// The greatest exit status.
pub const MAX_STATUS: u8 = 255;

/// All permission bits of a mode.
pub const MAX_PERMISSIONS: u16 = 0o777;

/// Bytes of an input.
pub const MAX_INPUT: u64 = 16_777_216;
