// What no clause says: that the calls succeed with ample memory, up to the limits.
use fd_table::{FdError, FdTable, How};
use fs_nodes::Nodes;
use kern_model::{Fd, NoMemory, Oid, Pid};
use lab_lattice::bottom;
use std::alloc::Global;

fn process() -> Pid {
    Pid {
        label: bottom(),
        n: 1,
    }
}

// How a descriptor is open for reading, or for writing.
pub fn how(reads: bool) -> How {
    How {
        reads,
        writes: !reads,
        appends: false,
    }
}

// The descriptors of a process, and the objects.
#[derive(Drop)]
pub struct Files {
    pub table: FdTable,
    pub nodes: Nodes,
}

impl Files {
    pub fn new(alloc: Global) -> Result<Files, NoMemory> {
        let nodes = Nodes::new(alloc)?;
        Ok(Files {
            table: FdTable::new(alloc),
            nodes,
        })
    }

    // Opens an object.
    pub fn open(&mut self, id: &Oid, how: How) -> Result<Fd, FdError> {
        let who = process();
        self.table.reserve(&who)?;
        self.table.open_at_lowest(&who, &who.label, *id, how)
    }

    // Opens a file.
    fn open_file(&mut self) -> Result<Fd, FdError> {
        let file = Oid {
            label: bottom(),
            n: 1,
        };
        self.open(&file, how(true))
    }

    fn dup(&mut self, fd: Fd) -> Result<Fd, FdError> {
        self.table.dup(&process(), fd)
    }

    pub fn close(&mut self, fd: Fd) -> Result<(), FdError> {
        self.table.close(&process(), fd, &mut self.nodes)
    }

    // Opens a file so many times, and returns whether the descriptors go up from 0.
    fn open_in_order(&mut self, times: u32) -> bool {
        for fd in 0..times {
            if self.open_file() != Ok(fd) {
                return false;
            }
        }
        true
    }

    // Whether 32 descriptors are opened, and no more until one is closed.
    fn open_32(&mut self) -> bool {
        self.open_in_order(32)
            && self.open_file() == Err(FdError::TooMany)
            && self.dup(0) == Err(FdError::TooMany)
            && self.close(5) == Ok(())
            && self.dup(0) == Ok(5)
    }

    // Whether descriptor 0 is open for reading, from the offset on that was asked for, and descriptor 1 is not open.
    fn seek(&mut self) -> bool {
        let who = process();
        self.open_file() == Ok(0)
            && self.table.offset(&who, 0) == Some(0)
            && self.table.seek(&who, 0, 3, 5) == Ok(3)
            && self.table.offset(&who, 0) == Some(3)
            && self.table.how(&who, 0) == Some(how(true))
            && self.table.offset(&who, 1).is_none()
            && self.table.how(&who, 1).is_none()
    }

    // To what the next description comes after so many that were opened and closed.
    fn open_after(&mut self, times: u32) -> Result<Fd, FdError> {
        for _ in 0..times {
            let fd = self.open_file()?;
            self.close(fd)?;
        }
        self.open_file()
    }
}

fn opens_32(alloc: Global) -> Result<bool, NoMemory> {
    Ok(Files::new(alloc)?.open_32())
}

#[test]
fn process_has_32_descriptors(rt: HostRuntime) {
    assert!(rt; opens_32(rt.alloc()) == Ok(true));
}

fn seeks(alloc: Global) -> Result<bool, NoMemory> {
    Ok(Files::new(alloc)?.seek())
}

#[test]
fn descriptor_has_its_offset(rt: HostRuntime) {
    assert!(rt; seeks(rt.alloc()) == Ok(true));
}

fn next_description(alloc: Global, after: u32) -> Result<Fd, FdError> {
    Files::new(alloc)?.open_after(after)
}

#[test]
fn label_has_65535_descriptions(rt: HostRuntime) {
    assert!(rt; next_description(rt.alloc(), 65_534) == Ok(0));
    assert!(rt; next_description(rt.alloc(), 65_535) == Err(FdError::Full));
}
