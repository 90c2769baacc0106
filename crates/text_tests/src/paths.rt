// How texts of paths are read.
use fs_path::{NoMemory, Path, PathError};
use std::alloc::Global;

// A path with a `/` after each name.
fn written(alloc: Global, path: &Path) -> Result<Vec<u8>, NoMemory> {
    let mut text = Vec::new(alloc);
    for name in path.components() {
        text.extend_from_slice(name.bytes())?;
        text.push(b'/')?;
    }
    Ok(text)
}

fn is_written(alloc: Global, path: &Path, text: &[u8]) -> bool {
    match written(alloc, path) {
        Ok(found) => found.as_slice() == text,
        Err(_) => false,
    }
}

// Whether a text is read as a path of these names, which starts at the root or not.
fn is_read(alloc: Global, text: &[u8], absolute: bool, names: &[u8]) -> bool {
    match Path::read(alloc, text) {
        Ok(path) => path.absolute == absolute && is_written(alloc, &path, names),
        Err(_) => false,
    }
}

// Whether a text is refused for this cause.
fn is_refused(alloc: Global, text: &[u8], cause: PathError) -> bool {
    match Path::read(alloc, text) {
        Ok(_) => false,
        Err(found) => found == cause,
    }
}

#[test]
fn paths(rt: HostRuntime) {
    assert!(rt; is_read(rt.alloc(), b"/a//./b/", true, b"a/b/"));
    assert!(rt; is_read(rt.alloc(), b"/", true, b""));
    assert!(rt; is_read(rt.alloc(), b"./", false, b""));
    assert!(rt; is_read(rt.alloc(), b"...", false, b".../"));
    assert!(rt; is_read(rt.alloc(), b"\xff ", false, b"\xff /"));
}

#[test]
fn faults(rt: HostRuntime) {
    assert!(rt; is_refused(rt.alloc(), b"", PathError::Empty));
    assert!(rt; is_refused(rt.alloc(), b"/a/../b", PathError::BadByte(3)));
    assert!(rt; is_refused(rt.alloc(), b"a\0b", PathError::BadByte(1)));
}

// The limits of a text, of a name and of a path.
#[test]
fn limits(rt: HostRuntime) -> Result<(), NoMemory> {
    let long = vec![in rt.alloc(); b'n'; 1024]?;
    assert!(rt; is_refused(rt.alloc(), &long, PathError::TooLong));
    assert!(rt; is_refused(rt.alloc(), &long[..64], PathError::NameTooLong(0)));
    assert!(rt;
        is_refused(
            rt.alloc(),
            b"a/a/a/a/a/a/a/a/a/a/a/a/a/a/a/a/a/a/a/a/a/a/a/a/a/a/a/a/a/a/a/a/a",
            PathError::TooDeep
        )
    );
    Ok(())
}

// Whether the copy of an absolute path is written so.
fn is_copied(alloc: Global, bytes: &[u8], text: &[u8]) -> bool {
    let Ok(path) = Path::read(alloc, bytes) else {
        return false;
    };
    match path.copy() {
        Ok(copy) => copy.absolute && is_written(alloc, &copy, text),
        Err(_) => false,
    }
}

#[test]
fn path_is_copied(rt: HostRuntime) {
    assert!(rt; is_copied(rt.alloc(), b"/a/b", b"a/b/"));
}
