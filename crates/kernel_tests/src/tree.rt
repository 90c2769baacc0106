// What no clause says: that with ample memory there is a new tree.
use cap_bits::FileCaps;
use fs_dirs::{Tree, root_directory};
use kern_model::{Attr, Kind, NoMemory};
use lab_lattice::bottom;
use std::alloc::Global;

fn attr() -> Attr {
    Attr {
        owner: 1,
        group: 2,
        mode: 0o755,
        caps: FileCaps::none(),
    }
}

// Whether the only object is an empty root directory of the lowest label.
fn has_root_alone(tree: &Tree) -> bool {
    let root = root_directory();
    match tree.nodes().get(&root) {
        Some(object) => {
            object.kind == Kind::Dir
                && object.label == bottom()
                && object.attr == attr()
                && tree.nodes().slots().len() == 1
                && tree.is_empty(&root)
        }
        None => false,
    }
}

fn new_has_root_alone(alloc: Global) -> Result<bool, NoMemory> {
    Ok(has_root_alone(&Tree::new(alloc, attr())?))
}

#[test]
fn new_tree_has_its_root_alone(rt: HostRuntime) {
    assert!(rt; new_has_root_alone(rt.alloc()) == Ok(true));
}
