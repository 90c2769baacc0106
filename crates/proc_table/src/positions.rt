// Where each child stands among the children of its parent.
ghost use Rattle.std.specs.Prelude.{◌≡◌, IsSome};
ghost use Rattle.std.specs.FinMap as map;
ghost use Rattle.kern_model.specs.ByNumber.{by_pid};

use kern_model::Pid;
use num_table::Table;

/// A parent, and a place in the list of its children.
#[derive(Clone, Copy, Debug)]
pub struct Position {
    pub parent: Pid,
    pub place: usize,
}

/// Moves a child that stands somewhere. It takes no memory.
pub fn change(positions: &mut Table<Position>, child: &Pid, position: Position)
    requires { IsSome (map.get (by_pid positions.old) child.now) }
    ensures { by_pid positions.new ≡ map.insert (by_pid positions.old) child.now position }
{
    let Some(place) = positions.get_mut_at(child) else {
        unreachable!();
    };
    *place = position;
}
