// FIFOs that lose their last description.
ghost use Rattle.std.specs.Prelude.{◌≡◌, Some};
ghost use Rattle.std.specs.FinMap as map;
ghost use Rattle.kern_model.specs.Valid.{IsThere};
ghost use Rattle.fd_table.specs.declared.shared.Shared.{Shared as Value};
ghost use Rattle.fd_table.specs.Descriptions.{descriptions_of, with_one_less};
ghost use Rattle.fd_table.specs.Fifo.{without_bytes};
ghost use Rattle.fd_table.specs.Files.{objects_after_close};

use crate::descriptions::Descriptions;
use fs_nodes::Buffers;
use kern_model::{Did, Kind, Oid};

// Removes all bytes from an object, if there is one and it is a FIFO. It takes no memory.
fn drop_fifo<B: Buffers>(buffers: &mut B, id: &Option<Oid>)
    ensures objects { B.objects buffers.new ≡ without_bytes (B.objects buffers.old) id.now }
    ensures rest { B.rest_same buffers.old buffers.new }
{
    let Some(id) = id else {
        return;
    };
    match buffers.object(id) {
        Some(object) if object.kind == Kind::Fifo => buffers.drop_bytes(id),
        _ => {}
    }
}

/// Counts one descriptor less of a description, which goes with the last one, and with the last one of a FIFO its bytes. It takes
/// no memory.
#[inline(always)]
pub fn let_go<B: Buffers>(descriptions: &mut Descriptions, did: &Did, buffers: &mut B)
    requires { IsThere descriptions.old did.now }
    ensures left { (s : Value) → map.get descriptions.old did.now ≡ Some s → descriptions.new ≡ with_one_less descriptions.old did.now s }
    ensures drained { B.objects buffers.new ≡ objects_after_close (descriptions_of descriptions.old) (descriptions_of descriptions.new) (B.objects buffers.old) }
    ensures rest { B.rest_same buffers.old buffers.new }
{
    let unused = descriptions.release(did);
    drop_fifo(buffers, &unused);
}
