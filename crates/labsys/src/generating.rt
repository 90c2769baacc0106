// The generated input, written piece by piece.
ghost use Rattle.std.specs.Prelude.{◌≡◌, ◌≤◌, IfOk};
ghost use Rattle.gen_world.specs.Text.{gen_text};
ghost use Rattle.gen_world.specs.declared.generator.TheConstants.{MAX_LINES};
ghost use Rattle.lab_engine.specs.Playing.{WritesOut};

use gen_world::Generator;
use io_ends::Sink;
use lab_engine::{Fault, answer};
use std::alloc::Global;

/// Writes the generated input of so many lines to the output.
pub fn generate<K: Sink>(alloc: Global, lines: u32, out: &mut K) -> Result<(), Fault>
    requires { (1 ≤ lines) × (lines ≤ MAX_LINES) }
    ensures { WritesOut result (gen_text lines) (K.view out.old) (K.view out.new) }
{
    let mut generator = Generator::new(lines);
    let mut piece = Vec::new(alloc);
    while generator.put_next(&mut piece)? {
        answer(out, &piece)?;
        piece.clear();
    }
    Ok(())
}
