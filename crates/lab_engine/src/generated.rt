// The generated input as a source.
ghost use Rattle.std.specs.Prelude.{◌≡◌, ◌≤◌, [], Some, drop, take, OnErr, OnOk};
ghost use Rattle.std.specs.List.{concat};
ghost use Rattle.std.specs.Io.{ReadsAtMost};
ghost use Rattle.std.specs.Io.KnownBytes.{ReadConsumes};
ghost use Rattle.gen_world.specs.Text.{gen_text};
ghost use Rattle.gen_world.specs.declared.generator.TheConstants.{MAX_LINES};
ghost use Rattle.io_ends.specs.Faults.{CountsFault};

use gen_world::Generator;
use io_ends::{Failed, Source, copy_prefix, count_fault};
use kern_model::NoMemory;
use std::alloc::Global;
use std::marker::Model;

/// The generated input as a source. A read fails only where memory runs out. Its value is the bytes that are left, and how
/// many faults there were.
pub struct Generated {
    // The pieces after this one.
    generator: Generator,
    piece: Vec<u8>,
    // Where in the piece the next byte is.
    at: usize,
    faults: u64,
}

impl Drop for Generated {
    fn drop(self) {
        let Generated {
            generator: _,
            piece: _,
            at: _,
            faults: _,
        } = self;
    }
}

impl Model for Generated {
    ghost use Rattle.std.specs.Prelude.{◌≤◌, ◌++◌, drop, length};
    ghost use Rattle.std.specs.List.{concat};
    ghost use Rattle.lab_engine.specs.Generated.{GeneratedState, NoneEmpty};

    ghost Value = { GeneratedState };

    ghost view = { λ g. record { left = drop g.at g.piece.items ++ concat g.generator; faults = g.faults } };

    ghost invariant = { λ g. (g.at ≤ length g.piece.items) × NoneEmpty g.generator };
}

impl Generated {
    /// The generated text for `n`, none of which was read.
    pub fn new(alloc: Global, n: u32) -> Generated
        requires { (1 ≤ n) × (n ≤ MAX_LINES) }
        ensures { result ≡ record { left = gen_text n; faults = 0 } }
    {
        Generated {
            generator: Generator::new(n),
            piece: Vec::new(alloc),
            at: 0,
            faults: 0,
        }
    }
}

// Makes the next piece in place of the one before. At an error, which is always out of memory, it stays the next one.
fn refill(generator: &mut Generator, piece: &mut Vec<u8>) -> Result<(), NoMemory>
    ensures made { OnOk result (piece.new.items ≡ concat (take 1 generator.old)) }
    ensures left { OnOk result (generator.new ≡ drop 1 generator.old) }
    ensures unchanged { OnErr result (generator.new ≡ generator.old) }
    ensures empty { OnErr result (piece.new.items ≡ []) }
{
    piece.clear();
    match generator.put_next(piece) {
        Ok(_) => Ok(()),
        Err(e) => {
            piece.clear();
            Err(e)
        }
    }
}

impl Source for Generated {
    ghost view = { λ s. record { left = Some s.left; faults = s.faults } };

    fn read(&mut self, buf: &mut [u8]) -> Result<usize, Failed>
        ensures bound { ReadsAtMost result buf.new }
        ensures bytes { ReadConsumes (Some self.old.left) (Some self.new.left) result buf.new }
        ensures counts { CountsFault self.old.faults self.new.faults result }
    {
        if self.at == self.piece.len() {
            self.at = 0;
            if refill(&mut self.generator, &mut self.piece).is_err() {
                return Err(count_fault(&mut self.faults));
            }
        }
        let count = copy_prefix(&self.piece[self.at..], buf);
        self.at += count;
        Ok(count)
    }
}
