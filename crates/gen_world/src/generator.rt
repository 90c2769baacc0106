// The generator, which gives its text piece by piece.
ghost use Rattle.std.specs.Prelude.{◌≡◌, ◌++◌, ◌<◌, ◌≤◌, ◌↔◌, drop, length, take, IfOk, OnErr, OnOk, IsTrue};
ghost use Rattle.std.specs.List.{concat};
ghost use Rattle.gen_world.specs.Text.{gen_text, pieces, step};

use crate::NoMemory;
use crate::call::Call;
use std::alloc::Global;
use std::marker::Model;

/// The most lines that are generated.
pub const MAX_LINES: u32 = 100_000;

// The world of each generated text, with the line `script`.
const WORLD: &[u8] = b"world 2\n\
    levels l0 l1 l2 l3\n\
    categories c0 c1\n\
    bound all\n\
    dir / 0777 0 0 l0\n\
    dir /d0 0777 0 0 l0\n\
    dir /d1 0777 0 0 l1\n\
    dir /d2 0777 0 0 l2\n\
    dir /d3 0777 0 0 l3\n\
    proc l0 100 100 - \"=\"\n\
    proc l1 101 101 - \"=\"\n\
    proc l2 102 102 - \"=\"\n\
    proc l3 103 103 - \"=\"\n\
    script\n";

// The generated number after a number.
fn step(number: u32) -> u32
    ensures { result ≡ step number }
{
    ((u64::from(number) * 1_103_515_245 + 12_345) % 2_147_483_648) as u32
}

/// The generated text in pieces: the world, then each line. Its value is the list of the pieces that are left.
#[derive(Drop)]
pub struct Generator {
    // Whether the world is left.
    world_is_left: bool,
    // The number that was generated last.
    number: u32,
    // How many lines are left.
    left: u32,
}

impl Model for Generator {
    ghost use Rattle.std.specs.Prelude.{List, ℕ};
    ghost use Rattle.gen_world.specs.Text.{pieces_left};

    ghost Value = { List (List ℕ) };

    ghost view = { λ g. pieces_left g.world_is_left g.left g.number };
}

impl Generator {
    /// The generator of the text for `n`.
    pub fn new(n: u32) -> Generator
        requires { (1 ≤ n) × (n ≤ MAX_LINES) }
        ensures { result ≡ pieces n }
    {
        Generator {
            world_is_left: true,
            number: n,
            left: n,
        }
    }

    /// Appends the next piece to a text, and returns whether one was left. At an error, which is always out of memory, the
    /// piece stays the next one, and the text may have a prefix of it.
    #[tactic(auto, using(crate::proofs::PieceLemmas::no_line_left, crate::proofs::PieceLemmas::line_left))]
    pub fn put_next(&mut self, text: &mut Vec<u8>) -> Result<bool, NoMemory>
        ensures given { IfOk result (λ given. IsTrue given ↔ (0 < length self.old)) }
        ensures appended { OnOk result (text.new.items ≡ text.old.items ++ concat (take 1 self.old)) }
        ensures left { OnOk result (self.new ≡ drop 1 self.old) }
        ensures unchanged { OnErr result (self.new ≡ self.old) }
    {
        if self.world_is_left {
            text.extend_from_slice(WORLD)?;
            self.world_is_left = false;
            return Ok(true);
        }
        if self.left == 0 {
            return Ok(false);
        }
        let number = step(self.number);
        Call::from_number(number).put_line(text)?;
        self.number = number;
        self.left -= 1;
        Ok(true)
    }
}

/// The generated text for `n`: the world, then `n` lines.
pub fn gen_text(alloc: Global, n: u32) -> Result<Vec<u8>, NoMemory>
    requires { (1 ≤ n) × (n ≤ MAX_LINES) }
    ensures { IfOk result (λ text. text.items ≡ gen_text n) }
{
    let mut text = Vec::new(alloc);
    let mut generator = Generator::new(n);
    while generator.put_next(&mut text)? {}
    Ok(text)
}
