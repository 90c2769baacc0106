// Numbers that are drawn at labels.
ghost use Rattle.std.specs.Prelude.{◌≡◌, ◌++◌, OnOk};
ghost use Rattle.lab_text.specs.Numbered.{numbered_text};

use crate::{NoMemory, Policy, put_label};
use fs_path::put_number;
use lab_lattice::Label;

/// Writes a number and the label that it was drawn at, as `n@label`.
#[tactic(auto, unfolding(crate::specs::Numbered::numbered_text))]
#[inline(always)]
pub fn put_numbered(
    text: &mut Vec<u8>,
    policy: &Policy,
    n: u64,
    label: &Label,
) -> Result<(), NoMemory>
    ensures { OnOk result (text.new.items ≡ text.old.items ++ numbered_text policy.now n label.now) }
{
    put_number(text, n)?;
    text.push(b'@')?;
    put_label(text, policy, label)
}
