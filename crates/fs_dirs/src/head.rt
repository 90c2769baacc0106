// The head of a name, by which most names can be told apart.
ghost use Rattle.std.specs.Prelude.{◌≡◌, ◌+◌, length, nat_lt, slice_index_or, true};
ghost use Rattle.std.specs.Ordering.{nat_cmp};
ghost use Rattle.fs_path.specs.Name.{is_name};
ghost use Rattle.fs_dirs.specs.Head.{are_bytes, head, head_of};

use fs_path::{Name, Steps};
use std::cmp::Ordering;
use std::marker::Model;
use std::sync::ledger::Ledger;

// How many bytes make a number.
const NUMBER_BYTES: usize = 8;

/// The head of a name: the number that its first sixteen bytes make, with zeros after its end.
#[derive(Drop)]
pub struct Head {
    // The number of the first eight of them, and that of the others.
    first: u64,
    second: u64,
}

impl Model for Head {
    ghost use Rattle.std.specs.Prelude.{ℕ, ◌+◌, ◌*◌, ◌^◌, ◌<◌};

    ghost Value = { ℕ };

    ghost view = { λ h. h.first * 2 ^ 64 + h.second };

    ghost invariant = { λ h. h.second < 2 ^ 64 };
}

impl Head {
    /// The head of a name. For a short name, the second number is 0 at once.
    pub fn of(name: &Name) -> Head
        ensures head { result ≡ head_of name.now }
        ensures bytes { are_bytes name.now ≡ true }
        ensures name { is_name name.now ≡ true }
    {
        let bytes = name.bytes();
        let second = if bytes.len() <= NUMBER_BYTES {
            0
        } else {
            number_of_eight(&bytes[NUMBER_BYTES..])
        };
        Head {
            first: number_of_eight(bytes),
            second,
        }
    }

    /// The order of two heads. It counts as one comparison.
    pub fn compare<L: Ledger>(&self, other: &Head, steps: &mut Steps<L>) -> Ordering
        ensures order { result ≡ nat_cmp self.now other.now }
        ensures counted { steps.new ≡ steps.old + 1 }
    {
        steps.compare(&(self.first, self.second), &(other.first, other.second))
    }
}

/// Whether a name has fewer bytes than a head, so that no other name has the same head.
#[tactic(auto, using(std::proofs::lemmas::Bool::Decides::nat_tests))]
pub fn is_short(name: &Name) -> bool
    ensures { result ≡ nat_lt (length name.now) 16 }
{
    name.bytes().len() < 2 * NUMBER_BYTES
}

// The number of the first eight bytes, with zeros after their end.
fn number_of_eight(bytes: &[u8]) -> u64
    ensures number { result ≡ head 8 bytes.now }
    ensures bytes { are_bytes bytes.now ≡ true }
{
    let mut number: u64 = 0;
    for place in 0..NUMBER_BYTES {
        number = number * 256 + u64::from(byte_at(bytes, place));
    }
    number
}

// The byte at a place, and 0 after the end.
fn byte_at(bytes: &[u8], place: usize) -> u8
    ensures { result ≡ slice_index_or bytes.now place 0 }
{
    if place < bytes.len() { bytes[place] } else { 0 }
}
