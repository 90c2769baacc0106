// Names of entries.
ghost use Rattle.std.specs.Prelude.{◌≡◌, ◌≤◌, ◌+◌, ◌==◌, IfOk, MatchOption, false, true, length};
ghost use Rattle.std.specs.List.{list_all};
ghost use Rattle.std.proofs.Common.{rules};
ghost use Rattle.std.specs.Cmp.{partial_order_from_own_ties};
ghost use Rattle.std.specs.Cmp.Rules.{comparing};
ghost use Rattle.std.specs.Cmp.Lexicographic.{slice_cmp, pointwise};
ghost use Rattle.std.specs.Ordering.{nat_cmp, on, as_partial_cmp};
ghost use Rattle.fs_path.specs.Name.{is_name, is_name_byte, is_dots};

use crate::{NoMemory, Steps};
use smallvec::SmallVec;
use std::alloc::Global;
use std::cmp::Ordering;
use std::marker::Model;
use std::sync::ledger::Ledger;

/// The most bytes that a name has.
pub(crate) const MAX_NAME: usize = 63;

// The most bytes of a name that takes no memory of its own.
const SHORT_NAME: usize = 16;

/// The name of an entry in a directory: 1 to 63 bytes, none of them 0 or `/`, and neither `.` nor `..`.
/// It is seen as its bytes, and names are ordered as these are.
#[derive(Debug)]
pub struct Name {
    kept: SmallVec<u8, SHORT_NAME>,
}

impl Model for Name {
    ghost use Rattle.std.specs.Prelude.{List, ℕ, ◌≡◌, true};
    ghost use Rattle.fs_path.specs.Name.{is_name};

    ghost Value = { List ℕ };

    ghost view = { λ n. n.kept.items };

    ghost invariant = { λ n. is_name n.kept.items ≡ true };
}

// Written out, so that a drop is one call, whether or not the bytes have memory of their own.
impl Drop for Name {
    fn drop(self) {
        let Name { kept: _ } = self;
    }
}

// Whether bytes are `.` or `..`.
fn are_dots(bytes: &[u8]) -> bool
    ensures { result ≡ is_dots bytes.now }
{
    match bytes {
        [a] => *a == b'.',
        [a, b] => *a == b'.' && *b == b'.',
        _ => false,
    }
}

// Whether a name may have each of these bytes.
fn are_name_bytes(bytes: &[u8]) -> bool
    ensures { result ≡ list_all is_name_byte bytes.now }
{
    bytes.iter().all(|b| *b != 0 && *b != b'/')
}

// Whether a name may have these bytes.
#[tactic(auto, using(std::proofs::lemmas::Bool::Decides::nat_tests), unfolding(crate::specs::Name::is_name))]
fn may_be_name(bytes: &[u8]) -> bool
    ensures { result ≡ is_name bytes.now }
{
    if bytes.is_empty() || bytes.len() > MAX_NAME {
        return false;
    }
    are_name_bytes(bytes) && !are_dots(bytes)
}

impl Name {
    // The name with these bytes, which must be one.
    pub(crate) fn of(alloc: Global, bytes: &[u8]) -> Result<Name, NoMemory>
        requires { is_name bytes.now ≡ true }
        ensures { IfOk result (λ name. name ≡ bytes.now) }
    {
        let kept = SmallVec::from_slice(alloc, bytes)?;
        Ok(Name { kept })
    }

    /// The name with these bytes, or `None` where they are no name.
    pub fn read(alloc: Global, bytes: &[u8]) -> Result<Option<Name>, NoMemory>
        ensures { IfOk result (λ name. MatchOption name (is_name bytes.now ≡ false) (λ name. (name ≡ bytes.now) × (is_name bytes.now ≡ true))) }
    {
        if !may_be_name(bytes) {
            return Ok(None);
        }
        Ok(Some(Name::of(alloc, bytes)?))
    }

    /// Its bytes.
    pub fn bytes(&self) -> &[u8]
        ensures bytes { result.now ≡ self.now }
        ensures name { is_name result.now ≡ true }
        ensures short { length result.now ≤ 63 }
    {
        self.kept.as_slice()
    }

    /// The order of two names, by their bytes. It counts as one comparison.
    pub fn compare<L: Ledger>(&self, other: &Name, steps: &mut Steps<L>) -> Ordering
        ensures order { result ≡ slice_cmp nat_cmp self.now other.now }
        ensures counted { steps.new ≡ steps.old + 1 }
    {
        steps.compare(self, other)
    }

    /// A copy of the name.
    pub fn copy(&self) -> Result<Name, NoMemory>
        ensures { IfOk result (λ name. name ≡ self.now) }
    {
        Name::of(*self.kept.allocator(), self.bytes())
    }
}

impl PartialEq for Name {
    ghost eq = { on (λ n. n) (pointwise ◌==◌) };

    ghost laws = { Prim.search (comparing, rules) };

    fn eq(&self, other: &Name) -> bool {
        self.bytes() == other.bytes()
    }
}

impl Eq for Name {
    ghost laws = { Prim.search (comparing, rules) };
}

impl PartialOrd for Name {
    ghost partial_cmp = { as_partial_cmp (on (λ n. n) (slice_cmp nat_cmp)) };

    ghost laws = { partial_order_from_own_ties (Prim.search (comparing, rules)) (Prim.search (comparing, rules)) };

    fn partial_cmp(&self, other: &Name) -> Option<Ordering> {
        Some(self.cmp(other))
    }
}

impl Ord for Name {
    ghost cmp = { on (λ n. n) (slice_cmp nat_cmp) };

    ghost total = { Prim.search (comparing, rules) };

    ghost matches_partial_cmp = { Prim.search (comparing, rules) };

    ghost matches_eq = { Prim.search (comparing, rules) };

    fn cmp(&self, other: &Name) -> Ordering {
        self.bytes().cmp(other.bytes())
    }
}
