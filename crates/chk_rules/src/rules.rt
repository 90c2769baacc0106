// Rules of checks.
ghost use Rattle.std.specs.Prelude.{◌≡◌, ◌≤◌, ◌==◌};
ghost use Rattle.std.specs.List.{list_any};
ghost use Rattle.lab_lattice.specs.Label.{dominates};
ghost use Rattle.kern_model.specs.Rules.{class_shift, is_member, mode_allows as mode_lets, same_label, want_bit};

use kern_model::{Attr, Gid, Ids, Want};
use lab_lattice::{Label, Lattice};

/// The rule of `mac_read`: whether the process's label dominates that of the thing.
pub fn mac_read_ok(process: &Label, thing: &Label) -> bool
    ensures { result ≡ dominates process.now thing.now }
{
    process.dominates(thing)
}

/// The rule of `mac_write`: whether the process's label is that of the thing.
pub fn mac_write_ok(process: &Label, thing: &Label) -> bool
    ensures { result ≡ same_label process.now thing.now }
{
    mac_read_ok(process, thing) && thing.dominates(process)
}

/// The rule of modes: whether the bits of the caller's class allow what is wanted. The owner's bits count for the
/// owner, else the group's for its members, else those of the others.
#[tactic(auto, using(std::proofs::lemmas::Nat::Bits::shr_and_one), unfolding(kern_model::specs::Rules::mode_allows))]
pub fn mode_allows(attr: &Attr, ids: &Ids, want: Want) -> bool
    ensures { result ≡ mode_lets attr.now ids.now want }
{
    (attr.mode >> (shift_of_class(attr, ids) + bit_of(want))) & 1 == 1
}

// The place of the lowest bit of the caller's class.
fn shift_of_class(attr: &Attr, ids: &Ids) -> u16
    ensures shift { result ≡ class_shift attr.now ids.now }
    ensures few { result ≤ 6 }
{
    if ids.euid == attr.owner {
        6
    } else if has_group(ids, attr.group) {
        3
    } else {
        0
    }
}

/// Whether a group is the effective or a supplementary one.
pub fn has_group(ids: &Ids, group: Gid) -> bool
    ensures { result ≡ is_member ids.now group }
{
    ids.egid == group || is_among(group, ids.groups.items())
}

// Whether a group is among these.
fn is_among(group: Gid, groups: &[Gid]) -> bool
    ensures { result ≡ list_any (λ g. g == group) groups.now }
{
    groups.iter().any(|g| *g == group)
}

// The place, within a class, of the bit for what is wanted.
fn bit_of(want: Want) -> u16
    ensures bit { result ≡ want_bit want }
    ensures few { result ≤ 2 }
{
    match want {
        Want::Read => 2,
        Want::Write => 1,
        Want::Execute => 0,
    }
}
