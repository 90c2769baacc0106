// The texts that are written.
ghost use Rattle.std.specs.Prelude.{◌≡◌, ◌++◌, ◌∷◌, ◌<◌, true, false, map, OnOk, IfOk, MatchOption, Ok};
ghost use Rattle.std.specs.Bool.{beq};
ghost use Rattle.std.specs.List.{filter, join_with_byte};
ghost use Rattle.cap_bits.specs.Cap.{cap_name, cap_number};
ghost use Rattle.cap_bits.specs.CapSet.{has, no_caps};
ghost use Rattle.cap_bits.specs.State.{has_flag};
ghost use Rattle.cap_clause.specs.Clauses.{all_flags};
ghost use Rattle.cap_clause.specs.Parsed.{parse_caps, parse_set};
ghost use Rattle.cap_clause.specs.Written.{caps_of, list_text, set_text, group_of, flag_byte, group_text, firsts_of, caps_text};

use crate::NoMemory;
use cap_bits::{CAP_COUNT, Cap, CapSet, CapState, Flag};
use std::alloc::Global;

// For how many bytes the text of a state has room from the start.
const USUAL_TEXT: usize = 32;

// Writes the names of capabilities with commas between them.
fn put_names(text: &mut Vec<u8>, caps: &CapSet) -> Result<(), NoMemory>
    ensures { OnOk result (text.new.items ≡ text.old.items ++ join_with_byte 44 (map cap_name (caps_of caps.now))) }
{
    let mut left = *caps;
    let mut mark: &[u8] = b"";
    let mut number = 0;
    while let Some(cap) = Cap::from_number(number) {
        if left == CapSet::none() {
            return Ok(());
        }
        if left.has(cap) {
            text.extend_from_slice(mark)?;
            text.extend_from_slice(cap.name())?;
            left = left.without(cap);
            mark = b",";
        }
        number += 1;
    }
    Ok(())
}

// Writes capabilities as a list.
#[tactic(auto, unfolding(crate::specs::Written::list_text))]
fn put_list(text: &mut Vec<u8>, caps: &CapSet) -> Result<(), NoMemory>
    ensures { OnOk result (text.new.items ≡ text.old.items ++ list_text caps.now) }
{
    if *caps == CapSet::all() {
        return text.extend_from_slice(b"all");
    }
    put_names(text, caps)
}

// Writes a set.
#[tactic(auto, unfolding(crate::specs::Written::set_text))]
fn put_set(text: &mut Vec<u8>, set: &CapSet) -> Result<(), NoMemory>
    ensures { OnOk result (text.new.items ≡ text.old.items ++ set_text set.now) }
{
    if *set == CapSet::none() {
        return text.extend_from_slice(b"none");
    }
    put_list(text, set)
}

/// The canonical text of a set.
pub fn set_to_text(alloc: Global, set: &CapSet) -> Result<Vec<u8>, NoMemory>
    ensures text { IfOk result (λ text. text.items ≡ set_text set.now) }
    ensures round_trip { IfOk result (λ text. parse_set text.items ≡ Ok set.now) }
{
    let mut text = Vec::new(alloc);
    put_set(&mut text, set)?;
    Ok(text)
}

// The byte of a flag.
fn flag_byte(flag: Flag) -> u8
    ensures { result ≡ flag_byte flag }
{
    match flag {
        Flag::Effective => b'e',
        Flag::Inheritable => b'i',
        Flag::Permitted => b'p',
    }
}

// Writes the flags of a capability.
fn put_flags(text: &mut Vec<u8>, state: &CapState, cap: Cap) -> Result<(), NoMemory>
    ensures { OnOk result (text.new.items ≡ text.old.items ++ map flag_byte (filter (has_flag state.now cap) all_flags)) }
{
    for flag in [Flag::Effective, Flag::Inheritable, Flag::Permitted] {
        if state.get_flag(cap, flag) {
            text.push(flag_byte(flag))?;
        }
    }
    Ok(())
}

// The capabilities that are in a set where this one is, or else those that are not.
fn alike(set: CapSet, cap: Cap) -> CapSet
    ensures { (q : Cap) → has result q ≡ beq (has set cap) (has set q) }
{
    if set.has(cap) {
        set
    } else {
        CapSet::all().minus(set)
    }
}

// The capabilities with the flags of this one.
fn group_of(state: &CapState, cap: Cap) -> CapSet
    ensures { result ≡ group_of state.now cap }
{
    alike(state.e, cap)
        .meet(alike(state.i, cap))
        .meet(alike(state.p, cap))
}

// Writes the clause of a group.
#[tactic(auto, using(std::proofs::Common::append_assoc), unfolding(crate::specs::Written::group_text))]
fn put_group(text: &mut Vec<u8>, state: &CapState, cap: Cap) -> Result<(), NoMemory>
    ensures { OnOk result (text.new.items ≡ text.old.items ++ group_text state.now cap) }
{
    put_list(text, &group_of(state, cap))?;
    text.push(b'=')?;
    put_flags(text, state, cap)
}

// The capability with the lowest number in a set.
fn first_of(caps: &CapSet) -> Option<Cap>
    ensures { MatchOption result (caps.now ≡ no_caps) (λ cap. (has caps.now cap ≡ true) × ((q : Cap) → cap_number q < cap_number cap → has caps.now q ≡ false)) }
{
    if *caps == CapSet::none() {
        return None;
    }
    (0..CAP_COUNT as u8)
        .filter_map(Cap::from_number)
        .find(|cap| caps.has(*cap))
}

// Writes the clauses of all groups with spaces between them.
fn put_groups(text: &mut Vec<u8>, state: &CapState) -> Result<(), NoMemory>
    ensures { OnOk result (text.new.items ≡ text.old.items ++ join_with_byte 32 (map (group_text state.now) (firsts_of state.now))) }
{
    let mut left = state.e.union(state.i).union(state.p);
    let mut mark: &[u8] = b"";
    while let Some(cap) = first_of(&left) {
        text.extend_from_slice(mark)?;
        put_group(text, state, cap)?;
        left = left.minus(group_of(state, cap));
        mark = b" ";
    }
    Ok(())
}

/// Appends the canonical text of a state.
#[tactic(auto, using(crate::proofs::WriteLemmas::none_written, crate::proofs::WriteLemmas::some_written))]
pub fn put_caps(text: &mut Vec<u8>, state: &CapState) -> Result<(), NoMemory>
    ensures { OnOk result (text.new.items ≡ text.old.items ++ caps_text state.now) }
{
    let start = text.len();
    put_groups(text, state)?;
    if text.len() == start {
        text.push(b'=')?;
    }
    Ok(())
}

/// The canonical text of a state.
pub fn cap_to_text(alloc: Global, state: &CapState) -> Result<Vec<u8>, NoMemory>
    ensures text { IfOk result (λ text. text.items ≡ caps_text state.now) }
    ensures round_trip { IfOk result (λ text. parse_caps text.items ≡ Ok state.now) }
{
    let mut text = Vec::with_capacity(alloc, USUAL_TEXT)?;
    put_caps(&mut text, state)?;
    Ok(text)
}
