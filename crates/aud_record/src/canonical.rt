// The values of single words. Each value has one spelling; where the parser takes others too, the value is written again and
// compared.
ghost use Rattle.std.specs.Prelude.{◌≡◌, ◌^◌, ◌≤◌, IfOk, MatchOption, Some, None};
ghost use Rattle.std.specs.Option.{option_copied};
ghost use Rattle.cap_bits.specs.Cap.{all_caps, cap_name};
ghost use Rattle.kern_model.specs.Named.{find_named};
ghost use Rattle.aud_record.specs.Canonical.{canonical_number, canonical_label, canonical_numbered, canonical_pid, canonical_oid, after_prefix, canonical_thing, label_given, canonical_new_label, canonical_step, canonical_place, bytes_of_quoted, canonical_bytes, canonical_caps};

use crate::NoMemory;
use cap_bits::{Cap, CapState};
use cap_clause::{cap_from_text, cap_to_text};
use fs_path::{ByteList, put_quoted, split_once, words_of};
use kern_model::{Oid, Pid, Place, Thing};
use lab_lattice::Label;
use lab_text::{Policy, mac_from_text, mac_to_text};
use std::alloc::Global;

/// The number of 64 bits with these decimal digits.
pub fn canonical_u64(alloc: Global, word: &[u8]) -> Result<Option<u64>, NoMemory>
    ensures { IfOk result (λ parsed. parsed ≡ canonical_number (2 ^ 64) word.now) }
{
    let Ok(digits) = str::from_utf8(word) else {
        return Ok(None);
    };
    let Ok(number) = digits.parse::<u64>() else {
        return Ok(None);
    };
    let text = number.to_string(alloc)?;
    Ok((text.as_bytes() == word).then_some(number))
}

/// The number of 8 bits with these decimal digits.
pub fn canonical_u8(alloc: Global, word: &[u8]) -> Result<Option<u8>, NoMemory>
    ensures { IfOk result (λ parsed. parsed ≡ canonical_number (2 ^ 8) word.now) }
{
    let Some(number) = canonical_u64(alloc, word)? else {
        return Ok(None);
    };
    Ok(u8::try_from(number).ok())
}

// The number of 16 bits with these decimal digits.
fn canonical_u16(alloc: Global, word: &[u8]) -> Result<Option<u16>, NoMemory>
    ensures { IfOk result (λ parsed. parsed ≡ canonical_number (2 ^ 16) word.now) }
{
    let Some(number) = canonical_u64(alloc, word)? else {
        return Ok(None);
    };
    Ok(u16::try_from(number).ok())
}

/// The valid label with this text.
#[tactic(auto, unfolding(crate::specs::Canonical::canonical_label))]
pub fn canonical_label(
    alloc: Global,
    policy: &Policy,
    word: &[u8],
) -> Result<Option<Label>, NoMemory>
    ensures { IfOk result (λ parsed. parsed ≡ canonical_label policy.now word.now) }
{
    let Ok(label) = mac_from_text(policy, word) else {
        return Ok(None);
    };
    let text = mac_to_text(alloc, policy, &label)?;
    Ok((text.as_slice() == word).then_some(label))
}

// The number and the label in `n@label`.
#[tactic(auto, unfolding(crate::specs::Canonical::canonical_numbered))]
fn canonical_numbered(
    alloc: Global,
    policy: &Policy,
    word: &[u8],
) -> Result<Option<(u16, Label)>, NoMemory>
    ensures { IfOk result (λ parsed. parsed ≡ canonical_numbered policy.now word.now) }
{
    let Some((digits, after)) = split_once(word, b'@') else {
        return Ok(None);
    };
    let Some(n) = canonical_u16(alloc, digits)? else {
        return Ok(None);
    };
    let Some(label) = canonical_label(alloc, policy, after)? else {
        return Ok(None);
    };
    Ok(Some((n, label)))
}

/// The number of a process.
pub fn canonical_pid(alloc: Global, policy: &Policy, word: &[u8]) -> Result<Option<Pid>, NoMemory>
    ensures { IfOk result (λ parsed. parsed ≡ canonical_pid policy.now word.now) }
{
    let parsed = canonical_numbered(alloc, policy, word)?;
    Ok(parsed.map(|(n, label)| Pid { label, n }))
}

/// The number of an object.
pub fn canonical_oid(alloc: Global, policy: &Policy, word: &[u8]) -> Result<Option<Oid>, NoMemory>
    ensures { IfOk result (λ parsed. parsed ≡ canonical_oid policy.now word.now) }
{
    let parsed = canonical_numbered(alloc, policy, word)?;
    Ok(parsed.map(|(n, label)| Oid { label, n }))
}

/// What a check is about.
#[tactic(auto, unfolding(crate::specs::Canonical::canonical_thing))]
pub fn canonical_thing(
    alloc: Global,
    policy: &Policy,
    word: &[u8],
) -> Result<Option<Thing>, NoMemory>
    ensures { IfOk result (λ parsed. parsed ≡ canonical_thing policy.now word.now) }
{
    if let Some(oid) = word.strip_prefix(b"obj:") {
        return Ok(canonical_oid(alloc, policy, oid)?.map(Thing::Object));
    }
    if let Some(pid) = word.strip_prefix(b"proc:") {
        return Ok(canonical_pid(alloc, policy, pid)?.map(Thing::Process));
    }
    Ok(None)
}

/// The new label of a check as a word says it.
#[derive(Clone, Copy)]
pub enum NewLabel {
    /// `-`.
    Absent,
    Given(Label),
}

impl NewLabel {
    /// The new label, if there is one.
    pub fn label(self) -> Option<Label>
        ensures { result ≡ label_given self }
    {
        match self {
            NewLabel::Absent => None,
            NewLabel::Given(label) => Some(label),
        }
    }
}

/// The new label of a check, or `-`.
#[tactic(auto, unfolding(crate::specs::Canonical::canonical_new_label))]
pub fn canonical_new_label(
    alloc: Global,
    policy: &Policy,
    word: &[u8],
) -> Result<Option<NewLabel>, NoMemory>
    ensures { IfOk result (λ parsed. parsed ≡ canonical_new_label policy.now word.now) }
{
    if word == b"-".as_slice() {
        return Ok(Some(NewLabel::Absent));
    }
    Ok(canonical_label(alloc, policy, word)?.map(NewLabel::Given))
}

// The place in a path.
fn canonical_step(alloc: Global, word: &[u8]) -> Result<Option<Place>, NoMemory>
    ensures { IfOk result (λ parsed. parsed ≡ canonical_step word.now) }
{
    match word {
        [b'p', digits @ ..] => Ok(canonical_u8(alloc, digits)?.map(Place::First)),
        [b'q', digits @ ..] => Ok(canonical_u8(alloc, digits)?.map(Place::Second)),
        _ => Ok(None),
    }
}

/// Where the thing of a check stands.
#[tactic(auto, unfolding(crate::specs::Canonical::canonical_place))]
pub fn canonical_place(alloc: Global, word: &[u8]) -> Result<Option<Place>, NoMemory>
    ensures { IfOk result (λ parsed. parsed ≡ canonical_place word.now) }
{
    if word == b"fd".as_slice() {
        return Ok(Some(Place::Handle));
    }
    if word == b"pid".as_slice() {
        return Ok(Some(Place::Target));
    }
    if word == b"self".as_slice() {
        return Ok(Some(Place::Caller));
    }
    canonical_step(alloc, word)
}

// The bytes that a quoted word stands for.
#[tactic(auto, unfolding(crate::specs::Canonical::bytes_of_quoted))]
fn bytes_of_quoted(alloc: Global, word: &[u8]) -> Result<Option<ByteList>, NoMemory>
    ensures { IfOk result (λ parsed. parsed ≡ bytes_of_quoted word.now) }
{
    let Some(words) = words_of(alloc, word)? else {
        return Ok(None);
    };
    match words.items() {
        [only] if only.quoted => Ok(Some(ByteList::from_slice(alloc, only.bytes.items())?)),
        _ => Ok(None),
    }
}

/// The bytes of which a quoted word is the one spelling.
#[tactic(auto, unfolding(crate::specs::Canonical::canonical_bytes))]
pub fn canonical_bytes(alloc: Global, word: &[u8]) -> Result<Option<ByteList>, NoMemory>
    ensures { IfOk result (λ parsed. parsed ≡ canonical_bytes word.now) }
{
    let Some(bytes) = bytes_of_quoted(alloc, word)? else {
        return Ok(None);
    };
    let mut text = Vec::new(alloc);
    put_quoted(&mut text, bytes.items())?;
    Ok((text.as_slice() == word).then_some(bytes))
}

/// The capability state of which a quoted word is the one spelling.
#[tactic(auto, unfolding(crate::specs::Canonical::canonical_caps))]
pub fn canonical_caps(alloc: Global, word: &[u8]) -> Result<Option<CapState>, NoMemory>
    ensures { IfOk result (λ parsed. parsed ≡ canonical_caps word.now) }
{
    let Some(bytes) = bytes_of_quoted(alloc, word)? else {
        return Ok(None);
    };
    let Ok(caps) = cap_from_text(bytes.items()) else {
        return Ok(None);
    };
    let canonical = cap_to_text(alloc, &caps)?;
    let mut text = Vec::new(alloc);
    put_quoted(&mut text, canonical.as_slice())?;
    Ok((text.as_slice() == word).then_some(caps))
}

/// The capability with this name, in lower case alone.
pub fn canonical_cap(word: &[u8]) -> Option<Cap>
    ensures { result ≡ find_named cap_name all_caps word.now }
{
    let cap = Cap::from_name(word)?;
    (word == cap.name()).then_some(cap)
}
