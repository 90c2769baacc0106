// What the head lines of a world say: its format, its names and its bound.
ghost use Rattle.std.specs.Prelude.{◌≡◌, IfOk};
ghost use Rattle.lab_text.specs.Lists.{next_list};
ghost use Rattle.lab_text.specs.Policy.{MakePolicy};
ghost use Rattle.world_text.specs.Head.{after_format, fault_for, due_after, parse_format, parse_names, parse_bound};
ghost use Rattle.world_text.specs.Values.{bytes_in};

use crate::NoMemory;
use crate::builder::WorldBuilder;
use crate::expecting::{Expecting, Parsed, PartialWorld};
use crate::format::Format;
use crate::values::{WordValue, caps_value, syntax, unknown_name};
use cap_clause::set_from_text;
use fs_path::{LineWord, List};
use lab_text::{NameList, Policy, PolicyError, PolicyNames, Word, are_label_names};
use line_text::LineFault;
use std::alloc::Global;

// What comes of a line that names this format, where `due` is due.
fn after_format(alloc: Global, due: Format, format: Format) -> Parsed
    ensures { result ≡ after_format due format }
{
    match (due, format) {
        (Format::One, Format::Two) => syntax(),
        (Format::Two, Format::One) => Parsed::Refuses(LineFault::OldFormat),
        (Format::One, Format::One) | (Format::Two, Format::Two) => {
            let names = PolicyNames::empty(alloc);
            Parsed::GoesOn(Expecting::Names(format, NameList::Levels, names))
        }
    }
}

/// `world FORMAT`, where this format is due.
pub fn parse_format(alloc: Global, due: Format, words: &[LineWord<'_>]) -> Parsed
    ensures { result ≡ parse_format due (bytes_in words.now) }
{
    let [word] = words else {
        return syntax();
    };
    match Format::from_word(word.bytes.items()) {
        Some(format) => after_format(alloc, due, format),
        None => syntax(),
    }
}

fn names_of(alloc: Global, words: &[LineWord<'_>]) -> Result<List<Word>, NoMemory>
    ensures { IfOk result (λ names. names ≡ bytes_in words.now) }
{
    let mut names = List::new(alloc);
    for word in words {
        names.push(Word::new(alloc, word.bytes.items())?)?;
    }
    Ok(names)
}

// The fault of a line whose names make no policy.
fn fault_for(error: PolicyError) -> LineFault
    ensures { result ≡ fault_for error }
{
    match error {
        PolicyError::TooMany => LineFault::TooMany,
        PolicyError::Repeated => LineFault::Repeated,
        _ => LineFault::Syntax,
    }
}

// What is due after names of which these are the last list.
fn due_after(format: Format, list: NameList, names: PolicyNames) -> Expecting
    requires { MakePolicy names }
    ensures { result ≡ due_after format names (next_list list) }
{
    match list.next() {
        Some(NameList::Grades) => Expecting::Grades(format, names.into_policy()),
        Some(next) => Expecting::Names(format, next, names),
        None => Expecting::Bound(format, names.into_policy()),
    }
}

/// The line of a list of names, as `levels NAME NAME ...`, after the names of the lists before it.
pub fn parse_names(
    alloc: Global,
    format: Format,
    list: NameList,
    before: PolicyNames,
    words: &[LineWord<'_>],
) -> Result<Parsed, NoMemory>
    ensures { IfOk result (λ parsed. parsed ≡ parse_names format list before (bytes_in words.now)) }
{
    let names = names_of(alloc, words)?;
    if !are_label_names(names.items()) {
        return Ok(syntax());
    }
    let mut known = before;
    known.put(list, names);
    match known.fault() {
        Some(error) => Ok(Parsed::Refuses(fault_for(error))),
        None => Ok(Parsed::GoesOn(due_after(format, list, known))),
    }
}

/// `bound SET`.
pub fn parse_bound(
    alloc: Global,
    format: Format,
    policy: Policy,
    words: &[LineWord<'_>],
) -> Result<Parsed, NoMemory>
    ensures { IfOk result (λ parsed. parsed ≡ parse_bound format policy (bytes_in words.now)) }
{
    let [word] = words else {
        return Ok(syntax());
    };
    match caps_value(set_from_text(word.bytes.items())) {
        WordValue::Malformed => Ok(syntax()),
        WordValue::UnknownName => Ok(unknown_name()),
        WordValue::Known(bound) => {
            let builder = WorldBuilder::new(alloc)?;
            Ok(Parsed::GoesOn(Expecting::Tree(PartialWorld {
                format,
                policy,
                bound,
                builder,
            })))
        }
    }
}
