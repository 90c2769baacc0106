// The texts of labels.
ghost use Rattle.std.specs.Prelude.{◌≡◌, ◌↔◌, ◌+◌, ◌++◌, ◌<◌, ◌^◌, true, get_or, [], IfOk, IfErr, IfSome, OnOk, Some, None};
ghost use Rattle.std.specs.FinSet as set;
ghost use Rattle.std.specs.Option.{option_copied, option_map, option_to_list};
ghost use Rattle.fs_path.specs.Split.{pieces_of_rest, bytes_from};
ghost use Rattle.lab_text.specs.Names.{place_of};
ghost use Rattle.lab_text.specs.Policy.{is_valid};
ghost use Rattle.lab_text.specs.Text.{places_of, grade_named, first_unknown, parse_label, SaysNone, names_in, past_mark, grade_name, written_grade, past_slash, label_text};

use crate::policy::MAX_GRADES;
use crate::scan::syntax_fault;
use crate::{NoMemory, Policy};
use fs_path::first_piece;
use lab_lattice::{Cats, Dual, Grade, Label, Lattice, Pair};
use std::alloc::Global;

// The number of the highest grade, which is not written.
const HIGHEST_GRADE: u8 = 15;

/// Why a text denotes no label. Places are bytes, counted from 0.
#[derive(Clone, Copy, Debug, PartialEq, Eq)]
pub enum LabelError {
    /// The text is no name, followed by `:` and names with commas between them or by nothing, and then by `/` and a name or by
    /// nothing. This is the first place at which no such text goes on as it does, or its length where it ends too early.
    Syntax(usize),
    /// The name of the level, which begins at this place, is not in the policy.
    UnknownLevel(usize),
    /// The name of a category, which begins at this place, is not in the policy; it is the first such name.
    UnknownCategory(usize),
    /// The name of the grade, which begins at this place, is not in the policy.
    UnknownGrade(usize),
}

// The categories in a comma list that begins at `start`, if there is one, or the first name that is not in the policy.
fn cats_named(policy: &Policy, list: Option<&[u8]>, start: usize) -> Result<Cats, LabelError>
    requires { start + bytes_from (option_copied list) < 2 ^ 64 }
    ensures cats { IfOk result (λ cats. option_map set.from_list (places_of policy.now.cats (pieces_of_rest 44 (option_copied list.entry))) ≡ Some cats) }
    ensures unknown { IfErr result (λ e. option_map LabelError.UnknownCategory (first_unknown policy.now.cats start (pieces_of_rest 44 (option_copied list.entry))) ≡ Some e) }
{
    let mut cats = Cats::empty();
    let mut at = start;
    let mut rest = list;
    while let Some(text) = rest {
        let (name, more) = first_piece(text, b',');
        let Some(cat) = policy.cat_named(name) else {
            return Err(LabelError::UnknownCategory(at));
        };
        cats = cats.lub(&cat);
        at += name.len() + 1;
        rest = more;
    }
    Ok(cats)
}

// The grade of a name that begins at `at`, and the highest where there is no name.
fn grade_named(policy: &Policy, name: Option<&[u8]>, at: usize) -> Result<Grade, LabelError>
    ensures grade { IfOk result (λ grade. grade_named policy.now.grades (option_copied name.entry) ≡ Some grade) }
    ensures unknown { IfErr result (λ e. option_map LabelError.UnknownGrade (first_unknown policy.now.grades at (option_to_list (option_copied name.entry))) ≡ Some e) }
{
    let Some(name) = name else {
        return Ok(Grade::highest());
    };
    policy.grade_named(name).ok_or(LabelError::UnknownGrade(at))
}

// The label of a level alone, where the text is the level's name.
fn level_alone(policy: &Policy, text: &[u8]) -> Option<Label>
    ensures label { IfSome result (λ label. parse_label policy.now text.now ≡ Some label) }
    ensures none { (result ≡ None) ↔ (place_of policy.now.levels text.now ≡ None) }
{
    let level = policy.level_named(text)?;
    Some(Pair {
        first: Pair {
            first: level,
            second: Cats::empty(),
        },
        second: Dual {
            inner: Grade::highest(),
        },
    })
}

/// The label that a text denotes. A fault of its form comes before an unknown name.
pub fn mac_from_text(policy: &Policy, text: &[u8]) -> Result<Label, LabelError>
    ensures parsed { IfOk result (λ label. parse_label policy.now text.now ≡ Some label) }
    ensures valid { IfOk result (λ label. is_valid policy.now label ≡ true) }
    ensures cause { IfErr result (SaysNone policy.now text.now) }
    ensures none { IfErr result (λ _. parse_label policy.now text.now ≡ None) }
{
    if let Some(label) = level_alone(policy, text) {
        return Ok(label);
    }
    if let Some(at) = syntax_fault(text) {
        return Err(LabelError::Syntax(at));
    }
    let (before, grade) = first_piece(text, b'/');
    let (level, list) = first_piece(before, b':');
    let Some(first) = policy.level_named(level) else {
        return Err(LabelError::UnknownLevel(0));
    };
    let second = cats_named(policy, list, level.len() + 1)?;
    let inner = grade_named(policy, grade, before.len() + 1)?;
    Ok(Pair {
        first: Pair { first, second },
        second: Dual { inner },
    })
}

// The name of a label's level, or no bytes where the policy has none.
fn level_name<'a>(policy: &'a Policy, label: &Label) -> &'a [u8]
    ensures { result.now ≡ get_or policy.now.levels label.now.first.first [] }
{
    match policy.levels().get(usize::from(label.first.first.number())) {
        Some(name) => name.bytes(),
        None => &[],
    }
}

// The name of a grade, or no bytes where the policy has none.
fn grade_name<'a>(policy: &'a Policy, grade: &Grade) -> &'a [u8]
    ensures { result.now ≡ grade_name policy.now.grades grade.now }
{
    let names = policy.grades();
    let place = usize::from(grade.number()) + names.len();
    if place < MAX_GRADES {
        return &[];
    }
    match names.get(place - MAX_GRADES) {
        Some(name) => name.bytes(),
        None => &[],
    }
}

// Writes the names of categories after marks, in the policy's order.
#[inline(always)]
fn put_cats(text: &mut Vec<u8>, policy: &Policy, cats: &Cats) -> Result<(), NoMemory>
    ensures { OnOk result (text.new.items ≡ text.old.items ++ past_mark 58 (names_in cats.now 0 policy.now.cats)) }
{
    if Cats::empty().dominates(cats) {
        return Ok(());
    }
    let mut mark = b':';
    for (place, name) in policy.cats().iter().enumerate() {
        if cats.has(place as u8) {
            text.push(mark)?;
            text.extend_from_slice(name.bytes())?;
            mark = b',';
        }
    }
    Ok(())
}

// Writes a slash and the name of a grade, or nothing for the highest grade.
#[inline(always)]
fn put_grade(text: &mut Vec<u8>, policy: &Policy, grade: &Grade) -> Result<(), NoMemory>
    ensures { OnOk result (text.new.items ≡ text.old.items ++ past_slash (written_grade policy.now.grades grade.now)) }
{
    if grade.number() == HIGHEST_GRADE {
        return Ok(());
    }
    text.push(b'/')?;
    text.extend_from_slice(grade_name(policy, grade))
}

/// Writes a label: each of its categories once, in the policy's order, and its grade where it is not the highest. Of a label that
/// is not valid in the policy only the names that the policy has are written.
#[inline(always)]
pub fn put_label(text: &mut Vec<u8>, policy: &Policy, label: &Label) -> Result<(), NoMemory>
    ensures { OnOk result (text.new.items ≡ text.old.items ++ label_text policy.now label.now) }
{
    text.extend_from_slice(level_name(policy, label))?;
    put_cats(text, policy, &label.first.second)?;
    put_grade(text, policy, &label.second.inner)
}

/// The text of a label, as `put_label` writes it.
pub fn mac_to_text(alloc: Global, policy: &Policy, label: &Label) -> Result<Vec<u8>, NoMemory>
    ensures text { IfOk result (λ text. text.items ≡ label_text policy.now label.now) }
    ensures round_trip { IfOk result (λ text. is_valid policy.now label.now ≡ true → parse_label policy.now text.items ≡ Some label.now) }
{
    // Its names make a policy, which the clause `round_trip` needs.
    let _names = policy.levels();
    let mut text = Vec::new(alloc);
    put_label(&mut text, policy, label)?;
    Ok(text)
}
