// What no clause says: what each call's line looks like, and a table of faults. The cases have the replies.
mod calls;
mod faults;
mod steps;

use lab_text::{Policy, PolicyError, Word};
use script_text::NoMemory;
use std::alloc::Global;

fn words(alloc: Global, text: &[u8]) -> Result<Vec<Word>, NoMemory> {
    let mut words = Vec::new(alloc);
    for word in text.split(|byte| *byte == b' ') {
        words.push(Word::new(alloc, word)?)?;
    }
    Ok(words)
}

fn policy_of(alloc: Global, levels: &[u8], cats: &[u8]) -> Result<Policy, PolicyError> {
    let levels = words(alloc, levels).map_err(PolicyError::NoMemory)?;
    let cats = words(alloc, cats).map_err(PolicyError::NoMemory)?;
    Policy::new(alloc, &levels, &cats, &[])
}

// Three levels and two categories.
fn small_policy(alloc: Global) -> Result<Policy, PolicyError> {
    policy_of(alloc, b"unc conf sec", b"a b")
}
