// Clauses, and the texts of states.
ghost use Rattle.std.specs.Prelude.{◌≡◌, ◌+◌, ◌<◌, ◌≤◌, ◌^◌, length, drop};
ghost use Rattle.std.specs.List.{position_or_len, prefix_len};
ghost use Rattle.cap_clause.specs.Clauses.{is_blank, is_operator, first_operator};
ghost use Rattle.cap_clause.specs.Reading.{parse_prefix, parse_clause};
ghost use Rattle.cap_clause.specs.Parsed.{parse_caps};

use crate::CapTextError;
use crate::action::{Operator, first_operator, operator_of, read_actions};
use crate::list::caps_listed;
use cap_bits::{CapSet, CapState};

// Whether a byte separates clauses.
fn is_blank(byte: u8) -> bool
    ensures { result ≡ is_blank byte }
{
    byte == b' ' || byte == b'\t'
}

// How many blanks a text begins with.
fn blanks_len(text: &[u8]) -> usize
    ensures count { result ≡ prefix_len is_blank text.now }
    ensures within { result ≤ length text.now }
{
    text.iter().take_while(|byte| is_blank(**byte)).count()
}

// A text without the blanks that begin it.
fn trim_blanks(text: &[u8]) -> &[u8]
    ensures { result.now ≡ drop (prefix_len is_blank text.now) text.now }
{
    &text[blanks_len(text)..]
}

// How many bytes come before the first blank.
fn clause_len(text: &[u8]) -> usize
    ensures count { result ≡ position_or_len is_blank text.now }
    ensures within { result ≤ length text.now }
{
    text.iter().take_while(|byte| !is_blank(**byte)).count()
}

// How many bytes come before the first operator.
fn list_len(clause: &[u8]) -> usize
    ensures count { result ≡ position_or_len is_operator clause.now }
    ensures within { result ≤ length clause.now }
{
    clause
        .iter()
        .take_while(|byte| operator_of(**byte).is_none())
        .count()
}

// The capabilities of a clause that begins at `at`: those in its list, or all where it begins with `=`.
fn clause_caps(at: usize, clause: &[u8], list: &[u8]) -> Result<CapSet, CapTextError>
    requires { at + length list.now + 1 < 2 ^ 64 }
    ensures { result ≡ parse_prefix at list.now (first_operator clause.now) }
{
    let Some((operator, _)) = first_operator(clause) else {
        return caps_listed(at, list);
    };
    match operator {
        Operator::Assign => Ok(CapSet::all()),
        Operator::Raise | Operator::Lower => Err(CapTextError::NoNames(at)),
    }
}

// The state after a clause that begins at `at`.
fn read_clause(at: usize, clause: &[u8], state: CapState) -> Result<CapState, CapTextError>
    requires { at + length clause.now + 1 < 2 ^ 64 }
    ensures { result ≡ parse_clause state (record { at = at; bytes = clause.now }) }
{
    let (list, actions) = clause.split_at(list_len(clause));
    let caps = clause_caps(at, clause, list)?;
    read_actions(at + list.len(), caps, actions, state)
}

/// The state that a text denotes: the state after its clauses, one after another, where at first no set has a capability.
/// It allocates no memory.
pub fn cap_from_text(text: &[u8]) -> Result<CapState, CapTextError>
    ensures parsed { result ≡ parse_caps text.now }
{
    let mut left = trim_blanks(text);
    if left.is_empty() {
        return Err(CapTextError::Empty);
    }
    let mut state = CapState::none();
    while !left.is_empty() {
        let at = text.len() - left.len();
        let (clause, rest) = left.split_at(clause_len(left));
        state = read_clause(at, clause, state)?;
        left = trim_blanks(rest);
    }
    Ok(state)
}
