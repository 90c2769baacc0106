// Actions: operators and flags.
ghost use Rattle.std.specs.Prelude.{◌≡◌, ◌==◌, ◌&&◌, ◌+◌, ◌<◌, ◌≤◌, ◌^◌, length, drop, filter_map, IfSome};
ghost use Rattle.std.specs.Option.{option_map};
ghost use Rattle.std.specs.List.{prefix_len};
ghost use Rattle.cap_clause.specs.Clauses.{operator_of, flag_of, is_flag, put_caps, put_flag, put_flags, after_operator, first_operator, needs_flag};
ghost use Rattle.cap_clause.specs.Reading.{parse_actions};

use crate::CapTextError;
use cap_bits::{CapSet, CapState, Flag};

/// What an action does with its flags.
#[derive(Clone, Copy)]
pub enum Operator {
    /// Lowers all flags, and raises these.
    Assign,
    /// Raises them.
    Raise,
    /// Lowers them.
    Lower,
}

impl Operator {
    // Whether it needs a flag and has none.
    fn lacks_flag(self, flags: &[u8]) -> bool
        ensures { result ≡ (needs_flag self && length flags.now == 0) }
    {
        match self {
            Operator::Assign => false,
            Operator::Raise | Operator::Lower => flags.is_empty(),
        }
    }
}

// The operator that a byte is.
pub fn operator_of(byte: u8) -> Option<Operator>
    ensures { result ≡ operator_of byte }
{
    match byte {
        b'=' => Some(Operator::Assign),
        b'+' => Some(Operator::Raise),
        b'-' => Some(Operator::Lower),
        _ => None,
    }
}

// The flag that a byte is.
fn flag_of(byte: u8) -> Option<Flag>
    ensures { result ≡ flag_of byte }
{
    match byte {
        b'e' => Some(Flag::Effective),
        b'i' => Some(Flag::Inheritable),
        b'p' => Some(Flag::Permitted),
        _ => None,
    }
}

// How many flags a text begins with.
fn flags_len(text: &[u8]) -> usize
    ensures count { result ≡ prefix_len is_flag text.now }
    ensures within { result ≤ length text.now }
{
    text.iter()
        .take_while(|byte| flag_of(**byte).is_some())
        .count()
}

// A set with capabilities, or without them.
fn put_caps(set: CapSet, caps: CapSet, there: bool) -> CapSet
    ensures { result ≡ put_caps set caps there }
{
    if there {
        set.union(caps)
    } else {
        set.minus(caps)
    }
}

// A state in which a flag of capabilities is raised or lowered.
fn put_flag(state: CapState, caps: CapSet, flag: Flag, raised: bool) -> CapState
    ensures { result ≡ put_flag caps raised state flag }
{
    match flag {
        Flag::Effective => CapState {
            e: put_caps(state.e, caps, raised),
            ..state
        },
        Flag::Inheritable => CapState {
            i: put_caps(state.i, caps, raised),
            ..state
        },
        Flag::Permitted => CapState {
            p: put_caps(state.p, caps, raised),
            ..state
        },
    }
}

// A state in which flags of capabilities are raised or lowered.
fn put_flags(mut state: CapState, caps: CapSet, flags: &[u8], raised: bool) -> CapState
    ensures { result ≡ put_flags caps raised (filter_map flag_of flags.now) state }
{
    for byte in flags {
        if let Some(flag) = flag_of(*byte) {
            state = put_flag(state, caps, flag, raised);
        }
    }
    state
}

// The state after an operator with flags.
fn operate(state: CapState, caps: CapSet, operator: Operator, flags: &[u8]) -> CapState
    ensures { result ≡ after_operator caps operator (filter_map flag_of flags.now) state }
{
    match operator {
        Operator::Assign => {
            let lowered = put_flags(state, caps, b"eip", false);
            put_flags(lowered, caps, flags, true)
        }
        Operator::Raise => put_flags(state, caps, flags, true),
        Operator::Lower => put_flags(state, caps, flags, false),
    }
}

// The operator that begins a text, and the text after it.
pub fn first_operator(text: &[u8]) -> Option<(Operator, &[u8])>
    ensures first { option_map (λ found. found.0) result ≡ first_operator text.now }
    ensures after { IfSome result (λ found. found.1.now ≡ drop 1 text.now) }
    ensures fewer { IfSome result (λ found. length found.1.now + 1 ≡ length text.now) }
{
    let [first, after @ ..] = text else {
        return None;
    };
    Some((operator_of(*first)?, after))
}

// The state after actions, of which the first begins at `start`.
pub fn read_actions(
    start: usize,
    caps: CapSet,
    actions: &[u8],
    state: CapState,
) -> Result<CapState, CapTextError>
    requires { start + length actions.now < 2 ^ 64 }
    ensures { result ≡ parse_actions start caps actions.now state }
{
    let mut state = state;
    let mut at = start;
    let mut left = actions;
    loop {
        let Some((operator, after)) = first_operator(left) else {
            return Err(CapTextError::NoOperator(at));
        };
        let (flags, rest) = after.split_at(flags_len(after));
        if operator.lacks_flag(flags) {
            return Err(CapTextError::NoFlag(at + 1));
        }
        state = operate(state, caps, operator, flags);
        if rest.is_empty() {
            return Ok(state);
        }
        at += flags.len() + 1;
        left = rest;
    }
}
