// Values of words with names in them, and the refusal of those that have none.
ghost use Rattle.std.specs.Prelude.{◌≡◌};
ghost use Rattle.world_text.specs.Values.{caps_value, caps_of, label_of, both};

use crate::expecting::Parsed;
use cap_bits::CapState;
use cap_clause::{CapTextError, cap_from_text};
use lab_lattice::Label;
use lab_text::{LabelError, Policy, mac_from_text};
use line_text::LineFault;

/// A line that has not the form that is due.
pub fn syntax() -> Parsed
    ensures { result ≡ Parsed.Refuses LineFault.Syntax }
{
    Parsed::Refuses(LineFault::Syntax)
}

/// A line that names what is unknown.
pub fn unknown_name() -> Parsed
    ensures { result ≡ Parsed.Refuses LineFault.UnknownName }
{
    Parsed::Refuses(LineFault::UnknownName)
}

/// What a word with names in it says.
#[derive(Clone, Copy)]
pub enum WordValue<T> {
    /// It has not the form that is due.
    Malformed,
    /// It has the form, but a name in it is unknown.
    UnknownName,
    /// It stands for this value.
    Known(T),
}

/// What a capability text says. Its first fault decides.
pub fn caps_value<T: Copy>(parsed: Result<T, CapTextError>) -> WordValue<T>
    ensures { result ≡ caps_value parsed }
{
    match parsed {
        Ok(value) => WordValue::Known(value),
        Err(CapTextError::UnknownName(_)) => WordValue::UnknownName,
        Err(_) => WordValue::Malformed,
    }
}

/// The state of a capability text.
pub fn caps_of(word: &[u8]) -> WordValue<CapState>
    ensures { result ≡ caps_of word.now }
{
    caps_value(cap_from_text(word))
}

/// The label of a label's text.
pub fn label_of(policy: &Policy, word: &[u8]) -> WordValue<Label>
    ensures { result ≡ label_of policy.now word.now }
{
    match mac_from_text(policy, word) {
        Ok(label) => WordValue::Known(label),
        Err(LabelError::Syntax(_)) => WordValue::Malformed,
        Err(_) => WordValue::UnknownName,
    }
}

/// Two values. The form of both words counts before the names in either.
pub fn both<A: Copy, B: Copy>(a: WordValue<A>, b: WordValue<B>) -> WordValue<(A, B)>
    ensures { result ≡ both a b }
{
    match (a, b) {
        (WordValue::Malformed, _) | (_, WordValue::Malformed) => WordValue::Malformed,
        (WordValue::Known(a), WordValue::Known(b)) => WordValue::Known((a, b)),
        _ => WordValue::UnknownName,
    }
}
