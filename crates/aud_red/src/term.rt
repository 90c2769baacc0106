// The terms of a selection's text.
ghost use Rattle.std.specs.Prelude.{◌≡◌, nat_le};
ghost use Rattle.std.specs.List.{list_any, list_all, count_by};
ghost use Rattle.std.specs.Option.{option_copied};
ghost use Rattle.fs_path.specs.Split.{pieces};
ghost use Rattle.lab_text.specs.Text.{is_label_text};
ghost use Rattle.aud_red.specs.Select.{all_kinds, value_of, process_number, is_process_text, has_form, is_term_of, are_terms, value_in};

use fs_path::{first_piece, numeral, split_once};
use kern_model::limits::MAX_PROCS;
use lab_text::{LabelError, Policy, mac_from_text};

/// A kind of terms.
#[derive(Clone, Copy, Debug, PartialEq, Eq)]
pub enum TermKind {
    /// `pid=`: the process.
    Pid,
    /// `label=`: a label.
    Label,
    /// `event=`: the kind of a record.
    Event,
    /// `cap=`: a capability.
    Cap,
}

const KINDS: [TermKind; 4] = [
    TermKind::Pid,
    TermKind::Label,
    TermKind::Event,
    TermKind::Cap,
];

impl TermKind {
    // The text after the keyword and `=`, in a term of this kind.
    fn value_of(self, term: &[u8]) -> Option<&[u8]>
        ensures { option_copied result ≡ value_of self term.now }
    {
        match self {
            TermKind::Pid => term.strip_prefix(b"pid="),
            TermKind::Label => term.strip_prefix(b"label="),
            TermKind::Event => term.strip_prefix(b"event="),
            TermKind::Cap => term.strip_prefix(b"cap="),
        }
    }

    // Whether a value has the form of one of this kind.
    fn has_form(self, policy: &Policy, value: &[u8]) -> bool
        ensures { result ≡ has_form self value.now }
    {
        match self {
            TermKind::Pid => is_process_text(policy, value),
            TermKind::Label => is_label_text(policy, value),
            TermKind::Event | TermKind::Cap => true,
        }
    }

    // Whether a text is a term of this kind.
    fn is_of(self, policy: &Policy, term: &[u8]) -> bool
        ensures { result ≡ is_term_of self term.now }
    {
        match self.value_of(term) {
            Some(value) => self.has_form(policy, value),
            None => false,
        }
    }

    // How many of the terms in a text are of this kind.
    fn count_in(self, policy: &Policy, text: &[u8]) -> usize
        ensures { result ≡ count_by (is_term_of self) (pieces 59 text.now) }
    {
        text.split(|byte| *byte == b';')
            .filter(|term| self.is_of(policy, term))
            .count()
    }

    /// The value of the term of this kind in a text, if there is one.
    pub fn value_in(self, text: &[u8]) -> Option<&[u8]>
        ensures { option_copied result ≡ value_in self (pieces 59 text.now) }
    {
        let mut left = Some(text);
        while let Some(terms) = left {
            let (term, more) = first_piece(terms, b';');
            if let Some(value) = self.value_of(term) {
                return Some(value);
            }
            left = more;
        }
        None
    }
}

/// The number of a process.
pub fn process_number(word: &[u8]) -> Option<u16>
    ensures { result ≡ process_number word.now }
{
    let n = numeral(word, 10, 10, 1, MAX_PROCS as u64)?;
    Some(n as u16)
}

// Whether a text has the form of a label's.
#[tactic(auto, using(crate::proofs::TermLemmas::form_of_label, crate::proofs::TermLemmas::form_of_unknown))]
fn is_label_text(policy: &Policy, text: &[u8]) -> bool
    ensures { result ≡ is_label_text text.now }
{
    match mac_from_text(policy, text) {
        Ok(_) => true,
        Err(LabelError::Syntax(_)) => false,
        Err(_) => true,
    }
}

// Whether a text is the number of a process, `@` and a text with the form of a label's.
fn is_process_text(policy: &Policy, text: &[u8]) -> bool
    ensures { result ≡ is_process_text text.now }
{
    match split_once(text, b'@') {
        Some((number, label)) => {
            process_number(number).is_some() && is_label_text(policy, label)
        }
        None => false,
    }
}

// Whether a text is a term.
fn is_term(policy: &Policy, term: &[u8]) -> bool
    ensures { result ≡ list_any (λ kind. is_term_of kind term.now) all_kinds }
{
    KINDS.iter().any(|kind| kind.is_of(policy, term))
}

// Whether each piece of a text is a term.
fn each_is_term(policy: &Policy, text: &[u8]) -> bool
    ensures { result ≡ list_all (λ term. list_any (λ kind. is_term_of kind term) all_kinds) (pieces 59 text.now) }
{
    text.split(|byte| *byte == b';')
        .all(|term| is_term(policy, term))
}

// Whether no kind of terms stands twice in a text.
fn kinds_are_single(policy: &Policy, text: &[u8]) -> bool
    ensures { result ≡ list_all (λ kind. nat_le (count_by (is_term_of kind) (pieces 59 text.now)) 1) all_kinds }
{
    KINDS.iter().all(|kind| kind.count_in(policy, text) <= 1)
}

/// Whether a text is terms with `;` between them, and no kind of terms stands twice.
pub fn are_terms(policy: &Policy, text: &[u8]) -> bool
    ensures { result ≡ are_terms (pieces 59 text.now) }
{
    each_is_term(policy, text) && kinds_are_single(policy, text)
}
