// Lists of capabilities, and the texts of sets.
ghost use Rattle.std.specs.Prelude.{◌≡◌, ◌+◌, ◌<◌, ◌^◌, length};
ghost use Rattle.std.specs.Str.{str_eq_ignore_ascii_case};
ghost use Rattle.cap_clause.specs.Clauses.{caps_named, parse_list};
ghost use Rattle.cap_clause.specs.Parsed.{parse_set};

use crate::CapTextError;
use cap_bits::{Cap, CapSet};
use fs_path::first_piece;

// Whether a word is this one, in any case of its ASCII letters.
fn is_word(own: &[u8], word: &[u8]) -> bool
    ensures { result ≡ str_eq_ignore_ascii_case own.now word.now }
{
    own.eq_ignore_ascii_case(word)
}

// The capabilities that a word names.
#[tactic(auto, unfolding(crate::specs::Clauses::caps_named))]
fn caps_named(word: &[u8]) -> Option<CapSet>
    ensures { result ≡ caps_named word.now }
{
    if is_word(b"all", word) {
        return Some(CapSet::all());
    }
    let cap = Cap::from_name(word)?;
    Some(CapSet::none().with(cap))
}

// The capabilities in a list that begins at a place.
#[tactic(auto, unfolding(crate::specs::Clauses::parse_list))]
pub fn caps_listed(start: usize, list: &[u8]) -> Result<CapSet, CapTextError>
    requires { start + length list.now + 1 < 2 ^ 64 }
    ensures { result ≡ parse_list start list.now }
{
    let mut caps = CapSet::none();
    let mut at = start;
    let mut left = Some(list);
    while let Some(text) = left {
        let (piece, more) = first_piece(text, b',');
        let Some(named) = caps_named(piece) else {
            return Err(CapTextError::UnknownName(at));
        };
        caps = caps.union(named);
        at += piece.len() + 1;
        left = more;
    }
    Ok(caps)
}

/// The set that a text denotes: `none`, or names and `all` with commas between them. It allocates no memory.
#[tactic(auto, unfolding(crate::specs::Parsed::parse_set))]
pub fn set_from_text(text: &[u8]) -> Result<CapSet, CapTextError>
    ensures parsed { result ≡ parse_set text.now }
{
    if text.is_empty() {
        return Err(CapTextError::Empty);
    }
    if is_word(b"none", text) {
        return Ok(CapSet::none());
    }
    caps_listed(0, text)
}
