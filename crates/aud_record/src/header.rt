// The lines before the records: how they are written and how they are read.
ghost use Rattle.std.specs.Prelude.{◌≡◌, ◌≤◌, ◌++◌, ℕ, Ok, IfOk, length, take};
ghost use Rattle.std.specs.Option.{option_copied};
ghost use Rattle.fs_path.specs.Split.{pieces_of_rest};
ghost use Rattle.lab_text.specs.Lists.{all_lists};
ghost use Rattle.lab_text.specs.Policy.{PolicyNames, no_names, MakePolicy};
ghost use Rattle.aud_record.specs.Results.{AnswersAs};
ghost use Rattle.aud_record.specs.Header.{is_no_memory, header_of, format_line, keyword_line, names_error, names_line, has_no_line, list_line, names_lines, bound_number, set_error, bound_of, parse_header};
ghost use Rattle.aud_record.specs.Written.{header_text};

use crate::NoMemory;
use cap_bits::CapSet;
use cap_clause::{CapTextError, set_from_text, set_to_text};
use fs_path::{List, first_piece, next_line, split_once};
use lab_text::{NameList, Policy, PolicyError, PolicyNames, Word};
use line_text::LineWriter;
use std::alloc::Global;

/// A header that was read.
#[derive(Debug, Drop)]
pub struct Header {
    pub policy: Policy,
    pub bound: CapSet,
    /// How many bytes its lines have, with their line feeds.
    pub used: usize,
}

/// Why no header is read. A fault has the number of its line, counted from 1.
#[derive(Clone, Copy, Debug, PartialEq, Eq)]
pub enum HeaderError {
    /// The line does not have the form that is due, or has no line feed. A word that can be no name and a set that is not
    /// written in its canonical way are faults of the form.
    Form(usize),
    /// The line has more names than there may be, has a name twice, or names an unknown capability.
    Name(usize),
    /// Memory ran out.
    NoMemory(NoMemory),
}

impl From<NoMemory> for HeaderError {
    ghost use Rattle.aud_record.specs.declared.header.HeaderError.TheVariants as error;

    ghost from_gives = { λ m e. e ≡ error.NoMemory m };

    fn from(e: NoMemory) -> HeaderError {
        HeaderError::NoMemory(e)
    }
}

/// The lines before the records: the format, the names of the world's levels, categories and grades, and its bound.
#[tactic(auto, unfolding(crate::specs::Written::line_of, crate::specs::Written::header_text))]
pub fn header_text(alloc: Global, policy: &Policy, bound: &CapSet) -> Result<Vec<u8>, NoMemory>
    ensures { IfOk result (λ text. text.items ≡ header_text policy.now bound.now) }
{
    let bound = set_to_text(alloc, bound)?;
    let mut line = LineWriter::new(alloc)?;
    line.bytes(b"trail 1\n")?;
    line.name_lists(policy)?;
    line.bytes(b"bound")?;
    line.word(bound.as_slice())?;
    line.line_feed()?;
    Ok(line.into_text())
}

// The words of the rest of a line, one space between each and the next.
fn words_in(alloc: Global, rest: Option<&[u8]>) -> Result<List<Word>, NoMemory>
    ensures { IfOk result (λ words. words ≡ pieces_of_rest 32 (option_copied rest.entry)) }
{
    let mut words = List::new(alloc);
    let mut left = rest;
    while let Some(text) = left {
        let (word, more) = first_piece(text, b' ');
        words.push(Word::new(alloc, word)?)?;
        left = more;
    }
    Ok(words)
}

// The words after the keyword of a line with this number, with which a text begins, and the text after the line.
#[tactic(auto, unfolding(crate::specs::Header::keyword_line))]
fn keyword_line<'a>(
    alloc: Global,
    number: usize,
    keyword: &[u8],
    text: &'a [u8],
) -> Result<(List<Word>, &'a [u8]), HeaderError>
    ensures words { AnswersAs is_no_memory (λ x. (x.0, x.1.now)) result (keyword_line number keyword.now text.now) }
    ensures shorter { IfOk result (λ x. length x.1.now ≤ length text.now) }
{
    let (line, rest) = next_line(text).ok_or(HeaderError::Form(number))?;
    let (first, more) = first_piece(line, b' ');
    if first != keyword {
        return Err(HeaderError::Form(number));
    }
    Ok((words_in(alloc, more)?, rest))
}

// What is wrong in the line with this number, whose names make no policy.
fn names_error(number: usize, error: PolicyError) -> HeaderError
    ensures { result ≡ names_error number error }
{
    match error {
        PolicyError::Empty | PolicyError::BadName => HeaderError::Form(number),
        PolicyError::TooMany | PolicyError::Repeated => HeaderError::Name(number),
        PolicyError::NoMemory(e) => HeaderError::NoMemory(e),
    }
}

// Adds the names of a list from the line with this number, with which a text begins, and returns the text after the line.
#[tactic(auto, unfolding(crate::specs::Header::policy_of, crate::specs::Header::names_line))]
fn names_line<'a>(
    alloc: Global,
    number: usize,
    list: NameList,
    names: &mut PolicyNames,
    text: &'a [u8],
) -> Result<&'a [u8], HeaderError>
    ensures line { AnswersAs is_no_memory (λ rest. (names.new, rest.now)) result (names_line number list names.old text.now) }
    ensures shorter { IfOk result (λ rest. length rest.now ≤ length text.now) }
{
    let (words, rest) = keyword_line(alloc, number, list.keyword(), text)?;
    names.put(list, words);
    match names.fault() {
        Some(error) => Err(names_error(number, error)),
        None => Ok(rest),
    }
}

// Whether a list has no line where a text begins. An optional line is there where its keyword and a space are.
fn has_no_line(list: NameList, text: &[u8]) -> bool
    ensures { result ≡ has_no_line list text.now }
{
    let is_there = match split_once(text, b' ') {
        Some((word, _)) => word == list.keyword(),
        None => false,
    };
    list.line_is_optional() && !is_there
}

// Adds the names of a list, where a text begins with its line, and returns the text after the line.
#[tactic(auto, unfolding(crate::specs::Header::list_line))]
fn list_line<'a>(
    alloc: Global,
    number: usize,
    list: NameList,
    names: &mut PolicyNames,
    text: &'a [u8],
) -> Result<&'a [u8], HeaderError>
    ensures line { AnswersAs is_no_memory (λ rest. (names.new, rest.now)) result (list_line number list names.old text.now) }
    ensures shorter { IfOk result (λ rest. length rest.now ≤ length text.now) }
{
    if has_no_line(list, text) {
        return Ok(text);
    }
    names_line(alloc, number, list, names, text)
}

// The policy of the lines of names, with which a text begins, and the text after them.
fn names_lines(alloc: Global, text: &[u8]) -> Result<(Policy, &[u8]), HeaderError>
    ensures lines { AnswersAs is_no_memory (λ x. (x.0, x.1.now)) result (names_lines 2 all_lists no_names text.now) }
    ensures shorter { IfOk result (λ x. length x.1.now ≤ length text.now) }
{
    let mut names = PolicyNames::empty(alloc);
    let mut rest = text;
    for (place, list) in NameList::ALL.iter().enumerate() {
        rest = list_line(alloc, place + 2, *list, &mut names, rest)?;
    }
    Ok((names.into_policy(), rest))
}

// The number of the last line, that of the bound, which comes after the lines of names.
#[tactic(auto, using(line_text::proofs::NameLemmas::none_by_length))]
fn bound_number(policy: &Policy) -> usize
    ensures { result ≡ bound_number policy.now }
{
    if policy.grades().is_empty() { 4 } else { 5 }
}

// What is wrong in the line with this number, which denotes no set.
fn set_error(number: usize, error: CapTextError) -> HeaderError
    ensures { result ≡ set_error number error }
{
    match error {
        CapTextError::UnknownName(_) => HeaderError::Name(number),
        _ => HeaderError::Form(number),
    }
}

// The set of which the only word of the line with this number is the canonical text.
#[tactic(auto, unfolding(crate::specs::Header::bound_of))]
fn bound_of(alloc: Global, number: usize, words: &[Word]) -> Result<CapSet, HeaderError>
    ensures { AnswersAs is_no_memory (λ bound. bound) result (bound_of number words.now) }
{
    let [word] = words else {
        return Err(HeaderError::Form(number));
    };
    let bound = set_from_text(word.bytes()).map_err(|error| set_error(number, error))?;
    let text = set_to_text(alloc, &bound)?;
    if text.as_slice() != word.bytes() {
        return Err(HeaderError::Form(number));
    }
    Ok(bound)
}

// The text after the first line, which is the format.
#[tactic(auto, unfolding(crate::specs::Header::format_line))]
fn format_line(text: &[u8]) -> Result<&[u8], HeaderError>
    ensures line { AnswersAs is_no_memory (λ rest. rest.now) result (format_line text.now) }
    ensures shorter { IfOk result (λ rest. length rest.now ≤ length text.now) }
{
    text.strip_prefix(b"trail 1\n").ok_or(HeaderError::Form(1))
}

// The header with which a text begins.
#[tactic(auto, unfolding(crate::specs::Header::parse_header))]
fn first_header(alloc: Global, text: &[u8]) -> Result<Header, HeaderError>
    ensures parsed { AnswersAs is_no_memory (λ header. header) result (parse_header text.now) }
    ensures within { IfOk result (λ header. header.used ≤ length text.now) }
{
    let rest = format_line(text)?;
    let (policy, rest) = names_lines(alloc, rest)?;
    let number = bound_number(&policy);
    let (words, rest) = keyword_line(alloc, number, b"bound", rest)?;
    let bound = bound_of(alloc, number, words.items())?;
    Ok(Header {
        policy,
        bound,
        used: text.len() - rest.len(),
    })
}

/// The header with which a text begins, whatever stands after it. Only what `header_text` writes is read; the first line
/// at fault counts.
pub fn header_read(alloc: Global, text: &[u8]) -> Result<Header, HeaderError>
    // What is read is written so.
    ensures found { IfOk result (λ header. take header.used text.now ≡ header_text header.policy header.bound) }
    // What is written so is read, unless memory runs out.
    ensures only { (policy : PolicyNames) (bound : CapSet) (rest : List ℕ) → MakePolicy policy → text.now ≡ header_text policy bound ++ rest
        → AnswersAs is_no_memory (λ header. header) result (Ok (header_of policy bound)) }
    // Which fault it is.
    ensures cause { AnswersAs is_no_memory (λ header. header) result (parse_header text.now) }
    ensures within { IfOk result (λ header. header.used ≤ length text.now) }
{
    first_header(alloc, text)
}
