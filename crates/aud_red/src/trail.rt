// The reading of a trail.
ghost use Rattle.std.specs.Prelude.{◌≡◌, ◌==◌, ◌+◌, ◌≤◌, IfOk, Ok, count_by, length};
ghost use Rattle.std.specs.List.{All};
ghost use Rattle.fs_path.specs.Split.{pieces};
ghost use Rattle.aud_record.specs.Fits.{IsInRange};
ghost use Rattle.aud_record.specs.Header.{bound_number};
ghost use Rattle.aud_record.specs.Parsed.{parse_rec};
ghost use Rattle.aud_record.specs.Results.{AnswersAs};
ghost use Rattle.aud_red.specs.Trail.{IsTextOf, is_no_memory, header_error, rec_error, rec_from, parse_recs, parse_trail};

use crate::NoMemory;
use aud_record::{Header, HeaderError, ReadRec, RecError, header_read, rec_read};
use cap_bits::CapSet;
use fs_path::List;
use lab_text::Policy;
use std::alloc::Global;

// No line of a record has fewer bytes: the shortest is `0 note 1@a ""` with its line feed.
const SHORTEST_LINE: usize = 14;

/// A trail that was read.
#[derive(Debug)]
pub struct Trail {
    pub policy: Policy,
    pub bound: CapSet,
    /// Its records in order.
    pub recs: List<ReadRec>,
}

impl Drop for Trail {
    fn drop(self) {
        let Trail {
            policy: _,
            bound: _,
            recs: _,
        } = self;
    }
}

/// Why a text is no trail. A fault has the number of its line, counted from 1 over the whole text.
#[derive(Clone, Copy, Debug, PartialEq, Eq)]
pub enum TrailError {
    /// The line is not the line of the header that is due.
    Header(usize),
    /// The line is not a record, or the number of its call is below that of the record before.
    Record(usize),
    /// The text ends in this line, which has no line feed or is one of the header that is due after the last line.
    Unended(usize),
    /// Memory ran out.
    NoMemory(NoMemory),
}

impl From<NoMemory> for TrailError {
    ghost use Rattle.aud_red.specs.declared.trail.TrailError.TheVariants as error;

    ghost from_gives = { λ m e. e ≡ error.NoMemory m };

    fn from(e: NoMemory) -> TrailError {
        TrailError::NoMemory(e)
    }
}

/// How many lines the header of a trail with this policy has.
#[tactic(auto, using(line_text::proofs::NameLemmas::none_by_length))]
pub fn header_lines(policy: &Policy) -> usize
    ensures { result ≡ bound_number policy.now }
{
    if policy.grades().is_empty() { 4 } else { 5 }
}

// How many line feeds a text has.
fn line_feeds(text: &[u8]) -> usize
    ensures { result ≡ count_by (λ b. b == 10) text.now }
{
    text.iter().filter(|byte| **byte == b'\n').count()
}

// What is wrong in a text that does not begin with a header.
fn header_error(text: &[u8], error: HeaderError) -> TrailError
    ensures { result ≡ header_error text.now error }
{
    match error {
        HeaderError::Form(number) | HeaderError::Name(number) => {
            if line_feeds(text) < number {
                TrailError::Unended(number)
            } else {
                TrailError::Header(number)
            }
        }
        HeaderError::NoMemory(e) => TrailError::NoMemory(e),
    }
}

// What is wrong in the line with this number, which is no record.
fn rec_error(number: usize, error: RecError) -> TrailError
    ensures { result ≡ rec_error number error }
{
    match error {
        RecError::Truncated => TrailError::Unended(number),
        RecError::NoMemory(e) => TrailError::NoMemory(e),
        RecError::Syntax(_) | RecError::UnknownWord(_) => TrailError::Record(number),
    }
}

// The record of the line with this number, with which a text begins; the number of its call is not below `low`.
fn next_record(
    alloc: Global,
    policy: &Policy,
    number: usize,
    low: u64,
    text: &[u8],
) -> Result<ReadRec, TrailError>
    ensures parsed { AnswersAs is_no_memory (λ read. read) result (rec_from number low (parse_rec policy.now text.now)) }
    ensures within { IfOk result (λ read. read.used ≤ length text.now) }
{
    let read = rec_read(alloc, policy, text).map_err(|error| rec_error(number, error))?;
    if read.call < low {
        return Err(TrailError::Record(number));
    }
    Ok(read)
}

// The records of a text that begins after the header.
fn read_records(alloc: Global, policy: &Policy, text: &[u8]) -> Result<List<ReadRec>, TrailError>
    ensures { AnswersAs is_no_memory (λ recs. recs) result
        (parse_recs policy.now (bound_number policy.now + 1) 0 (pieces 10 text.now)) }
{
    let room = line_feeds(text).min(text.len() / SHORTEST_LINE);
    let mut recs = List::with_capacity(alloc, room)?;
    let mut rest = text;
    let mut number = header_lines(policy) + 1;
    let mut low = 0;
    while !rest.is_empty() {
        let read = next_record(alloc, policy, number, low, rest)?;
        low = read.call;
        (_, rest) = rest.split_at(read.used);
        number += 1;
        recs.push(read)?;
    }
    Ok(recs)
}

// The trail that a text is.
#[tactic(auto, unfolding(crate::specs::Trail::parse_trail))]
fn whole_trail(alloc: Global, text: &[u8]) -> Result<Trail, TrailError>
    ensures { AnswersAs is_no_memory (λ trail. trail) result (parse_trail text.now) }
{
    let header = header_read(alloc, text).map_err(|error| header_error(text, error))?;
    let Header {
        policy,
        bound,
        used,
    } = header;
    let recs = read_records(alloc, &policy, &text[used..])?;
    Ok(Trail {
        policy,
        bound,
        recs,
    })
}

impl Trail {
    /// The trail that a text is. Only the header and the lines that are written are read; the first line at fault counts.
    pub fn read(alloc: Global, text: &[u8]) -> Result<Trail, TrailError>
        // What is read is written so.
        ensures found { IfOk result (IsTextOf text.now) }
        // What is written so is read, unless memory runs out.
        ensures only { (trail : Trail) → IsTextOf text.now trail → All (λ (r : ReadRec). IsInRange r.call r.rec) trail.recs
            → AnswersAs is_no_memory (λ trail. trail) result (Ok trail) }
        // Which line is at fault, and how.
        ensures cause { AnswersAs is_no_memory (λ trail. trail) result (parse_trail text.now) }
    {
        whole_trail(alloc, text)
    }
}
