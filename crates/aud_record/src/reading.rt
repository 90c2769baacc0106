// The reading of a record.
ghost use Rattle.std.specs.Prelude.{◌≡◌, ℕ, true, List, ◌++◌, ◌≤◌, length, IfOk, Ok};
ghost use Rattle.kern_model.specs.declared.records.Rec.{Rec};
ghost use Rattle.aud_record.specs.Fits.{has_valid_labels, IsInRange};
ghost use Rattle.aud_record.specs.Results.{AnswersAs};
ghost use Rattle.aud_record.specs.Parsed.{BeginsWithRec, is_no_memory, parse_line, error_of_fault, parse_rec, read_of};
ghost use Rattle.aud_record.specs.Words.{is_no_memory as is_line_memory};
ghost use Rattle.aud_record.specs.Written.{rec_text};

use crate::NoMemory;
use crate::fault::Fault;
use crate::forms::record;
use crate::words::Words;
use fs_path::next_line;
use kern_model::Rec;
use lab_text::Policy;
use std::alloc::Global;

/// A record that was read.
#[derive(Debug)]
pub struct ReadRec {
    /// The number of its call.
    pub call: u64,
    pub rec: Rec,
    /// How many bytes its line has, with the line feed.
    pub used: usize,
}

impl Drop for ReadRec {
    fn drop(self) {
        let ReadRec {
            call: _,
            rec: _,
            used: _,
        } = self;
    }
}

/// Why no record is read. Places are bytes, counted from 0: where the word at fault begins, or where a word is due.
#[derive(Clone, Copy, Debug, PartialEq, Eq)]
pub enum RecError {
    /// What stands here is not what is due.
    Syntax(usize),
    /// The word that stands here is not in the list of words that is due.
    UnknownWord(usize),
    /// The text has no line feed.
    Truncated,
    /// Memory ran out.
    NoMemory(NoMemory),
}

// The number of a call and the record that a line says.
#[tactic(auto, unfolding(crate::specs::Parsed::parse_line))]
fn read_line(alloc: Global, policy: &Policy, line: &[u8]) -> Result<(u64, Rec), Fault>
    ensures { AnswersAs is_line_memory (λ x. x) result (parse_line policy.now line.now) }
{
    let mut words = Words::new(line);
    let call = words.call_number(alloc)?;
    let event = words.event()?;
    let who = words.pid(alloc, policy)?;
    let rec = record(alloc, policy, event, who, &mut words)?;
    Ok((call, rec))
}

// A fault with its place in a line of so many bytes.
fn error_of_fault(len: usize, fault: Fault) -> RecError
    ensures { result ≡ error_of_fault len fault }
{
    match fault {
        Fault::Syntax(left) => RecError::Syntax(len.saturating_sub(left)),
        Fault::UnknownWord(left) => RecError::UnknownWord(len.saturating_sub(left)),
        Fault::NoMemory(e) => RecError::NoMemory(e),
    }
}

// The record with which a text begins.
#[tactic(auto, unfolding(crate::specs::Parsed::parse_rec))]
fn first_record(alloc: Global, policy: &Policy, text: &[u8]) -> Result<ReadRec, RecError>
    ensures parsed { AnswersAs is_no_memory (λ read. read) result (parse_rec policy.now text.now) }
    ensures within { IfOk result (λ read. read.used ≤ length text.now) }
{
    let (line, _) = next_line(text).ok_or(RecError::Truncated)?;
    let (call, rec) = read_line(alloc, policy, line).map_err(|fault| error_of_fault(
        line.len(),
        fault,
    ))?;
    Ok(ReadRec {
        call,
        rec,
        used: line.len() + 1,
    })
}

/// The record with which a text begins, whatever stands after it. The first fault of the line counts, from the left.
pub fn rec_read(alloc: Global, policy: &Policy, text: &[u8]) -> Result<ReadRec, RecError>
    // What is read is written so, and its labels are valid.
    ensures found { IfOk result (BeginsWithRec policy.now text.now) }
    // What is written so is read, unless memory runs out.
    ensures only { (call : ℕ) (rec : Rec) (rest : List ℕ) → has_valid_labels policy.now rec ≡ true → IsInRange call rec
        → text.now ≡ rec_text policy.now call rec ++ rest → AnswersAs is_no_memory (λ read. read) result (Ok (read_of policy.now call rec)) }
    // Which fault it is.
    ensures cause { AnswersAs is_no_memory (λ read. read) result (parse_rec policy.now text.now) }
    ensures within { IfOk result (λ read. read.used ≤ length text.now) }
{
    // Its names make a policy, which the clause `only` needs.
    let _names = policy.levels();
    first_record(alloc, policy, text)
}
