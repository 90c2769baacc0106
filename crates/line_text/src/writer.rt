// The writer of lines.
ghost use Rattle.std.specs.Prelude.{◌≡◌, ◌<◌, ◌^◌, true, [], ◌∷◌, ◌++◌, IfOk, OnOk};
ghost use Rattle.std.specs.Fmt.{decimal};
ghost use Rattle.std.specs.List.{flat_map};
ghost use Rattle.fs_path.specs.Values.{mode_text, groups_text};
ghost use Rattle.fs_path.specs.Words.{quoted_text, spelling, with_quotes_if_needed, after_spaces};
ghost use Rattle.lab_text.specs.Lists.{all_lists};
ghost use Rattle.lab_text.specs.Numbered.{numbered_text};
ghost use Rattle.lab_text.specs.Text.{label_text};
ghost use Rattle.kern_model.specs.Names.{place_text, ending_text};
ghost use Rattle.line_text.specs.Ranges.{are_bytes, are_numbers, IsNumber, count_of, PlaceInRange, EndingInRange};
ghost use Rattle.line_text.specs.Words.{pid_text, oid_text, caps_word, thing_text, new_label_text, is_left_out, list_text};

use crate::NoMemory;
use cap_bits::CapState;
use cap_clause::put_caps;
use fs_path::{put_groups, put_mode, put_number, put_quoted, put_word};
use kern_model::{Ending, Oid, Pid, Place, Thing, put_ending, put_place};
use lab_lattice::Label;
use lab_text::{NameList, Policy, Word, put_label, put_numbered};
use std::alloc::Global;
use std::marker::Model;

// Whether a list of names has no line.
#[tactic(auto, using(crate::proofs::NameLemmas::none_by_length))]
fn is_left_out(policy: &Policy, list: NameList) -> bool
    ensures { result ≡ is_left_out policy.now list }
{
    list.line_is_optional() && policy.names(list).is_empty()
}

// For how many bytes a writer has room from the start.
const USUAL_LINE: usize = 96;

/// Lines under construction. Its value is the bytes written so far. Each method appends; after an error, which is always
/// out of memory, what is written is of no use.
pub struct LineWriter {
    text: Vec<u8>,
}

impl Drop for LineWriter {
    fn drop(self) {
        let LineWriter { text: _ } = self;
    }
}

impl Model for LineWriter {
    ghost use Rattle.std.specs.Prelude.{List, ℕ};

    ghost Value = { List ℕ };

    ghost view = { λ w. w.text.items };
}

impl LineWriter {
    /// An empty writer, with room for a line of usual length.
    pub fn new(alloc: Global) -> Result<LineWriter, NoMemory>
        ensures { IfOk result (λ line. line ≡ []) }
    {
        let text = Vec::with_capacity(alloc, USUAL_LINE)?;
        Ok(LineWriter { text })
    }

    /// An empty writer over the memory of a text, whose bytes are gone.
    pub fn over(mut text: Vec<u8>) -> LineWriter
        ensures { result ≡ [] }
    {
        text.clear();
        LineWriter { text }
    }

    /// Appends bytes as they are.
    #[inline(always)]
    pub fn bytes(&mut self, bytes: &[u8]) -> Result<(), NoMemory>
        ensures { OnOk result (self.new ≡ self.old ++ bytes.now) }
    {
        self.text.extend_from_slice(bytes)
    }

    // Appends a space.
    #[inline(always)]
    fn space(&mut self) -> Result<(), NoMemory>
        ensures { OnOk result (self.new ≡ self.old ++ 32 ∷ []) }
    {
        self.text.push(b' ')?;
        Ok(())
    }

    /// Appends the decimal digits of a number, with no space before them.
    #[inline(always)]
    pub fn digits(&mut self, n: u64) -> Result<(), NoMemory>
        ensures { OnOk result (self.new ≡ self.old ++ decimal n) }
    {
        put_number(&mut self.text, n)
    }

    /// Appends `n@label`, with no space before it.
    #[inline(always)]
    pub fn numbered(&mut self, policy: &Policy, n: u16, label: &Label) -> Result<(), NoMemory>
        ensures { OnOk result (self.new ≡ self.old ++ numbered_text policy.now n label.now) }
    {
        put_numbered(&mut self.text, policy, u64::from(n), label)
    }

    /// Ends the line.
    #[inline(always)]
    pub fn line_feed(&mut self) -> Result<(), NoMemory>
        ensures { OnOk result (self.new ≡ self.old ++ 10 ∷ []) }
    {
        self.text.push(b'\n')?;
        Ok(())
    }

    /// Appends a space and a word.
    #[inline(always)]
    pub fn word(&mut self, word: &[u8]) -> Result<(), NoMemory>
        ensures { OnOk result (self.new ≡ self.old ++ 32 ∷ word.now) }
    {
        self.space()?;
        self.bytes(word)
    }

    /// Appends words, each after a space.
    pub fn words(&mut self, words: &[Word]) -> Result<(), NoMemory>
        ensures { OnOk result (self.new ≡ self.old ++ after_spaces words.now) }
    {
        for word in words {
            self.word(word.bytes())?;
        }
        Ok(())
    }

    // Appends the line of a list of names, where it has one.
    fn name_list(&mut self, policy: &Policy, list: NameList) -> Result<(), NoMemory>
        ensures { OnOk result (self.new ≡ self.old ++ list_text policy.now list) }
    {
        if is_left_out(policy, list) {
            return Ok(());
        }
        self.bytes(list.keyword())?;
        self.words(policy.names(list))?;
        self.line_feed()
    }

    /// Appends the line of each list of names of a policy that has one.
    pub fn name_lists(&mut self, policy: &Policy) -> Result<(), NoMemory>
        ensures { OnOk result (self.new ≡ self.old ++ flat_map (list_text policy.now) all_lists) }
    {
        for list in NameList::ALL.iter() {
            self.name_list(policy, *list)?;
        }
        Ok(())
    }

    /// Appends a space and a word between quotes.
    pub fn quoted(&mut self, bytes: &[u8]) -> Result<(), NoMemory>
        ensures text { OnOk result (self.new ≡ self.old ++ 32 ∷ quoted_text bytes.now) }
        ensures in_range { OnOk result (are_bytes bytes.now ≡ true) }
    {
        self.space()?;
        put_quoted(&mut self.text, bytes)
    }

    /// Appends a space and a word, between quotes where it needs them.
    pub fn bare_or_quoted(&mut self, bytes: &[u8]) -> Result<(), NoMemory>
        ensures text { OnOk result (self.new ≡ self.old ++ 32 ∷ spelling (with_quotes_if_needed bytes.now)) }
        ensures in_range { OnOk result (are_bytes bytes.now ≡ true) }
    {
        self.space()?;
        put_word(&mut self.text, bytes)
    }

    /// Appends a space and a number of 32 bits.
    #[inline(always)]
    pub fn number(&mut self, n: u32) -> Result<(), NoMemory>
        ensures text { OnOk result (self.new ≡ self.old ++ 32 ∷ decimal n) }
        ensures in_range { OnOk result (IsNumber n) }
    {
        self.space()?;
        self.digits(u64::from(n))
    }

    /// Appends a space and a size in bytes.
    pub fn size(&mut self, bytes: u64) -> Result<(), NoMemory>
        ensures { OnOk result (self.new ≡ self.old ++ 32 ∷ decimal bytes) }
    {
        self.space()?;
        self.digits(bytes)
    }

    /// Appends a space and a mode.
    pub fn mode(&mut self, mode: u16) -> Result<(), NoMemory>
        ensures { OnOk result (self.new ≡ self.old ++ 32 ∷ mode_text mode) }
    {
        self.space()?;
        put_mode(&mut self.text, mode)
    }

    /// Appends a space and supplementary groups.
    pub fn groups(&mut self, groups: &[u32]) -> Result<(), NoMemory>
        ensures text { OnOk result (self.new ≡ self.old ++ 32 ∷ groups_text groups.now) }
        ensures in_range { OnOk result (are_numbers groups.now ≡ true) }
    {
        self.space()?;
        put_groups(&mut self.text, groups)
    }

    /// Appends a space and a label.
    #[inline(always)]
    pub fn label(&mut self, policy: &Policy, label: &Label) -> Result<(), NoMemory>
        ensures { OnOk result (self.new ≡ self.old ++ 32 ∷ label_text policy.now label.now) }
    {
        self.space()?;
        put_label(&mut self.text, policy, label)
    }

    /// Appends a space and the new label of a check, or `-`.
    pub fn new_label(&mut self, policy: &Policy, label: &Option<Label>) -> Result<(), NoMemory>
        ensures { OnOk result (self.new ≡ self.old ++ 32 ∷ new_label_text policy.now label.now) }
    {
        match label {
            Some(label) => self.label(policy, label),
            None => self.word(b"-"),
        }
    }

    /// Appends a space and the number of a process.
    #[inline(always)]
    pub fn pid(&mut self, policy: &Policy, pid: &Pid) -> Result<(), NoMemory>
        ensures text { OnOk result (self.new ≡ self.old ++ 32 ∷ pid_text policy.now pid.now) }
        ensures in_range { OnOk result (pid.now.n < 2 ^ 16) }
    {
        self.space()?;
        self.numbered(policy, pid.n, &pid.label)
    }

    /// Appends a space and the number of an object.
    pub fn oid(&mut self, policy: &Policy, oid: &Oid) -> Result<(), NoMemory>
        ensures text { OnOk result (self.new ≡ self.old ++ 32 ∷ oid_text policy.now oid.now) }
        ensures in_range { OnOk result (oid.now.n < 2 ^ 16) }
    {
        self.space()?;
        self.numbered(policy, oid.n, &oid.label)
    }

    /// Appends a space and the object or process of a check.
    pub fn thing(&mut self, policy: &Policy, thing: &Thing) -> Result<(), NoMemory>
        ensures text { OnOk result (self.new ≡ self.old ++ 32 ∷ thing_text policy.now thing.now) }
        ensures in_range { OnOk result (count_of thing.now < 2 ^ 16) }
    {
        match thing {
            Thing::Object(oid) => {
                self.word(b"obj:")?;
                self.numbered(policy, oid.n, &oid.label)
            }
            Thing::Process(who) => {
                self.word(b"proc:")?;
                self.numbered(policy, who.n, &who.label)
            }
        }
    }

    /// Appends a space and a capability state, between quotes.
    #[tactic(auto, using(crate::proofs::CapWords::caps_written))]
    pub fn caps(&mut self, caps: &CapState) -> Result<(), NoMemory>
        ensures { OnOk result (self.new ≡ self.old ++ 32 ∷ caps_word caps.now) }
    {
        self.bytes(b" \"")?;
        put_caps(&mut self.text, caps)?;
        self.bytes(b"\"")
    }

    /// Appends a space and a place of a check.
    pub fn place(&mut self, place: Place) -> Result<(), NoMemory>
        ensures text { OnOk result (self.new ≡ self.old ++ 32 ∷ place_text place) }
        ensures in_range { OnOk result (PlaceInRange place) }
    {
        self.space()?;
        put_place(&mut self.text, place)
    }

    /// Appends a space and the two words of how a process ended.
    pub fn ending(&mut self, ending: Ending) -> Result<(), NoMemory>
        ensures text { OnOk result (self.new ≡ self.old ++ 32 ∷ ending_text ending) }
        ensures in_range { OnOk result (EndingInRange ending) }
    {
        self.space()?;
        put_ending(&mut self.text, ending)
    }

    /// The bytes written.
    pub fn into_text(self) -> Vec<u8>
        ensures { result.items ≡ self }
    {
        let LineWriter { text } = self;
        text
    }
}
