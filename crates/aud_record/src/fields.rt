// The reading of each kind of word that a record has.
ghost use Rattle.std.specs.Prelude.{◌≡◌, ◌^◌, true, false};
ghost use Rattle.cap_bits.specs.Cap.{all_caps, cap_name};
ghost use Rattle.kern_model.specs.Named.{find_named, call_named, check_named, errno_named};
ghost use Rattle.aud_record.specs.Events.{event_word, all_events};
ghost use Rattle.aud_record.specs.Canonical.{canonical_number, canonical_label, canonical_pid, canonical_oid, canonical_thing, canonical_new_label, canonical_place, canonical_bytes, canonical_caps};
ghost use Rattle.line_text.specs.Reading.{choice};
ghost use Rattle.aud_record.specs.Words.{Reads, parse_word, parse_field};

use crate::canonical::{self, NewLabel};
use crate::event::Event;
use crate::fault::Fault;
use crate::words::Words;
use cap_bits::{Cap, CapState};
use fs_path::ByteList;
use kern_model::{CallName, CheckName, Errno, Oid, Pid, Place, Thing};
use lab_lattice::Label;
use lab_text::Policy;
use line_text::choice;
use std::alloc::Global;

impl Words<'_> {
    /// The number of a call, with which a line begins.
    #[tactic(auto, unfolding(crate::specs::Words::parse_word))]
    pub fn call_number(&mut self, alloc: Global) -> Result<u64, Fault>
        ensures { Reads result (parse_word false (canonical_number (2 ^ 64)) self.old.left.now) self.new.left.now }
    {
        let due = self.first();
        let parsed = canonical::canonical_u64(alloc, due.word)?;
        self.or_syntax(due, parsed)
    }

    /// An exit status.
    #[tactic(auto, unfolding(crate::specs::Words::parse_word, crate::specs::Words::parse_field))]
    pub fn status(&mut self, alloc: Global) -> Result<u8, Fault>
        ensures { Reads result (parse_field false (canonical_number (2 ^ 8)) self.old.left.now) self.new.left.now }
    {
        let due = self.next()?;
        let parsed = canonical::canonical_u8(alloc, due.word)?;
        self.or_syntax(due, parsed)
    }

    /// One of two words: whether it is the first.
    #[tactic(auto, unfolding(crate::specs::Words::parse_word, crate::specs::Words::parse_field))]
    pub fn choice(&mut self, first: &[u8], other: &[u8]) -> Result<bool, Fault>
        ensures { Reads result (parse_field true (choice first.now other.now) self.old.left.now) self.new.left.now }
    {
        let due = self.next()?;
        let parsed = choice(first, other, due.word);
        self.or_unknown(due, parsed)
    }

    /// The kind of a record.
    #[tactic(auto, unfolding(crate::specs::Words::parse_word, crate::specs::Words::parse_field))]
    pub fn event(&mut self) -> Result<Event, Fault>
        ensures { Reads result (parse_field true (find_named event_word all_events) self.old.left.now) self.new.left.now }
    {
        let due = self.next()?;
        let parsed = Event::from_word(due.word);
        self.or_unknown(due, parsed)
    }

    /// A capability.
    #[tactic(auto, unfolding(crate::specs::Words::parse_word, crate::specs::Words::parse_field))]
    pub fn cap(&mut self) -> Result<Cap, Fault>
        ensures { Reads result (parse_field true (find_named cap_name all_caps) self.old.left.now) self.new.left.now }
    {
        let due = self.next()?;
        let parsed = canonical::canonical_cap(due.word);
        self.or_unknown(due, parsed)
    }

    /// A check.
    #[tactic(auto, unfolding(crate::specs::Words::parse_word, crate::specs::Words::parse_field))]
    pub fn check(&mut self) -> Result<CheckName, Fault>
        ensures { Reads result (parse_field true (check_named) self.old.left.now) self.new.left.now }
    {
        let due = self.next()?;
        let parsed = CheckName::from_word(due.word);
        self.or_unknown(due, parsed)
    }

    /// An error number.
    #[tactic(auto, unfolding(crate::specs::Words::parse_word, crate::specs::Words::parse_field))]
    pub fn errno(&mut self) -> Result<Errno, Fault>
        ensures { Reads result (parse_field true (errno_named) self.old.left.now) self.new.left.now }
    {
        let due = self.next()?;
        let parsed = Errno::from_word(due.word);
        self.or_unknown(due, parsed)
    }

    /// A call.
    #[tactic(auto, unfolding(crate::specs::Words::parse_word, crate::specs::Words::parse_field))]
    pub fn call(&mut self) -> Result<CallName, Fault>
        ensures { Reads result (parse_field true (call_named) self.old.left.now) self.new.left.now }
    {
        let due = self.next()?;
        let parsed = CallName::from_word(due.word);
        self.or_unknown(due, parsed)
    }

    /// The number of a process.
    #[tactic(auto, unfolding(crate::specs::Words::parse_word, crate::specs::Words::parse_field))]
    pub fn pid(&mut self, alloc: Global, policy: &Policy) -> Result<Pid, Fault>
        ensures { Reads result (parse_field false (canonical_pid policy.now) self.old.left.now) self.new.left.now }
    {
        let due = self.next()?;
        let parsed = canonical::canonical_pid(alloc, policy, due.word)?;
        self.or_syntax(due, parsed)
    }

    /// The number of an object.
    #[tactic(auto, unfolding(crate::specs::Words::parse_word, crate::specs::Words::parse_field))]
    pub fn oid(&mut self, alloc: Global, policy: &Policy) -> Result<Oid, Fault>
        ensures { Reads result (parse_field false (canonical_oid policy.now) self.old.left.now) self.new.left.now }
    {
        let due = self.next()?;
        let parsed = canonical::canonical_oid(alloc, policy, due.word)?;
        self.or_syntax(due, parsed)
    }

    /// A label.
    #[tactic(auto, unfolding(crate::specs::Words::parse_word, crate::specs::Words::parse_field))]
    pub fn label(&mut self, alloc: Global, policy: &Policy) -> Result<Label, Fault>
        ensures { Reads result (parse_field false (canonical_label policy.now) self.old.left.now) self.new.left.now }
    {
        let due = self.next()?;
        let parsed = canonical::canonical_label(alloc, policy, due.word)?;
        self.or_syntax(due, parsed)
    }

    /// The new label of a check, or `-`.
    #[tactic(auto, unfolding(crate::specs::Words::parse_word, crate::specs::Words::parse_field))]
    pub fn new_label(&mut self, alloc: Global, policy: &Policy) -> Result<NewLabel, Fault>
        ensures { Reads result (parse_field false (canonical_new_label policy.now) self.old.left.now) self.new.left.now }
    {
        let due = self.next()?;
        let parsed = canonical::canonical_new_label(alloc, policy, due.word)?;
        self.or_syntax(due, parsed)
    }

    /// A capability state.
    #[tactic(auto, unfolding(crate::specs::Words::parse_word, crate::specs::Words::parse_field))]
    pub fn caps(&mut self, alloc: Global) -> Result<CapState, Fault>
        ensures { Reads result (parse_field false canonical_caps self.old.left.now) self.new.left.now }
    {
        let due = self.next()?;
        let parsed = canonical::canonical_caps(alloc, due.word)?;
        self.or_syntax(due, parsed)
    }

    /// Bytes between quotes.
    #[tactic(auto, unfolding(crate::specs::Words::parse_word, crate::specs::Words::parse_field))]
    pub fn bytes(&mut self, alloc: Global) -> Result<ByteList, Fault>
        ensures { Reads result (parse_field false canonical_bytes self.old.left.now) self.new.left.now }
    {
        let due = self.next()?;
        let parsed = canonical::canonical_bytes(alloc, due.word)?;
        self.or_syntax(due, parsed)
    }

    /// What a check is about.
    #[tactic(auto, unfolding(crate::specs::Words::parse_word, crate::specs::Words::parse_field))]
    pub fn thing(&mut self, alloc: Global, policy: &Policy) -> Result<Thing, Fault>
        ensures { Reads result (parse_field false (canonical_thing policy.now) self.old.left.now) self.new.left.now }
    {
        let due = self.next()?;
        let parsed = canonical::canonical_thing(alloc, policy, due.word)?;
        self.or_syntax(due, parsed)
    }

    /// Where the thing of a check stands.
    #[tactic(auto, unfolding(crate::specs::Words::parse_word, crate::specs::Words::parse_field))]
    pub fn place(&mut self, alloc: Global) -> Result<Place, Fault>
        ensures { Reads result (parse_field false canonical_place self.old.left.now) self.new.left.now }
    {
        let due = self.next()?;
        let parsed = canonical::canonical_place(alloc, due.word)?;
        self.or_syntax(due, parsed)
    }
}
