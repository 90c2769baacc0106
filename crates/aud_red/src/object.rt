// The members of JSON objects.
ghost use Rattle.std.specs.Prelude.{◌≡◌, [], ◌++◌, true, IfOk, OnOk};
ghost use Rattle.std.specs.List.{flat_map};
ghost use Rattle.cap_clause.specs.Written.{caps_text};
ghost use Rattle.fs_path.specs.Words.{item_text};
ghost use Rattle.lab_text.specs.Text.{label_text};
ghost use Rattle.lab_text.specs.Numbered.{numbered_text};
ghost use Rattle.kern_model.specs.Names.{place_text};
ghost use Rattle.line_text.specs.Words.{thing_text};
ghost use Rattle.serde_json.specs.Data.{no_members, number, unsigned, object, string, put};
ghost use Rattle.serde_json.specs.View.{members_view, view};
ghost use Rattle.aud_red.specs.Json.{ending_value, new_label_value, are_printable};
ghost use Rattle.aud_red.specs.JsonValue.{data_of};
ghost use Rattle.aud_red.specs.Objects.{are_plain, is_simple, are_simple};

use crate::NoMemory;
use cap_bits::CapState;
use cap_clause::put_caps;
use fs_path::{put_number, put_quoted};
use kern_model::{Ending, Place, Thing, put_place};
use lab_lattice::Label;
use lab_text::{Policy, put_label, put_numbered};
use serde_json::{Map, Value};
use std::alloc::Global;
use std::marker::Model;

// For how many bytes the text of a value has room from the start.
const USUAL_TEXT: usize = 32;

/// An object under construction, seen as its members in the order of their keys. Its keys and texts are printable. After an
/// error, which is always out of memory, it is of no use.
pub struct ObjectWriter {
    alloc: Global,
    members: Map<String, Value>,
}

impl Drop for ObjectWriter {
    fn drop(self) {
        let ObjectWriter {
            alloc: _,
            members: _,
        } = self;
    }
}

impl Model for ObjectWriter {
    ghost use Rattle.std.specs.Prelude.{◌≡◌, true, List};
    ghost use Rattle.std.specs.Coded.{codes};
    ghost use Rattle.serde_json.specs.View.{members_view};
    ghost use Rattle.serde_json.specs.contracts.value.Value as value;
    ghost use Rattle.aud_red.specs.Objects.{Entry, are_simple};

    ghost Value = { List Entry };

    ghost coded = { Prim.hlevel (codes, value.the_row.coded) };

    ghost view = { λ o. o.members.entries };

    ghost invariant = { λ o. are_simple (members_view o.members.entries) ≡ true };
}

impl ObjectWriter {
    /// An object with no members.
    pub fn new(alloc: Global) -> ObjectWriter
        ensures { members_view result ≡ no_members }
    {
        let members = Map::new(alloc);
        ObjectWriter { alloc, members }
    }

    // Puts a value at a key.
    #[tactic(auto, using(crate::proofs::JsonText::put_simple))]
    fn put(&mut self, key: &str, value: Value) -> Result<(), NoMemory>
        requires key { are_printable key.now ≡ true }
        requires value { is_simple (view value) ≡ true }
        ensures { OnOk result (members_view self.new ≡ put key.now (view value) (members_view self.old)) }
    {
        serde_json::put(&mut self.members, self.alloc, key, value)?;
        Ok(())
    }

    /// Puts a number at a key.
    #[tactic(auto, using(crate::proofs::JsonText::number_simple))]
    pub fn number(&mut self, key: &str, n: u64) -> Result<(), NoMemory>
        requires { are_printable key.now ≡ true }
        ensures { OnOk result (members_view self.new ≡ put key.now (number (unsigned n)) (members_view self.old)) }
    {
        self.put(key, Value::from(n))
    }

    // An empty text, with room for one of usual length.
    fn room(&self) -> Result<Vec<u8>, NoMemory>
        ensures { IfOk result (λ text. text.items ≡ []) }
    {
        Vec::with_capacity(self.alloc, USUAL_TEXT)
    }

    // Puts a string at a key.
    #[tactic(auto, using(crate::proofs::Printable::printable_utf8))]
    fn string(&mut self, key: &str, text: Vec<u8>) -> Result<(), NoMemory>
        requires key { are_printable key.now ≡ true }
        requires text { are_printable text.items ≡ true }
        ensures { OnOk result (members_view self.new ≡ put key.now (string text.items) (members_view self.old)) }
    {
        let text = String::from_utf8(text).unwrap();
        self.put(key, Value::String(text))
    }

    // Puts a text at a key.
    #[tactic(auto, using(crate::proofs::Printable::plain_printable))]
    fn text(&mut self, key: &str, text: Vec<u8>) -> Result<(), NoMemory>
        requires key { are_printable key.now ≡ true }
        requires text { are_plain text.items ≡ true }
        ensures { OnOk result (members_view self.new ≡ put key.now (string text.items) (members_view self.old)) }
    {
        self.string(key, text)
    }

    /// Puts a word at a key.
    pub fn word(&mut self, key: &str, word: &[u8]) -> Result<(), NoMemory>
        requires key { are_printable key.now ≡ true }
        requires word { are_plain word.now ≡ true }
        ensures { OnOk result (members_view self.new ≡ put key.now (string word.now) (members_view self.old)) }
    {
        let text = Vec::from_slice(self.alloc, word)?;
        self.text(key, text)
    }

    /// Puts a label at a key.
    #[tactic(auto, using(crate::proofs::Printable::of_label))]
    pub fn label(&mut self, key: &str, policy: &Policy, label: &Label) -> Result<(), NoMemory>
        requires { are_printable key.now ≡ true }
        ensures { OnOk result (members_view self.new
            ≡ put key.now (string (label_text policy.now label.now)) (members_view self.old)) }
    {
        // Its names make a policy, whose texts are plain.
        let _names = policy.levels();
        let mut text = self.room()?;
        put_label(&mut text, policy, label)?;
        self.text(key, text)
    }

    /// Puts the new label of a check at a key, null where it has none.
    pub fn new_label(
        &mut self,
        key: &str,
        policy: &Policy,
        label: &Option<Label>,
    ) -> Result<(), NoMemory>
        requires { are_printable key.now ≡ true }
        ensures { OnOk result (members_view self.new
            ≡ put key.now (data_of (new_label_value policy.now label.now)) (members_view self.old)) }
    {
        match label {
            Some(label) => self.label(key, policy, label),
            None => self.put(key, Value::Null),
        }
    }

    // Puts a mark and a number, which was drawn at a label, at a key.
    #[tactic(auto, using(crate::proofs::Printable::append_plain, crate::proofs::Printable::of_numbered))]
    fn marked_number(
        &mut self,
        key: &str,
        mark: &[u8],
        policy: &Policy,
        n: u16,
        label: &Label,
    ) -> Result<(), NoMemory>
        requires key { are_printable key.now ≡ true }
        requires mark { are_plain mark.now ≡ true }
        ensures { OnOk result (members_view self.new
            ≡ put key.now (string (mark.now ++ numbered_text policy.now n label.now)) (members_view self.old)) }
    {
        let _names = policy.levels();
        let mut text = self.room()?;
        text.extend_from_slice(mark)?;
        put_numbered(&mut text, policy, u64::from(n), label)?;
        self.text(key, text)
    }

    /// Puts the number of a process or an object, which was drawn at a label, at a key.
    pub fn numbered(
        &mut self,
        key: &str,
        policy: &Policy,
        n: u16,
        label: &Label,
    ) -> Result<(), NoMemory>
        requires { are_printable key.now ≡ true }
        ensures { OnOk result (members_view self.new
            ≡ put key.now (string (numbered_text policy.now n label.now)) (members_view self.old)) }
    {
        self.marked_number(key, b"", policy, n, label)
    }

    /// Puts the object or process of a check at a key.
    pub fn thing(&mut self, key: &str, policy: &Policy, thing: &Thing) -> Result<(), NoMemory>
        requires { are_printable key.now ≡ true }
        ensures { OnOk result (members_view self.new
            ≡ put key.now (string (thing_text policy.now thing.now)) (members_view self.old)) }
    {
        match thing {
            Thing::Object(oid) => self.marked_number(key, b"obj:", policy, oid.n, &oid.label),
            Thing::Process(who) => self.marked_number(key, b"proc:", policy, who.n, &who.label),
        }
    }

    /// Puts a capability state at a key.
    #[tactic(auto, using(crate::proofs::Printable::of_caps))]
    pub fn caps(&mut self, key: &str, caps: &CapState) -> Result<(), NoMemory>
        requires { are_printable key.now ≡ true }
        ensures { OnOk result (members_view self.new ≡ put key.now (string (caps_text caps.now)) (members_view self.old)) }
    {
        let mut text = self.room()?;
        put_caps(&mut text, caps)?;
        self.text(key, text)
    }

    /// Puts the place of a check at a key.
    #[tactic(auto, using(crate::proofs::Printable::of_place))]
    pub fn place(&mut self, key: &str, place: Place) -> Result<(), NoMemory>
        requires { are_printable key.now ≡ true }
        ensures { OnOk result (members_view self.new ≡ put key.now (string (place_text place)) (members_view self.old)) }
    {
        let mut text = self.room()?;
        put_place(&mut text, place)?;
        self.text(key, text)
    }

    /// Puts the exit status of a process or the name of a signal at a key.
    #[tactic(auto, using(crate::proofs::Printable::of_decimal))]
    pub fn ending_value(&mut self, key: &str, ending: Ending) -> Result<(), NoMemory>
        requires { are_printable key.now ≡ true }
        ensures { OnOk result (members_view self.new ≡ put key.now (string (ending_value ending)) (members_view self.old)) }
    {
        match ending {
            Ending::Exit(code) => {
                let mut text = self.room()?;
                put_number(&mut text, u64::from(code))?;
                self.text(key, text)
            }
            Ending::Term => self.word(key, b"TERM"),
            Ending::Kill => self.word(key, b"KILL"),
        }
    }

    /// Puts bytes at a key as they stand between quotes.
    #[tactic(auto, using(crate::proofs::Printable::of_items))]
    pub fn bytes(&mut self, key: &str, bytes: &[u8]) -> Result<(), NoMemory>
        requires { are_printable key.now ≡ true }
        ensures { OnOk result (members_view self.new
            ≡ put key.now (string (flat_map item_text bytes.now)) (members_view self.old)) }
    {
        let mut text = self.room()?;
        put_quoted(&mut text, bytes)?;
        let [_, items @ .., _] = text.as_slice() else {
            return Ok(());
        };
        let text = Vec::from_slice(self.alloc, items)?;
        self.string(key, text)
    }

    /// The object.
    pub fn into_value(self) -> Value
        ensures value { view result ≡ object (members_view self) }
        ensures simple { are_simple (members_view self) ≡ true }
    {
        let ObjectWriter { alloc: _, members } = self;
        Value::Object(members)
    }
}
