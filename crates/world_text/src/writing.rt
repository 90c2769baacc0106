// The writing of a world.
ghost use Rattle.std.specs.Prelude.{◌≡◌, true, [], ◌∷◌, ◌++◌, map, OnOk, IfOk};
ghost use Rattle.std.specs.List.{AllByRecursion, flat_map};
ghost use Rattle.fs_path.specs.Words.{with_quotes_if_needed, spelling};
ghost use Rattle.line_text.specs.Ranges.{are_bytes};
ghost use Rattle.line_text.specs.Reply.{with_words};
ghost use Rattle.world_text.specs.declared.format.Format.TheVariants.{Two};
ghost use Rattle.world_text.specs.CanBeRead.{HasBytes, IsWrittenObject, IsWrittenIds, IsWorldText, HasShortLines};
ghost use Rattle.world_text.specs.Reading.{reading_of, read_text};
ghost use Rattle.world_text.specs.Written.{path_text, line_of, names_words, head_words, body_keyword, caps_words, body_words, object_words, objects_text, process_words, processes_text, text_of_world};

use crate::format::Format;
use crate::{NoMemory, WorldText};
use cap_bits::{CapSet, CapState};
use cap_clause::{cap_to_text, set_to_text};
use fs_path::{Name, Path};
use kern_model::{Body, WorldObject, WorldProc};
use lab_text::Policy;
use line_text::LineWriter;
use std::alloc::Global;

/// The text of an absolute path with these names.
pub fn path_text(alloc: Global, names: &[Name]) -> Result<Vec<u8>, NoMemory>
    ensures { IfOk result (λ text. text.items ≡ path_text names.now) }
{
    let mut text = Vec::new(alloc);
    if names.is_empty() {
        text.push(b'/')?;
    }
    for name in names {
        text.push(b'/')?;
        text.extend_from_slice(name.bytes())?;
    }
    Ok(text)
}

fn put_path(alloc: Global, line: &mut LineWriter, path: &Path) -> Result<(), NoMemory>
    ensures text { OnOk result (line.new ≡ line.old ++ 32 ∷ spelling (with_quotes_if_needed (path_text path.now.names))) }
    ensures in_range { OnOk result (are_bytes (path_text path.now.names) ≡ true) }
{
    let path = path_text(alloc, path.components())?;
    line.bare_or_quoted(path.as_slice())
}

// Appends a capability text, unless it is `=`.
fn put_some_caps(alloc: Global, line: &mut LineWriter, caps: &CapState) -> Result<(), NoMemory>
    ensures { OnOk result (line.new ≡ with_words line.old (map spelling (caps_words caps.now))) }
{
    let caps = cap_to_text(alloc, caps)?;
    if caps.as_slice() == b"=".as_slice() {
        return Ok(());
    }
    line.quoted(caps.as_slice())
}

#[tactic(auto, unfolding(crate::specs::Written::line_of))]
fn put_word_line(line: &mut LineWriter, keyword: &[u8], word: &[u8]) -> Result<(), NoMemory>
    ensures { OnOk result (line.new ≡ line.old ++ line_of (names_words keyword.now (word.now ∷ []))) }
{
    line.bytes(keyword)?;
    line.word(word)?;
    line.line_feed()
}

fn body_keyword(body: &Body) -> &'static [u8]
    ensures { result.now ≡ body_keyword body.now }
{
    match body {
        Body::Dir => b"dir",
        Body::File(_) => b"file",
        Body::Fifo => b"fifo",
        Body::Pipe => b"pipe",
    }
}

// Appends the content and the capabilities of a file.
fn put_body(
    alloc: Global,
    line: &mut LineWriter,
    body: &Body,
    caps: &CapState,
) -> Result<(), NoMemory>
    ensures text { OnOk result (line.new ≡ with_words line.old (map spelling (body_words body.now caps.now))) }
    ensures in_range { OnOk result (HasBytes body.now) }
{
    let Body::File(bytes) = body else {
        return Ok(());
    };
    line.quoted(bytes.items())?;
    put_some_caps(alloc, line, caps)
}

#[tactic(auto, using(crate::proofs::AppendLemmas::object_after), unfolding(crate::specs::Written::line_of, crate::specs::Written::object_words))]
fn put_object(
    alloc: Global,
    line: &mut LineWriter,
    policy: &Policy,
    object: &WorldObject,
) -> Result<(), NoMemory>
    ensures text { OnOk result (line.new ≡ line.old ++ line_of (object_words policy.now object.now)) }
    ensures in_range { OnOk result (IsWrittenObject object.now) }
{
    line.bytes(body_keyword(&object.body))?;
    put_path(alloc, line, &object.path)?;
    line.mode(object.attr.mode)?;
    line.number(object.attr.owner)?;
    line.number(object.attr.group)?;
    line.label(policy, &object.label)?;
    put_body(alloc, line, &object.body, &object.attr.caps.shown())?;
    line.line_feed()
}

#[tactic(auto, unfolding(crate::specs::Written::line_of, crate::specs::Written::process_words))]
fn put_process(line: &mut LineWriter, policy: &Policy, process: &WorldProc) -> Result<(), NoMemory>
    ensures text { OnOk result (line.new ≡ line.old ++ line_of (process_words policy.now process.now)) }
    ensures in_range { OnOk result (IsWrittenIds process.now.ids) }
{
    line.bytes(b"proc")?;
    line.label(policy, &process.label)?;
    line.number(process.ids.euid)?;
    line.number(process.ids.egid)?;
    line.groups(process.ids.groups.items())?;
    line.caps(&process.caps)?;
    line.line_feed()
}

fn put_objects(
    alloc: Global,
    line: &mut LineWriter,
    policy: &Policy,
    objects: &[WorldObject],
) -> Result<(), NoMemory>
    ensures text { OnOk result (line.new ≡ line.old ++ objects_text policy.now objects.now) }
    ensures in_range { OnOk result (AllByRecursion IsWrittenObject objects.now) }
{
    for object in objects {
        put_object(alloc, line, policy, object)?;
    }
    Ok(())
}

fn put_processes(
    line: &mut LineWriter,
    policy: &Policy,
    processes: &[WorldProc],
) -> Result<(), NoMemory>
    ensures text { OnOk result (line.new ≡ line.old ++ processes_text policy.now processes.now) }
    ensures in_range { OnOk result (AllByRecursion (λ process. IsWrittenIds process.ids) processes.now) }
{
    for process in processes {
        put_process(line, policy, process)?;
    }
    Ok(())
}

// The lines of the objects come before those of the processes.
#[tactic(auto, using(std::proofs::Common::append_assoc))]
fn put_objects_and_processes(
    alloc: Global,
    line: &mut LineWriter,
    policy: &Policy,
    objects: &[WorldObject],
    processes: &[WorldProc],
) -> Result<(), NoMemory>
    ensures text { OnOk result (line.new ≡ line.old ++ (objects_text policy.now objects.now ++ processes_text policy.now processes.now)) }
    ensures objects_in_range { OnOk result (AllByRecursion IsWrittenObject objects.now) }
    ensures processes_in_range { OnOk result (AllByRecursion (λ process. IsWrittenIds process.ids) processes.now) }
{
    put_objects(alloc, line, policy, objects)?;
    put_processes(line, policy, processes)?;
    Ok(())
}

// Appends the lines of the format, the names and the bound.
#[tactic(auto, using(crate::proofs::AppendLemmas::head_after))]
fn put_head(
    alloc: Global,
    line: &mut LineWriter,
    format: Format,
    policy: &Policy,
    bound: &CapSet,
) -> Result<(), NoMemory>
    ensures { OnOk result (line.new ≡ line.old ++ flat_map line_of (head_words format policy.now bound.now)) }
{
    let bound = set_to_text(alloc, bound)?;
    put_word_line(line, b"world", format.word())?;
    line.name_lists(policy)?;
    put_word_line(line, b"bound", bound.as_slice())
}

impl WorldText {
    /// The written form of a world, up to the line `script`.
    #[tactic(auto, unfolding(crate::specs::Written::line_of, crate::specs::Written::text_of_world))]
    pub fn write(&self) -> Result<Vec<u8>, NoMemory>
        ensures text { IfOk result (λ text. text.items ≡ text_of_world self.now) }
        // If no line is too long, the text is read as this world.
        ensures round_trip { IfOk result (λ text. IsWorldText self.now → HasShortLines self.now → read_text Two text.items ≡ reading_of self.now) }
    {
        // The names of its levels make a policy, which the clause `round_trip` needs.
        let _names = self.policy.levels();
        let alloc = self.policy.allocator();
        let mut line = LineWriter::new(alloc)?;
        put_head(
            alloc,
            &mut line,
            Format::Two,
            &self.policy,
            &self.world.bound,
        )?;
        put_objects_and_processes(
            alloc,
            &mut line,
            &self.policy,
            self.world.objects.items(),
            self.world.procs.items(),
        )?;
        line.bytes(b"script\n")?;
        Ok(line.into_text())
    }
}
