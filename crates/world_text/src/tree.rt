// What the lines of the tree say: directories, files and FIFOs.
ghost use Rattle.std.specs.Prelude.{◌≡◌, IfOk};
ghost use Rattle.kern_model.specs.declared.objects.Body.TheVariants as body;
ghost use Rattle.world_text.specs.TreeLines.{absolute_path, object_fields_in, object_of, parse_tree, parse_plain, parse_file};
ghost use Rattle.world_text.specs.Values.{bytes_in, goes_on_unless};

use crate::NoMemory;
use crate::expecting::PartialWorld;
use crate::values::{WordValue, both, caps_of, label_of};
use cap_bits::{CapState, FileCaps};
use fs_path::{LineWord, Path, mode_of, number_of};
use kern_model::{Attr, Body, Gid, Mode, Uid, WorldObject};
use lab_lattice::Label;
use lab_text::Policy;
use line_text::{LineFault, path_of};
use std::alloc::Global;

// An absolute path. It is kept until the world is taken over, so it takes no more memory than its names need.
fn absolute_path(alloc: Global, word: &[u8]) -> Result<Option<Path>, NoMemory>
    ensures { IfOk result (λ path. path ≡ absolute_path word.now) }
{
    let mut path = path_of(alloc, word)?.filter(|path| path.absolute);
    if let Some(path) = &mut path {
        path.names.shrink_to_fit();
    }
    Ok(path)
}

/// What the words of a tree line stand for, up to the label.
#[derive(Drop)]
pub struct ObjectFields {
    path: Path,
    mode: Mode,
    owner: Uid,
    group: Gid,
    label: WordValue<Label>,
}

// `PATH MODE UID GID LABEL`.
#[tactic(auto, unfolding(crate::specs::TreeLines::object_fields_of))]
fn object_fields_in(
    alloc: Global,
    policy: &Policy,
    words: &[LineWord<'_>],
) -> Result<Option<ObjectFields>, NoMemory>
    ensures { IfOk result (λ parsed. parsed ≡ object_fields_in policy.now (bytes_in words.now)) }
{
    let [path, mode, uid, gid, label, ..] = words else {
        return Ok(None);
    };
    let Some(path) = absolute_path(alloc, path.bytes.items())? else {
        return Ok(None);
    };
    let Some(mode) = mode_of(mode.bytes.items()) else {
        return Ok(None);
    };
    let Some(owner) = number_of(uid.bytes.items()) else {
        return Ok(None);
    };
    let Some(group) = number_of(gid.bytes.items()) else {
        return Ok(None);
    };
    Ok(Some(ObjectFields {
        path,
        mode,
        owner,
        group,
        label: label_of(policy, label.bytes.items()),
    }))
}

// The object of a tree line.
fn object_of(fields: ObjectFields, label: Label, caps: FileCaps, body: Body) -> WorldObject
    ensures { result ≡ object_of fields label caps body }
{
    let ObjectFields {
        path,
        mode,
        owner,
        group,
        label: _,
    } = fields;
    let attr = Attr {
        owner,
        group,
        mode,
        caps,
    };
    WorldObject {
        path,
        label,
        attr,
        body,
    }
}

// A tree line whose first five words are these, with these capabilities and this body.
fn parse_tree(
    alloc: Global,
    so_far: &mut PartialWorld,
    words: &[LineWord<'_>],
    caps: WordValue<CapState>,
    body: Body,
) -> Result<Option<LineFault>, NoMemory>
    ensures { IfOk result (λ fault. goes_on_unless fault so_far.new ≡ parse_tree so_far.old (object_fields_in so_far.old.policy (bytes_in words.now)) caps body) }
{
    let Some(fields) = object_fields_in(alloc, &so_far.policy, words)? else {
        return Ok(Some(LineFault::Syntax));
    };
    match both(fields.label, caps) {
        WordValue::Malformed => Ok(Some(LineFault::Syntax)),
        WordValue::UnknownName => Ok(Some(LineFault::UnknownName)),
        WordValue::Known((label, state)) => {
            // A line whose capabilities are not uniform is refused, so those of its object are not looked at.
            let caps = FileCaps::from_state(&state);
            let object = object_of(fields, label, caps.unwrap_or(FileCaps::none()), body);
            so_far.parse_object(alloc, object, caps.is_some())
        }
    }
}

/// `dir PATH MODE UID GID LABEL` or `fifo PATH MODE UID GID LABEL`.
pub fn parse_plain(
    alloc: Global,
    so_far: &mut PartialWorld,
    words: &[LineWord<'_>],
    body: Body,
) -> Result<Option<LineFault>, NoMemory>
    ensures { IfOk result (λ fault. goes_on_unless fault so_far.new ≡ parse_plain so_far.old body (bytes_in words.now)) }
{
    if words.len() != 5 {
        return Ok(Some(LineFault::Syntax));
    }
    let caps = WordValue::Known(CapState::none());
    parse_tree(alloc, so_far, words, caps, body)
}

// A file with the bytes that a word stands for.
fn file_of(word: &LineWord<'_>) -> Result<Body, NoMemory>
    ensures { IfOk result (λ file. file ≡ body.File word.now.bytes) }
{
    Ok(Body::File(word.bytes.to_list()?))
}

/// `file PATH MODE UID GID LABEL BYTES [CAPS]`.
pub fn parse_file(
    alloc: Global,
    so_far: &mut PartialWorld,
    words: &[LineWord<'_>],
) -> Result<Option<LineFault>, NoMemory>
    ensures { IfOk result (λ fault. goes_on_unless fault so_far.new ≡ parse_file so_far.old (bytes_in words.now)) }
{
    if words.len() == 6 {
        let caps = WordValue::Known(CapState::none());
        let body = file_of(&words[5])?;
        return parse_tree(alloc, so_far, words, caps, body);
    }
    if words.len() == 7 {
        let caps = caps_of(words[6].bytes.items());
        let body = file_of(&words[5])?;
        return parse_tree(alloc, so_far, words, caps, body);
    }
    Ok(Some(LineFault::Syntax))
}
