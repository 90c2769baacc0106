// What each line of a world says, by which line is due.
ghost use Rattle.std.specs.Prelude.{◌≡◌, IfOk, MatchOption, None, Some};
ghost use Rattle.lab_text.specs.Lists.{keyword_of};
ghost use Rattle.lab_text.specs.declared.lists.NameList.TheVariants.{Grades};
ghost use Rattle.world_text.specs.Expecting.{HasFaultOfWorld, world_of, after_keyword, parse_bound_line, parse_grades, parse_script, parse_tree_line, parse_words, parse_line};
ghost use Rattle.world_text.specs.Processes.{parse_process};
ghost use Rattle.world_text.specs.TreeLines.{parse_object};
ghost use Rattle.world_text.specs.Values.{bytes_in, goes_on_unless};

use crate::builder::WorldBuilder;
use crate::format::Format;
use crate::head::{parse_bound, parse_format, parse_names};
use crate::keyword::Keyword;
use crate::processes::parse_proc_line;
use crate::tree::{parse_file, parse_plain};
use crate::values::syntax;
use crate::{NoMemory, WorldText};
use cap_bits::CapSet;
use fs_path::{LineWord, is_blank, words_of};
use kern_model::limits::MAX_LINE;
use kern_model::{Body, World, WorldObject, WorldProc};
use lab_text::{NameList, Policy, PolicyNames, top};
use line_text::LineFault;
use std::alloc::Global;

/// Which line of a world is due, and what the lines before it gave. Blank lines and comments may stand before each.
pub enum Expecting {
    /// The line of this format, with which the reading of a world begins.
    Format(Format),
    /// The names of a list, after these of the lists before it, in a world of this format.
    Names(Format, NameList, PolicyNames),
    /// The names of the grades, or the bound of a world that has none, after the names of this policy.
    Grades(Format, Policy),
    /// The bound, after the names of this policy.
    Bound(Format, Policy),
    /// A tree line, a process or the beginning of the script, after this part of the world.
    Tree(PartialWorld),
}

// Written out, here and below, so that a drop is one call.
impl Drop for Expecting {
    fn drop(self) {
        match self {
            Expecting::Format(_) | Expecting::Names(_, _, _) => {}
            Expecting::Grades(_, _) | Expecting::Bound(_, _) => {}
            Expecting::Tree(_) => {}
        }
    }
}

/// A world of which the head is read, with the objects and processes so far.
pub struct PartialWorld {
    pub(crate) format: Format,
    pub(crate) policy: Policy,
    pub(crate) bound: CapSet,
    pub(crate) builder: WorldBuilder,
}

impl Drop for PartialWorld {
    fn drop(self) {
        let PartialWorld {
            format: _,
            policy: _,
            bound: _,
            builder: _,
        } = self;
    }
}

/// What comes of a line of a world.
#[derive(Drop)]
pub enum Parsed {
    /// The line is refused, and so is the text.
    Refuses(LineFault),
    /// The line is read, or it is blank, and this is due in the next one.
    GoesOn(Expecting),
    /// The line was the last of this world, and the script begins with the next one.
    Begins(WorldText),
}

impl PartialWorld {
    // Puts an object after those before it, if it has no fault. Whether its capabilities are uniform is judged last.
    pub(crate) fn parse_object(
        &mut self,
        alloc: Global,
        object: WorldObject,
        uniform: bool,
    ) -> Result<Option<LineFault>, NoMemory>
        ensures { IfOk result (λ fault. goes_on_unless fault self.new ≡ parse_object self.old object uniform) }
    {
        let spot = self.builder.spot_of(&object);
        match self.builder.object_fault(&object, &spot) {
            Some(fault) => Ok(Some(fault)),
            None if !uniform => Ok(Some(LineFault::MixedCaps)),
            None => {
                self.builder.put_object(alloc, object, &spot)?;
                Ok(None)
            }
        }
    }

    // Puts a process after those before it, if it has no fault.
    pub(crate) fn parse_process(
        &mut self,
        alloc: Global,
        process: WorldProc,
    ) -> Result<Option<LineFault>, NoMemory>
        ensures { IfOk result (λ fault. goes_on_unless fault self.new ≡ parse_process self.old process) }
    {
        match self.builder.process_fault(&process) {
            Some(fault) => Ok(Some(fault)),
            None => {
                self.builder.put_process(alloc, process)?;
                Ok(None)
            }
        }
    }

    fn into_world(self) -> WorldText
        ensures { result ≡ world_of self }
    {
        let PartialWorld {
            format: _,
            policy,
            bound,
            builder,
        } = self;
        let (objects, procs) = builder.into_lists();
        let world = World {
            top: top(&policy),
            bound,
            objects,
            procs,
        };
        WorldText { policy, world }
    }
}

// The words after a keyword, which is bare.
fn after_keyword<'a, 'w>(keyword: &[u8], words: &'a [LineWord<'w>]) -> Option<&'a [LineWord<'w>]>
    ensures { MatchOption result (after_keyword keyword.now words.now ≡ None) (λ rest. after_keyword keyword.now words.now ≡ Some (bytes_in rest.now)) }
{
    let [first, rest @ ..] = words else {
        return None;
    };
    if first.quoted || first.bytes.items() != keyword {
        return None;
    }
    Some(rest)
}

// `bound SET`.
fn parse_bound_line(
    alloc: Global,
    format: Format,
    policy: Policy,
    words: &[LineWord<'_>],
) -> Result<Parsed, NoMemory>
    ensures { IfOk result (λ parsed. parsed ≡ parse_bound_line format policy words.now) }
{
    match after_keyword(b"bound", words) {
        Some(words) => parse_bound(alloc, format, policy, words),
        None => Ok(syntax()),
    }
}

// `grades NAME ...`, or `bound SET` of a world without grades.
fn parse_grades_line(
    alloc: Global,
    format: Format,
    policy: Policy,
    words: &[LineWord<'_>],
) -> Result<Parsed, NoMemory>
    ensures { IfOk result (λ parsed. parsed ≡ parse_grades format policy (after_keyword (keyword_of Grades) words.now) words.now) }
{
    match after_keyword(NameList::Grades.keyword(), words) {
        Some(names) if !names.is_empty() => parse_names(
            alloc,
            format,
            NameList::Grades,
            policy.into_names(),
            names,
        ),
        _ => parse_bound_line(alloc, format, policy, words),
    }
}

// `script`.
fn parse_script(so_far: PartialWorld, words: &[LineWord<'_>]) -> Parsed
    ensures { result ≡ parse_script so_far (bytes_in words.now) }
{
    if !words.is_empty() || so_far.builder.is_empty() {
        return syntax();
    }
    Parsed::Begins(so_far.into_world())
}

// What comes of a tree line with this fault, if it has one.
fn goes_on_unless(fault: Option<LineFault>, so_far: PartialWorld) -> Parsed
    ensures { result ≡ goes_on_unless fault so_far }
{
    match fault {
        Some(fault) => Parsed::Refuses(fault),
        None => Parsed::GoesOn(Expecting::Tree(so_far)),
    }
}

// A tree line, a process or the beginning of the script.
fn parse_tree_line(
    alloc: Global,
    so_far: PartialWorld,
    words: &[LineWord<'_>],
) -> Result<Parsed, NoMemory>
    ensures { IfOk result (λ parsed. parsed ≡ parse_tree_line so_far words.now) }
{
    let [first, words @ ..] = words else {
        return Ok(syntax());
    };
    let mut so_far = so_far;
    match Keyword::from_word(first) {
        Some(Keyword::Dir) => {
            let fault = parse_plain(alloc, &mut so_far, words, Body::Dir)?;
            Ok(goes_on_unless(fault, so_far))
        }
        Some(Keyword::File) => {
            let fault = parse_file(alloc, &mut so_far, words)?;
            Ok(goes_on_unless(fault, so_far))
        }
        Some(Keyword::Fifo) => {
            let fault = parse_plain(alloc, &mut so_far, words, Body::Fifo)?;
            Ok(goes_on_unless(fault, so_far))
        }
        Some(Keyword::Proc) => {
            let fault = parse_proc_line(alloc, &mut so_far, words)?;
            Ok(goes_on_unless(fault, so_far))
        }
        Some(Keyword::Script) => Ok(parse_script(so_far, words)),
        None => Ok(syntax()),
    }
}

impl Expecting {
    // What the words of the line say that is due.
    #[tactic(auto, unfolding(crate::specs::Expecting::parse_words))]
    fn parse_words(self, alloc: Global, words: &[LineWord<'_>]) -> Result<Parsed, NoMemory>
        ensures { IfOk result (λ parsed. parsed ≡ parse_words self words.now) }
    {
        match self {
            Expecting::Format(due) => match after_keyword(b"world", words) {
                Some(words) => Ok(parse_format(alloc, due, words)),
                None => Ok(syntax()),
            },
            Expecting::Names(format, list, names) => match after_keyword(list.keyword(), words) {
                Some(words) => parse_names(alloc, format, list, names, words),
                None => Ok(syntax()),
            },
            Expecting::Grades(format, policy) => parse_grades_line(alloc, format, policy, words),
            Expecting::Bound(format, policy) => parse_bound_line(alloc, format, policy, words),
            Expecting::Tree(so_far) => parse_tree_line(alloc, so_far, words),
        }
    }
}

/// What a line, without its line feed, says of a world of which this is due. The reading begins with
/// `Expecting::Format`, and goes on with what each line gives.
#[tactic(auto, using(std::proofs::lemmas::Bool::Decides::nat_tests), unfolding(crate::specs::Expecting::parse_line))]
pub fn parse_line(alloc: Global, expecting: Expecting, line: &[u8]) -> Result<Parsed, NoMemory>
    ensures says { IfOk result (λ parsed. parsed ≡ parse_line expecting line.now) }
    ensures fault { IfOk result HasFaultOfWorld }
{
    if line.len() > MAX_LINE {
        return Ok(syntax());
    }
    if is_blank(line) {
        return Ok(Parsed::GoesOn(expecting));
    }
    match words_of(alloc, line)? {
        Some(words) => expecting.parse_words(alloc, words.items()),
        None => Ok(syntax()),
    }
}
