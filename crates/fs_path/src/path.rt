// Paths.
ghost use Rattle.std.specs.Prelude.{◌≡◌, ◌+◌, ◌==◌, ◌<◌, ◌≤◌, ◌^◌, ◌∷◌, ◌++◌, [], IfOk, IfErr, OnOk, None, true, cond, length};
ghost use Rattle.std.specs.List.{list_all};
ghost use Rattle.fs_path.specs.Name.{is_name};
ghost use Rattle.fs_path.specs.Path.{written_len};
ghost use Rattle.fs_path.specs.PathText.{names_of, components_of, is_empty_or_dot, starts_badly, component_fault, first_fault, path_fault, parse_path, Says, IsNoPath, has_no_slash, counted_component};

use crate::name::MAX_NAME;
use crate::split::{find_byte, first_piece};
use crate::{List, Name, NoMemory};
use std::alloc::Global;
use std::marker::Model;

const MAX_TEXT: usize = 1023;

const MAX_NAMES: usize = 32;

/// Names of a path, in order.
pub type NameList = List<Name>;

impl List<Name> {
    /// Makes the list a copy of these names. It keeps its memory.
    pub fn copy_from(&mut self, names: &[Name]) -> Result<(), NoMemory>
        ensures { OnOk result (self.new ≡ names.now) }
    {
        self.clear();
        for name in names {
            self.push(name.copy()?)?;
        }
        Ok(())
    }
}

/// A path: where it starts, and the names from there on. It has at most 32 names. Written with one `/` between names, and
/// one before them where it is absolute, it has at most 1,023 bytes.
#[derive(Debug)]
pub struct Path {
    /// Whether it starts at the root, and not at the current directory.
    pub absolute: bool,
    /// Its names, from the first on.
    pub names: NameList,
}

impl Drop for Path {
    fn drop(self) {
        let Path {
            absolute: _,
            names: _,
        } = self;
    }
}

impl Model for Path {
    ghost use Rattle.fs_path.specs.Path.{PathValue, HasForm};

    ghost Value = { PathValue };

    ghost view = { λ p. record { absolute = p.absolute; names = p.names } };

    ghost invariant = { λ p. HasForm p.absolute p.names };
}

/// Why a text is no path. Places are bytes of the text, from 0.
#[derive(Clone, Copy, Debug, PartialEq, Eq)]
pub enum PathError {
    /// It has no byte.
    Empty,
    /// It has more than 1,023 bytes.
    TooLong,
    /// A component that begins at this place has more than 63 bytes.
    NameTooLong(usize),
    /// A byte 0 is at this place, or a component `..` begins there.
    BadByte(usize),
    /// It has more than 32 components, besides those that are empty or `.`.
    TooDeep,
    /// Memory ran out.
    NoMemory(NoMemory),
}

impl From<NoMemory> for PathError {
    ghost use Rattle.std.specs.Prelude.{◌≡◌};
    ghost use Rattle.fs_path.specs.declared.path.PathError.TheVariants as error;

    ghost from_gives = { λ m e. e ≡ error.NoMemory m };

    fn from(value: NoMemory) -> Self {
        PathError::NoMemory(value)
    }
}

fn is_empty_or_dot(bytes: &[u8]) -> bool
    ensures { result ≡ is_empty_or_dot bytes.now }
{
    bytes.is_empty() || bytes == b".".as_slice()
}

// Whether bytes are `..`, or the first of them is 0.
fn starts_badly(bytes: &[u8]) -> bool
    ensures { result ≡ starts_badly bytes.now }
{
    bytes == b"..".as_slice() || bytes.starts_with(&[0])
}

// What is wrong with a component that begins at `at` and comes after `count` others.
#[tactic(auto, using(std::proofs::lemmas::Bool::Decides::nat_tests), unfolding(crate::specs::PathText::component_fault))]
fn component_fault(count: usize, at: usize, bytes: &[u8]) -> Option<PathError>
    requires { at + length bytes.now < 2 ^ 64 }
    ensures { result ≡ component_fault count (record { at = at; bytes = bytes.now }) }
{
    if bytes.len() > MAX_NAME {
        return Some(PathError::NameTooLong(at));
    }
    if starts_badly(bytes) {
        return Some(PathError::BadByte(at));
    }
    if count >= MAX_NAMES {
        return Some(PathError::TooDeep);
    }
    let place = find_byte(bytes, 0)?;
    Some(PathError::BadByte(at + place))
}

// Appends a component that begins at `at` to the names before it, if it counts.
#[tactic(auto, using(crate::proofs::PathLaws::is_name_without_fault))]
fn take_component(
    alloc: Global,
    names: &mut NameList,
    at: usize,
    bytes: &[u8],
) -> Result<(), PathError>
    requires within { at + length bytes.now < 2 ^ 64 }
    requires no_slash { has_no_slash bytes.now ≡ true }
    ensures names { OnOk result (names.new ≡ names.old ++ names_of (counted_component at bytes.now)) }
    ensures fine { OnOk result (first_fault (length names.old) (counted_component at bytes.now) ≡ None) }
    ensures fault { IfErr result (Says (first_fault (length names.old) (counted_component at bytes.now))) }
{
    if is_empty_or_dot(bytes) {
        return Ok(());
    }
    if let Some(fault) = component_fault(names.items().len(), at, bytes) {
        return Err(fault);
    }
    names.push(Name::of(alloc, bytes)?)?;
    Ok(())
}

// The names of a text's components.
#[tactic(auto, using(crate::proofs::PathLaws::written_pieces, crate::proofs::PathLaws::no_slash_before), unfolding(crate::specs::PathText::components_of))]
fn read_names(alloc: Global, text: &[u8]) -> Result<NameList, PathError>
    requires { length text.now ≤ 1023 }
    ensures names { IfOk result (λ names. names ≡ names_of (components_of text.now)) }
    ensures fine { OnOk result (first_fault 0 (components_of text.now) ≡ None) }
    ensures fault { IfErr result (Says (first_fault 0 (components_of text.now))) }
{
    let mut names = List::new(alloc);
    let mut at = 0;
    let mut left = Some(text);
    while let Some(rest) = left {
        let (component, more) = first_piece(rest, b'/');
        take_component(alloc, &mut names, at, component)?;
        at += component.len() + 1;
        left = more;
    }
    Ok(names)
}

impl Path {
    /// The path that a text denotes: names with slashes between them. Empty components and components `.` are left out,
    /// and the path is absolute where the text begins with `/`.
    #[tactic(auto, using(std::proofs::lemmas::Bool::Decides::nat_tests, crate::proofs::PathLaws::path_form), unfolding(crate::specs::PathText::path_fault, crate::specs::PathText::parse_path))]
    pub fn read(alloc: Global, text: &[u8]) -> Result<Path, PathError>
        ensures path { IfOk result (λ path. (path ≡ parse_path text.now) × (path_fault text.now ≡ None)) }
        ensures none { IfErr result (IsNoPath text.now) }
    {
        if text.is_empty() {
            return Err(PathError::Empty);
        }
        if text.len() > MAX_TEXT {
            return Err(PathError::TooLong);
        }
        let names = read_names(alloc, text)?;
        Ok(Path {
            absolute: text.starts_with(b"/"),
            names,
        })
    }

    /// The path of the root directory, which has no names.
    pub fn root(alloc: Global) -> Path
        ensures { result ≡ record { absolute = true; names = [] } }
    {
        Path {
            absolute: true,
            names: List::new(alloc),
        }
    }

    /// A copy of the path.
    pub fn copy(&self) -> Result<Path, NoMemory>
        ensures { IfOk result (λ path. path ≡ self.now) }
    {
        let mut names = List::with_capacity(self.names.allocator(), self.components().len())?;
        names.copy_from(self.components())?;
        Ok(Path {
            absolute: self.absolute,
            names,
        })
    }

    /// Its names, from the first on.
    pub fn components(&self) -> &[Name]
        ensures names { result.now ≡ self.now.names }
        ensures few { length result.now ≤ 32 }
        ensures named { list_all is_name result.now ≡ true }
        ensures short { written_len result.now ≤ 1023 + cond self.now.absolute 0 1 }
    {
        self.names.items()
    }
}
