// The names that a world gives to levels, categories and grades.
ghost use Rattle.std.specs.Prelude.{◌≡◌, ◌-◌, ◌≤◌, ◌&&◌, ◌==◌, nat_lt, true, length, MatchResult, IfOk, IfErr, IfSome};
ghost use Rattle.std.specs.FinSet as set;
ghost use Rattle.std.specs.List.{list_any, list_all, range_with_len};
ghost use Rattle.std.specs.Option.{option_map};
ghost use Rattle.lab_lattice.specs.Cats.{one_cat};
ghost use Rattle.lab_lattice.specs.Label.{bottom};
ghost use Rattle.lab_text.specs.Lists.{all_lists, limit_of, needs_names};
ghost use Rattle.lab_text.specs.Names.{same_bytes, is_label_name, are_distinct, place_of};
ghost use Rattle.lab_text.specs.Policy.{names_of, with_names, no_names, names_fault, MakeNone, MakePolicy, grade_at, lowest_grade, top_of, is_valid};

use crate::names::is_label_name;
use crate::{NameList, NoMemory, Word};
use fs_path::List;
use lab_lattice::{Cats, Dual, Grade, Label, Lattice, Level, Pair};
use std::alloc::Global;
use std::marker::Model;

// The most grades that a policy has names for.
pub(crate) const MAX_GRADES: usize = 16;

/// Why names make no policy.
#[derive(Clone, Copy, Debug, PartialEq, Eq)]
pub enum PolicyError {
    /// There is no level.
    Empty,
    /// There are more than 16 levels, 64 categories or 16 grades.
    TooMany,
    /// A name has no bytes or more than 31, does not begin with a letter, or has a byte besides letters, digits, `_` and `-`.
    BadName,
    /// Two levels, two categories or two grades have one name.
    Repeated,
    /// Memory ran out.
    NoMemory(NoMemory),
}

/// The names of a policy, or of a part of one, list by list.
#[derive(Debug)]
pub struct PolicyNames {
    levels: Vec<Word>,
    cats: Vec<Word>,
    grades: Vec<Word>,
}

impl Drop for PolicyNames {
    fn drop(self) {
        let PolicyNames {
            levels: _,
            cats: _,
            grades: _,
        } = self;
    }
}

impl Model for PolicyNames {
    ghost use Rattle.lab_text.specs.Policy.{PolicyNames};

    ghost Value = { PolicyNames };

    ghost view = { λ p. record { levels = p.levels.items; cats = p.cats.items; grades = p.grades.items } };
}

/// The names of a world's levels, lowest first, of its categories, and of its grades, lowest first. The number of a level or a
/// category is its place in its list, from 0. The last grade has the number 15, the one before it 14, and so on; where no grade
/// has a name, there is the grade 15 alone.
#[derive(Debug)]
pub struct Policy {
    names: PolicyNames,
}

impl Drop for Policy {
    fn drop(self) {
        let Policy { names: _ } = self;
    }
}

impl Model for Policy {
    ghost use Rattle.lab_text.specs.Policy.{PolicyNames, MakePolicy};

    ghost Value = { PolicyNames };

    ghost view = { λ p. p.names };

    ghost invariant = { λ p. MakePolicy p.names };
}

fn has_name(names: &[Word], name: &[u8]) -> bool
    ensures { result ≡ list_any (same_bytes name.now) names.now }
{
    names.iter().any(|word| name == word.bytes())
}

// Whether two names are equal. Those of one list often differ in their last bytes alone, so these are compared first.
fn are_equal(name: &[u8], other: &[u8]) -> bool
    ensures { result ≡ same_bytes name.now other.now }
{
    name.last() == other.last() && name == other
}

fn place_of(names: &[Word], name: &[u8]) -> Option<usize>
    ensures { result ≡ place_of names.now name.now }
{
    names.iter().position(|word| are_equal(name, word.bytes()))
}

/// Whether levels, categories or grades may have these names.
pub fn are_label_names(names: &[Word]) -> bool
    ensures { result ≡ list_all is_label_name names.now }
{
    names.iter().all(|word| is_label_name(word.bytes()))
}

// Whether no two names are equal.
fn are_distinct(names: &[Word]) -> bool
    ensures { result ≡ are_distinct names.now }
{
    match names {
        [first, rest @ ..] => !has_name(rest, first.bytes()) && are_distinct(rest),
        [] => true,
    }
}

// The names of each list, lent.
#[derive(Drop)]
struct LentNames<'a> {
    levels: &'a [Word],
    cats: &'a [Word],
    grades: &'a [Word],
}

impl<'a> Model for LentNames<'a> {
    ghost use Rattle.lab_text.specs.Policy.{PolicyNames};

    ghost Value = { PolicyNames };

    ghost view = { λ p. record { levels = p.levels.now; cats = p.cats.now; grades = p.grades.now } };
}

impl LentNames<'_> {
    fn names(&self, list: NameList) -> &[Word]
        ensures { result.now ≡ names_of self.now list }
    {
        match list {
            NameList::Levels => self.levels,
            NameList::Categories => self.cats,
            NameList::Grades => self.grades,
        }
    }

    // Whether a list that has to have a name has none.
    fn lacks_names(&self) -> bool
        ensures { result ≡ list_any (λ list. needs_names list && length (names_of self.now list) == 0) all_lists }
    {
        NameList::ALL
            .iter()
            .any(|list| list.needs_names() && self.names(*list).is_empty())
    }

    // Whether a list has more names than it may have.
    fn has_too_many(&self) -> bool
        ensures { result ≡ list_any (λ list. nat_lt (limit_of list) (length (names_of self.now list))) all_lists }
    {
        NameList::ALL
            .iter()
            .any(|list| self.names(*list).len() > list.limit())
    }

    // Whether each name can be the name of a level, a category or a grade.
    fn are_label_names(&self) -> bool
        ensures { result ≡ list_all (λ list. list_all is_label_name (names_of self.now list)) all_lists }
    {
        NameList::ALL
            .iter()
            .all(|list| are_label_names(self.names(*list)))
    }

    // Whether no two names of a list are equal.
    fn are_distinct(&self) -> bool
        ensures { result ≡ list_all (λ list. are_distinct (names_of self.now list)) all_lists }
    {
        NameList::ALL
            .iter()
            .all(|list| are_distinct(self.names(*list)))
    }

    // Why the names make no policy, if they make none.
    #[tactic(auto, unfolding(crate::specs::Policy::names_fault))]
    fn fault(&self) -> Option<PolicyError>
        ensures { result ≡ names_fault self.now }
    {
        if self.lacks_names() {
            return Some(PolicyError::Empty);
        }
        if self.has_too_many() {
            return Some(PolicyError::TooMany);
        }
        if !self.are_label_names() {
            return Some(PolicyError::BadName);
        }
        if !self.are_distinct() {
            return Some(PolicyError::Repeated);
        }
        None
    }
}

fn copies(alloc: Global, words: &[Word]) -> Result<Vec<Word>, NoMemory>
    ensures { IfOk result (λ copies. copies.items ≡ words.now) }
{
    let mut copies = Vec::new(alloc);
    for word in words {
        copies.push(Word::new(alloc, word.bytes())?)?;
    }
    Ok(copies)
}

// The lowest grade of the policy.
fn lowest_grade(policy: &Policy) -> Grade
    ensures { result ≡ lowest_grade policy.now.grades }
{
    let names = policy.grades();
    if names.is_empty() {
        return Grade::highest();
    }
    Grade::new((MAX_GRADES - names.len()) as u8).unwrap()
}

// The categories with numbers below `n`.
fn cats_below(n: u8) -> Cats
    requires { n ≤ 64 }
    ensures { result ≡ set.from_list (range_with_len 0 n) }
{
    let mut cats = Cats::empty();
    for i in 0..n {
        cats = cats.lub(&Cats::one(i).unwrap());
    }
    cats
}

impl PolicyNames {
    /// No names in any list.
    pub fn empty(alloc: Global) -> PolicyNames
        ensures { result ≡ no_names }
    {
        PolicyNames {
            levels: Vec::new(alloc),
            cats: Vec::new(alloc),
            grades: Vec::new(alloc),
        }
    }

    /// Puts names in a list, in place of those that it has.
    pub fn put(&mut self, list: NameList, names: List<Word>)
        ensures { self.new ≡ with_names self.old list names }
    {
        match list {
            NameList::Levels => self.levels = names.into_vec(),
            NameList::Categories => self.cats = names.into_vec(),
            NameList::Grades => self.grades = names.into_vec(),
        }
    }

    /// The names in a list.
    pub fn names(&self, list: NameList) -> &[Word]
        ensures { result.now ≡ names_of self.now list }
    {
        match list {
            NameList::Levels => self.levels.as_slice(),
            NameList::Categories => self.cats.as_slice(),
            NameList::Grades => self.grades.as_slice(),
        }
    }

    /// Why the names make no policy, if they make none. Of the errors of `PolicyError` the first that applies is returned.
    pub fn fault(&self) -> Option<PolicyError>
        ensures { result ≡ names_fault self.now }
    {
        LentNames {
            levels: self.levels.as_slice(),
            cats: self.cats.as_slice(),
            grades: self.grades.as_slice(),
        }
        .fault()
    }

    /// The policy of names that have no fault.
    pub fn into_policy(self) -> Policy
        requires { MakePolicy self }
        ensures { result ≡ self }
    {
        Policy { names: self }
    }
}

impl Policy {
    /// The policy of these names. Of the errors of `PolicyError` the first that applies is returned.
    pub fn new(
        alloc: Global,
        levels: &[Word],
        cats: &[Word],
        grades: &[Word],
    ) -> Result<Policy, PolicyError>
        ensures names { IfOk result (λ policy. policy ≡ record { levels = levels.now; cats = cats.now; grades = grades.now }) }
        ensures policy { IfOk result MakePolicy }
        ensures none { IfErr result (MakeNone (record { levels = levels.now; cats = cats.now; grades = grades.now })) }
    {
        let lent = LentNames {
            levels,
            cats,
            grades,
        };
        if let Some(fault) = lent.fault() {
            return Err(fault);
        }
        let levels = copies(alloc, levels).map_err(PolicyError::NoMemory)?;
        let cats = copies(alloc, cats).map_err(PolicyError::NoMemory)?;
        let grades = copies(alloc, grades).map_err(PolicyError::NoMemory)?;
        let names = PolicyNames {
            levels,
            cats,
            grades,
        };
        Ok(names.into_policy())
    }

    /// The allocator of its names.
    pub fn allocator(&self) -> Global {
        *self.names.levels.allocator()
    }

    /// The names of the levels, lowest first.
    pub fn levels(&self) -> &[Word]
        ensures names { result.now ≡ self.now.levels }
        ensures policy { MakePolicy self.now }
    {
        self.names.levels.as_slice()
    }

    /// The names of the categories.
    pub fn cats(&self) -> &[Word]
        ensures names { result.now ≡ self.now.cats }
        ensures policy { MakePolicy self.now }
    {
        self.names.cats.as_slice()
    }

    /// The names of the grades, lowest first.
    pub fn grades(&self) -> &[Word]
        ensures names { result.now ≡ self.now.grades }
        ensures policy { MakePolicy self.now }
    {
        self.names.grades.as_slice()
    }

    /// The names in a list.
    pub fn names(&self, list: NameList) -> &[Word]
        ensures names { result.now ≡ names_of self.now list }
        ensures policy { MakePolicy self.now }
    {
        self.names.names(list)
    }

    /// Its names, list by list.
    pub fn into_names(self) -> PolicyNames
        ensures names { result ≡ self }
        ensures policy { MakePolicy result }
    {
        let Policy { names } = self;
        names
    }

    // The level with this name.
    pub(crate) fn level_named(&self, name: &[u8]) -> Option<Level>
        ensures place { result ≡ place_of self.now.levels name.now }
        ensures name { IfSome result (λ _. is_label_name name.now ≡ true) }
    {
        let place = place_of(self.levels(), name)?;
        Level::new(place as u8)
    }

    // The category with this name, alone.
    pub(crate) fn cat_named(&self, name: &[u8]) -> Option<Cats>
        ensures { result ≡ option_map one_cat (place_of self.now.cats name.now) }
    {
        let place = place_of(self.cats(), name)?;
        Cats::one(place as u8)
    }

    // The grade with this name.
    pub(crate) fn grade_named(&self, name: &[u8]) -> Option<Grade>
        ensures { result ≡ option_map (grade_at self.now.grades) (place_of self.now.grades name.now) }
    {
        let names = self.grades();
        let place = place_of(names, name)?;
        Grade::new((MAX_GRADES - names.len() + place) as u8)
    }
}

/// The lowest level with no category and the highest grade.
pub fn bottom(policy: &Policy) -> Label
    ensures { result ≡ bottom }
{
    lab_lattice::bottom()
}

/// The highest level of the policy with all its categories and its lowest grade.
pub fn top(policy: &Policy) -> Label
    ensures { result ≡ top_of policy.now }
{
    let highest = policy.levels().len() - 1;
    Pair {
        first: Pair {
            first: Level::new(highest as u8).unwrap(),
            second: cats_below(policy.cats().len() as u8),
        },
        second: Dual {
            inner: lowest_grade(policy),
        },
    }
}

/// Whether the policy's top dominates the label. The program does not call it.
pub fn mac_valid(policy: &Policy, label: &Label) -> bool
    ensures { result ≡ is_valid policy.now label.now }
{
    top(policy).dominates(label)
}
