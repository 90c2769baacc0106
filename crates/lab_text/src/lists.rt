// The lists of names that a policy has.
ghost use Rattle.std.specs.Prelude.{◌≡◌};
ghost use Rattle.lab_text.specs.Lists.{next_list, keyword_of, limit_of, needs_names, line_is_optional};

use crate::policy::MAX_GRADES;

/// A list of names that a policy has.
#[derive(Clone, Copy, Debug, PartialEq, Eq)]
pub enum NameList {
    /// The names of the levels, lowest first.
    Levels,
    /// The names of the categories.
    Categories,
    /// The names of the grades, lowest first. Without names there is one grade.
    Grades,
}

impl NameList {
    /// The lists in the order of their lines.
    pub const ALL: [NameList; 3] = [NameList::Levels, NameList::Categories, NameList::Grades];

    /// The list whose line comes next.
    pub fn next(self) -> Option<NameList>
        ensures { result ≡ next_list self }
    {
        match self {
            NameList::Levels => Some(NameList::Categories),
            NameList::Categories => Some(NameList::Grades),
            NameList::Grades => None,
        }
    }

    /// The word with which its line begins.
    pub fn keyword(self) -> &'static [u8]
        ensures { result.now ≡ keyword_of self }
    {
        match self {
            NameList::Levels => b"levels",
            NameList::Categories => b"categories",
            NameList::Grades => b"grades",
        }
    }

    // How many names it may have.
    pub(crate) fn limit(self) -> usize
        ensures { result ≡ limit_of self }
    {
        match self {
            NameList::Levels => 16,
            NameList::Categories => 64,
            NameList::Grades => MAX_GRADES,
        }
    }

    // Whether it has to have a name.
    pub(crate) fn needs_names(self) -> bool
        ensures { result ≡ needs_names self }
    {
        matches!(self, NameList::Levels)
    }

    /// Whether it has no line where it has no names.
    pub fn line_is_optional(self) -> bool
        ensures { result ≡ line_is_optional self }
    {
        matches!(self, NameList::Grades)
    }
}
