// What is wrong with a line.
ghost use Rattle.std.specs.Prelude.{◌≡◌};
ghost use Rattle.line_text.specs.Faults.{fault_word};

/// What is wrong with a line of a world, of a script or of a trail. Of several faults the first that is listed here counts; in a
/// line of levels, categories or grades `TooMany` counts before `Repeated`.
#[derive(Clone, Copy, Debug, PartialEq, Eq)]
pub enum LineFault {
    /// A line of the script has more than 2,048 bytes.
    TooLong,
    /// It is the line `world 1`, whole and of at most 2,048 bytes, where `world 2` is expected.
    OldFormat,
    /// It does not have the form of the line that is expected there, it is a line of the world and has more than 2,048 bytes
    /// or capabilities effective in a process that are not permitted, or the input ends inside it or before the world does.
    Syntax,
    /// A level, a category, a grade or a capability of the world is unknown.
    UnknownName,
    /// A level, a category, a grade or a path is given twice.
    Repeated,
    /// The path's parent is not given or is not a directory, or the root is not given.
    NoParent,
    /// The root is not a directory, or its label is not the lowest.
    RootLabel,
    /// The label does not dominate that of the path's parent.
    LabelOrder,
    /// There are more than 16 levels, 64 categories, 16 grades, 65,535 objects of a label or 4,095 processes of a label.
    TooMany,
    /// A file has some capabilities effective, but not all that are permitted or inheritable.
    MixedCaps,
    /// The tag is not a process.
    BadTag,
    /// A path of a call is invalid.
    BadPath,
    /// A label or a process of a call is invalid.
    BadLabel,
    /// A capability text of a call is invalid.
    BadCaps,
    /// The call asks for capability sets, where capabilities are narrowed to those that are needed.
    CapsAsked,
    /// The trail ends inside the line, or before its header does.
    Unended,
    /// It is not the line of the trail's header that is expected there, as the trail writes it.
    Header,
    /// It is not a record as the trail writes it, or its call's number is below that of the record before.
    Record,
}

impl LineFault {
    /// Its word.
    #[tactic(auto, unfolding(crate::specs::Faults::fault_word))]
    pub fn word(self) -> &'static [u8]
        ensures { result.now ≡ fault_word self }
    {
        match self {
            LineFault::TooLong => b"too_long",
            LineFault::OldFormat => b"old_format",
            LineFault::Syntax => b"syntax",
            LineFault::UnknownName => b"unknown_name",
            LineFault::Repeated => b"repeated",
            LineFault::NoParent => b"no_parent",
            LineFault::RootLabel => b"root_label",
            LineFault::LabelOrder => b"label_order",
            LineFault::TooMany => b"too_many",
            LineFault::MixedCaps => b"mixed_caps",
            LineFault::BadTag => b"bad_tag",
            LineFault::BadPath => b"bad_path",
            LineFault::BadLabel => b"bad_label",
            LineFault::BadCaps => b"bad_caps",
            LineFault::CapsAsked => b"caps_asked",
            LineFault::Unended => b"unended",
            LineFault::Header => b"header",
            LineFault::Record => b"record",
        }
    }
}
