// The formats of worlds.
ghost use Rattle.std.specs.Prelude.{◌≡◌};
ghost use Rattle.kern_model.specs.Named.{IsFoundBy};
ghost use Rattle.world_text.specs.Formats.{format_word, format_named};

/// A format of worlds. The first line of a world names it, and all others are read alike in each.
#[derive(Clone, Copy)]
pub enum Format {
    /// The old format, `world 1`.
    One,
    /// The format of today, `world 2`.
    Two,
}

const FORMATS: [Format; 2] = [Format::One, Format::Two];

impl Format {
    /// The format with this word.
    #[tactic(auto, unfolding(kern_model::specs::Named::find_named))]
    pub fn from_word(word: &[u8]) -> Option<Format>
        ensures found { result ≡ format_named word.now }
        ensures exact { IsFoundBy format_word word.now result }
    {
        FORMATS.iter().copied().find(|format| word == format.word())
    }

    /// Its word.
    pub fn word(self) -> &'static [u8]
        ensures { result.now ≡ format_word self }
    {
        match self {
            Format::One => b"1",
            Format::Two => b"2",
        }
    }
}
