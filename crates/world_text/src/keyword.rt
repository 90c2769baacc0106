// The keywords of the lines after the head.
ghost use Rattle.std.specs.Prelude.{◌≡◌};
ghost use Rattle.world_text.specs.Keywords.{keyword_word, keyword_named, keyword_of, IsKeywordOf};

use fs_path::LineWord;

/// The keyword of a line after the head.
#[derive(Clone, Copy)]
pub enum Keyword {
    Dir,
    File,
    Fifo,
    Proc,
    Script,
}

const KEYWORDS: [Keyword; 5] = [
    Keyword::Dir,
    Keyword::File,
    Keyword::Fifo,
    Keyword::Proc,
    Keyword::Script,
];

// The keyword with these bytes.
#[tactic(auto, unfolding(kern_model::specs::Named::find_named))]
fn keyword_named(bytes: &[u8]) -> Option<Keyword>
    ensures { result ≡ keyword_named bytes.now }
{
    KEYWORDS
        .iter()
        .copied()
        .find(|keyword| bytes == keyword.word())
}

impl Keyword {
    /// The keyword that a word is. A word between quotes is none.
    pub fn from_word(word: &LineWord<'_>) -> Option<Keyword>
        ensures found { result ≡ keyword_of word.now }
        ensures exact { IsKeywordOf word.now result }
    {
        if word.quoted {
            return None;
        }
        keyword_named(word.bytes.items())
    }

    // Its word.
    fn word(self) -> &'static [u8]
        ensures { result.now ≡ keyword_word self }
    {
        match self {
            Keyword::Dir => b"dir",
            Keyword::File => b"file",
            Keyword::Fifo => b"fifo",
            Keyword::Proc => b"proc",
            Keyword::Script => b"script",
        }
    }
}
