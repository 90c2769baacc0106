// The lines of the output other than replies.
ghost use Rattle.std.specs.Prelude.{◌≡◌, ◌++◌, IfOk, OnOk};
ghost use Rattle.fs_path.specs.Words.{line_text};
ghost use Rattle.lab_engine.specs.Texts.{life_text, command_word_text, part_text, last_text, last_words};

use crate::{CommandWord, InputEnd, Part};
use cap_bits::CapState;
use kern_model::{NoMemory, Pid};
use lab_lattice::Label;
use lab_text::Policy;
use line_text::LineWriter;
use std::alloc::Global;

/// What writing a line takes: memory, and the names of the world's labels.
#[derive(Clone, Copy)]
pub struct Texts<'a> {
    pub alloc: Global,
    pub policy: &'a Policy,
}

impl Part {
    /// Its word in a last line.
    #[tactic(auto, unfolding(crate::specs::Texts::part_text))]
    pub fn word(self) -> &'static [u8]
        ensures { result.now ≡ part_text self }
    {
        match self {
            Part::World => b"world",
            Part::Script => b"script",
            Part::Trail => b"trail",
        }
    }
}

impl CommandWord {
    /// Its word in a last line.
    #[tactic(auto, unfolding(crate::specs::Texts::command_word_text))]
    pub fn word(self) -> &'static [u8]
        ensures { result.now ≡ command_word_text self }
    {
        match self {
            CommandWord::View => b"view",
            CommandWord::Select => b"select",
        }
    }
}

/// The end line of a process that lives at the end, with its label and its capability sets.
#[tactic(auto, unfolding(crate::specs::Texts::life_text))]
pub fn end_line(
    texts: Texts<'_>,
    who: &Pid,
    label: &Label,
    caps: &CapState,
) -> Result<Vec<u8>, NoMemory>
    ensures { IfOk result (λ text. text.items ≡ life_text texts.entry.policy.now who.now label.now caps.now) }
{
    let mut line = LineWriter::new(texts.alloc)?;
    line.bytes(b"end")?;
    line.pid(texts.policy, who)?;
    line.label(texts.policy, label)?;
    line.caps(caps)?;
    line.line_feed()?;
    Ok(line.into_text())
}

// Appends the words of the last line.
fn put_last(line: &mut LineWriter, count: u64, ending: InputEnd) -> Result<(), NoMemory>
    ensures { OnOk result (line.new ≡ line.old ++ line_text (last_words count ending)) }
{
    match ending {
        InputEnd::Whole => {
            line.bytes(b"done ")?;
            line.digits(count)
        }
        InputEnd::Refused(number, part, why) => {
            line.bytes(b"refused ")?;
            line.digits(number)?;
            line.word(part.word())?;
            line.word(why.word())
        }
        InputEnd::RefusedWord(word, why) => {
            line.bytes(b"refused 0")?;
            line.word(word.word())?;
            line.word(why.word())
        }
        InputEnd::TooMuch => line.bytes(b"too long"),
    }
}

/// The last line, after `count` calls.
#[tactic(auto, unfolding(crate::specs::Texts::last_text))]
pub fn last_line(alloc: Global, count: u64, ending: InputEnd) -> Result<Vec<u8>, NoMemory>
    ensures { IfOk result (λ text. text.items ≡ last_text count ending) }
{
    let mut line = LineWriter::new(alloc)?;
    put_last(&mut line, count, ending)?;
    line.line_feed()?;
    Ok(line.into_text())
}
