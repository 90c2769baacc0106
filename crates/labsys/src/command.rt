// The commands of the program.
ghost use Rattle.std.specs.Prelude.{◌≡◌, ◌≤◌, IfOk, IfSome};
ghost use Rattle.labsys.specs.Commands.{FitsCommand, command_in, command_of, commands, lines_of, reads_source, writes_trail};

use fs_path::numeral;
use gen_world::MAX_LINES;
use lab_usage::{GivenWords, words_given};
use std::alloc::{AllocError, Global};
use std::marker::Model;

/// The argument of `view` or `select`. A contract sees it as its bytes.
#[derive(Drop)]
pub struct Argument<'a> {
    bytes: &'a [u8],
}

impl<'a> Model for Argument<'a> {
    ghost use Rattle.std.specs.Prelude.{ℕ, List};

    ghost Value = { List ℕ };

    ghost view = { λ w. w.bytes.now };
}

impl<'a> Argument<'a> {
    // The argument with these bytes.
    fn new(bytes: &'a [u8]) -> Argument<'a>
        ensures { result ≡ bytes.now }
    {
        Argument { bytes }
    }

    /// Its bytes.
    pub fn bytes(&self) -> &[u8]
        ensures { result.now ≡ self.now }
    {
        self.bytes
    }
}

/// A command that reads an input: a world, and what follows it.
#[derive(Drop)]
pub enum InputCommand<'a> {
    /// `play FILE` plays the world and the script that the source holds: the records of each call go to the trail, and
    /// then its reply to the output.
    Play,
    /// `sched FILE` plays the world and the programs that the source holds, in turns by label, and writes the same of
    /// each call.
    Sched,
    /// `check` reads the world and the script that the source holds, plays nothing, and writes how many objects,
    /// processes and calls there are.
    Check,
    /// `view LABEL` plays the world and the script that the source holds, and writes what the label sees of it.
    View(Argument<'a>),
    /// `upgrade` reads the world and the script of the old format that the source holds, and writes them in the format
    /// of today.
    Upgrade,
    /// `least` plays the world and the script that the source holds, and writes the world without the capabilities that
    /// were not needed.
    Least,
    /// `never` reads the world and the script that the source holds, plays nothing, and writes what no script can do in
    /// that world: the capabilities that none exercises, and the labels that nothing ever crosses.
    Never,
}

/// A command.
#[derive(Drop)]
pub enum Command<'a> {
    /// A command that reads an input from the source.
    OnInput(InputCommand<'a>),
    /// `gen N` writes the generated input of N lines.
    Gen(u32),
    /// `drill N` plays the generated input of N lines, and writes how its calls were answered.
    Drill(u32),
    /// `select SPEC` reads the trail that the source holds, and writes the records that SPEC picks as lines of JSON.
    Select(Argument<'a>),
    /// `lineage` reads the trail that the source holds, and writes whether each record may follow those before it.
    Lineage,
}

impl<'a> Command<'a> {
    /// Whether it reads the source.
    pub fn reads_source(&self) -> bool
        ensures { result ≡ reads_source self.now }
    {
        !matches!(self, Command::Gen(_) | Command::Drill(_))
    }

    /// Whether it writes to the trail.
    pub fn writes_trail(&self) -> bool
        ensures { result ≡ writes_trail self.now }
    {
        matches!(
            self,
            Command::OnInput(InputCommand::Play | InputCommand::Sched)
        )
    }
}

// How many lines a word asks for: 1 to 6 digits, of a value from 1 to 100,000.
fn lines_of(word: &[u8]) -> Option<u32>
    ensures lines { result ≡ lines_of word.now }
    ensures fits { IfSome result (λ n. (1 ≤ n) × (n ≤ MAX_LINES)) }
{
    let lines = numeral(word, 10, 6, 1, u64::from(MAX_LINES))?;
    Some(lines as u32)
}

// The command that a word and the argument after it name: the table of the commands.
fn command_named<'a>(given: &GivenWords<'a>) -> Option<Command<'a>>
    ensures command { result ≡ command_in commands given.now }
    ensures fits { IfSome result FitsCommand }
{
    match (given.command(), given.argument()) {
        ("play", Some(_)) => Some(Command::OnInput(InputCommand::Play)),
        ("sched", Some(_)) => Some(Command::OnInput(InputCommand::Sched)),
        ("view", Some(label)) => {
            Some(Command::OnInput(InputCommand::View(Argument::new(label.as_bytes()))))
        },
        ("check", None) => Some(Command::OnInput(InputCommand::Check)),
        ("gen", Some(number)) => Some(Command::Gen(lines_of(number.as_bytes())?)),
        ("drill", Some(number)) => Some(Command::Drill(lines_of(number.as_bytes())?)),
        ("upgrade", None) => Some(Command::OnInput(InputCommand::Upgrade)),
        ("least", None) => Some(Command::OnInput(InputCommand::Least)),
        ("never", None) => Some(Command::OnInput(InputCommand::Never)),
        ("select", Some(spec)) => Some(Command::Select(Argument::new(spec.as_bytes()))),
        ("lineage", None) => Some(Command::Lineage),
        _ => None,
    }
}

/// The command that the arguments name. FILE is not opened.
pub fn command_of(alloc: Global, words: &[String]) -> Result<Option<Command<'_>>, AllocError>
    ensures command { IfOk result (λ command. command ≡ command_of words.now) }
    ensures fits { IfOk result (λ command. IfSome command FitsCommand) }
{
    match words_given(alloc, words)? {
        Some(given) => Ok(command_named(&given)),
        None => Ok(None),
    }
}
