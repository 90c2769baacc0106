//! The command line: what its words give, and its help.
#![tactic(auto)]

ghost use Rattle.std.specs.Prelude.{◌≡◌, IfOk, codes, option_map, string_bytes};
ghost use Rattle.std.specs.List.{list_all};
ghost use Rattle.clap.specs.Words.{app_of, first_value, found_of};
ghost use Rattle.lab_usage.specs.CommandLine.{command_line};
ghost use Rattle.lab_usage.specs.Words.{given_words, is_argument};

mod commands;
mod mistakes;

use clap::error::ErrorKind;
use clap::{Arg, ArgMatches, Command};
use commands::details_of_commands;
pub use mistakes::mistake;
use std::alloc::{AllocError, Global};
use std::marker::Model;

const ABOUT: &str = "A simulated kernel that plays scripts of system calls";

const NOTES: &str = "\
As the only word, --help prints this text, and --version the version.

Exit status:
  0  done
  1  the words name no command
  2  a line of standard input, or LABEL or SPEC, is refused
  3  a read of standard input failed
  4  a write to standard output failed
  5  a write to FILE failed
  6  out of memory
  7  standard input has more than 16777216 bytes";

/// A command and its argument. A contract sees them as their bytes.
#[derive(Drop)]
pub struct GivenWords<'a> {
    command: &'a str,
    argument: Option<&'a str>,
}

impl<'a> Model for GivenWords<'a> {
    ghost use Rattle.std.specs.Prelude.{option_map};
    ghost use Rattle.lab_usage.specs.Words.{Given};

    ghost Value = { Given };

    ghost view = { λ given. record {
      command = given.command.now;
      argument = option_map (λ argument. argument.now) given.argument;
    } };
}

impl<'a> GivenWords<'a> {
    /// The command.
    pub fn command(&self) -> &'a str
        ensures { result.now ≡ self.now.command }
    {
        self.command
    }

    /// Its argument, where there is one.
    pub fn argument(&self) -> Option<&'a str>
        ensures { option_map (λ argument. argument.now) result ≡ self.now.argument }
    {
        self.argument
    }
}

// Whether a word can be an argument: it is not empty, and does not begin with `-`.
fn is_argument(word: &[u8]) -> bool
    ensures { result ≡ is_argument word.now }
{
    word.first().is_some_and(|first| *first != b'-')
}

// Whether each word can be an argument.
fn are_arguments(words: &[String]) -> bool
    ensures { result ≡ list_all (λ word. is_argument (string_bytes word)) words.now }
{
    words.iter().all(|word| is_argument(word.as_bytes()))
}

// The command line, with what its help says of the commands. Its words are those after the program's name.
fn command_line<'a>(alloc: Global, details: &'a str) -> Result<Command<'a>, AllocError>
    ensures { IfOk result (λ command. app_of command ≡ command_line) }
{
    let command = Arg::new(alloc, "COMMAND")
        .required(true)
        .help("The command");
    let argument = Arg::new(alloc, "ARGUMENT").help("FILE, LABEL, N or SPEC");
    Ok(
        Command::new(alloc, "labsys")
            .version("2.0.0 (world 2, trail 1)")
            .about(ABOUT)
            .disable_help_flag(true)
            .disable_version_flag(true)
            .no_binary_name(true)
            .arg(command)?
            .arg(argument)?
            .after_help(details),
    )
}

// The command and its argument, as the matches have them.
fn given_of<'a>(matches: &ArgMatches<'a>) -> Option<GivenWords<'a>>
    ensures { result ≡ option_map (λ command. record {
      command = command;
      argument = first_value (found_of matches.now) (codes "ARGUMENT");
    }) (first_value (found_of matches.now) (codes "COMMAND")) }
{
    Some(GivenWords {
        command: matches.get_str("COMMAND")?,
        argument: matches.get_str("ARGUMENT"),
    })
}

/// The command and its argument, as the words after the program's name give them.
pub fn words_given<'a>(
    alloc: Global,
    words: &'a [String],
) -> Result<Option<GivenWords<'a>>, AllocError>
    ensures { IfOk result (λ given. given ≡ given_words words.now) }
{
    if !are_arguments(words) {
        return Ok(None);
    }
    match command_line(alloc, "")?.try_get_matches_from(words) {
        Ok(matches) => Ok(given_of(&matches)),
        Err(error) if error.kind() == ErrorKind::OutOfMemory => Err(AllocError),
        Err(_) => Ok(None),
    }
}

// What the help says of the commands: their lines, and what holds of all of them.
fn details(alloc: Global) -> Result<String, AllocError> {
    let commands = details_of_commands(alloc)?;
    format!(in alloc; "Commands:\n{commands}\n{NOTES}")
}

/// The text of the help.
pub fn help(alloc: Global) -> Result<String, AllocError> {
    let details = details(alloc)?;
    command_line(alloc, details.as_str())?.render_help()
}

/// The text of the version.
pub fn version(alloc: Global) -> Result<String, AllocError> {
    command_line(alloc, "")?.render_version()
}

/// The usage line.
pub fn usage(alloc: Global) -> Result<String, AllocError> {
    command_line(alloc, "")?.render_usage()
}
