// What is wrong with words that name no command.

use crate::commands::{ArgumentHelp, CommandHelp, help_of};
use std::alloc::{AllocError, Global};

// Whether a word asks for help.
fn asks_for_help(word: &str) -> bool {
    word == "--help" || word == "-h"
}

impl CommandHelp {
    // What is wrong with the words after that of the command.
    fn mistake(&self, alloc: Global, words: &[String]) -> Result<String, AllocError> {
        match (words, self.argument) {
            ([word], _) if asks_for_help(word.as_str()) => self.help(alloc),
            ([], Some(argument)) => self.needs(alloc, argument),
            ([_], Some(argument)) => format!(in alloc; "{} {}", argument.name, argument.form),
            (_, _) => self.surplus(alloc, words),
        }
    }

    // What is wrong where the argument is missing.
    fn needs(&self, alloc: Global, argument: ArgumentHelp) -> Result<String, AllocError> {
        let usage = self.usage(alloc)?;
        format!(in alloc;
            "{} needs {}, {}: {usage}",
            self.word, argument.name, argument.purpose
        )
    }

    // What is wrong where there are too many words.
    fn surplus(&self, alloc: Global, words: &[String]) -> Result<String, AllocError> {
        let usage = self.usage(alloc)?;
        if let Some(option) = words.iter().find(|word| word.as_str().starts_with('-')) {
            return format!(in alloc; "labsys has no option {:?}: {usage}", option.as_str());
        }
        match words
            .len()
            .saturating_sub(usize::from(self.argument.is_some()))
        {
            1 => format!(in alloc; "{} has a word too many: {usage}", self.word),
            count => format!(in alloc; "{} has {count} words too many: {usage}", self.word),
        }
    }
}

// What is wrong with words of which the first is no command.
fn no_command(alloc: Global, word: &str, more: &[String]) -> Result<String, AllocError> {
    let is_alone = matches!(word, "--help" | "--version");
    match more {
        [named] if asks_for_help(word) => match help_of(named.as_str()) {
            Some(command) => command.help(alloc),
            None => format!(in alloc; "{:?} is no command; try labsys --help", named.as_str()),
        },
        [_, ..] if is_alone => format!(in alloc; "{word} is given alone"),
        _ => format!(in alloc; "{word:?} is no command; try labsys --help"),
    }
}

/// What is wrong with words that name no command, in a line without its end. Where the word of a command and `--help` or `-h` are
/// given, in any order, it is the help of that command.
pub fn mistake(alloc: Global, words: &[String]) -> Result<String, AllocError> {
    let [word, more @ ..] = words else {
        return String::from_str(alloc, "a command is missing; try labsys --help");
    };
    match help_of(word.as_str()) {
        Some(command) => command.mistake(alloc, more),
        None => no_command(alloc, word.as_str(), more),
    }
}
