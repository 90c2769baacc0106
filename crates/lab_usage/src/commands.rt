// The commands, as the help shows them: a row for each.

use std::alloc::{AllocError, Global};
use std::fmt::Write;

/// An argument, as the help shows it.
#[derive(Clone, Copy)]
pub struct ArgumentHelp {
    /// Its name.
    pub name: &'static str,
    /// What it is for.
    pub purpose: &'static str,
    /// What it may be.
    pub form: &'static str,
}

const NOT_EMPTY: &str = "is a word that is not empty and does not begin with -";

const FILE: ArgumentHelp = ArgumentHelp {
    name: "FILE",
    purpose: "where the trail goes",
    form: NOT_EMPTY,
};

const LABEL: ArgumentHelp = ArgumentHelp {
    name: "LABEL",
    purpose: "which sees the replies",
    form: NOT_EMPTY,
};

const SPEC: ArgumentHelp = ArgumentHelp {
    name: "SPEC",
    purpose: "which picks records",
    form: NOT_EMPTY,
};

const NUMBER: ArgumentHelp = ArgumentHelp {
    name: "N",
    purpose: "the number of calls",
    form: "is a number from 1 to 100000, of at most 6 digits",
};

/// A command, as the help shows it.
pub struct CommandHelp {
    /// Its word.
    pub word: &'static str,
    /// Its argument, where it takes one.
    pub argument: Option<ArgumentHelp>,
    // The name of what it reads from standard input, where it reads that.
    input: Option<&'static str>,
    // What it does, in one line.
    about: &'static str,
    // What it does, in the lines of the whole help.
    details: &'static [&'static str],
}

static COMMANDS: [CommandHelp; 11] = [
    CommandHelp {
        word: "play",
        argument: Some(FILE),
        input: Some("WORLD"),
        about: "plays WORLD; the replies go to standard output, and the trail to FILE",
        details: &[
            "plays the world and the script of standard input: the reply to each call goes to",
            "standard output, and its records go to FILE",
        ],
    },
    CommandHelp {
        word: "sched",
        argument: Some(FILE),
        input: Some("PROGRAMS"),
        about: "plays a world by the programs of its processes; the trail goes to FILE",
        details: &[
            "plays the world and the programs of standard input, each process by its own, in turns",
            "by label; the replies go to standard output, and the records to FILE",
        ],
    },
    CommandHelp {
        word: "view",
        argument: Some(LABEL),
        input: Some("WORLD"),
        about: "plays WORLD; what LABEL sees of the replies goes to standard output",
        details: &["plays them, and writes to standard output what LABEL sees of the replies"],
    },
    CommandHelp {
        word: "check",
        argument: None,
        input: Some("WORLD"),
        about: "counts the objects, processes and calls of WORLD",
        details: &[
            "reads them, plays nothing, and writes to standard output how many objects,",
            "processes and calls they have",
        ],
    },
    CommandHelp {
        word: "gen",
        argument: Some(NUMBER),
        input: None,
        about: "writes a generated world with a script of N calls",
        details: &[
            "writes a generated world with a script of N lines to standard output, N from 1 to",
            "100000",
        ],
    },
    CommandHelp {
        word: "drill",
        argument: Some(NUMBER),
        input: None,
        about: "plays the world that gen N writes, and counts the answers",
        details: &[
            "plays that world and script, and writes to standard output how many calls were done,",
            "denied and refused, how many exercises of capabilities were recorded, and how many",
            "processes live at the end",
        ],
    },
    CommandHelp {
        word: "upgrade",
        argument: None,
        input: Some("OLD"),
        about: "writes OLD, an input of the old format, in the format of today",
        details: &[
            "reads an input of the old format, whose first line is 'world 1' and which play, view",
            "and check refuse with old_format, and writes it to standard output in the format of",
            "today, whose first line is 'world 2'",
        ],
    },
    CommandHelp {
        word: "least",
        argument: None,
        input: Some("WORLD"),
        about: "plays WORLD, and writes it without the capabilities that its script never needed",
        details: &[
            "plays the world and the script of standard input, and writes to standard output the",
            "world without the capabilities that the script never needed, after a line that names",
            "them",
        ],
    },
    CommandHelp {
        word: "never",
        argument: None,
        input: Some("WORLD"),
        about: "says what no script can do in WORLD",
        details: &[
            "reads them, plays nothing, and writes to standard output what no script can do in that",
            "world: which capabilities none exercises, and which labels nothing ever crosses",
        ],
    },
    CommandHelp {
        word: "select",
        argument: Some(SPEC),
        input: Some("TRAIL"),
        about: "writes the records of TRAIL that SPEC picks, a line of JSON for each",
        details: &[
            "reads a trail, and writes the records that SPEC picks to standard output, a line of",
            "JSON for each; SPEC is all, or some of pid=PID, label=LABEL, event=WORD and cap=NAME",
            "with ; between them",
        ],
    },
    CommandHelp {
        word: "lineage",
        argument: None,
        input: Some("TRAIL"),
        about: "says whether each record of TRAIL can follow those before it",
        details: &[
            "reads a trail, and writes to standard output whether each of its records can follow",
            "those before it",
        ],
    },
];

impl CommandHelp {
    // Its word, and the name of its argument.
    fn words(&self, alloc: Global) -> Result<String, AllocError> {
        match self.argument {
            Some(argument) => format!(in alloc; "{} {}", self.word, argument.name),
            None => String::from_str(alloc, self.word),
        }
    }

    /// Its whole line.
    pub fn usage(&self, alloc: Global) -> Result<String, AllocError> {
        let words = self.words(alloc)?;
        match self.input {
            Some(input) => format!(in alloc; "labsys {words} < {input}"),
            None => format!(in alloc; "labsys {words}"),
        }
    }

    /// Its whole line, and what it does.
    pub fn help(&self, alloc: Global) -> Result<String, AllocError> {
        let usage = self.usage(alloc)?;
        format!(in alloc; "{usage}\n{}", self.about)
    }

    // Adds its lines of the whole help.
    fn add_details(&self, alloc: Global, text: &mut String) -> Result<(), AllocError> {
        let mut head = self.words(alloc)?;
        for line in self.details {
            writeln!(text, "  {head:<12}{line}")?;
            head.clear();
        }
        Ok(())
    }
}

/// The help of the command with a word.
pub fn help_of(word: &str) -> Option<&'static CommandHelp> {
    COMMANDS.iter().find(|command| command.word == word)
}

/// The lines of all commands, as the whole help has them.
pub fn details_of_commands(alloc: Global) -> Result<String, AllocError> {
    let mut text = String::new(alloc);
    for command in &COMMANDS {
        command.add_details(alloc, &mut text)?;
    }
    Ok(text)
}
