//! A simulated kernel: plays a script of system calls on a described world, and writes the reply to each call.
#![tactic(auto)]

mod checking;
mod command;
mod descriptors;
mod drilling;
mod generating;
mod least;
mod lineage;
mod never;
mod performing;
mod playing;
mod running;
mod scheduling;
mod selecting;
mod session;
mod status;
mod trails;
mod upgrading;
mod viewing;

use command::command_of;
pub use command::{Argument, Command, InputCommand};
use descriptors::{fill_closed, standard_file};
use io_ends::{FileSink, FileSource};
pub use running::run;
pub use status::Status;
use std::alloc::{AllocError, Global};
use std::env;
use std::io::{self, ErrorKind, IsTerminal};
use std::process::ExitCode;
use std::rt::Env;

// The arguments after the program's name.
fn words_of<R: Env + Alloc<A = Global>>(rt: &R) -> io::Result<Vec<String>> {
    let mut words = Vec::new(rt.alloc());
    for word in env::args(rt)?.skip(1) {
        words.push(word)?;
    }
    Ok(words)
}

// The name of the trail's file: the second argument, or an empty name where there is none.
fn trail_name(alloc: Global, words: &[String]) -> Result<String, AllocError> {
    match words {
        [_, name, ..] => name.clone(),
        _ => Ok(String::new(alloc)),
    }
}

// The text that a sole word asks for: the help or the version.
fn text_asked(alloc: Global, words: &[String]) -> Result<Option<String>, AllocError> {
    let [word] = words else {
        return Ok(None);
    };
    match word.as_str() {
        "--help" => Ok(Some(lab_usage::help(alloc)?)),
        "--version" => Ok(Some(lab_usage::version(alloc)?)),
        _ => Ok(None),
    }
}

// Prints a text to standard output.
fn print_text(rt: &HostRuntime, text: &str) -> Status {
    match print!(rt; "{text}") {
        Ok(()) => Status::Done,
        Err(_) => Status::WriteFault,
    }
}

// Prints a line to standard error. Where that fails there is nobody to hear of it.
fn print_error(rt: &HostRuntime, line: &str) {
    let _ = eprintln!(rt; "{line}");
}

// Prints what a status means, where the last line of the output does not report it.
fn complain(rt: &HostRuntime, status: Status) {
    if let Some(complaint) = status.complaint() {
        let _ = eprintln!(rt; "labsys: {complaint}");
    }
}

// Prints the usage line.
fn print_usage(rt: &HostRuntime) {
    if let Ok(line) = lab_usage::usage(rt.alloc()) {
        print_error(rt, &line);
    }
}

// Prints the usage line, and what is wrong with the words.
fn explain_usage(rt: &HostRuntime, words: &[String]) {
    print_usage(rt);
    if let Ok(line) = lab_usage::mistake(rt.alloc(), words) {
        print_error(rt, &line);
    }
}

// Prints what caused a fault of an end, where the system gave an error.
fn explain_fault(rt: &HostRuntime, end: &str, cause: Option<io::Error>) {
    if let Some(cause) = cause {
        let _ = eprintln!(rt; "labsys: {end}: {cause}");
    }
}

// Says that standard input is read, where a terminal waits for it to be typed.
fn announce_input(rt: &HostRuntime, command: &Command<'_>) {
    if command.reads_source() && rt.stdin().is_terminal() {
        print_error(rt, "labsys: reading standard input");
    }
}

// The end whose file FILE is, where the command writes the trail to FILE and it is that of an end.
fn end_of_file(rt: &HostRuntime, command: &Command<'_>, name: &str) -> Option<&'static str> {
    if command.writes_trail() {
        standard_file(rt, name)
    } else {
        None
    }
}

// Runs the command that the words name, and prints what its output does not show.
fn run_words(rt: &HostRuntime, words: &[String], name: &str) -> io::Result<Status> {
    let mut source = FileSource::new(rt.reader());
    let mut out = FileSink::stdout(rt.clone()?);
    let mut trail = FileSink::named(rt.clone()?, String::from_str(rt.alloc(), name)?);
    let status = run(rt.alloc(), words, &mut source, &mut out, &mut trail);
    complain(rt, status);
    match status {
        Status::Usage => explain_usage(rt, words),
        Status::ReadFault => explain_fault(rt, "standard input", source.error()),
        Status::WriteFault => explain_fault(rt, "standard output", out.error()),
        Status::TrailFault => explain_fault(rt, name, trail.error()),
        _ => {}
    }
    Ok(status)
}

fn start(rt: &HostRuntime) -> io::Result<Status> {
    let words = words_of(rt)?;
    if let Some(text) = text_asked(rt.alloc(), &words)? {
        let status = print_text(rt, &text);
        complain(rt, status);
        return Ok(status);
    }
    let name = trail_name(rt.alloc(), &words)?;
    if let Some(command) = command_of(rt.alloc(), &words)? {
        if let Some(end) = end_of_file(rt, &command, &name) {
            let _ = eprintln!(rt;
                "labsys: {name} is the file of {end}, and the trail would overwrite it"
            );
            return Ok(Status::Usage);
        }
        announce_input(rt, &command);
    }
    run_words(rt, &words, &name)
}

// The status where the arguments cannot be read. One that is not UTF-8 is no command.
fn status_of_words(error: &io::Error) -> Status {
    match error.kind() {
        ErrorKind::OutOfMemory => Status::NoMemory,
        _ => Status::Usage,
    }
}

// The status of a program whose arguments cannot be read. It is printed.
fn refuse_words(rt: &HostRuntime, error: &io::Error) -> Status {
    let status = status_of_words(error);
    complain(rt, status);
    if status == Status::Usage {
        print_usage(rt);
        print_error(rt, "a word of the command line is not UTF-8");
    }
    status
}

fn main(rt: HostRuntime) -> ExitCode {
    fill_closed(&rt);
    let status = start(&rt).unwrap_or_else(|e| refuse_words(&rt, &e));
    ExitCode::from(u8::from(status))
}

#[cfg(test)]
mod tests;
