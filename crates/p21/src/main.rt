//! The program `p21`: its command line, the files that it names, and the exit status.
//!
//! An argument that isn't UTF-8 is a wrong command line, status 2.
//!
//! Help or usage that can't be written gives status 3.
#![tactic(auto)]

ghost use Rattle.std.specs.Prelude.{◌≡◌, ◌≢◌, ◌⊎◌, IfErr, IfOk, OnErr, map, string_bytes};
ghost use Rattle.std.specs.IoError.{error_kind};
ghost use Rattle.std.specs.declared.io.ErrorKind.TheVariants.{OutOfMemory};
ghost use Rattle.clap.specs.Words.{kind_of};
ghost use Rattle.p21.specs.Statuses.{IsOfMistake, IsOfRun, IsOfWords, IsStatus};
ghost use Rattle.p21_commands.specs.Status.{done, usage, failed};

mod apart;
mod commands;
mod differences;
mod ignored;
mod input;
mod lines;
mod named;
mod notes;
mod places;
mod places_alone;
mod progress;
mod recorded;
mod refusals;
mod several;
mod shown;
mod tolerance;

use clap::error::{Error, ErrorKind};
use commands::{Stopped, run_command};
use notes::note_unopened;
use p21_command_line::command_line;
use p21_commands::{CommandFault, DONE, FAILED, USAGE, report};
use p21_stream_io::Watched;
use shown::Shown;
use std::process::ExitCode;
use std::{env, io};

/// How the number of an instance is written, for one who wrote it otherwise.
const NAME_OF_INSTANCE: &str =
    "N is the number of an instance in digits alone, up to 18446744073709551615: 18 for #18";

fn main(rt: HostRuntime) -> ExitCode {
    ExitCode::from(run(&rt, arguments(&rt)))
}

/// Runs the command that the words of the command line name, and answers the exit status. Where there are no words, it says
/// why.
fn run(rt: &HostRuntime, words: io::Result<Vec<String>>) -> u8
    ensures status { IsStatus result }
    ensures words { IfOk words (λ list. IsOfWords (map string_bytes list.items) result) }
    ensures unread { OnErr words (IsOfMistake result) }
    ensures memory { IfErr words (λ error. error_kind error ≡ OutOfMemory → result ≡ failed) }
{
    match words {
        Ok(words) => run_words(rt, &words),
        Err(error) => explain_arguments(rt, &error),
    }
}

/// Runs the command that the words name, and answers the exit status.
fn run_words(rt: &HostRuntime, words: &[String]) -> u8
    ensures { IsOfWords (map string_bytes words.now) result }
{
    let command = match command_line(rt.alloc()) {
        Ok(command) => command,
        Err(_) => return out_of_memory(rt),
    };
    match command.try_get_matches_from(words) {
        Ok(matches) => status_of(rt, run_command(rt, &matches)),
        Err(error) => explain_words(rt, words, &error),
    }
}

/// The status of a command that was run; or of one that wasn't, and says why.
fn status_of(rt: &HostRuntime, ran: Result<u8, Stopped<'_>>) -> u8
    ensures { IsOfRun ran.entry result }
{
    match ran {
        Ok(status) => status,
        Err(Stopped::NoCommand) => USAGE,
        Err(Stopped::Signed(number)) => explain_sign(rt, number),
        Err(Stopped::NoRefusal(word)) => explain_refusal(rt, word),
        Err(Stopped::Unopened(path, error)) => explain_open(rt, path, &error),
    }
}

fn arguments(rt: &HostRuntime) -> io::Result<Vec<String>> {
    let mut words = Vec::new(rt.alloc());
    for word in env::args(rt)? {
        words.push(word)?;
    }
    Ok(words)
}

/// Says why there are no arguments: for want of memory, or because one of them isn't text.
fn explain_arguments(rt: &HostRuntime, error: &io::Error) -> u8
    ensures status { IsOfMistake result }
    ensures memory { error_kind error.now ≡ OutOfMemory → result ≡ failed }
{
    if error.kind() == io::ErrorKind::OutOfMemory {
        return out_of_memory(rt);
    }
    mistake(eprintln!(rt; "error: an argument is not UTF-8"))
}

/// Shows the help that was asked for, or says what is wrong with the command line.
fn explain(rt: &HostRuntime, error: &Error) -> u8
    ensures status { (result ≡ done) ⊎ (result ≡ usage) ⊎ (result ≡ failed) }
    ensures memory { kind_of error.now ≡ ErrorKind.OutOfMemory → result ≡ failed }
    ensures shown { result ≡ done → (kind_of error.now ≡ ErrorKind.DisplayHelp)
        ⊎ (kind_of error.now ≡ ErrorKind.DisplayVersion) }
    ensures mistake { result ≡ usage → (kind_of error.now ≢ ErrorKind.DisplayHelp)
        × (kind_of error.now ≢ ErrorKind.DisplayVersion) }
{
    if error.kind() == ErrorKind::OutOfMemory {
        return out_of_memory(rt);
    }
    match error.print(rt) {
        Ok(()) if error.use_stderr() => USAGE,
        Ok(()) => DONE,
        Err(_) => report(&CommandFault::Write, &mut Watched::new(rt.stderr())),
    }
}

/// Shows the help that was asked for, or says what is wrong with these words, and of the number of an instance how it is written.
fn explain_words(rt: &HostRuntime, words: &[String], error: &Error) -> u8
    ensures status { (result ≡ done) ⊎ (result ≡ usage) ⊎ (result ≡ failed) }
    ensures memory { kind_of error.now ≡ ErrorKind.OutOfMemory → result ≡ failed }
    ensures shown { result ≡ done → (kind_of error.now ≡ ErrorKind.DisplayHelp)
        ⊎ (kind_of error.now ≡ ErrorKind.DisplayVersion) }
    ensures mistake { result ≡ usage → (kind_of error.now ≢ ErrorKind.DisplayHelp)
        × (kind_of error.now ≢ ErrorKind.DisplayVersion) }
{
    let status = explain(rt, error);
    if error.kind() == ErrorKind::ValueValidation && names_show(words) {
        // The status is the same where the line can't be written.
        let _ = eprintln!(rt; "{NAME_OF_INSTANCE}");
    }
    status
}

/// Whether the words name the command `show`.
fn names_show(words: &[String]) -> bool {
    match words.get(1) {
        Some(word) => word.as_str() == "show",
        None => false,
    }
}

/// Says that the number of an instance has a sign, as `clap` says it of other mistakes.
fn explain_sign(rt: &HostRuntime, number: &str) -> u8
    ensures { IsOfMistake result }
{
    let number = Shown(number);
    mistake(eprintln!(rt;
        "error: invalid value '{number}' for '--name <N>': invalid digit found in string\n\nFor more information, try '--help'.\n{NAME_OF_INSTANCE}"
    ))
}

/// Says that no refusal has the number or name that was given.
fn explain_refusal(rt: &HostRuntime, word: &str) -> u8
    ensures { IsOfMistake result }
{
    let word = Shown(word);
    mistake(eprintln!(rt;
        "error: invalid value '{word}' for '[N]': no refusal has this number or name; p21 faults lists them\n\nFor more information, try '--help'."
    ))
}

/// The status of a mistake of the command line, which was said or not.
fn mistake(said: io::Result<()>) -> u8
    ensures { IsOfMistake result }
{
    match said {
        Ok(()) => USAGE,
        Err(_) => FAILED,
    }
}

/// Says that memory ran out.
fn out_of_memory(rt: &HostRuntime) -> u8
    ensures { result ≡ failed }
{
    report(&CommandFault::NoMemory, &mut Watched::new(rt.stderr()))
}

/// Says that a file can't be opened.
fn explain_open(rt: &HostRuntime, path: &str, error: &io::Error) -> u8
    ensures { result ≡ failed }
{
    if error.kind() == io::ErrorKind::OutOfMemory {
        return out_of_memory(rt);
    }
    let shown = Shown(path);
    // The status is the same where the line can't be written.
    if eprintln!(rt; "cannot open {shown}").is_ok() {
        note_unopened(rt, path, *error, false);
    }
    FAILED
}
