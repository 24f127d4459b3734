use clap::error::ErrorKind;
use clap::{ArgMatches, Error};
use p21_command_line::command_line;
use std::alloc::Global;

type Words = &'static [&'static str];

fn parsed<'a>(alloc: Global, words: &'a [&'a str]) -> Result<ArgMatches<'a>, Error> {
    command_line(alloc)?.try_get_matches_from(words)
}

/// Words, and what the argument of a command then is: the command, the argument and its value.
type Taken = &'static [(Words, &'static str, &'static str, &'static str)];

const PATHS: Taken = &[
    (&["p21", "param", "a.txt"], "param", "FILE", "a.txt"),
    (&["p21", "param", ""], "param", "FILE", ""),
    (&["p21", "param", "-"], "param", "FILE", "-"),
    (&["p21", "param", " a"], "param", "FILE", " a"),
    (&["p21", "param", "../a"], "param", "FILE", "../a"),
];

const COMMANDS: Taken = &[
    (&["p21", "param", "f"], "param", "FILE", "f"),
    (&["p21", "syntax", "f"], "syntax", "FILE", "f"),
    (&["p21", "schema", "s"], "schema", "S", "s"),
    (&["p21", "check", "s", "f"], "check", "S", "s"),
    (&["p21", "check", "s", "f"], "check", "FILE", "f"),
    (&["p21", "canon", "s", "f"], "canon", "S", "s"),
    (&["p21", "canon", "s", "f"], "canon", "FILE", "f"),
    (&["p21", "show", "s", "f", "--name", "7"], "show", "S", "s"),
    (&["p21", "show", "--name=7", "s", "f"], "show", "FILE", "f"),
    (&["p21", "same", "s", "a", "b"], "same", "S", "s"),
    (&["p21", "same", "s", "a", "b"], "same", "A", "a"),
    (&["p21", "same", "s", "a", "b"], "same", "B", "b"),
    (&["p21", "diff", "s", "a", "b"], "diff", "A", "a"),
    (&["p21", "diff", "s", "a", "b"], "diff", "B", "b"),
    (&["p21", "faults", "20"], "faults", "N", "20"),
    (
        &["p21", "check", "s", "f", "--progress"],
        "check",
        "progress",
        "true",
    ),
    (
        &["p21", "canon", "--progress", "s", "f"],
        "canon",
        "progress",
        "true",
    ),
    (
        &["p21", "same", "s", "--progress", "a", "b"],
        "same",
        "progress",
        "true",
    ),
    (
        &["p21", "canon", "s", "f", "--names"],
        "canon",
        "names",
        "true",
    ),
    (&["p21", "canon", "s", "f"], "canon", "names", "false"),
    (
        &["p21", "same", "--names", "s", "a", "b"],
        "same",
        "names",
        "true",
    ),
    (
        &["p21", "check", "s", "--names", "--all", "f"],
        "check",
        "names",
        "true",
    ),
    (&["p21", "check", "s", "f"], "check", "progress", "false"),
    (&["p21", "check", "--all", "s", "f"], "check", "all", "true"),
    (&["p21", "check", "s", "f"], "check", "all", "false"),
    (
        &["p21", "check", "s", "--where", "f"],
        "check",
        "where",
        "true",
    ),
    (&["p21", "check", "s", "f"], "check", "where", "false"),
    (
        &["p21", "check", "s", "--format", "jsonl", "f"],
        "check",
        "format",
        "jsonl",
    ),
    (
        &["p21", "check", "--format=text", "s", "f"],
        "check",
        "format",
        "text",
    ),
    (
        &["p21", "diff", "--format=jsonl", "s", "a", "b"],
        "diff",
        "format",
        "jsonl",
    ),
    (
        &["p21", "diff", "s", "a", "--names", "b"],
        "diff",
        "names",
        "true",
    ),
    (
        &["p21", "diff", "--data", "s", "a", "b"],
        "diff",
        "data",
        "true",
    ),
    (&["p21", "diff", "s", "a", "b"], "diff", "data", "false"),
    (
        &["p21", "diff", "s", "a", "b", "--ignore", "E.A"],
        "diff",
        "ignore",
        "E.A",
    ),
    (
        &["p21", "diff", "s", "a", "b", "--tolerance", "1E-6"],
        "diff",
        "tolerance",
        "1E-6",
    ),
    (
        &[
            "p21",
            "diff",
            "--ignore=E.A",
            "s",
            "--ignore",
            "E.B",
            "a",
            "b",
        ],
        "diff",
        "B",
        "b",
    ),
    (
        &["p21", "syntax", "--where", "f"],
        "syntax",
        "where",
        "true",
    ),
    (
        &["p21", "syntax", "f", "--format", "jsonl"],
        "syntax",
        "format",
        "jsonl",
    ),
    (
        &["p21", "syntax", "f", "--all", "g"],
        "syntax",
        "all",
        "true",
    ),
    (
        &["p21", "syntax", "--most", "3", "f"],
        "syntax",
        "most",
        "3",
    ),
    (&["p21", "syntax", "f"], "syntax", "header", "false"),
    (&["p21", "syntax", "f"], "syntax", "count", "false"),
    (
        &["p21", "syntax", "--header", "f"],
        "syntax",
        "header",
        "true",
    ),
    (
        &["p21", "syntax", "--header", "f"],
        "syntax",
        "count",
        "false",
    ),
    (
        &["p21", "syntax", "f", "--count", "--header", "g"],
        "syntax",
        "count",
        "true",
    ),
    (
        &["p21", "check", "s", "f", "--most", "3"],
        "check",
        "most",
        "3",
    ),
];

/// Whether the argument of a command has this value.
fn gives(alloc: Global, words: &[&str], command: &str, id: &str, value: &str) -> bool {
    let Ok(matches) = parsed(alloc, words) else {
        return false;
    };
    let Some(found) = matches.subcommand_matches(command) else {
        return false;
    };
    found.get_str(id) == Some(value)
}

/// The words and the argument of the first row whose argument has another value.
fn first_not_given(alloc: Global, rows: Taken) -> Option<(Words, &'static str)> {
    for (words, command, id, value) in rows {
        if !gives(alloc, words, command, id, value) {
            return Some((words, id));
        }
    }
    None
}

#[test]
fn takes_paths_as_they_stand(rt: HostRuntime) {
    assert_eq!(rt; first_not_given(rt.alloc(), PATHS), None);
}

#[test]
fn takes_each_command(rt: HostRuntime) {
    assert_eq!(rt; first_not_given(rt.alloc(), COMMANDS), None);
}

/// What stands behind `--name`, and its number if it has one.
const NAMES: &[(&str, Option<u64>)] = &[
    ("0", Some(0)),
    ("007", Some(7)),
    ("18446744073709551615", Some(u64::MAX)),
    ("18446744073709551616", None),
    ("-1", None),
    ("#1", None),
    ("1.", None),
    ("one", None),
    ("", None),
];

/// The number behind `--name`, or the status of a command line that isn't taken.
fn number_of(alloc: Global, name: &str) -> Result<Option<u64>, i32> {
    match parsed(alloc, &["p21", "show", "s", "f", "--name", name]) {
        Ok(matches) => match matches.subcommand_matches("show") {
            Some(show) => Ok(show.get_one::<u64>("name")),
            None => Ok(None),
        },
        Err(error) => Err(error.exit_code()),
    }
}

/// The first name with another number.
fn first_other_number(alloc: Global) -> Option<&'static str> {
    for (name, number) in NAMES {
        let wanted = match number {
            Some(number) => Ok(Some(*number)),
            None => Err(2),
        };
        if number_of(alloc, name) != wanted {
            return Some(name);
        }
    }
    None
}

#[test]
fn takes_numbers_of_64_bits(rt: HostRuntime) {
    assert_eq!(rt; first_other_number(rt.alloc()), None);
}

/// Words, and why they aren't taken.
type NotTaken = &'static [(Words, ErrorKind)];

const MISTAKES: NotTaken = &[
    (&["p21"], ErrorKind::MissingSubcommand),
    (&["p21", "frob"], ErrorKind::InvalidSubcommand),
    (&["p21", "param"], ErrorKind::MissingRequiredArgument),
    (&["p21", "param", "a", "b"], ErrorKind::UnknownArgument),
    (&["p21", "param", "--name", "1"], ErrorKind::UnknownArgument),
    (&["p21", "schema"], ErrorKind::MissingRequiredArgument),
    (&["p21", "schema", "s", "f"], ErrorKind::UnknownArgument),
    (&["p21", "check", "s"], ErrorKind::MissingRequiredArgument),
    (&["p21", "canon", "s", "f", "g"], ErrorKind::UnknownArgument),
    (&["p21", "canon", "s"], ErrorKind::MissingRequiredArgument),
    (
        &["p21", "canon", "s", "f", "--name", "1"],
        ErrorKind::UnknownArgument,
    ),
    (
        &["p21", "show", "s", "f"],
        ErrorKind::MissingRequiredArgument,
    ),
    (
        &["p21", "show", "s", "--name", "1"],
        ErrorKind::MissingRequiredArgument,
    ),
    (
        &["p21", "show", "s", "f", "--name"],
        ErrorKind::InvalidValue,
    ),
    (
        &["p21", "show", "s", "f", "--name", "#1"],
        ErrorKind::ValueValidation,
    ),
    (
        &["p21", "show", "s", "f", "--name", "1", "--name", "2"],
        ErrorKind::ArgumentConflict,
    ),
    (
        &["p21", "same", "s", "a"],
        ErrorKind::MissingRequiredArgument,
    ),
    (
        &["p21", "same", "s", "a", "b", "c"],
        ErrorKind::UnknownArgument,
    ),
    (&["p21", "faults", "1", "2"], ErrorKind::UnknownArgument),
    (
        &["p21", "show", "s", "f", "--name", "1", "--progress"],
        ErrorKind::UnknownArgument,
    ),
    (
        &["p21", "check", "s", "f", "--progress", "--progress"],
        ErrorKind::ArgumentConflict,
    ),
    (
        &["p21", "check", "s", "f", "--most"],
        ErrorKind::InvalidValue,
    ),
    (
        &["p21", "check", "s", "f", "--most", "0"],
        ErrorKind::ValueValidation,
    ),
    (
        &["p21", "canon", "s", "f", "--all"],
        ErrorKind::UnknownArgument,
    ),
    (
        &["p21", "canon", "s", "f", "--names", "--names"],
        ErrorKind::ArgumentConflict,
    ),
    (
        &["p21", "diff", "s", "a", "b", "--names", "--names"],
        ErrorKind::ArgumentConflict,
    ),
    (
        &["p21", "diff", "s", "a", "b", "--ignore"],
        ErrorKind::InvalidValue,
    ),
    (
        &["p21", "diff", "--data", "s", "a", "b", "--data"],
        ErrorKind::ArgumentConflict,
    ),
    (
        &["p21", "diff", "s", "a", "b", "--tolerance"],
        ErrorKind::InvalidValue,
    ),
    (
        &["p21", "same", "s", "a", "b", "--tolerance", "1"],
        ErrorKind::UnknownArgument,
    ),
    (
        &["p21", "same", "s", "a", "b", "--data"],
        ErrorKind::UnknownArgument,
    ),
    (
        &["p21", "check", "s", "f", "--format", "json"],
        ErrorKind::InvalidValue,
    ),
    (
        &["p21", "check", "s", "f", "--format", "JSONL"],
        ErrorKind::InvalidValue,
    ),
    (
        &["p21", "diff", "s", "a", "b", "--format", "json"],
        ErrorKind::InvalidValue,
    ),
    (
        &["p21", "syntax", "f", "--format", "json"],
        ErrorKind::InvalidValue,
    ),
    (
        &["p21", "syntax", "f", "--most", "0"],
        ErrorKind::ValueValidation,
    ),
    (
        &["p21", "canon", "s", "f", "--format", "jsonl"],
        ErrorKind::UnknownArgument,
    ),
];

const HELP: NotTaken = &[
    (&["p21", "--version"], ErrorKind::DisplayVersion),
    (&["p21", "-V"], ErrorKind::DisplayVersion),
    (&["p21", "--help"], ErrorKind::DisplayHelp),
    (&["p21", "param", "--help"], ErrorKind::DisplayHelp),
    (&["p21", "schema", "--help"], ErrorKind::DisplayHelp),
    (&["p21", "check", "--help"], ErrorKind::DisplayHelp),
    (&["p21", "canon", "--help"], ErrorKind::DisplayHelp),
    (&["p21", "show", "--help"], ErrorKind::DisplayHelp),
    (&["p21", "help", "same"], ErrorKind::DisplayHelp),
    (&["p21", "help", "faults"], ErrorKind::DisplayHelp),
];

/// Why words aren't taken, and the status: none where they are.
fn error_of(alloc: Global, words: &[&str]) -> Option<(ErrorKind, i32)> {
    match parsed(alloc, words) {
        Ok(_) => None,
        Err(error) => Some((error.kind(), error.exit_code())),
    }
}

/// The first words that are taken, or aren't for another reason or with another status.
fn first_otherwise(alloc: Global, rows: NotTaken, status: i32) -> Option<Words> {
    for (words, kind) in rows {
        if error_of(alloc, words) != Some((*kind, status)) {
            return Some(words);
        }
    }
    None
}

#[test]
fn explains_what_it_does_not_take(rt: HostRuntime) {
    assert_eq!(rt; first_otherwise(rt.alloc(), MISTAKES, 2), None);
}

#[test]
fn shows_help_and_its_version(rt: HostRuntime) {
    assert_eq!(rt; first_otherwise(rt.alloc(), HELP, 0), None);
}
