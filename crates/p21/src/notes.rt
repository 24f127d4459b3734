//! What is said behind the lines of a command: why an input could not be read, and what it is where another one was wanted.
ghost use Rattle.std.specs.Prelude.{◌<◌, length};

use crate::input::{Kept, STANDARD, Source};
use crate::shown::{Quoted, Shown};
use p21_commands::REFUSED;
use std::fmt;
use std::io::{self, ErrorKind};

/// The refusals of listings of which `p21-adapt` makes copies that fit.
const TO_ADAPT: [&str; 2] = ["schema refused S6 ", "schema refused S9 "];

/// What an argument is to hold.
#[derive(Clone, Copy, PartialEq, Eq)]
pub enum Wanted {
    Schema,
    Exchange,
    Parameter,
}

/// An input of a command: its path, what it is to hold, and what was read of it.
#[derive(Clone, Copy)]
pub struct Given<'a> {
    pub path: &'a str,
    pub wanted: Wanted,
    pub read: &'a Kept<Source>,
}

impl<'a> Given<'a> {
    /// An input by its path, what it is to hold, and what was read of it.
    pub fn new(path: &'a str, wanted: Wanted, read: &'a Kept<Source>) -> Given<'a> {
        Given { path, wanted, read }
    }
}

/// A command that was run: its name, and its inputs in the order of the command line.
#[derive(Clone, Copy)]
struct Ran<'a> {
    command: &'a str,
    inputs: &'a [Given<'a>],
    /// The number of an instance, or nothing.
    number: &'a str,
    /// Whether each line begins with the name of its file.
    is_named: bool,
}

/// Says why the inputs of a command that answered this status could not be read, or what they are. Where it can't be said, it
/// isn't.
fn note_inputs(rt: &HostRuntime, status: u8, ran: Ran<'_>) {
    for at in 0..ran.inputs.len() {
        note_input(rt, status, ran, at);
    }
}

/// The same of a command with these inputs, of which the names stand in no line.
pub fn note_given<'a>(
    rt: &HostRuntime,
    status: u8,
    command: &'a str,
    inputs: &'a [Given<'a>],
    number: &'a str,
) {
    let ran = Ran {
        command,
        inputs,
        number,
        is_named: false,
    };
    note_inputs(rt, status, ran);
}

/// The same of a command that reads a file under a schema.
pub fn note_file<'a>(
    rt: &HostRuntime,
    status: u8,
    command: &'a str,
    schema: Given<'a>,
    file: Given<'a>,
    number: &'a str,
) {
    note_given(rt, status, command, &[schema, file], number);
}

/// The same of one that reads two files.
pub fn note_files<'a>(
    rt: &HostRuntime,
    status: u8,
    command: &'a str,
    schema: Given<'a>,
    first: Given<'a>,
    second: Given<'a>,
) {
    note_given(rt, status, command, &[schema, first, second], "");
}

/// The same of a file that is one of several, behind a line with its name.
pub fn note_one_of_several<'a>(
    rt: &HostRuntime,
    status: u8,
    command: &'a str,
    schema: Given<'a>,
    file: Given<'a>,
) {
    let ran = Ran {
        command,
        inputs: &[schema, file],
        number: "",
        is_named: true,
    };
    note_input(rt, status, ran, 1);
}

/// The same of a file that is one of several, and is read by itself.
pub fn note_one_alone<'a>(rt: &HostRuntime, status: u8, command: &'a str, file: Given<'a>) {
    let ran = Ran {
        command,
        inputs: &[file],
        number: "",
        is_named: true,
    };
    note_input(rt, status, ran, 0);
}

/// Says it of the input at this place.
fn note_input(rt: &HostRuntime, status: u8, ran: Ran<'_>, at: usize) {
    let Some(given) = ran.inputs.get(at) else {
        return;
    };
    let front = Front {
        path: given.path,
        is_named: ran.is_named,
    };
    if let Some(error) = given.read.failed() {
        let _ = eprintln!(rt; "{front}{}", Reason(error));
        return;
    }
    if status != REFUSED {
        return;
    }
    let line = Unpacking { ran, at };
    let _ = match (form_of(given.read.front()), given.wanted) {
        (_, Wanted::Parameter) => Ok(()),
        (Form::Gzip, _) => eprintln!(rt; "{front}packed by gzip; {}{line}", Gunzip(given.path)),
        (Form::Zip, _) => eprintln!(rt; "{front}a zip archive; {}{line}", Unzip(given.path)),
        (Form::Schema, Wanted::Exchange) => {
            eprintln!(rt; "{front}a schema, where a STEP file is wanted")
        }
        (Form::Exchange, Wanted::Schema) => {
            eprintln!(rt; "{front}a STEP file, where a schema is wanted")
        }
        _ => Ok(()),
    };
}

/// Says how a listing is made to fit, where what was said is that it doesn't.
pub fn note_listing(rt: &HostRuntime, path: &str, said: &[u8]) {
    if TO_ADAPT
        .iter()
        .any(|line| said.starts_with(line.as_bytes()))
    {
        let front = Front {
            path,
            is_named: false,
        };
        let word = Quoted(path);
        let _ = eprintln!(rt;
            "{front}p21-adapt may make a copy of it that fits; p21-adapt {word} -o COPY"
        );
    }
}

/// Says why a file that can't be opened can't.
pub fn note_unopened(rt: &HostRuntime, path: &str, error: io::Error, is_named: bool) {
    let front = Front { path, is_named };
    let _ = eprintln!(rt; "{front}{}", Reason(error));
}

/// What stands in front of a note.
#[derive(Clone, Copy)]
struct Front<'a> {
    path: &'a str,
    is_named: bool,
}

impl fmt::Display for Front<'_> {
    fn fmt<W: fmt::Write>(&self, f: &mut fmt::Formatter<W>) -> fmt::Result {
        let path = Shown(self.path);
        if self.is_named {
            write!(f, "{path}: note: ")
        } else {
            write!(f, "note: {path}: ")
        }
    }
}

/// Why a file can't be opened or read.
#[derive(Clone, Copy)]
struct Reason(io::Error);

impl fmt::Display for Reason {
    fn fmt<W: fmt::Write>(&self, f: &mut fmt::Formatter<W>) -> fmt::Result {
        match self.0.kind() {
            ErrorKind::NotFound => f.write_str("no such file"),
            ErrorKind::PermissionDenied => f.write_str("permission denied"),
            ErrorKind::IsADirectory => f.write_str("a folder"),
            _ => write!(f, "{}", self.0),
        }
    }
}

/// What unpacks the file of a path by gzip.
#[derive(Clone, Copy)]
struct Gunzip<'a>(&'a str);

impl fmt::Display for Gunzip<'_> {
    fn fmt<W: fmt::Write>(&self, f: &mut fmt::Formatter<W>) -> fmt::Result {
        if self.0 == STANDARD {
            return f.write_str("gunzip -c");
        }
        write!(f, "gunzip -c < {}", Quoted(self.0))
    }
}

/// What unpacks the file of a path, a zip archive, which can't be read from a pipe.
#[derive(Clone, Copy)]
struct Unzip<'a>(&'a str);

impl fmt::Display for Unzip<'_> {
    fn fmt<W: fmt::Write>(&self, f: &mut fmt::Formatter<W>) -> fmt::Result {
        if self.0 == STANDARD {
            return f.write_str("unzip -p ARCHIVE");
        }
        write!(f, "unzip -p {}", Quoted(self.0))
    }
}

/// The command again, with standard input for the input at this place.
#[derive(Clone, Copy)]
struct Unpacking<'a> {
    ran: Ran<'a>,
    at: usize,
}

impl fmt::Display for Unpacking<'_> {
    fn fmt<W: fmt::Write>(&self, f: &mut fmt::Formatter<W>) -> fmt::Result {
        write!(f, " | p21 {}", self.ran.command)?;
        for (at, given) in self.ran.inputs.iter().enumerate() {
            if at == self.at {
                write!(f, " {STANDARD}")?;
            } else {
                write!(f, " {}", Quoted(given.path))?;
            }
        }
        if self.ran.number.is_empty() {
            return Ok(());
        }
        write!(f, " --name {}", self.ran.number)
    }
}

/// What the first bytes of an input say that it is.
#[derive(Clone, Copy, PartialEq, Eq)]
enum Form {
    Gzip,
    Zip,
    Schema,
    Exchange,
    Other,
}

/// Gzip begins by RFC 1952, a zip archive by the header of its first file (APPNOTE.TXT, 4.3.7).
fn form_of(front: &[u8]) -> Form {
    if front.starts_with(b"\x1f\x8b") {
        return Form::Gzip;
    }
    if front.starts_with(b"PK\x03\x04") {
        return Form::Zip;
    }
    let word = first_word(behind_blanks(front));
    if word == b"ISO-10303-21".as_slice() {
        Form::Exchange
    } else if word.eq_ignore_ascii_case(b"SCHEMA") {
        Form::Schema
    } else {
        Form::Other
    }
}

/// The letters, digits, signs of joining and minuses at the beginning.
fn first_word(text: &[u8]) -> &[u8] {
    let is_part = |byte: &u8| byte.is_ascii_alphanumeric() || *byte == b'-' || *byte == b'_';
    let end = text.iter().position(|byte| !is_part(byte));
    &text[..end.unwrap_or(text.len())]
}

/// What stands behind the blanks and remarks at the beginning, by both standards, and behind a byte order mark.
fn behind_blanks(front: &[u8]) -> &[u8] {
    let mut rest = front.strip_prefix(b"\xef\xbb\xbf").unwrap_or(front);
    for _ in 0..front.len() {
        match behind_blank(rest) {
            Some(behind) => rest = behind,
            None => return rest,
        }
    }
    rest
}

/// What stands behind one blank or remark at the beginning, if there is one.
fn behind_blank(text: &[u8]) -> Option<&[u8]> {
    if let Some(remark) = text.strip_prefix(b"/*") {
        return behind_mark(remark, b"*/");
    }
    if let Some(remark) = text.strip_prefix(b"(*") {
        return behind_mark(remark, b"*)");
    }
    if let Some(remark) = text.strip_prefix(b"--") {
        return behind_mark(remark, b"\n");
    }
    match text.split_first() {
        Some((first, rest)) if first.is_ascii_whitespace() => Some(rest),
        _ => None,
    }
}

/// What stands behind the first place where the mark stands.
fn behind_mark<'a>(text: &'a [u8], mark: &[u8]) -> Option<&'a [u8]>
    requires { 0 < length mark.now }
{
    let at = text.windows(mark.len()).position(|part| part == mark)?;
    text.get(at + mark.len()..)
}
