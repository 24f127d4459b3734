//! What is told of where refusals stand.
ghost use Rattle.p21.specs.Statuses.{IsOfCommand};

use crate::commands::most_given;
use crate::input::STANDARD;
use crate::lines::Lines;
use crate::shown::Shown;
use clap::ArgMatches;
use p21_commands::{
    Checks, CommandFault, Form, LineStarts, Located, LocatedSurvey, REFUSED, SecondReading,
    Telling, Told, Unloaded, is_of_reference, report, schema_object,
};
use p21_stream_io::Watched;
use p21_values::NoMemory;
use std::alloc::AllocError;
use std::fs::{self, File};
use std::io::{Read, Write};

/// The bytes that one read of a file that is read once more may give.
const PIECE: usize = 65_536;

/// What of the places of refusals is asked for.
#[derive(Clone, Copy, PartialEq, Eq)]
pub enum Asked {
    /// None of them.
    None,
    /// The place of the first refusal of a file, behind its line.
    Behind,
    /// A line for the first refusal of a file, with its place, in this form.
    First(Form),
    /// A line for each of so many refusals, with its place, in this form.
    Each(u64, Form),
}

/// What is asked for.
pub fn asked_places(found: &ArgMatches<'_>) -> Asked {
    let form = match found.get_str("format") {
        Some("jsonl") => Form::Json,
        _ => Form::Text,
    };
    let is_asked = found.get_flag("where") || form == Form::Json;
    match most_given(found) {
        Some(most) if is_asked => Asked::Each(most, form),
        None if form == Form::Json => Asked::First(form),
        None if is_asked => Asked::Behind,
        _ => Asked::None,
    }
}

/// Says why there is no schema to check by, and where its text is refused. Answers the status.
pub fn tell_unloaded<F: Write>(
    rt: &HostRuntime,
    asked: Asked,
    path: &str,
    unloaded: &Unloaded,
    faults: &mut Watched<F>,
) -> u8
    ensures { IsOfCommand result }
{
    let is_json = matches!(asked, Asked::First(Form::Json) | Asked::Each(_, Form::Json));
    match unloaded.refused {
        Some(refused) if is_json => {
            match schema_object(rt.alloc(), path, refused, unloaded.place) {
                Ok(line) => report(&CommandFault::Refused(line), faults),
                Err(AllocError) => report(&CommandFault::NoMemory, faults),
            }
        }
        _ => {
            let status = report(&unloaded.fault, faults);
            if let Some((_, position)) = unloaded.place {
                let path = Shown(path);
                let _ = eprintln!(rt; "{path}:{}:{}", position.line, position.column);
            }
            status
        }
    }
}

/// Says behind the line of a refusal where it stands and of what it is, if lines are kept. Where it can't be said, it isn't.
fn tell_place(rt: &HostRuntime, checks: &Checks, path: &str, told: &Told, lines: &LineStarts) {
    if told.status != REFUSED {
        return;
    }
    let Some(located) = &told.located else { return };
    let again = again_of_first(rt, checks, located, path);
    let met = again.met(0);
    let place = match (located.place, met) {
        (Some(place), _) => place,
        (None, Some(met)) => met.place,
        (None, None) => return,
    };
    let Some(position) = lines.position(place.byte) else {
        return;
    };
    let path = Shown(path);
    let (line, column) = (position.line, position.column);
    let _ = match checks.subject(rt.alloc(), located, met) {
        Some(subject) => eprintln!(rt; "{path}:{line}:{column}: {subject}"),
        None => eprintln!(rt; "{path}:{line}:{column}"),
    };
}

/// A file that is told of: its path, and whether it is one of several.
#[derive(Clone, Copy)]
pub struct ToldOf<'a> {
    pub path: &'a str,
    pub is_named: bool,
}

/// Reads a file and writes what is asked for of its refusals. Answers its status, and the reader.
pub fn tell_places<R: Read, W: Write, F: Write>(
    rt: &HostRuntime,
    checks: &mut Checks,
    asked: Asked,
    name: ToldOf<'_>,
    file: Watched<Lines<R>>,
    output: &mut Watched<W>,
    faults: &mut Watched<F>,
) -> (u8, Lines<R>)
    ensures { IsOfCommand result.0 }
{
    match asked {
        Asked::None => tell_line(rt, checks, name, file, output, faults),
        Asked::Behind => tell_line(rt, checks, name, file, output, faults),
        Asked::First(form) => tell_first(rt, checks, form, name, file, output, faults),
        Asked::Each(most, form) => tell_each(rt, checks, most, form, name, file, output, faults),
    }
}

/// Reads a file and writes the line of `check`, and where the refusal stands if lines are kept. Answers its status, and the reader.
fn tell_line<R: Read, W: Write, F: Write>(
    rt: &HostRuntime,
    checks: &mut Checks,
    name: ToldOf<'_>,
    mut file: Watched<Lines<R>>,
    output: &mut Watched<W>,
    faults: &mut Watched<F>,
) -> (u8, Lines<R>)
    ensures { IsOfCommand result.0 }
{
    let told = checks.check_located(rt.alloc(), &mut file, output, faults);
    let lines = file.into_inner();
    tell_place(rt, checks, name.path, &told, lines.starts());
    (told.status, lines)
}

/// Reads a file and writes a line for its first refusal, in this form. Answers its status, and the reader.
fn tell_first<R: Read, W: Write, F: Write>(
    rt: &HostRuntime,
    checks: &mut Checks,
    form: Form,
    name: ToldOf<'_>,
    mut file: Watched<Lines<R>>,
    output: &mut Watched<W>,
    faults: &mut Watched<F>,
) -> (u8, Lines<R>)
    ensures { IsOfCommand result.0 }
{
    let alloc = rt.alloc();
    let found = checks.find(alloc, &mut file);
    let lines = file.into_inner();
    let again = match &found {
        Ok(_) => SecondReading::none(alloc),
        Err(located) => again_of_first(rt, checks, located, name.path),
    };
    let Ok(shown) = format!(in alloc; "{}", Shown(name.path)) else {
        return (checks.tell_no_memory(faults), lines);
    };
    let telling = Telling {
        path: name.path,
        shown: &shown,
        lines: lines.starts(),
        again: &again,
        form,
        is_named: name.is_named,
    };
    let status = checks.tell_found(alloc, found, &telling, output, faults);
    (status, lines)
}

/// Reads a file and writes a line for each of so many refusals, in this form. Answers its status, and the reader.
fn tell_each<R: Read, W: Write, F: Write>(
    rt: &HostRuntime,
    checks: &mut Checks,
    most: u64,
    form: Form,
    name: ToldOf<'_>,
    mut file: Watched<Lines<R>>,
    output: &mut Watched<W>,
    faults: &mut Watched<F>,
) -> (u8, Lines<R>)
    ensures { IsOfCommand result.0 }
{
    let alloc = rt.alloc();
    let found = checks.survey(alloc, &mut file, most);
    let lines = file.into_inner();
    let Ok(found) = found else {
        return (checks.tell_no_memory(faults), lines);
    };
    let Ok(shown) = format!(in alloc; "{}", Shown(name.path)) else {
        return (checks.tell_no_memory(faults), lines);
    };
    let again = again_of(rt, checks, &found, name.path);
    let telling = Telling {
        path: name.path,
        shown: &shown,
        lines: lines.starts(),
        again: &again,
        form,
        is_named: name.is_named,
    };
    let status = checks.tell_survey(alloc, &found, &telling, output, faults);
    (status, lines)
}

/// What a second reading of a file meets of its first refusal. Nothing where the file can't be read once more.
fn again_of_first(
    rt: &HostRuntime,
    checks: &Checks,
    located: &Located,
    path: &str,
) -> SecondReading {
    if !is_of_reference(located.refusal.fault) {
        return read_again(
            rt,
            checks,
            SecondReading::of_first(rt.alloc(), located),
            path,
        );
    }
    // To which name the reference leads, a survey alone says.
    let Some(file) = open_again(rt, path) else {
        return SecondReading::none(rt.alloc());
    };
    match checks.survey(rt.alloc(), &mut Watched::new(file), 1) {
        Ok(found) => again_of(rt, checks, &found, path),
        Err(NoMemory) => SecondReading::none(rt.alloc()),
    }
}

/// What a second reading of a file meets of its refusals. Nothing where the file can't be read once more.
fn again_of(rt: &HostRuntime, checks: &Checks, found: &LocatedSurvey, path: &str) -> SecondReading {
    read_again(rt, checks, SecondReading::of(rt.alloc(), found), path)
}

/// Has a second reading meet what it looks for, as far as the file can be read once more.
fn read_again(
    rt: &HostRuntime,
    checks: &Checks,
    wanted: Result<SecondReading, NoMemory>,
    path: &str,
) -> SecondReading {
    let Ok(mut again) = wanted else {
        return SecondReading::none(rt.alloc());
    };
    if !again.is_empty() {
        if let Some(file) = open_again(rt, path) {
            take_all(checks, file, &mut again);
        }
    }
    again
}

/// Opens a file once more. Standard input can't be, and a file that can't be opened again isn't read.
fn open_again(rt: &HostRuntime, path: &str) -> Option<File> {
    if path == STANDARD {
        return None;
    }
    fs::open(rt, path).ok()
}

/// Has a second reading take all that a file gives.
fn take_all(checks: &Checks, mut file: File, again: &mut SecondReading) {
    let mut piece = [0; PIECE];
    for _ in 0..u64::MAX {
        match file.read(&mut piece) {
            Ok(0) => return,
            Ok(count) => checks.take_again(again, &piece[..count]),
            Err(_) => return,
        }
    }
}
