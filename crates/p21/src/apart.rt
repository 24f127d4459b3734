//! `check --names` beside a list of refusals, their places, or JSON.
//!
//! What is asked for of the refusals of a file is told of it as without `--names`. Of a file that has none the bytes that were read are read
//! once more, and it is told whether its model tells its instances apart.
ghost use Rattle.p21.specs.Statuses.{IsOfCommand};

use crate::commands::most_given;
use crate::lines::Lines;
use crate::places::{Asked, ToldOf, tell_places};
use crate::recorded::Recorded;
use crate::shown::Shown;
use clap::ArgMatches;
use p21_commands::{Checks, DONE, Form, LineStarts, SecondReading, Telling};
use p21_stream_io::Watched;
use std::io::{self, Read, Write};

/// What is asked for of files beside whether they are accepted.
#[derive(Clone, Copy)]
pub struct Wishes {
    /// What of the places of refusals.
    pub asked: Asked,
    /// A list of so many refusals at most.
    pub most: Option<u64>,
    /// Whether the models tell their instances apart.
    pub names: bool,
}

impl Wishes {
    /// What `check` is asked for.
    pub fn of_check(found: &ArgMatches<'_>, asked: Asked) -> Wishes {
        Wishes {
            asked,
            most: most_given(found),
            names: found.get_flag("names"),
        }
    }

    /// What `syntax` is asked for.
    pub fn of_syntax(found: &ArgMatches<'_>, asked: Asked) -> Wishes {
        Wishes {
            asked,
            most: most_given(found),
            names: false,
        }
    }

    /// Whether a file is read once more, to tell its instances apart.
    pub fn is_read_again(self) -> bool {
        self.names && (self.most.is_some() || self.asked != Asked::None)
    }

    /// Whether the lines of refusals have the name of their file already.
    pub fn has_places(self) -> bool {
        matches!(self.asked, Asked::First(_) | Asked::Each(_, _))
    }

    /// In which form refusals are told.
    fn form(self) -> Form {
        match self.asked {
            Asked::First(form) => form,
            Asked::Each(_, form) => form,
            Asked::None => Form::Text,
            Asked::Behind => Form::Text,
        }
    }
}

/// A writer of which nobody reads anything.
#[derive(Drop)]
struct Nowhere;

impl Write for Nowhere {
    fn write(&mut self, buf: &[u8]) -> io::Result<usize> {
        Ok(buf.len())
    }

    fn flush(&mut self) -> io::Result<()> {
        Ok(())
    }
}

/// Reads a file and writes what is asked for of it, the first file of these checks. Answers the status, and the reader.
pub fn tell_wishes<R: Read, W: Write, F: Write>(
    rt: &HostRuntime,
    checks: &mut Checks,
    wishes: Wishes,
    name: ToldOf<'_>,
    file: Watched<Lines<Recorded<R>>>,
    output: &mut Watched<W>,
    faults: &mut Watched<F>,
) -> (u8, Lines<Recorded<R>>)
    ensures { IsOfCommand result.0 }
{
    if wishes.is_read_again() {
        let (_, lines) = tell_apart(rt, checks, wishes, name, file, output, faults);
        return (checks.status(), lines);
    }
    tell_places(rt, checks, wishes.asked, name, file, output, faults)
}

/// Reads a file and writes what is asked for of its refusals; or where it has none, whether its model tells its instances apart. Answers
/// its status, and the reader.
pub fn tell_apart<R: Read, W: Write, F: Write>(
    rt: &HostRuntime,
    checks: &mut Checks,
    wishes: Wishes,
    name: ToldOf<'_>,
    file: Watched<Lines<Recorded<R>>>,
    output: &mut Watched<W>,
    faults: &mut Watched<F>,
) -> (u8, Lines<Recorded<R>>) {
    let (status, lines) = tell_refusals(rt, checks, wishes, name, file, faults);
    if status != DONE {
        return (status, lines);
    }
    let status = match lines.inner().bytes() {
        Some(bytes) => tell_numbers(
            rt,
            checks,
            wishes,
            name,
            bytes,
            lines.starts(),
            output,
            faults,
        ),
        None => checks.tell_no_memory(faults),
    };
    (status, lines)
}

/// Reads a file and writes what is asked for of its refusals, and nothing where it has none. Answers its status, and the reader.
fn tell_refusals<R: Read, F: Write>(
    rt: &HostRuntime,
    checks: &mut Checks,
    wishes: Wishes,
    name: ToldOf<'_>,
    mut file: Watched<Lines<R>>,
    faults: &mut Watched<F>,
) -> (u8, Lines<R>) {
    let mut nowhere = Watched::new(Nowhere);
    match (wishes.asked, wishes.most) {
        (Asked::None, Some(most)) => {
            let status = checks.check_all(rt.alloc(), &mut file, most, &mut nowhere, faults);
            (status, file.into_inner())
        }
        _ => tell_places(rt, checks, wishes.asked, name, file, &mut nowhere, faults),
    }
}

/// Writes whether the model of a file of these bytes tells its instances apart. Answers the status.
fn tell_numbers<W: Write, F: Write>(
    rt: &HostRuntime,
    checks: &mut Checks,
    wishes: Wishes,
    name: ToldOf<'_>,
    bytes: &[u8],
    lines: &LineStarts,
    output: &mut Watched<W>,
    faults: &mut Watched<F>,
) -> u8 {
    let alloc = rt.alloc();
    let Ok(shown) = format!(in alloc; "{}", Shown(name.path)) else {
        return checks.tell_no_memory(faults);
    };
    let again = SecondReading::none(alloc);
    let telling = Telling {
        path: name.path,
        shown: &shown,
        lines,
        again: &again,
        form: wishes.form(),
        is_named: name.is_named && wishes.has_places(),
    };
    let mut file = Watched::new(bytes);
    checks.tell_numbered(
        alloc,
        &mut file,
        &telling,
        wishes.most.is_some(),
        output,
        faults,
    )
}
