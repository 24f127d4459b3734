//! What is told of where a file by itself is refused. Of what a refusal is a schema says; so that isn't told, and a reference has no place.
ghost use Rattle.p21.specs.Statuses.{IsOfCommand};

use crate::apart::Wishes;
use crate::lines::Lines;
use crate::places::{Asked, ToldOf};
use crate::shown::Shown;
use p21_commands::{
    Details, Form, LineStarts, REFUSED, SecondReading, SyntaxChecks, Telling, ToldAlone,
};
use p21_stream_io::Watched;
use std::io::{Read, Write};

/// A list of refusals with their places: so many at most, how many these are behind it where `is_counted`, and its form.
#[derive(Clone, Copy)]
struct List {
    most: u64,
    is_counted: bool,
    form: Form,
}

/// Reads a file by itself and writes what is asked for of it. Answers its status, and the reader.
pub fn tell_alone<R: Read, W: Write, F: Write>(
    rt: &HostRuntime,
    checks: &mut SyntaxChecks,
    wishes: Wishes,
    details: Details,
    name: ToldOf<'_>,
    mut file: Watched<Lines<R>>,
    output: &mut Watched<W>,
    faults: &mut Watched<F>,
) -> (u8, Lines<R>)
    ensures { IsOfCommand result.0 }
{
    match (wishes.asked, wishes.most) {
        (Asked::First(form), _) => {
            let list = List {
                most: 1,
                is_counted: false,
                form,
            };
            tell_list(rt, checks, list, details, name, file, output, faults)
        }
        (Asked::Each(most, form), _) => {
            let list = List {
                most,
                is_counted: true,
                form,
            };
            tell_list(rt, checks, list, details, name, file, output, faults)
        }
        (Asked::None | Asked::Behind, Some(most)) => {
            let status = checks.check_all(rt.alloc(), &mut file, details, most, output, faults);
            (status, file.into_inner())
        }
        (Asked::None | Asked::Behind, None) => {
            tell_line(rt, checks, details, name, file, output, faults)
        }
    }
}

/// Reads a file and writes the line of `syntax`, and where the refusal stands if lines are kept. Answers its status, and the reader.
fn tell_line<R: Read, W: Write, F: Write>(
    rt: &HostRuntime,
    checks: &mut SyntaxChecks,
    details: Details,
    name: ToldOf<'_>,
    mut file: Watched<Lines<R>>,
    output: &mut Watched<W>,
    faults: &mut Watched<F>,
) -> (u8, Lines<R>)
    ensures { IsOfCommand result.0 }
{
    let told = checks.check(rt.alloc(), &mut file, details, output, faults);
    let lines = file.into_inner();
    tell_place(rt, name.path, &told, lines.starts());
    (told.status, lines)
}

/// Says behind the line of a file that isn't well formed by itself where this stands, if lines are kept. Where it can't be said, it isn't.
fn tell_place(rt: &HostRuntime, path: &str, told: &ToldAlone, lines: &LineStarts) {
    if told.status != REFUSED {
        return;
    }
    let Some(ill_formed) = &told.ill_formed else {
        return;
    };
    let Some(place) = ill_formed.place else {
        return;
    };
    let Some(position) = lines.position(place.byte) else {
        return;
    };
    let path = Shown(path);
    let _ = eprintln!(rt; "{path}:{}:{}", position.line, position.column);
}

/// Reads a file and writes a list of its refusals. Answers its status, and the reader.
fn tell_list<R: Read, W: Write, F: Write>(
    rt: &HostRuntime,
    checks: &mut SyntaxChecks,
    list: List,
    details: Details,
    name: ToldOf<'_>,
    mut file: Watched<Lines<R>>,
    output: &mut Watched<W>,
    faults: &mut Watched<F>,
) -> (u8, Lines<R>)
    ensures { IsOfCommand result.0 }
{
    let alloc = rt.alloc();
    let found = checks.survey(alloc, &mut file, list.most);
    let lines = file.into_inner();
    let Ok(found) = found else {
        return (checks.tell_no_memory(faults), lines);
    };
    let Ok(shown) = format!(in alloc; "{}", Shown(name.path)) else {
        return (checks.tell_no_memory(faults), lines);
    };
    let again = SecondReading::none(alloc);
    let telling = Telling {
        path: name.path,
        shown: &shown,
        lines: lines.starts(),
        again: &again,
        form: list.form,
        is_named: name.is_named,
    };
    let status = checks.tell_survey(
        alloc,
        &found,
        details,
        &telling,
        list.is_counted,
        output,
        faults,
    );
    (status, lines)
}
