//! A command over several files, each in its turn: `check` under a schema that is read once, or `syntax`.
ghost use Rattle.std.specs.Prelude.{IfErr, IfOk};
ghost use Rattle.p21.specs.Statuses.{IsOfCommand, IsUnopened};

use crate::apart::{Wishes, tell_apart};
use crate::commands::{Stopped, details_given, given, with_progress};
use crate::input::{Inputs, Kept, Source};
use crate::lines::Lines;
use crate::named::Named;
use crate::notes::{
    Given, Wanted, note_given, note_listing, note_one_alone, note_one_of_several, note_unopened,
};
use crate::places::{Asked, ToldOf, asked_places, tell_places, tell_unloaded};
use crate::places_alone::tell_alone;
use crate::recorded::Recorded;
use crate::shown::Shown;
use clap::ArgMatches;
use p21_commands::{Checks, CommandFault, SyntaxChecks, report};
use p21_stream_io::Watched;
use std::alloc::AllocError;
use std::io::{self, ErrorKind, Read, Write};
use std::rt::{Stderr, Stdout};

/// The names of the commands.
const CHECK: &str = "check";

const SYNTAX: &str = "syntax";

/// What is told of each file.
#[derive(Drop)]
enum Task<'s> {
    /// Whether it is accepted under a schema, which was read from here.
    Check(Checks, &'s Kept<Source>),
    /// Whether it is well formed by itself.
    Syntax(SyntaxChecks),
}

/// The writers of what is told of a file.
#[derive(Drop)]
struct Writers {
    output: Watched<Named<Stdout>>,
    faults: Watched<Named<Stderr>>,
    // For lines that have the name already.
    plain: Watched<Stderr>,
}

/// A run over several files.
#[derive(Drop)]
struct Run<'r, 'f, 's, 'a> {
    rt: &'r HostRuntime,
    found: &'f ArgMatches<'a>,
    wishes: Wishes,
    inputs: Inputs,
    task: Task<'s>,
}

/// `check` of these files, where a word behind `@` stands for those that a text names, a path a line.
pub fn check_several<'a>(
    rt: &HostRuntime,
    found: &ArgMatches<'a>,
    wishes: Wishes,
    words: &[&'a str],
) -> Result<u8, Stopped<'a>>
    ensures ran { IfOk result IsOfCommand }
    ensures unopened { IfErr result IsUnopened }
{
    let mut inputs = Inputs::new();
    let schema_path = given(found, "S");
    let mut schema = Watched::new(Kept::new(inputs.open(rt, schema_path)?));
    let mut faults = Watched::new(Kept::new(rt.stderr()));
    let begun = begin(rt, wishes.asked, schema_path, &mut schema, &mut faults);
    let schema = schema.into_inner();
    let checks = match begun {
        Ok(checks) => checks,
        Err(status) => {
            note_schema(rt, status, schema_path, &schema, &faults.into_inner());
            return Ok(status);
        }
    };
    let mut run = Run {
        rt,
        found,
        wishes,
        inputs,
        task: Task::Check(checks, &schema),
    };
    run.tell_words(words);
    Ok(run.task.status())
}

/// Reads the schema, or says why there is none, and where its text is refused if that is asked for. Answers the status then.
fn begin<S: Read, F: Write>(
    rt: &HostRuntime,
    asked: Asked,
    path: &str,
    schema: &mut Watched<S>,
    faults: &mut Watched<F>,
) -> Result<Checks, u8>
    ensures { IfErr result IsOfCommand }
{
    if asked == Asked::None {
        return Checks::new(rt.alloc(), schema, faults);
    }
    match Checks::load(rt.alloc(), schema) {
        Ok(checks) => Ok(checks),
        Err(unloaded) => Err(tell_unloaded(rt, asked, path, &unloaded, faults)),
    }
}

/// `syntax` of these files, in the same way.
pub fn syntax_several(rt: &HostRuntime, found: &ArgMatches<'_>, words: &[&str]) -> u8
    ensures { IsOfCommand result }
{
    let mut run = Run {
        rt,
        found,
        wishes: Wishes::of_syntax(found, asked_places(found)),
        inputs: Inputs::new(),
        task: Task::Syntax(SyntaxChecks::new()),
    };
    run.tell_words(words);
    run.task.status()
}

/// Says of a schema under which nothing can be checked what `check` of one file says.
fn note_schema(
    rt: &HostRuntime,
    status: u8,
    path: &str,
    schema: &Kept<Source>,
    said: &Kept<Stderr>,
) {
    note_given(
        rt,
        status,
        CHECK,
        &[Given::new(path, Wanted::Schema, schema)],
        "",
    );
    note_listing(rt, path, said.front());
}

impl Task<'_> {
    /// Reads a file that is open, and answers its status, and the reader.
    fn tell<R: Read>(
        &mut self,
        rt: &HostRuntime,
        found: &ArgMatches<'_>,
        wishes: Wishes,
        path: &str,
        mut file: Watched<Lines<Recorded<R>>>,
        writers: &mut Writers,
    ) -> (u8, Lines<Recorded<R>>) {
        let Writers {
            output,
            faults,
            plain,
        } = writers;
        let name = ToldOf {
            path,
            is_named: true,
        };
        let status = match self {
            Task::Check(checks, _) if wishes.is_read_again() => {
                if wishes.has_places() {
                    return tell_apart(rt, checks, wishes, name, file, output, plain);
                }
                return tell_apart(rt, checks, wishes, name, file, output, faults);
            }
            Task::Check(checks, _) => match (wishes.asked, wishes.most) {
                (Asked::None, Some(most)) => {
                    checks.check_all(rt.alloc(), &mut file, most, output, faults)
                }
                (Asked::None, None) if wishes.names => {
                    checks.check_numbered(rt.alloc(), &mut file, output, faults)
                }
                (Asked::None, None) => checks.check(rt.alloc(), &mut file, output, faults),
                (Asked::Behind, _) => {
                    return tell_places(rt, checks, wishes.asked, name, file, output, faults);
                }
                (Asked::First(_) | Asked::Each(_, _), _) => {
                    return tell_places(rt, checks, wishes.asked, name, file, output, plain);
                }
            },
            Task::Syntax(checks) => {
                let details = details_given(found);
                if wishes.has_places() {
                    return tell_alone(rt, checks, wishes, details, name, file, output, plain);
                }
                return tell_alone(rt, checks, wishes, details, name, file, output, faults);
            }
        };
        (status, file.into_inner())
    }

    /// Says why a file could not be read, or what it is.
    fn note(&self, rt: &HostRuntime, found: &ArgMatches<'_>, status: u8, file: Given<'_>) {
        match self {
            Task::Check(_, read) => {
                let schema = Given::new(given(found, "S"), Wanted::Schema, read);
                note_one_of_several(rt, status, CHECK, schema, file);
            }
            Task::Syntax(_) => note_one_alone(rt, status, SYNTAX, file),
        }
    }

    /// A file can't be opened.
    fn fail(&mut self) {
        match self {
            Task::Check(checks, _) => checks.fail(),
            Task::Syntax(checks) => checks.fail(),
        }
    }

    /// The highest status.
    fn status(&self) -> u8
        ensures { IsOfCommand result }
    {
        match self {
            Task::Check(checks, _) => checks.status(),
            Task::Syntax(checks) => checks.status(),
        }
    }
}

impl Run<'_, '_, '_, '_> {
    /// Tells of the files of some words, until a line can't be written.
    fn tell_words(&mut self, words: &[&str]) {
        for word in words {
            let goes_on = match word.strip_prefix('@') {
                Some(list) => self.tell_list(list),
                None => self.tell_path(word),
            };
            if !goes_on {
                return;
            }
        }
    }

    /// Tells of the files that a text names, and answers whether each line could be written.
    fn tell_list(&mut self, list: &str) -> bool {
        let text = match self.inputs.read_text(self.rt, list) {
            Ok(text) => text,
            Err(error) => return self.tell_unopened(list, error),
        };
        for path in text.lines() {
            if !path.is_empty() && !self.tell_path(path) {
                return false;
            }
        }
        true
    }

    /// Tells of a file, and answers whether that could be written.
    fn tell_path(&mut self, path: &str) -> bool {
        let file = match self.inputs.open_source(self.rt, path) {
            Ok(file) => file,
            Err(error) => return self.tell_unopened(path, error),
        };
        let Ok(mut writers) = Writers::new(self.rt, path) else {
            return self.tell_no_memory();
        };
        let source = with_progress(self.rt, self.found, path, file);
        let wishes = self.wishes;
        let source = Recorded::new(self.rt.alloc(), source, wishes.is_read_again());
        let is_kept = wishes.asked != Asked::None;
        let file = Watched::new(Lines::new(self.rt.alloc(), source, is_kept));
        let (status, lines) = self
            .task
            .tell(self.rt, self.found, wishes, path, file, &mut writers);
        let read = lines.into_inner().into_inner().into_inner();
        let file = Given::new(path, Wanted::Exchange, &read);
        self.task.note(self.rt, self.found, status, file);
        writers.are_written()
    }

    /// Says that a file can't be opened, and answers whether that could be written.
    fn tell_unopened(&mut self, path: &str, error: io::Error) -> bool {
        if error.kind() == ErrorKind::OutOfMemory {
            return self.tell_no_memory();
        }
        self.task.fail();
        let shown = Shown(path);
        let is_said = eprintln!(self.rt; "{shown}: cannot open {shown}").is_ok();
        if is_said {
            note_unopened(self.rt, path, error, true);
        }
        is_said
    }

    /// Says that memory ran out for what is told of a file. The next one isn't told of.
    fn tell_no_memory(&mut self) -> bool {
        self.task.fail();
        report(&CommandFault::NoMemory, &mut Watched::new(self.rt.stderr()));
        false
    }
}

impl Writers {
    fn new(rt: &HostRuntime, path: &str) -> Result<Writers, AllocError> {
        Ok(Writers {
            output: Watched::new(Named::new(rt.alloc(), path, rt.stdout())?),
            faults: Watched::new(Named::new(rt.alloc(), path, rt.stderr())?),
            plain: Watched::new(rt.stderr()),
        })
    }

    fn are_written(&self) -> bool {
        self.output.failures() == 0 && self.faults.failures() == 0 && self.plain.failures() == 0
    }
}
