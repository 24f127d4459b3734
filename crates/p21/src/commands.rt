//! The commands, over the files that the command line names.
//!
//! A command reads an argument that isn't there as an empty one. `clap` requires all of them, so none is missing, but
//! none of its clauses says so about a command's own arguments; and an empty path can't be opened.
ghost use Rattle.std.specs.Prelude.{Some, IfErr, IfOk};
ghost use Rattle.clap.specs.Words.{subcommand_name_of};
ghost use Rattle.p21.specs.Statuses.{IsOfAnswer, IsOfCommand, IsUnopened, NamesFiles};

use crate::apart::{Wishes, tell_wishes};
use crate::differences::run_diff;
use crate::input::{Inputs, Kept, Source};
use crate::lines::Lines;
use crate::notes::{Given, Wanted, note_file, note_files, note_given, note_listing};
use crate::places::{Asked, ToldOf, asked_places, tell_unloaded};
use crate::places_alone::tell_alone;
use crate::progress::ProgressReader;
use crate::recorded::Recorded;
use crate::refusals::SECTIONS;
use crate::several::{check_several, syntax_several};
use clap::ArgMatches;
use p21_command_line::LIST;
use p21_commands::{
    Checks, CommandFault, DONE, Details, SyntaxChecks, canon_command, check_all_command,
    check_command, check_numbered_command, numbered_command, param_command, report,
    same_but_for_names_command, same_command, schema_command, show_command,
};
use p21_stream_io::Watched;
use p21_values::Name;
use std::io::{self, IsTerminal, Read, Write};
use std::rt::Stderr;

/// Why a command isn't run.
#[derive(Drop)]
pub enum Stopped<'a> {
    /// The command line names no command.
    NoCommand,
    /// The number of the instance has a sign.
    Signed(&'a str),
    /// No refusal has this number or name.
    NoRefusal(&'a str),
    /// The file of this path can't be opened.
    Unopened(&'a str, io::Error),
}

/// Runs the command that the command line names, and answers the exit status.
pub fn run_command<'a>(rt: &HostRuntime, matches: &ArgMatches<'a>) -> Result<u8, Stopped<'a>>
    ensures ran { IfOk result IsOfCommand }
    ensures unopened { NamesFiles (subcommand_name_of matches.now) → IfErr result IsUnopened }
{
    match matches.subcommand() {
        Some((name, found)) => run_named(rt, name, found),
        None => Err(Stopped::NoCommand),
    }
}

/// Runs the command of this name, and answers the exit status.
fn run_named<'a>(rt: &HostRuntime, name: &str, found: &ArgMatches<'a>) -> Result<u8, Stopped<'a>>
    ensures ran { IfOk result IsOfCommand }
    ensures unopened { NamesFiles (Some name.now) → IfErr result IsUnopened }
{
    match name {
        "param" => run_param(rt, found),
        "schema" => run_schema(rt, found),
        "syntax" => run_syntax(rt, found),
        "check" => run_check(rt, found),
        "canon" => run_canon(rt, found),
        "show" => run_show(rt, found),
        "same" => run_same(rt, found),
        "diff" => run_diff(rt, found),
        "faults" => run_faults(rt, found),
        _ => Err(Stopped::NoCommand),
    }
}

/// `param FILE`.
fn run_param<'a>(rt: &HostRuntime, found: &ArgMatches<'a>) -> Result<u8, Stopped<'a>>
    ensures ran { IfOk result IsOfCommand }
    ensures unopened { IfErr result IsUnopened }
{
    let path = given(found, "FILE");
    let mut file = Watched::new(Kept::new(Inputs::new().open(rt, path)?));
    let status = param_command(
        rt.alloc(),
        &mut file,
        &mut Watched::new(rt.stdout()),
        &mut Watched::new(rt.stderr()),
    );
    let read = file.into_inner();
    note_given(
        rt,
        status,
        "param",
        &[Given::new(path, Wanted::Parameter, &read)],
        "",
    );
    Ok(status)
}

/// `schema S`.
fn run_schema<'a>(rt: &HostRuntime, found: &ArgMatches<'a>) -> Result<u8, Stopped<'a>>
    ensures ran { IfOk result IsOfCommand }
    ensures unopened { IfErr result IsUnopened }
{
    let path = given(found, "S");
    let mut schema = Watched::new(Kept::new(Inputs::new().open(rt, path)?));
    let mut faults = Watched::new(Kept::new(rt.stderr()));
    let status = schema_command(
        rt.alloc(),
        &mut schema,
        &mut Watched::new(rt.stdout()),
        &mut faults,
    );
    let read = schema.into_inner();
    note_given(
        rt,
        status,
        "schema",
        &[Given::new(path, Wanted::Schema, &read)],
        "",
    );
    note_listing(rt, path, faults.into_inner().front());
    Ok(status)
}

/// `syntax FILE.. [--header] [--count] [--all] [--most N] [--where] [--format FORM] [--progress]`.
fn run_syntax<'a>(rt: &HostRuntime, found: &ArgMatches<'a>) -> Result<u8, Stopped<'a>>
    ensures ran { IfOk result IsOfCommand }
    ensures unopened { IfErr result IsUnopened }
{
    match found.get_strs("FILE") {
        Some([path]) if !path.starts_with('@') => syntax_one(rt, found, path),
        Some(words) => Ok(syntax_several(rt, found, words)),
        None => syntax_one(rt, found, ""),
    }
}

/// `syntax` of one file, without its name in front of the lines.
fn syntax_one<'a>(
    rt: &HostRuntime,
    found: &ArgMatches<'a>,
    path: &'a str,
) -> Result<u8, Stopped<'a>>
    ensures ran { IfOk result IsOfCommand }
    ensures unopened { IfErr result IsUnopened }
{
    let mut inputs = Inputs::new();
    let wishes = Wishes::of_syntax(found, asked_places(found));
    let source = with_progress(rt, found, path, inputs.open(rt, path)?);
    let has_lines = wishes.asked != Asked::None;
    let file = Watched::new(Lines::new(rt.alloc(), source, has_lines));
    let mut output = Watched::new(rt.stdout());
    let mut faults = Watched::new(rt.stderr());
    let name = ToldOf {
        path,
        is_named: false,
    };
    let mut checks = SyntaxChecks::new();
    let details = details_given(found);
    let (status, lines) = tell_alone(
        rt,
        &mut checks,
        wishes,
        details,
        name,
        file,
        &mut output,
        &mut faults,
    );
    let read = lines.into_inner().into_inner();
    let file = Given::new(path, Wanted::Exchange, &read);
    note_given(rt, status, "syntax", &[file], "");
    Ok(status)
}

/// What `syntax` is asked to tell of a file behind its line.
pub fn details_given(found: &ArgMatches<'_>) -> Details {
    Details {
        header: found.get_flag("header"),
        count: found.get_flag("count"),
    }
}

/// `check S FILE.. [--all] [--most N] [--where] [--names] [--format FORM] [--progress]`.
fn run_check<'a>(rt: &HostRuntime, found: &ArgMatches<'a>) -> Result<u8, Stopped<'a>>
    ensures ran { IfOk result IsOfCommand }
    ensures unopened { IfErr result IsUnopened }
{
    let wishes = Wishes::of_check(found, asked_places(found));
    match found.get_strs("FILE") {
        Some([path]) if !path.starts_with('@') => check_named(rt, found, wishes, path),
        Some(words) => check_several(rt, found, wishes, words),
        None => check_named(rt, found, wishes, ""),
    }
}

/// `check` of one file, without its name in front of the lines.
fn check_named<'a>(
    rt: &HostRuntime,
    found: &ArgMatches<'a>,
    wishes: Wishes,
    path: &'a str,
) -> Result<u8, Stopped<'a>>
    ensures ran { IfOk result IsOfCommand }
    ensures unopened { IfErr result IsUnopened }
{
    if wishes.asked == Asked::None && !wishes.is_read_again() {
        check_one(rt, found, wishes, path)
    } else {
        check_with_places(rt, found, wishes, path)
    }
}

/// `check` of one file, with the place in each line, or with a list in front of whether its instances are told apart.
fn check_with_places<'a>(
    rt: &HostRuntime,
    found: &ArgMatches<'a>,
    wishes: Wishes,
    path: &'a str,
) -> Result<u8, Stopped<'a>>
    ensures ran { IfOk result IsOfCommand }
    ensures unopened { IfErr result IsUnopened }
{
    let mut inputs = Inputs::new();
    let schema_path = given(found, "S");
    let mut schema = Watched::new(Kept::new(inputs.open(rt, schema_path)?));
    let source = with_progress(rt, found, path, inputs.open(rt, path)?);
    let mut faults = Watched::new(Kept::new(rt.stderr()));
    let (status, source) = match Checks::load(rt.alloc(), &mut schema) {
        Ok(mut checks) => {
            let source = Recorded::new(rt.alloc(), source, wishes.is_read_again());
            let has_lines = wishes.asked != Asked::None;
            let file = Watched::new(Lines::new(rt.alloc(), source, has_lines));
            let mut output = Watched::new(rt.stdout());
            let name = ToldOf {
                path,
                is_named: false,
            };
            let (status, lines) = tell_wishes(
                rt,
                &mut checks,
                wishes,
                name,
                file,
                &mut output,
                &mut faults,
            );
            (status, lines.into_inner().into_inner())
        }
        Err(unloaded) => {
            let status = tell_unloaded(rt, wishes.asked, schema_path, &unloaded, &mut faults);
            (status, source)
        }
    };
    let read_schema = schema.into_inner();
    let read = source.into_inner();
    let schema = Given::new(schema_path, Wanted::Schema, &read_schema);
    let file = Given::new(path, Wanted::Exchange, &read);
    note_file(rt, status, "check", schema, file, "");
    note_listing(rt, schema_path, faults.into_inner().front());
    Ok(status)
}

/// `check` of one file, without its name in front of the lines.
fn check_one<'a>(
    rt: &HostRuntime,
    found: &ArgMatches<'a>,
    wishes: Wishes,
    path: &'a str,
) -> Result<u8, Stopped<'a>>
    ensures ran { IfOk result IsOfCommand }
    ensures unopened { IfErr result IsUnopened }
{
    let mut inputs = Inputs::new();
    let schema_path = given(found, "S");
    let mut schema = Watched::new(Kept::new(inputs.open(rt, schema_path)?));
    let mut file = Watched::new(with_progress(rt, found, path, inputs.open(rt, path)?));
    let mut faults = Watched::new(Kept::new(rt.stderr()));
    let status = run_check_over(rt, wishes, &mut schema, &mut file, &mut faults);
    let read_schema = schema.into_inner();
    let read = file.into_inner().into_inner();
    let schema = Given::new(schema_path, Wanted::Schema, &read_schema);
    let file = Given::new(path, Wanted::Exchange, &read);
    note_file(rt, status, "check", schema, file, "");
    note_listing(rt, schema_path, faults.into_inner().front());
    Ok(status)
}

/// Checks a file; or lists its refusals, or says whether its model tells its instances apart, where one of these is asked for.
fn run_check_over<S: Read, R: Read, F: Write>(
    rt: &HostRuntime,
    wishes: Wishes,
    schema: &mut Watched<S>,
    file: &mut Watched<R>,
    faults: &mut Watched<F>,
) -> u8
    ensures { IsOfCommand result }
{
    let mut output = Watched::new(rt.stdout());
    match wishes.most {
        Some(most) => check_all_command(rt.alloc(), schema, file, most, &mut output, faults),
        None if wishes.names => {
            check_numbered_command(rt.alloc(), schema, file, &mut output, faults)
        }
        None => check_command(rt.alloc(), schema, file, &mut output, faults),
    }
}

/// How many refusals are listed at most, where `--all` or `--most` asks for them.
pub fn most_given(found: &ArgMatches<'_>) -> Option<u64> {
    match found.get_one::<u64>("most") {
        Some(most) => Some(most),
        None if found.get_flag("all") => Some(u64::MAX),
        None => None,
    }
}

/// `canon S FILE [--names] [--progress]`.
fn run_canon<'a>(rt: &HostRuntime, found: &ArgMatches<'a>) -> Result<u8, Stopped<'a>>
    ensures ran { IfOk result IsOfCommand }
    ensures unopened { IfErr result IsUnopened }
{
    let mut inputs = Inputs::new();
    let (schema_path, path) = (given(found, "S"), given(found, "FILE"));
    let mut schema = Watched::new(Kept::new(inputs.open(rt, schema_path)?));
    let mut file = Watched::new(with_progress(rt, found, path, inputs.open(rt, path)?));
    let mut faults = Watched::new(Kept::new(rt.stderr()));
    let is_numbered = found.get_flag("names");
    let status = run_canon_over(rt, is_numbered, &mut schema, &mut file, &mut faults);
    let read_schema = schema.into_inner();
    let read = file.into_inner().into_inner();
    let schema = Given::new(schema_path, Wanted::Schema, &read_schema);
    let file = Given::new(path, Wanted::Exchange, &read);
    note_file(rt, status, "canon", schema, file, "");
    note_listing(rt, schema_path, faults.into_inner().front());
    Ok(status)
}

/// Writes the canonical file of a file, under the names that it has or under numbers.
fn run_canon_over<S: Read, R: Read, F: Write>(
    rt: &HostRuntime,
    is_numbered: bool,
    schema: &mut Watched<S>,
    file: &mut Watched<R>,
    faults: &mut Watched<F>,
) -> u8
    ensures { IsOfCommand result }
{
    let mut output = Watched::new(rt.stdout());
    if is_numbered {
        numbered_command(rt.alloc(), schema, file, &mut output, faults)
    } else {
        canon_command(rt.alloc(), schema, file, &mut output, faults)
    }
}

/// `show S FILE --name N`.
fn run_show<'a>(rt: &HostRuntime, found: &ArgMatches<'a>) -> Result<u8, Stopped<'a>>
    ensures { IfOk result IsOfCommand }
{
    let number = name_given(found)?;
    let mut inputs = Inputs::new();
    let (schema_path, path) = (given(found, "S"), given(found, "FILE"));
    let mut schema = Watched::new(Kept::new(inputs.open(rt, schema_path)?));
    let mut file = Watched::new(Kept::new(inputs.open(rt, path)?));
    let mut output = Watched::new(rt.stdout());
    let mut faults = Watched::new(Kept::new(rt.stderr()));
    let status = show_command(
        rt.alloc(),
        &mut schema,
        &mut file,
        number,
        &mut output,
        &mut faults,
    );
    let read_schema = schema.into_inner();
    let read = file.into_inner();
    let schema = Given::new(schema_path, Wanted::Schema, &read_schema);
    let file = Given::new(path, Wanted::Exchange, &read);
    note_file(rt, status, "show", schema, file, given(found, "name"));
    note_listing(rt, schema_path, faults.into_inner().front());
    Ok(status)
}

/// The name that `--name` gives. `clap` reads numbers with a sign too; a name has digits alone.
fn name_given<'a>(found: &ArgMatches<'a>) -> Result<Name, Stopped<'a>> {
    let text = found.get_str("name").unwrap_or_default();
    match found.get_one::<u64>("name") {
        Some(number) if text.as_bytes().first() != Some(&b'+') => Ok(Name(number)),
        _ => Err(Stopped::Signed(text)),
    }
}

/// `same S A B [--names] [--progress]`.
fn run_same<'a>(rt: &HostRuntime, found: &ArgMatches<'a>) -> Result<u8, Stopped<'a>>
    ensures ran { IfOk result IsOfCommand }
    ensures unopened { IfErr result IsUnopened }
{
    let mut inputs = Inputs::new();
    let (schema_path, a, b) = (given(found, "S"), given(found, "A"), given(found, "B"));
    let mut schema = Watched::new(Kept::new(inputs.open(rt, schema_path)?));
    let mut first = Watched::new(with_progress(rt, found, a, inputs.open(rt, a)?));
    let mut second = Watched::new(with_progress(rt, found, b, inputs.open(rt, b)?));
    let mut faults = Watched::new(Kept::new(rt.stderr()));
    let but_for_names = found.get_flag("names");
    let status = run_same_over(
        rt,
        but_for_names,
        &mut schema,
        &mut first,
        &mut second,
        &mut faults,
    );
    let read_schema = schema.into_inner();
    let read_first = first.into_inner().into_inner();
    let read_second = second.into_inner().into_inner();
    let schema = Given::new(schema_path, Wanted::Schema, &read_schema);
    let first = Given::new(a, Wanted::Exchange, &read_first);
    let second = Given::new(b, Wanted::Exchange, &read_second);
    note_files(rt, status, "same", schema, first, second);
    note_listing(rt, schema_path, faults.into_inner().front());
    Ok(status)
}

/// Compares two files, by the names of their instances too or but for these.
fn run_same_over<S: Read, A: Read, B: Read, F: Write>(
    rt: &HostRuntime,
    but_for_names: bool,
    schema: &mut Watched<S>,
    first: &mut Watched<A>,
    second: &mut Watched<B>,
    faults: &mut Watched<F>,
) -> u8
    ensures { IsOfCommand result }
{
    let mut output = Watched::new(rt.stdout());
    if but_for_names {
        same_but_for_names_command(rt.alloc(), schema, first, second, &mut output, faults)
    } else {
        same_command(rt.alloc(), schema, first, second, &mut output, faults)
    }
}

/// `faults [N]`.
fn run_faults<'a>(rt: &HostRuntime, found: &ArgMatches<'a>) -> Result<u8, Stopped<'a>>
    ensures { IfOk result IsOfAnswer }
{
    let Some(word) = found.get_str("N") else {
        return Ok(written(rt, println!(rt; "{}", LIST)));
    };
    match print_sections(rt, SECTIONS, word) {
        Ok(false) => Err(Stopped::NoRefusal(word)),
        Ok(true) => Ok(DONE),
        Err(error) => Ok(written(rt, Err(error))),
    }
}

/// The status of an answer that was written or not.
fn written(rt: &HostRuntime, answer: io::Result<()>) -> u8
    ensures { IsOfAnswer result }
{
    match answer {
        Ok(()) => DONE,
        Err(_) => report(&CommandFault::Write, &mut Watched::new(rt.stderr())),
    }
}

/// Prints each section of the documents whose title has the word, and answers whether there is one.
fn print_sections(rt: &HostRuntime, sections: &str, word: &str) -> io::Result<bool> {
    let mut found = false;
    for section in sections.split("### ") {
        if is_titled(section, word) {
            println!(rt; "{section}")?;
            found = true;
        }
    }
    Ok(found)
}

/// Whether the word is the number or the name in the title of a section, which is its first line.
fn is_titled(section: &str, word: &str) -> bool {
    let Some((title, _)) = section.split_once('\n') else {
        return false;
    };
    let Some((number, name)) = title.split_once(' ') else {
        return false;
    };
    number == word || name == word
}

/// The word that an argument has.
pub fn given<'a>(found: &ArgMatches<'a>, argument: &str) -> &'a str {
    found.get_str(argument).unwrap_or_default()
}

/// A file, for a command that may have to say how much of it is read: with `--progress`, on a terminal.
pub fn with_progress<'p>(
    rt: &HostRuntime,
    found: &ArgMatches<'_>,
    path: &'p str,
    file: Source,
) -> ProgressReader<'p, Kept<Source>, Stderr> {
    let lines = (found.get_flag("progress") && rt.stderr().is_terminal()).then(|| rt.stderr());
    ProgressReader::new(Kept::new(file), path, lines)
}
