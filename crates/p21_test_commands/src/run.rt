//! What a run of a command over memory leaves.
use crate::devices::{Behind, Full, SmallReader, SmallWriter};
use crate::schemas::File;
use p21_commands::{
    Details, LeftOut, PairRows, RowForm, canon_command, check_all_command, check_command,
    check_numbered_command, diff_by_pairs_command, diff_command, numbered_command, param_command,
    same_but_for_names_command, same_command, schema_command, show_command, syntax_all_command,
    syntax_command,
};
use p21_stream::Watched;
use p21_values::Name;
use std::alloc::Global;
use std::io::Read;

/// How many bytes a writer takes a call, and in all.
pub(crate) type Space = (usize, usize);

/// Space for every answer.
pub(crate) const AMPLE: Space = (1_000_000, 1_000_000);

/// What the outputs of a command have room for, and what they do then.
#[derive(Clone, Copy)]
pub(crate) struct Rooms {
    pub(crate) output: Space,
    pub(crate) faults: Space,
    pub(crate) then: Full,
}

impl Rooms {
    fn output(self, alloc: Global) -> SmallWriter {
        SmallWriter::new(alloc, self.output, self.then)
    }

    fn faults(self, alloc: Global) -> SmallWriter {
        SmallWriter::new(alloc, self.faults, self.then)
    }
}

pub(crate) const AMPLE_ROOMS: Rooms = Rooms {
    output: AMPLE,
    faults: AMPLE,
    then: Full::Fails,
};

/// What a run of a command is to leave: both outputs, and its exit status.
#[derive(Clone, Copy)]
pub(crate) enum Left<'a> {
    /// This answer and nothing else.
    Answer(&'a str),
    /// The answer that two files are different.
    Different,
    /// A list of what differs in two files, and nothing else.
    Differences(&'a str),
    /// This fault line and nothing else, with the status of a refusal.
    Refusal(&'a str),
    /// This much of an answer and this much of a fault line, with the status of a failure.
    Failure(&'a str, &'a str),
}

impl<'a> Left<'a> {
    fn parts(self) -> (u8, &'a str, &'a str) {
        match self {
            Left::Answer(answer) => (0, answer, ""),
            Left::Different => (1, "different\n", ""),
            Left::Differences(list) => (1, list, ""),
            Left::Refusal(line) => (1, "", line),
            Left::Failure(output, faults) => (3, output, faults),
        }
    }
}

#[derive(Drop)]
pub(crate) struct Run {
    status: u8,
    output: Vec<u8>,
    faults: Vec<u8>,
    /// How many reads gave bytes of the first file and of the second.
    pub(crate) moved: (u64, u64),
    /// How many reads of the first file failed.
    pub(crate) failures: u64,
}

impl Run {
    fn new(status: u8, output: SmallWriter, faults: SmallWriter) -> Run {
        Run {
            status,
            output: output.taken,
            faults: faults.taken,
            moved: (0, 0),
            failures: 0,
        }
    }

    /// Whether the run left this and nothing else.
    pub(crate) fn is(&self, left: Left) -> bool {
        let (status, output, faults) = left.parts();
        self.status == status
            && self.output.as_slice() == output.as_bytes()
            && self.faults.as_slice() == faults.as_bytes()
    }

    /// Whether the run left this line as its answer, and nothing else.
    pub(crate) fn is_line(&self, line: &[u8]) -> bool {
        self.status == 0 && self.output.strip_suffix(b"\n") == Some(line) && self.faults.is_empty()
    }
}

pub(crate) fn param<R: Read>(alloc: Global, text: &mut R, rooms: Rooms) -> Run {
    let mut text = Watched::new(text);
    let mut output = Watched::new(rooms.output(alloc));
    let mut faults = Watched::new(rooms.faults(alloc));
    let status = param_command(alloc, &mut text, &mut output, &mut faults);
    Run::new(status, output.into_inner(), faults.into_inner())
}

pub(crate) fn schema<R: Read>(alloc: Global, text: &mut R, rooms: Rooms) -> Run {
    let mut text = Watched::new(text);
    let mut output = Watched::new(rooms.output(alloc));
    let mut faults = Watched::new(rooms.faults(alloc));
    let status = schema_command(alloc, &mut text, &mut output, &mut faults);
    Run::new(status, output.into_inner(), faults.into_inner())
}

pub(crate) fn syntax<R: Read>(alloc: Global, file: &mut R, details: Details, rooms: Rooms) -> Run {
    let mut file = Watched::new(file);
    let mut output = Watched::new(rooms.output(alloc));
    let mut faults = Watched::new(rooms.faults(alloc));
    let status = syntax_command(alloc, &mut file, details, &mut output, &mut faults);
    Run::new(status, output.into_inner(), faults.into_inner())
}

pub(crate) fn syntax_all<R: Read>(alloc: Global, file: &mut R, most: u64, rooms: Rooms) -> Run {
    let mut file = Watched::new(file);
    let mut output = Watched::new(rooms.output(alloc));
    let mut faults = Watched::new(rooms.faults(alloc));
    let status = syntax_all_command(alloc, &mut file, ALL, most, &mut output, &mut faults);
    Run::new(status, output.into_inner(), faults.into_inner())
}

pub(crate) fn check<S: Read, R: Read + Drop>(
    alloc: Global,
    schema: &mut S,
    file: R,
    rooms: Rooms,
) -> Run {
    let mut schema = Watched::new(schema);
    let mut file = Watched::new(file);
    let mut output = Watched::new(rooms.output(alloc));
    let mut faults = Watched::new(rooms.faults(alloc));
    let status = check_command(alloc, &mut schema, &mut file, &mut output, &mut faults);
    let mut run = Run::new(status, output.into_inner(), faults.into_inner());
    run.moved.0 = file.moved();
    run.failures = file.failures();
    run
}

pub(crate) fn check_all<S: Read, R: Read + Drop>(
    alloc: Global,
    schema: &mut S,
    file: R,
    most: u64,
    rooms: Rooms,
) -> Run {
    let mut schema = Watched::new(schema);
    let mut file = Watched::new(file);
    let mut output = Watched::new(rooms.output(alloc));
    let mut faults = Watched::new(rooms.faults(alloc));
    let status = check_all_command(
        alloc,
        &mut schema,
        &mut file,
        most,
        &mut output,
        &mut faults,
    );
    let mut run = Run::new(status, output.into_inner(), faults.into_inner());
    run.failures = file.failures();
    run
}

pub(crate) fn canon<S: Read, R: Read + Drop>(
    alloc: Global,
    schema: &mut S,
    file: R,
    rooms: Rooms,
) -> Run {
    let mut schema = Watched::new(schema);
    let mut file = Watched::new(file);
    let mut output = Watched::new(rooms.output(alloc));
    let mut faults = Watched::new(rooms.faults(alloc));
    let status = canon_command(alloc, &mut schema, &mut file, &mut output, &mut faults);
    Run::new(status, output.into_inner(), faults.into_inner())
}

pub(crate) fn show<S: Read, R: Read + Drop>(
    alloc: Global,
    schema: &mut S,
    file: R,
    name: u64,
    rooms: Rooms,
) -> Run {
    let mut schema = Watched::new(schema);
    let mut file = Watched::new(file);
    let mut output = Watched::new(rooms.output(alloc));
    let mut faults = Watched::new(rooms.faults(alloc));
    let status = show_command(
        alloc,
        &mut schema,
        &mut file,
        Name(name),
        &mut output,
        &mut faults,
    );
    Run::new(status, output.into_inner(), faults.into_inner())
}

pub(crate) fn same<S: Read, A: Read + Drop, B: Read + Drop>(
    alloc: Global,
    schema: &mut S,
    first: A,
    second: B,
    rooms: Rooms,
) -> Run {
    let mut schema = Watched::new(schema);
    let mut first = Watched::new(first);
    let mut second = Watched::new(second);
    let mut output = Watched::new(rooms.output(alloc));
    let mut faults = Watched::new(rooms.faults(alloc));
    let status = same_command(
        alloc,
        &mut schema,
        &mut first,
        &mut second,
        &mut output,
        &mut faults,
    );
    let mut run = Run::new(status, output.into_inner(), faults.into_inner());
    run.moved = (first.moved(), second.moved());
    run
}

/// Nothing is left out of a list.
const WHOLE: LeftOut<'static> = LeftOut {
    header: false,
    attributes: &[],
    tolerance: None,
};

/// Whether what is listed of two files leaves this.
fn lists(
    alloc: Global,
    schema: &str,
    first: &str,
    (form, left_out, second): (RowForm, LeftOut<'_>, File),
    rooms: Rooms,
    left: Left,
) -> bool {
    let Some(second) = second.text(alloc) else {
        return false;
    };
    let mut output = Watched::new(rooms.output(alloc));
    let mut faults = Watched::new(rooms.faults(alloc));
    let status = diff_command(
        alloc,
        &mut Watched::new(schema.as_bytes()),
        &mut Watched::new(first.as_bytes()),
        &mut Watched::new(second.as_bytes()),
        form,
        left_out,
        &mut output,
        &mut faults,
    );
    Run::new(status, output.into_inner(), faults.into_inner()).is(left)
}

/// Whether what is listed of two files by pairs of their instances leaves this.
fn lists_by_pairs(
    alloc: Global,
    schema: &str,
    first: &str,
    (form, left_out, pairs, second): (RowForm, LeftOut<'_>, PairRows, File),
    rooms: Rooms,
    left: Left,
) -> bool {
    let Some(second) = second.text(alloc) else {
        return false;
    };
    let mut output = Watched::new(rooms.output(alloc));
    let mut faults = Watched::new(rooms.faults(alloc));
    let status = diff_by_pairs_command(
        alloc,
        &mut Watched::new(schema.as_bytes()),
        &mut Watched::new(first.as_bytes()),
        &mut Watched::new(second.as_bytes()),
        form,
        left_out,
        pairs,
        &mut output,
        &mut faults,
    );
    Run::new(status, output.into_inner(), faults.into_inner()).is(left)
}

/// Whether the numbered file of a file leaves this.
fn numbers(alloc: Global, schema: &str, file: &str, rooms: Rooms, left: Left) -> bool {
    let mut output = Watched::new(rooms.output(alloc));
    let mut faults = Watched::new(rooms.faults(alloc));
    let status = numbered_command(
        alloc,
        &mut Watched::new(schema.as_bytes()),
        &mut Watched::new(file.as_bytes()),
        &mut output,
        &mut faults,
    );
    Run::new(status, output.into_inner(), faults.into_inner()).is(left)
}

/// Whether a check of whether a file has a numbered file leaves this.
fn checks_numbers(alloc: Global, schema: &str, file: &str, rooms: Rooms, left: Left) -> bool {
    let mut output = Watched::new(rooms.output(alloc));
    let mut faults = Watched::new(rooms.faults(alloc));
    let status = check_numbered_command(
        alloc,
        &mut Watched::new(schema.as_bytes()),
        &mut Watched::new(file.as_bytes()),
        &mut output,
        &mut faults,
    );
    Run::new(status, output.into_inner(), faults.into_inner()).is(left)
}

/// Whether two files compared but for the names of their instances leave this.
fn compares_but_for_names(
    alloc: Global,
    schema: &str,
    first: &str,
    second: File,
    rooms: Rooms,
    left: Left,
) -> bool {
    let Some(second) = second.text(alloc) else {
        return false;
    };
    let mut output = Watched::new(rooms.output(alloc));
    let mut faults = Watched::new(rooms.faults(alloc));
    let status = same_but_for_names_command(
        alloc,
        &mut Watched::new(schema.as_bytes()),
        &mut Watched::new(first.as_bytes()),
        &mut Watched::new(second.as_bytes()),
        &mut output,
        &mut faults,
    );
    Run::new(status, output.into_inner(), faults.into_inner()).is(left)
}

/// A command over a text or a file, with what it takes beside that.
#[derive(Clone, Copy)]
pub(crate) enum Command {
    Param,
    /// With what is told behind the line.
    Syntax(Details),
    /// With the most refusals that are listed. All is told behind the line.
    SyntaxAll(u64),
    Schema,
    Check,
    /// With the most refusals that are listed.
    CheckAll(u64),
    Canon,
    Show(u64),
    /// With the second file.
    Same(File),
    /// With the form of rows and the second file.
    Diff(RowForm, File),
    /// The same, with what is left out.
    DiffWithout(LeftOut<'static>, RowForm, File),
    /// The same of instances that are paired.
    DiffByPairs(RowForm, PairRows, File),
    PairsWithout(LeftOut<'static>, RowForm, PairRows, File),
    Numbered,
    CheckNumbered,
    /// With the second file.
    SameButForNames(File),
}

/// Whether two files compared leave this.
fn compares(
    alloc: Global,
    schema: &str,
    first: &str,
    second: File,
    rooms: Rooms,
    left: Left,
) -> bool {
    let mut reader = schema.as_bytes();
    match second.text(alloc) {
        Some(second) => same(
            alloc,
            &mut reader,
            first.as_bytes(),
            second.as_bytes(),
            rooms,
        )
        .is(left),
        None => false,
    }
}

/// Whether a command over a text under a schema leaves this.
pub(crate) fn leaves_of(
    alloc: Global,
    command: Command,
    declared: &str,
    text: &str,
    rooms: Rooms,
    left: Left,
) -> bool {
    let mut reader = declared.as_bytes();
    let mut bytes = text.as_bytes();
    match command {
        Command::Param => param(alloc, &mut bytes, rooms).is(left),
        Command::Syntax(details) => syntax(alloc, &mut bytes, details, rooms).is(left),
        Command::SyntaxAll(most) => syntax_all(alloc, &mut bytes, most, rooms).is(left),
        Command::Schema => schema(alloc, &mut bytes, rooms).is(left),
        Command::Check => check(alloc, &mut reader, bytes, rooms).is(left),
        Command::CheckAll(most) => { check_all(alloc, &mut reader, bytes, most, rooms).is(left) }
        Command::Canon => canon(alloc, &mut reader, bytes, rooms).is(left),
        Command::Show(name) => show(alloc, &mut reader, bytes, name, rooms).is(left),
        Command::Same(second) => compares(alloc, declared, text, second, rooms, left),
        Command::Diff(form, second) => {
            lists(alloc, declared, text, (form, WHOLE, second), rooms, left)
        }
        Command::DiffWithout(left_out, form, second) => {
            lists(alloc, declared, text, (form, left_out, second), rooms, left)
        }
        Command::DiffByPairs(form, pairs, second) => {
            let given = (form, WHOLE, pairs, second);
            lists_by_pairs(alloc, declared, text, given, rooms, left)
        }
        Command::PairsWithout(left_out, form, pairs, second) => {
            let given = (form, left_out, pairs, second);
            lists_by_pairs(alloc, declared, text, given, rooms, left)
        }
        Command::Numbered => numbers(alloc, declared, text, rooms, left),
        Command::CheckNumbered => checks_numbers(alloc, declared, text, rooms, left),
        Command::SameButForNames(second) => {
            compares_but_for_names(alloc, declared, text, second, rooms, left)
        }
    }
}

/// Whether a command over a file leaves this: not where memory runs out.
pub(crate) fn leaves(
    alloc: Global,
    command: Command,
    file: File,
    rooms: Rooms,
    left: Left,
) -> bool {
    match file.text(alloc) {
        Some(text) => leaves_of(alloc, command, file.schema().text(), &text, rooms, left),
        None => false,
    }
}

/// Whether a command leaves this in so much space, whatever a full writer does.
fn leaves_in(
    alloc: Global,
    command: Command,
    file: File,
    (output, faults): (Space, Space),
    left: Left,
) -> bool {
    for then in [Full::TakesNone, Full::Fails] {
        let rooms = Rooms {
            output,
            faults,
            then,
        };
        if !leaves(alloc, command, file, rooms, left) {
            return false;
        }
    }
    true
}

/// Whether each command that reads one file leaves this.
fn each_leaves(alloc: Global, file: File, left: Left) -> bool {
    leaves(alloc, Command::Check, file, AMPLE_ROOMS, left)
        && leaves(alloc, Command::Canon, file, AMPLE_ROOMS, left)
        && leaves(alloc, Command::Show(1), file, AMPLE_ROOMS, left)
}

fn both_leave(alloc: Global, one: (Command, File), other: (Command, File), left: Left) -> bool {
    leaves(alloc, one.0, one.1, AMPLE_ROOMS, left)
        && leaves(alloc, other.0, other.1, AMPLE_ROOMS, left)
}

fn is_rewritten(alloc: Global, file: File, canonical: File) -> bool {
    match canonical.text(alloc) {
        Some(text) => both_leave(
            alloc,
            (Command::Canon, file),
            (Command::Canon, canonical),
            Left::Answer(&text),
        ),
        None => false,
    }
}

/// A reader that gives a text, one byte a call, and then fails.
fn failing(text: &str) -> SmallReader<'_> {
    SmallReader {
        bytes: text.as_bytes(),
        most: 1,
        then: Behind::Fails,
    }
}

pub(crate) const READ_FAULT: Left<'static> = Left::Failure("", "read fault\n");

/// All that `syntax` tells.
pub(crate) const ALL: Details = Details {
    header: true,
    count: true,
};

/// A row of a table of tests.
#[derive(Clone, Copy)]
pub(crate) enum Row {
    /// The command over the file leaves this.
    Leaves(Command, File, Left<'static>),
    /// By its name: so does it where both outputs have so much space.
    LeavesIn(&'static str, Command, File, (Space, Space), Left<'static>),
    /// The file is rewritten as its canonical file, and that as itself.
    Rewritten(File, File),
    /// Each command that reads one file refuses it by this fault line.
    Refused(File, &'static str),
    /// Two files compared leave this, whichever comes first.
    Compared(File, File, Left<'static>),
    /// By its name: `param` over this text fails where the reader fails behind it.
    ParamFails(&'static str, &'static str),
    /// By its name: so does `syntax`.
    SyntaxFails(&'static str, &'static str),
    /// By its name: so does `schema`.
    SchemaFails(&'static str, &'static str),
}

impl Row {
    fn holds(self, alloc: Global) -> bool {
        match self {
            Row::Leaves(command, file, left) => leaves(alloc, command, file, AMPLE_ROOMS, left),
            Row::LeavesIn(_, command, file, spaces, left) => {
                leaves_in(alloc, command, file, spaces, left)
            }
            Row::Rewritten(file, canonical) => is_rewritten(alloc, file, canonical),
            Row::Refused(file, line) => each_leaves(alloc, file, Left::Refusal(line)),
            Row::Compared(first, second, left) => both_leave(
                alloc,
                (Command::Same(second), first),
                (Command::Same(first), second),
                left,
            ),
            Row::ParamFails(_, text) => {
                param(alloc, &mut failing(text), AMPLE_ROOMS).is(READ_FAULT)
            }
            Row::SyntaxFails(_, text) => {
                syntax(alloc, &mut failing(text), ALL, AMPLE_ROOMS).is(READ_FAULT)
            }
            Row::SchemaFails(_, text) => {
                schema(alloc, &mut failing(text), AMPLE_ROOMS).is(READ_FAULT)
            }
        }
    }

    /// What tells it from the rows beside it.
    fn name(self) -> &'static str {
        match self {
            Row::Leaves(Command::Show(_), _, Left::Answer(text) | Left::Refusal(text)) => text,
            Row::Leaves(
                Command::Same(file)
                | Command::Diff(_, file)
                | Command::DiffWithout(_, _, file)
                | Command::DiffByPairs(_, _, file)
                | Command::PairsWithout(_, _, _, file)
                | Command::SameButForNames(file),
                _,
                _,
            )
            | Row::Leaves(_, file, _)
            | Row::Rewritten(file, _)
            | Row::Refused(file, _)
            | Row::Compared(_, file, _) => file.name(),
            Row::LeavesIn(name, _, _, _, _)
            | Row::ParamFails(name, _)
            | Row::SyntaxFails(name, _)
            | Row::SchemaFails(name, _) => name,
        }
    }
}

pub(crate) type Rows = &'static [Row];

/// The name of the first row that doesn't hold.
pub(crate) fn first_wrong(alloc: Global, rows: Rows) -> &'static str {
    for row in rows {
        if !row.holds(alloc) {
            return row.name();
        }
    }
    "none"
}
