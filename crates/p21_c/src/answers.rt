//! What a call answers: a status, and a report.
ghost use Rattle.std.specs.Prelude.{◌≡◌, cond};
ghost use Rattle.p21_c.specs.Reports.{absent_form_of, absent_number_of, absent_of, absent_token_of, accepted_answer, alike_answer, counted_answer, done_answer, misused_answer, no_memory_answer, location_of, location_number_of, quiet_answer, refused_answer, schema_refused_answer, schema_status_of, status_of};

use p21_express_outline::SchemaFault;
use p21_grammar::GrammarFault;
use p21_stream_output::Accepted;
use p21_stream_statements::{At, Fault, Refusal};
use p21_tokens::{Absent, TokenFault};
use p21_values::Name;

/// The call did what it was asked.
pub const DONE: u8 = 0;
/// The schema or the file is refused, or there is no such instance.
pub const REFUSED: u8 = 1;
/// A handle holds nothing, or something else than the call wants.
pub const MISUSED: u8 = 2;
/// There was no memory.
pub const FAILED: u8 = 3;

/// What is refused: the schema.
pub const SCHEMA: u8 = 1;
/// The file, or the first of two.
pub const FILE: u8 = 2;
/// The second of two files.
pub const SECOND: u8 = 3;

/// Where it is refused: at a statement.
pub const STATEMENT: u8 = 1;
/// In an instance.
pub const INSTANCE: u8 = 2;

/// The number of the refusal where the model doesn't tell two instances apart.
pub const ALIKE: u8 = 59;
/// The number of the refusal where there is no memory.
pub const NO_MEMORY: u8 = 90;

/// Why something is refused, and where; or the counts of an accepted file.
#[repr(C)]
#[derive(Clone, Copy)]
pub struct Report {
    /// What is refused: 0 where nothing is, `SCHEMA`, `FILE` or `SECOND`.
    pub subject: u8,
    /// The number of the refusal, 0 where there is none.
    pub number: u8,
    /// What is left out, where the number is 26: as `absent_number` counts.
    pub absent: u8,
    /// Where: 0 where no location is named, `STATEMENT` or `INSTANCE`.
    pub place: u8,
    /// The number of the statement, or the name of the instance.
    pub at: u64,
    /// How many instances an accepted file has.
    pub instances: u64,
    /// How many bytes its canonical file has.
    pub bytes: u64,
}

/// A status and a report.
#[derive(Clone, Copy)]
pub struct Answer {
    pub status: u8,
    pub report: Report,
}

/// A status with an empty report.
fn quiet(status: u8) -> Answer
    ensures { result ≡ quiet_answer status }
{
    Answer {
        status,
        report: Report {
            subject: 0,
            number: 0,
            absent: 0,
            place: 0,
            at: 0,
            instances: 0,
            bytes: 0,
        },
    }
}

/// The answer of a call that did what it was asked.
pub fn done() -> Answer
    ensures { result ≡ done_answer }
{
    quiet(DONE)
}

/// A handle that doesn't hold what the call wants.
pub fn misused() -> Answer
    ensures { result ≡ misused_answer }
{
    quiet(MISUSED)
}

/// There was no memory.
pub fn no_memory() -> Answer
    ensures { result ≡ no_memory_answer }
{
    let mut answer = quiet(FAILED);
    answer.report.number = NO_MEMORY;
    answer
}

/// An accepted file.
pub fn accepted(file: &Accepted) -> Answer
    ensures { result ≡ accepted_answer file.now }
{
    let mut answer = quiet(DONE);
    answer.report.instances = file.count();
    answer.report.bytes = file.len();
    answer
}

/// A file that is well formed by itself, with so many instances.
pub fn counted(instances: u64) -> Answer
    ensures { result ≡ counted_answer instances }
{
    let mut answer = quiet(DONE);
    answer.report.instances = instances;
    answer
}

/// A refused file.
pub fn refused(subject: u8, refusal: Refusal) -> Answer
    ensures { result ≡ refused_answer subject refusal }
{
    let (place, at) = place(refusal.at);
    Answer {
        status: status(refusal.fault),
        report: Report {
            subject,
            number: refusal.number(),
            absent: absent(refusal.fault),
            place,
            at,
            instances: 0,
            bytes: 0,
        },
    }
}

/// A file, or the first of two, that isn't decided, by one of two instances that its model doesn't tell apart.
pub fn alike(name: u64) -> Answer
    ensures { result ≡ alike_answer name }
{
    let mut answer = quiet(REFUSED);
    answer.report.subject = FILE;
    answer.report.number = ALIKE;
    answer.report.place = INSTANCE;
    answer.report.at = name;
    answer
}

/// A refused schema.
pub fn schema_refused(fault: SchemaFault) -> Answer
    ensures { result ≡ schema_refused_answer fault }
{
    let mut answer = quiet(schema_status(fault));
    answer.report.subject = SCHEMA;
    answer.report.number = fault.number();
    answer
}

/// A truth, as C has it.
pub(crate) fn flag(yes: bool) -> u8
    ensures { result ≡ cond yes 1 0 }
{
    match yes {
        true => 1,
        false => 0,
    }
}

/// The status of a refusal.
fn status(fault: Fault) -> u8
    ensures { result ≡ status_of fault }
{
    match fault {
        Fault::NoMemory => FAILED,
        _ => REFUSED,
    }
}

/// The status of a refusal of a schema.
fn schema_status(fault: SchemaFault) -> u8
    ensures { result ≡ schema_status_of fault }
{
    match fault {
        SchemaFault::NoMemory => FAILED,
        _ => REFUSED,
    }
}

/// What is left out, where a fault says so.
fn absent(fault: Fault) -> u8
    ensures { result ≡ absent_of fault }
{
    match fault {
        Fault::Token(fault) => absent_token(fault),
        Fault::Grammar(fault) => absent_form(fault),
        _ => 0,
    }
}

/// What is left out, where a fault of a token says so.
fn absent_token(fault: TokenFault) -> u8
    ensures { result ≡ absent_token_of fault }
{
    match fault {
        TokenFault::LeftOut(absent) => absent_number(absent),
        _ => 0,
    }
}

/// What is left out, where a fault of the grammar says so.
fn absent_form(fault: GrammarFault) -> u8
    ensures { result ≡ absent_form_of fault }
{
    match fault {
        GrammarFault::LeftOut(absent) => absent_number(absent),
        _ => 0,
    }
}

/// The number of what is left out.
fn absent_number(absent: Absent) -> u8
    ensures { result ≡ absent_number_of absent }
{
    match absent {
        Absent::UserKeyword => 1,
        Absent::Scope => 2,
        Absent::ConstantName => 3,
        Absent::ValueName => 4,
        Absent::Anchor => 5,
        Absent::Reference => 6,
        Absent::Signature => 7,
        Absent::SecondSection => 8,
        Absent::NoDataSection => 9,
    }
}

/// A location, with its number.
fn place(at: At) -> (u8, u64)
    ensures { result ≡ (location_of at, location_number_of at) }
{
    match at {
        At::Statement(statement) => (STATEMENT, statement),
        At::Instance(Name(name)) => (INSTANCE, name),
    }
}
