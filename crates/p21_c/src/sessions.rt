//! Sessions, and the accepted files that they end in.
ghost use Rattle.std.specs.Prelude.{◌≡◌, None};
ghost use Rattle.p21_c.specs.Answers.{Feeds, Finishes, HoldsMade, MakesFile, MakesLine, MakesSession, ReadsFile, feed_answer};
ghost use Rattle.p21_c.specs.Contents.{output_in, schema_in, session_in, boxed_content};

use crate::answers::{
    Answer, DONE, FAILED, FILE, MISUSED, REFUSED, Report, accepted, done, misused, refused,
};
use crate::components::Handle;
use crate::contents::{Content, Holding, Taken, boxed, put_accepted, put_session, take_session};
use crate::lent::Lent;
use crate::places::{Place, Placed, at_byte, nowhere, place_in};
use crate::texts::{copy_of, file_of};
use p21_stream::SharedSession;
use p21_stream_output::Cursor;
use p21_stream_statements::{Place as BytePlace, Refusal};
use p21_values::{Limits, Name};
use std::alloc::Global;
use std::sync::Arc;

/// Hands out a session over a schema.
#[unsafe(no_mangle)]
pub extern "C" fn p21_session_new(alloc: Global, schema: &Lent, session: &mut Handle) -> u8
    ensures { HoldsMade (MakesSession (schema_in schema.now.value) result) session.old.value session.new.value }
{
    let (made, status) = begin(alloc, schema);
    session.hand(alloc, made);
    status
}

/// Feeds a session a piece of a file. The piece isn't kept.
#[unsafe(no_mangle)]
pub extern "C" fn p21_session_feed(
    alloc: Global,
    session: &mut Handle,
    piece: &[u8],
    report: &mut Report,
) -> u8
    ensures { Feeds (session_in session.old.value) piece.now (record { status = result; report = report.new }) session.old.value
        session.new.value }
{
    let (content, answer) = feed(session.take(alloc), piece);
    session.put(alloc, content);
    *report = answer.report;
    answer.status
}

/// Ends a session: where the file is accepted, the handle holds it from now on, else nothing.
#[unsafe(no_mangle)]
pub extern "C" fn p21_session_finish(alloc: Global, session: &mut Handle, report: &mut Report) -> u8
    ensures { Finishes (session_in session.old.value) (record { status = result; report = report.new }) session.old.value session.new.value }
{
    let (content, placed) = finish(session.take(alloc));
    let Placed { answer, place: _ } = placed;
    session.put(alloc, content);
    *report = answer.report;
    answer.status
}

/// As `p21_session_finish`, with where a refusal stands.
#[unsafe(no_mangle)]
pub extern "C" fn p21_session_finish_located(
    alloc: Global,
    session: &mut Handle,
    report: &mut Report,
    place: &mut Place,
) -> u8
    ensures { Finishes (session_in session.old.value) (record { status = result; report = report.new }) session.old.value session.new.value }
{
    let (content, placed) = finish(session.take(alloc));
    let Placed {
        answer,
        place: found,
    } = placed;
    session.put(alloc, content);
    *report = answer.report;
    *place = found;
    answer.status
}

/// Lets go of a session, or of the accepted file that it ended in.
#[unsafe(no_mangle)]
pub extern "C" fn p21_session_free(alloc: Global, session: &mut Handle)
    ensures { session.new.value ≡ None }
{
    session.put(alloc, None);
}

/// Hands out the canonical statement of the instance of this name, without a line feed.
#[unsafe(no_mangle)]
pub extern "C" fn p21_accepted_line(
    alloc: Global,
    session: &Lent,
    name: u64,
    text: &mut Handle,
) -> u8
    ensures { HoldsMade (MakesLine (output_in session.now.value) name result) text.old.value text.new.value }
{
    let (made, status) = line(alloc, session, name);
    text.hand(alloc, made);
    status
}

/// Hands out the canonical file.
#[unsafe(no_mangle)]
pub extern "C" fn p21_accepted_write(alloc: Global, session: &Lent, text: &mut Handle) -> u8
    ensures { HoldsMade (MakesFile (output_in session.now.value) result) text.old.value text.new.value }
{
    let (made, status) = file(alloc, session);
    text.hand(alloc, made);
    status
}

/// Reads on in the canonical file from where a cursor stands: fills a buffer as far as the file goes.
#[unsafe(no_mangle)]
pub extern "C" fn p21_accepted_read(
    session: &Lent,
    cursor: &mut Cursor,
    buffer: &mut [u8],
    count: &mut usize,
) -> u8
    ensures { ReadsFile (output_in session.now.value) result cursor.old cursor.new buffer.old buffer.new count.old count.new }
{
    let Some(output) = session.accepted() else {
        return MISUSED;
    };
    *count = output.read(cursor, buffer);
    DONE
}

/// A session over the schema that is held.
fn begin(alloc: Global, schema: &Lent) -> (Holding, u8)
    ensures { MakesSession (schema_in schema.now.value) result.1 (boxed_content result.0) }
{
    let Some(schema) = schema.schema() else {
        return (None, MISUSED);
    };
    let Ok(kept) = Arc::try_clone(schema) else {
        return (None, FAILED);
    };
    let Ok(schema) = Arc::try_clone(schema) else {
        return (None, FAILED);
    };
    let session = SharedSession::new(alloc, schema, Limits::usual());
    match boxed(alloc, Content::Session(session, kept)) {
        Some(content) => (Some(content), DONE),
        None => (None, FAILED),
    }
}

/// Feeds the session that is held.
fn feed(held: Holding, piece: &[u8]) -> (Holding, Answer)
    ensures { Feeds (session_in (boxed_content held)) piece.now result.1 (boxed_content held) (boxed_content result.0) }
{
    let (mut session, schema, place) = match take_session(held) {
        Taken::Session(session, schema, place) => (session, schema, place),
        Taken::Other(held) => return (held, misused()),
    };
    let answer = answer_to_feed(session.feed(piece));
    (put_session(place, session, schema), answer)
}

/// What is answered to a piece.
fn answer_to_feed(taken: Result<(), Refusal>) -> Answer
    ensures { result ≡ feed_answer taken }
{
    match taken {
        Ok(()) => done(),
        Err(refusal) => refused(FILE, refusal),
    }
}

/// Ends the session that is held.
fn finish(held: Holding) -> (Holding, Placed)
    ensures { Finishes (session_in (boxed_content held)) result.1.answer (boxed_content held) (boxed_content result.0) }
{
    let (session, schema, block) = match take_session(held) {
        Taken::Session(session, schema, block) => (session, schema, block),
        Taken::Other(held) => {
            let placed = Placed {
                answer: misused(),
                place: nowhere(),
            };
            return (held, placed);
        }
    };
    let earlier = place_in(&session);
    let places = session.places();
    match session.finish() {
        Ok(output) => {
            let placed = Placed {
                answer: accepted(&output),
                place: nowhere(),
            };
            (put_accepted(block, output, schema), placed)
        }
        Err(refusal) => {
            let end = BytePlace::of(refusal.fault, places);
            let placed = Placed {
                answer: refused(FILE, refusal),
                place: earlier_or(earlier, end),
            };
            (None, placed)
        }
    }
}

/// Where a piece was refused, or else where the end is.
fn earlier_or(earlier: Place, end: Option<BytePlace>) -> Place {
    if earlier.known == 1 {
        return earlier;
    }
    at_byte(end)
}

/// The statement of an instance of the accepted file that is held.
fn line(alloc: Global, session: &Lent, name: u64) -> (Holding, u8)
    ensures { MakesLine (output_in session.now.value) name result.1 (boxed_content result.0) }
{
    let Some(output) = session.accepted() else {
        return (None, MISUSED);
    };
    let Some(line) = output.line(Name(name)) else {
        return (None, REFUSED);
    };
    match copy_of(alloc, line) {
        Some(content) => (Some(content), DONE),
        None => (None, FAILED),
    }
}

/// The accepted file that is held.
fn file(alloc: Global, session: &Lent) -> (Holding, u8)
    ensures { MakesFile (output_in session.now.value) result.1 (boxed_content result.0) }
{
    let Some(output) = session.accepted() else {
        return (None, MISUSED);
    };
    match file_of(alloc, output) {
        Some(content) => (Some(content), DONE),
        None => (None, FAILED),
    }
}
