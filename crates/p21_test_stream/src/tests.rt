mod accepted;
mod answers;
mod cuts;
mod devices;
mod ends;
mod files;
mod growing;
mod headers;
mod held;
mod kinds;
mod large;
mod limits;
mod lists;
mod places;
mod records;
mod references;
mod rewriting;
mod same;
mod schemas;
mod sections;
mod ways;

use files::Frame;
use p21_stream::{Limits, Schema, read_schema};
use std::alloc::Global;
use std::process::Abort;

/// Rows of one kind.
#[derive(Clone, Copy)]
enum Rows {
    // What comes of texts in a frame, and of bytes that are no texts.
    Answers(Frame, answers::Answers),
    Bytes(Frame, answers::Bytes),
    // The same within limits of these numbers, and of the file without instances within many.
    Within([u64; 4], Frame, answers::Answers),
    Limited(limits::Limited, limits::Ranges),
    // What a survey lists of instances within limits, the last of which ends the reading.
    Surveyed(limits::Surveys),
    // Instances that are taken whole and byte by byte within limits, and long ones.
    Borders(Frame, ways::Ranges),
    Long(Frame, ways::Cases),
    // What accepted files answer, which texts they know as theirs, and what writers and cursors get of them.
    Facts(accepted::Facts),
    Texts(accepted::Texts),
    Writes(accepted::Writes),
    Reads(accepted::Reads),
    Cursors(accepted::Cursors),
    // Files cut off and cut into pieces.
    CutOff(cuts::CutOff),
    Pieces(cuts::Files),
    // What a session holds behind each piece, and behind a refusal.
    Held(held::Pieces),
    HeldRefused(held::Refused),
    // Points in an order, and other large files.
    Orders(&'static [u64]),
    Large(large::Files),
    // Files rewritten, and rewritten over readers and writers that fail at each of their calls.
    Rewritten(rewriting::Cases),
    FailingReads(rewriting::Cases),
    FailingWrites(rewriting::Cases),
    // Files compared, in both orders and over readers.
    Compared(Frame, same::Answer, same::Pairs),
    Readings(same::Readings),
    // Where refusals of texts in a frame stand.
    Places(Frame, places::Marked),
    ListPlaces(Frame, places::MarkedLists),
}

/// What a row is called that doesn't hold, and its number, or that of its cut or its call: none where each row holds.
type Wrong = Option<(&'static str, usize)>;

fn first_wrong_of(alloc: Global, schema: &Schema, rows: Rows) -> Wrong {
    match rows {
        Rows::Answers(frame, rows) => {
            answers::wrong_answer(alloc, schema, Limits::usual(), frame, rows)
        }
        Rows::Bytes(frame, rows) => answers::wrong_bytes(alloc, schema, frame, rows),
        Rows::Within(limits, frame, rows) => {
            answers::wrong_within(alloc, schema, limits, frame, rows)
        }
        Rows::Limited(limited, rows) => limits::wrong_limit(alloc, schema, limited, rows),
        Rows::Surveyed(rows) => limits::wrong_survey(alloc, schema, rows),
        Rows::Borders(frame, rows) => ways::wrong_border(alloc, schema, frame, rows),
        Rows::Long(frame, rows) => ways::wrong_long(alloc, schema, frame, rows),
        Rows::Facts(rows) => accepted::wrong_fact(alloc, schema, rows),
        Rows::Texts(rows) => accepted::wrong_text(alloc, schema, rows),
        Rows::Writes(rows) => accepted::wrong_write(alloc, schema, rows),
        Rows::Reads(rows) => accepted::wrong_read(alloc, schema, rows),
        Rows::Cursors(rows) => accepted::wrong_cursor(alloc, schema, rows),
        Rows::CutOff(rows) => cuts::wrong_end(alloc, schema, rows),
        Rows::Pieces(rows) => cuts::wrong_piece(alloc, schema, rows),
        Rows::Held(rows) => held::wrong_held(alloc, schema, rows),
        Rows::HeldRefused(rows) => held::wrong_refused(alloc, schema, rows),
        Rows::Orders(rows) => large::wrong_order(alloc, schema, rows),
        Rows::Large(rows) => large::wrong_file(alloc, schema, rows),
        Rows::Rewritten(rows) => rewriting::wrong_case(alloc, schema, rows),
        Rows::FailingReads(rows) => rewriting::wrong_read(alloc, schema, rows),
        Rows::FailingWrites(rows) => rewriting::wrong_write(alloc, schema, rows),
        Rows::Compared(frame, wanted, rows) => {
            same::wrong_pair(alloc, schema, frame, wanted, rows)
        }
        Rows::Readings(rows) => same::wrong_reading(alloc, schema, rows),
        Rows::Places(frame, rows) => places::wrong_place(alloc, schema, frame, rows),
        Rows::ListPlaces(frame, rows) => places::wrong_list(alloc, schema, frame, rows),
    }
}

/// The first row that doesn't hold of files of a schema.
fn first_wrong(alloc: Global, schema: &str, rows: Rows) -> Wrong {
    match read_schema(alloc, schema.as_bytes()) {
        Ok(schema) => first_wrong_of(alloc, &schema, rows),
        Err(_) => Some(("the schema", 0)),
    }
}

/// Fails where a row doesn't hold of files of a schema.
fn check(rt: &impl Abort, alloc: Global, schema: &str, rows: Rows) {
    assert_eq!(*rt; first_wrong(alloc, schema, rows), None);
}
