//! What a session holds.
use super::files::{BACK, FRONT, SHAPES};
use super::{Rows, Wrong, check};
use p21_stream::{At, Fault, Limits, Schema, Session, SharedSession, read_schema};
use std::alloc::Global;
use std::sync::Arc;

/// Pieces one after another, each with what a session holds behind it: the token bytes of the open statement, the open
/// lists, the bytes kept and the references.
pub(super) type Pieces = &'static [(&'static str, [u64; 4])];

fn holds_behind(session: &mut Session<'_>, piece: &str, wanted: [u64; 4]) -> bool {
    let is_fed = session.feed(piece.as_bytes()).is_ok();
    let held = session.held();
    is_fed && [held.pending, held.depth, held.kept, held.needs] == wanted
}

fn first_held(session: &mut Session<'_>, pieces: Pieces) -> Wrong {
    for (place, (piece, wanted)) in pieces.iter().enumerate() {
        if !holds_behind(session, piece, *wanted) {
            return Some((piece, place));
        }
    }
    None
}

pub(super) fn wrong_held(alloc: Global, schema: &Schema, pieces: Pieces) -> Wrong {
    let mut session = Session::new(alloc, schema, Limits::usual());
    first_held(&mut session, pieces)
}

const POINT: Pieces = &[
    ("", [0, 0, 0, 0]),
    (FRONT, [0, 0, 87, 0]),
    ("#2 = POINT($, 1.0", [14, 0, 87, 0]),
    (", 10.E-1);", [0, 0, 105, 0]),
    (" /* behind */ ", [0, 0, 105, 0]),
    (BACK, [0, 0, 105, 0]),
];

#[test]
fn holds_a_point(rt: HostRuntime) {
    check(&rt, rt.alloc(), SHAPES, Rows::Held(POINT));
}

const CLOUD: Pieces = &[
    (FRONT, [0, 0, 87, 0]),
    ("#1=CLOUD((#2),((", [16, 2, 87, 0]),
    ("1.)),(TALLY(1)));", [0, 0, 120, 1]),
];

#[test]
fn holds_a_cloud(rt: HostRuntime) {
    check(&rt, rt.alloc(), SHAPES, Rows::Held(CLOUD));
}

const OPEN: Pieces = &[
    (FRONT, [0, 0, 87, 0]),
    ("#2/", [2, 0, 87, 0]),
    ("**/=POINT('a\n", [12, 0, 87, 0]),
    ("b',1.,1.);", [0, 0, 108, 0]),
    ("#3=CLOUD((#2),(),(TALLY(", [24, 2, 108, 0]),
    ("1),#2));", [0, 0, 140, 2]),
];

/// Characters of a string count one by one, a lone `/` doesn't yet, a typed parameter opens as a list does, and references
/// count whether their targets have come or not.
#[test]
fn holds_what_is_open(rt: HostRuntime) {
    check(&rt, rt.alloc(), SHAPES, Rows::Held(OPEN));
}

/// Texts that are refused within limits.
pub(super) type Refused = &'static [(&'static str, [u64; 4])];

/// Whether what a session holds is within limits, with no list too deep and without references.
fn is_within(session: &Session<'_>, limits: Limits) -> bool {
    let held = session.held();
    held.pending <= limits.record_source()
        && held.depth <= 64
        && held.kept <= limits.file_canonical()
        && held.needs == 0
}

/// Whether a session refuses a text, holds no more behind it than it may, and names the statement for other faults too.
fn refuses(session: &mut Session<'_>, text: &str, limits: Limits) -> bool {
    match session.feed(text.as_bytes()) {
        Ok(()) => false,
        Err(refusal) => {
            session.refusal(Fault::Read).at == refusal.at && is_within(session, limits)
        }
    }
}

fn holds_little(alloc: Global, schema: &Schema, text: &str, [a, b, c, d]: [u64; 4]) -> bool {
    match Limits::new(a, b, c, d) {
        Some(limits) => refuses(&mut Session::new(alloc, schema, limits), text, limits),
        None => false,
    }
}

pub(super) fn wrong_refused(alloc: Global, schema: &Schema, rows: Refused) -> Wrong {
    for (place, (text, limits)) in rows.iter().enumerate() {
        if !holds_little(alloc, schema, text, *limits) {
            return Some((text, place));
        }
    }
    None
}

const REFUSED: Refused = &[(FRONT, [35, 35, 1000, 1000])];

#[test]
fn holds_little_behind_a_refusal(rt: HostRuntime) {
    check(&rt, rt.alloc(), SHAPES, Rows::HeldRefused(REFUSED));
}

/// A session that owns its schema with others, where the schema is read and finds memory.
fn shared_session(alloc: Global, limits: Limits) -> Option<SharedSession> {
    let schema = read_schema(alloc, SHAPES.as_bytes()).ok()?;
    let schema = Arc::new(alloc, schema).ok()?;
    Some(SharedSession::new(alloc, schema, limits))
}

/// Whether a session holds this behind a piece, and names the open statement for other faults.
fn shares_holding(session: &mut SharedSession, piece: &str, wanted: [u64; 4], at: u64) -> bool {
    let is_fed = session.feed(piece.as_bytes()).is_ok();
    let held = session.held();
    is_fed
        && [held.pending, held.depth, held.kept, held.needs] == wanted
        && session.refusal(Fault::Read).at == At::Statement(at)
}

#[test]
fn holds_a_cloud_with_a_shared_schema(rt: HostRuntime) {
    let is_right = match shared_session(rt.alloc(), Limits::usual()) {
        Some(mut session) => {
            shares_holding(&mut session, FRONT, [0, 0, 87, 0], 8)
                && shares_holding(&mut session, "#1=CLOUD((#2),((", [16, 2, 87, 0], 8)
                && shares_holding(&mut session, "1.)),(TALLY(1)));", [0, 0, 120, 1], 9)
        }
        None => false,
    };
    assert!(rt; is_right);
}
