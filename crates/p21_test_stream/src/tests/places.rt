//! Where in a file refusals stand.
use super::devices::Slow;
use super::files::{DEMO, ENDED, Frame, HEADER, OPEN, SECTIONS, SHAPES, framed};
use super::{Rows, Wrong, check};
use p21_stream::{
    Expected, KINDS, Limits, LocatedSurvey, Place, Refusal, Schema, Session, Surveyed, Watched,
    survey_located,
};
use std::alloc::{AllocError, Global};

/// The number of a refusal, and a text with a `^` in front of the place where it stands.
pub(super) type Marked = &'static [(u8, &'static [u8])];

/// A text without its mark, and how many bytes stand in front of it.
fn unmarked(alloc: Global, text: &[u8]) -> Result<(Vec<u8>, usize), AllocError> {
    let mut plain = Vec::new(alloc);
    let mut place = 0;
    for (at, byte) in text.iter().enumerate() {
        if *byte == b'^' {
            place = at;
        } else {
            plain.push(*byte)?;
        }
    }
    Ok((plain, place))
}

/// The refusal of a file in pieces of so many bytes, in front of its end.
fn refusal_of_pieces(session: &mut Session<'_>, file: &[u8], size: usize) -> Option<Refusal> {
    for piece in file.chunks(size.max(1)) {
        if let Err(refusal) = session.feed(piece) {
            return Some(refusal);
        }
    }
    None
}

/// Whether a token of some kind could stand there.
fn has_some(expected: Expected) -> bool {
    for kind in &KINDS {
        if expected.has(*kind) {
            return true;
        }
    }
    false
}

/// The number of the refusal of a file in pieces of so many bytes, and its place: none where it is one of an unexpected token and nothing
/// was expected, or the other way round.
fn refused_at(
    alloc: Global,
    schema: &Schema,
    file: &[u8],
    size: usize,
) -> Option<(u8, Option<Place>)> {
    let mut session = Session::new(alloc, schema, Limits::usual());
    if let Some(refusal) = refusal_of_pieces(&mut session, file, size) {
        let number = refusal.number();
        let is_told = has_some(session.expected()) == (number == 20);
        return is_told.then_some((number, session.place()));
    }
    let places = session.places();
    let refusal = session.finish().err()?;
    Some((refusal.number(), Place::of(refusal.fault, places)))
}

/// Whether a file is refused by a number at a place, in whatever pieces it comes.
fn is_refused_at(alloc: Global, schema: &Schema, file: &[u8], number: u8, byte: u64) -> bool {
    for size in [1, 2, 3, 7, 64, 65_536] {
        if refused_at(alloc, schema, file, size) != Some((number, Some(Place { byte }))) {
            return false;
        }
    }
    true
}

/// The number of the first row whose refusal stands elsewhere.
pub(super) fn wrong_place(alloc: Global, schema: &Schema, frame: Frame, rows: Marked) -> Wrong {
    for (row, (number, text)) in rows.iter().enumerate() {
        let Ok((text, place)) = unmarked(alloc, text) else {
            return Some(("memory", row));
        };
        let Some(file) = framed(alloc, frame, &text) else {
            return Some(("memory", row));
        };
        let byte = frame.before.len().saturating_add(place) as u64;
        if !is_refused_at(alloc, schema, &file, *number, byte) {
            return Some(("a place", row));
        }
    }
    None
}

/// Texts with a `^` in front of each place where a refusal of a list stands.
pub(super) type MarkedLists = &'static [&'static [u8]];

/// Whether refusals of a list stand at the marks of a text that comes behind so many bytes. A reference has no place.
fn stand_at_marks(found: &LocatedSurvey, before: usize, marked: &[u8]) -> bool {
    let Surveyed::Refused(refusals) = &found.found else {
        return false;
    };
    let mut number = 0;
    let mut byte = before as u64;
    for letter in marked {
        if *letter != b'^' {
            byte = byte.saturating_add(1);
            continue;
        }
        let Some(located) = found.located(number) else {
            return false;
        };
        if located.place != Some(Place { byte })
            || refusals.list.get(number) != Some(&located.refusal)
        {
            return false;
        }
        number += 1;
    }
    number == refusals.list.len()
}

/// Whether the refusals that a survey lists of a file stand at the marks, in whatever pieces it comes.
fn list_stands(alloc: Global, schema: &Schema, frame: Frame, file: &[u8], marked: &[u8]) -> bool {
    for most in [1, 2, 3, 7, 64, 65_536] {
        let mut reader = Watched::new(Slow {
            bytes: file,
            most,
            calls: usize::MAX,
        });
        let Ok(found) = survey_located(alloc, schema, Limits::usual(), u64::MAX, &mut reader) else {
            return false;
        };
        if !stand_at_marks(&found, frame.before.len(), marked) {
            return false;
        }
    }
    true
}

/// The number of the first row of whose list a refusal stands elsewhere.
pub(super) fn wrong_list(alloc: Global, schema: &Schema, frame: Frame, rows: MarkedLists) -> Wrong {
    for (row, text) in rows.iter().enumerate() {
        let Ok((plain, _)) = unmarked(alloc, text) else {
            return Some(("memory", row));
        };
        let Some(file) = framed(alloc, frame, &plain) else {
            return Some(("memory", row));
        };
        if !list_stands(alloc, schema, frame, &file, text) {
            return Some(("a list", row));
        }
    }
    None
}

const LISTS: MarkedLists = &[
    b"#1=POINT(^5,1.,2.);#2=POINT($,^3,2.);\n#3=POINT($,1.,2.);#4=POINT($,1.,2.,^3.,4.);",
    b"#1=POINT($,1.,2.);\n /* */ ^#1=POINT($,1.,2.);^#01 /**/ = POINT($,1,2);^#1=POINT($,1.,2.);#2=^SPHERE();^#2=SPHERE();",
    b"#7=CLOUD((),((1.),(2.,^3,4.)),(TALLY(1)));#8=(MARKED(.RED.)POINT(1.,^2)SHAPE('a'));#9=(ORIGIN()POINT(^0.,2.)SHAPE($));",
    b"#1=POINT($,1.,2.);#2=POINT($,1.,^'a b');#3=POINT('abc',1.,2.);#4=POINT('abc',1.,2.);^X",
    b"#1=POINT($,1.,^2);^#1=POINT();#2=^POINTS();#3=POINT((^;",
];

const BYTES: Marked = &[
    (1, b"#1=^point();"),
    (1, b"A^-"),
    (2, b"#1=POINT(^'a"),
    (2, b"#1=POINT('a',^'it''s \n"),
    (3, b"#1=POINT^/* x"),
    (3, b"#1=POINT($,1.,1.);\n^/* x * "),
    (4, b"#1=POINT('\\^N\\"),
    (4, b"#1=POINT('\\X2\\^\\X0\\"),
    (5, b"#1=POINT('\\X2\\DC0^0"),
    (6, b"#1=POINT('^\xFC'"),
    (6, b"#1=POINT('\xC3\xA4^\xE2\x82("),
    (6, b"#1=POINT('^\xF0\x9F\x98("),
    (7, b"#1=POINT($,+^."),
    (7, b"#1=POINT($,1.E^X"),
    (8, b"#1=POINT($,^1.E9999999999,"),
    (8, b"#1=POINT($,^1.E99999"),
    (9, b"#1=POINT(\"3^3B\""),
    (10, b"#1844674407370955161^6=POINT($,1.,1.);"),
    (11, b"#1=POINT(#^)"),
    (26, b"#1=^&SCOPE"),
    (26, b"#1=^@"),
    (26, b"^#A"),
];

const TOKENS: Marked = &[
    (20, b"#1=POINT(^;"),
    (20, b"^X="),
    (20, b"#1=POINT($,1.,1.)\n ^#2=POINT($,1.,1.);"),
    (20, b"#1=POINT('a' ^'b' "),
    (20, b"#1=POINT($,1.,1.);\n^12 "),
    (
        21,
        b"#1=POINT($,((((((((((((((((((((((((((((((((((((((((((((((((((((((((((((((((^(",
    ),
    (24, b"^"),
    (24, b"#1=POINT('a'^"),
    (24, b"#1=POINT/^"),
    (24, b"#1=POINT^"),
    (24, b"ENDSEC;\nEND-ISO-10303-21^"),
    (26, b"#1=^!A();"),
];

const BEHIND: Marked = &[
    (1, b"X^-"),
    (25, b"^X"),
    (25, b"/* */ ^;"),
    (3, b"^/*"),
    (8, b"^1.E99999"),
    (26, b"^SIGNATURE;"),
];

const STATEMENTS: Marked = &[
    (32, b"^DATA('a');"),
    (26, b"^"),
    (26, b"^ANCHOR;"),
    (26, b"DATA;ENDSEC;^DATA;"),
    (26, b"DATA('a',('DEMO'));ENDSEC;DATA^;"),
];

const NAMED: Marked = &[
    (31, b"DATA('a',(^'OTHER'));"),
    (33, b"DATA('a',('DEMO'));ENDSEC;DATA(^'\\X\\61',('DEMO'));"),
];

const HEADERS: Marked = &[
    (30, b"^FILE_NAME('','',(''),(''),'','','');"),
    (30, b"/**/ ^FILE_DESCRIPTIONS((''),'2;1');"),
    (
        30,
        b"FILE_DESCRIPTION((''),'2;1');FILE_NAME('','',(''),(''),'',''^);",
    ),
    (30, b"FILE_DESCRIPTION(^);"),
    (30, b"FILE_DESCRIPTION((''),'2;1', ^'');"),
    (30, b"FILE_DESCRIPTION(^'','2;1');"),
    (30, b"FILE_DESCRIPTION /**/ (('','',$), ^('2;1'));"),
    (
        30,
        b"FILE_DESCRIPTION($,$);FILE_NAME($,$,$,^('',('')),$,$,$);",
    ),
    (30, b"FILE_DESCRIPTION($,$);FILE_NAME($,$,$,$,$,$,^A(1));"),
    (
        30,
        b"FILE_DESCRIPTION($,$);FILE_NAME($,$,$,$,$,$,$);FILE_SCHEMA(^$);",
    ),
    (
        30,
        b"FILE_DESCRIPTION($,$);FILE_NAME($,$,$,$,$,$,$);FILE_SCHEMA(^('DEMO','DEMO'));",
    ),
    (
        30,
        b"FILE_DESCRIPTION($,$);FILE_NAME($,$,$,$,$,$,$);FILE_SCHEMA(('DEMO'));\n^FILE_NAME($,$,$,$,$,$,$);",
    ),
    (
        31,
        b"FILE_DESCRIPTION($,$);FILE_NAME($,$,$,$,$,$,$);FILE_SCHEMA ( (/**/ ^'OTHER'));",
    ),
];

const NAMES: Marked = &[
    (
        40,
        b"#1=POINT($,1.,1.);\n/* a second one */ ^#01=POINT($,1.,1.);",
    ),
    (
        40,
        b"#1=POINT($,1.,1.);#2=POINT($,1.,1.);^#2=(MARKED(.RED.)SHAPE($));",
    ),
];

const RECORDS: Marked = &[
    (49, b"#1=CLOUD((),((1.),(2.,^3,4.)),(TALLY(1)));"),
    (49, b"#1=POINT(^5,1.,2.);"),
    (49, b"#1=CLOUD((),(),(DISTANCE(1.),TALLY(^1.)));"),
    (54, b"#1=CLOUD((),(),(DISTANCE(1.),^LENGTH(1.)));"),
    (
        51,
        b"#1=CLOUD((),(),^(TALLY(1),TALLY(2),TALLY(3),TALLY(4)));",
    ),
    (52, b"#1=CLOUD((),(),(DISTANCE(1.),^DISTANCE(10.E-1)));"),
    (46, b"#1=CLOUD((),((1.,^$)),(TALLY(1)));"),
    (47, b"#1=CLOUD((),((1.,^*)),(TALLY(1)));"),
    (53, b"#1=MARKED($,^.BLUE.);"),
    (49, b"#1=(MARKED(.RED.)POINT(1.,^2)SHAPE($));"),
    (48, b"#1=(ORIGIN()POINT(^0.,2.)SHAPE($));"),
    (45, b"#1=POINT($,1.,2.,^3.,4.);"),
    (45, b"#1 = POINT($,/* ) */1. ^);"),
    (45, b"#1=(POINT(1.^)SHAPE('a'));"),
    (41, b"#1=^SPHERE();"),
    (42, b"#1=^SHAPE($);"),
    (43, b"#1=(^POINT(1.,2.));"),
    (44, b"#1=(POINT(1.,2.)SHAPE($)^SHAPE($));"),
    (41, b"#1=(SHAPE($)^SPHERE());"),
];

#[test]
fn says_where_bytes_are_refused(rt: HostRuntime) {
    check(&rt, rt.alloc(), SHAPES, Rows::Places(OPEN, BYTES));
}

#[test]
fn says_where_tokens_are_refused(rt: HostRuntime) {
    check(&rt, rt.alloc(), SHAPES, Rows::Places(OPEN, TOKENS));
    check(&rt, rt.alloc(), SHAPES, Rows::Places(ENDED, BEHIND));
}

#[test]
fn says_where_headers_are_refused(rt: HostRuntime) {
    check(&rt, rt.alloc(), SHAPES, Rows::Places(HEADER, HEADERS));
    check(&rt, rt.alloc(), SHAPES, Rows::Places(SECTIONS, NAMED));
}

#[test]
fn says_where_statements_are_refused(rt: HostRuntime) {
    check(&rt, rt.alloc(), SHAPES, Rows::Places(SECTIONS, STATEMENTS));
    check(&rt, rt.alloc(), SHAPES, Rows::Places(DEMO, NAMES));
    check(&rt, rt.alloc(), SHAPES, Rows::Places(DEMO, RECORDS));
}

#[test]
fn says_where_the_refusals_of_a_list_stand(rt: HostRuntime) {
    check(&rt, rt.alloc(), SHAPES, Rows::ListPlaces(DEMO, LISTS));
}
