//! Files compared, in both orders, and over readers that fail or never end.
use super::answers::is_line;
use super::devices::{Slow, Source, reader_of};
use super::files::{DEMO, EMPTY, Frame, HEADER, SECTIONS, SHAPES, framed};
use super::{Rows, Wrong, check};
use p21_stream::{Limits, Refusal, Schema, Watched, Which, same_meaning};
use std::alloc::Global;

/// What is to be answered for two files.
#[derive(Clone, Copy)]
pub(super) enum Answer {
    Same,
    Different,
    /// The refusal of one of them.
    Refused(Which, &'static str),
}

fn is_refusal(alloc: Global, found: Which, refusal: Refusal, wanted: Answer) -> bool {
    match wanted {
        Answer::Refused(which, line) => found == which && is_line(alloc, refusal, line),
        Answer::Same => false,
        Answer::Different => false,
    }
}

fn is_word(is_same: bool, wanted: Answer) -> bool {
    match wanted {
        Answer::Same => is_same,
        Answer::Different => !is_same,
        Answer::Refused(_, _) => false,
    }
}

fn is_answer(alloc: Global, found: Result<bool, (Which, Refusal)>, wanted: Answer) -> bool {
    match found {
        Ok(is_same) => is_word(is_same, wanted),
        Err((which, refusal)) => is_refusal(alloc, which, refusal, wanted),
    }
}

/// How many reads of each file moved bytes, and how many of each failed: none where something else is answered.
fn compared(
    alloc: Global,
    schema: &Schema,
    limits: Limits,
    (first, second): (Source<'_>, Source<'_>),
    wanted: Answer,
) -> Option<[u64; 4]> {
    let mut first = Watched::new(first);
    let mut second = Watched::new(second);
    let found = same_meaning(alloc, schema, limits, &mut first, &mut second);
    let moved = (first.moved(), second.moved());
    let failures = (first.failures(), second.failures());
    if is_answer(alloc, found, wanted) {
        Some([moved.0, moved.1, failures.0, failures.1])
    } else {
        None
    }
}

/// Whether this is answered for two files, in either order.
fn compare(alloc: Global, schema: &Schema, one: &[u8], other: &[u8], wanted: Answer) -> bool {
    let one = reader_of(one);
    let other = reader_of(other);
    let limits = Limits::usual();
    compared(alloc, schema, limits, (one, other), wanted).is_some()
        && compared(alloc, schema, limits, (other, one), wanted).is_some()
}

/// Pairs of texts.
pub(super) type Pairs = &'static [(&'static str, &'static str)];

fn compares_with(
    alloc: Global,
    schema: &Schema,
    frame: Frame,
    file: &[u8],
    other: &str,
    wanted: Answer,
) -> bool {
    match framed(alloc, frame, other.as_bytes()) {
        Some(other) => compare(alloc, schema, file, &other, wanted),
        None => false,
    }
}

fn compares(
    alloc: Global,
    schema: &Schema,
    frame: Frame,
    (one, other): (&str, &str),
    wanted: Answer,
) -> bool {
    match framed(alloc, frame, one.as_bytes()) {
        Some(file) => compares_with(alloc, schema, frame, &file, other, wanted),
        None => false,
    }
}

pub(super) fn wrong_pair(
    alloc: Global,
    schema: &Schema,
    frame: Frame,
    wanted: Answer,
    rows: Pairs,
) -> Wrong {
    for (place, (one, other)) in rows.iter().enumerate() {
        if !compares(alloc, schema, frame, (one, other), wanted) {
            return Some((one, place));
        }
    }
    None
}

const SAME: Pairs = &[
    ("", ""),
    ("#2 = POINT($, 1.0, 10.E-1);", "#2=POINT($,1.,1.);"),
    (
        "#1=CLOUD((),((2.,1.),(3.)),(TALLY(1)));",
        "#1=CLOUD((),((3.0),(1.,2.0)),(TALLY(1)));",
    ),
    (
        "#1=POINT($,1.,1.);#2=MARKED($,.RED.);",
        "#2=MARKED($,.RED.);#1=POINT($,1.,1.);",
    ),
    (
        "#1=POINT('caf\\X\\E9',1.,100.);",
        "#001 = POINT ( 'caf\\X2\\00E9\\X0\\' , 1.0 , /* a hundred */ 1.E+2 ) ;",
    ),
    (
        "#1=ORIGIN('a',*,2.);",
        "#1=(SHAPE('a')ORIGIN()POINT(*,2.));",
    ),
    (
        "#1=(MARKED(.RED.)POINT(1.,2.)SHAPE($));",
        "#1=(SHAPE($)POINT(1.,2.)MARKED(.RED.));",
    ),
    (
        "#1=CLOUD((#2,#3),(),(#3));#2=POINT($,1.,1.);#3=POINT($,1.,1.);",
        "#3=POINT($,1.,1.);#2=POINT($,1.,1.);#1=CLOUD((#03,#2),(),(#3));",
    ),
];

#[test]
fn takes_other_spellings_as_the_same(rt: HostRuntime) {
    check(
        &rt,
        rt.alloc(),
        SHAPES,
        Rows::Compared(DEMO, Answer::Same, SAME),
    );
}

const OTHER_VALUES: Pairs = &[
    ("#2=POINT($,1.,1.);", ""),
    ("#2=POINT($,1.,1.);", "#2=POINT($,1.,1.01);"),
    ("#2=POINT($,1.,1.);", "#2=POINT($,1.,-1.);"),
    ("#2=POINT('a',1.,1.);", "#2=POINT('b',1.,1.);"),
    ("#2=POINT('a',1.,1.);", "#2=POINT('A',1.,1.);"),
    ("#2=POINT($,1.,1.);", "#2=POINT('',1.,1.);"),
    ("#2=POINT($,1.,2.);", "#2=POINT($,2.,1.);"),
    ("#2=POINT($,1.,1.);", "#3=POINT($,1.,1.);"),
    ("#2=MARKED($,.RED.);", "#2=MARKED($,.GREEN.);"),
];

#[test]
fn tells_values_apart(rt: HostRuntime) {
    check(
        &rt,
        rt.alloc(),
        SHAPES,
        Rows::Compared(DEMO, Answer::Different, OTHER_VALUES),
    );
}

const OTHER_LISTS: Pairs = &[
    (
        "#1=CLOUD((),((2.,1.),(3.)),(TALLY(1)));",
        "#1=CLOUD((),((1.),(2.,3.)),(TALLY(1)));",
    ),
    (
        "#1=CLOUD((),((1.,1.,2.)),(TALLY(1)));",
        "#1=CLOUD((),((1.,2.,2.)),(TALLY(1)));",
    ),
    (
        "#1=CLOUD((),((1.)),(TALLY(1)));",
        "#1=CLOUD((),((1.),(1.)),(TALLY(1)));",
    ),
    (
        "#1=CLOUD((),(),(TALLY(1),TALLY(2)));",
        "#1=CLOUD((),(),(TALLY(2),TALLY(1)));",
    ),
    (
        "#1=CLOUD((),(),(TALLY(1)));",
        "#1=CLOUD((),(),(DISTANCE(1.)));",
    ),
    (
        "#1=CLOUD((#2),(),(#2));#2=POINT($,1.,1.);#3=POINT($,1.,1.);",
        "#1=CLOUD((#2),(),(#3));#2=POINT($,1.,1.);#3=POINT($,1.,1.);",
    ),
    (
        "#1=CLOUD((#2),(),(#2));#2=POINT($,1.,1.);#3=POINT($,1.,1.);",
        "#1=CLOUD((#2,#3),(),(#2));#2=POINT($,1.,1.);#3=POINT($,1.,1.);",
    ),
    (
        "#1=POINT($,1.,1.);",
        "#1=(MARKED(.RED.)POINT(1.,1.)SHAPE($));",
    ),
];

#[test]
fn tells_lists_apart(rt: HostRuntime) {
    check(
        &rt,
        rt.alloc(),
        SHAPES,
        Rows::Compared(DEMO, Answer::Different, OTHER_LISTS),
    );
}

const SAME_SECTIONS: Pairs = &[
    (
        "DATA('b',('DEMO'));#1=POINT($,1.,1.);ENDSEC;DATA('a',('demo'));#2=POINT($,2.0,1.);ENDSEC;",
        "DATA('\\X\\61',('demo'));#2=POINT($,2.,1.);ENDSEC;DATA('b',('DEMO'));#01=POINT($,1.,1.);ENDSEC;",
    ),
    ("DATA;ENDSEC;", "DATA ; /* empty */ ENDSEC ;"),
];

#[test]
fn takes_sections_in_any_order(rt: HostRuntime) {
    check(
        &rt,
        rt.alloc(),
        SHAPES,
        Rows::Compared(SECTIONS, Answer::Same, SAME_SECTIONS),
    );
}

const OTHER_SECTIONS: Pairs = &[
    ("DATA;ENDSEC;", "DATA('',('DEMO'));ENDSEC;"),
    ("DATA('a',('DEMO'));ENDSEC;", "DATA('b',('DEMO'));ENDSEC;"),
    ("DATA('a',('DEMO'));ENDSEC;", "DATA('a',('demo'));ENDSEC;"),
    (
        "DATA('b',('DEMO'));#1=POINT($,1.,1.);ENDSEC;DATA('a',('demo'));#2=POINT($,2.0,1.);ENDSEC;",
        "DATA('b',('DEMO'));#2=POINT($,2.0,1.);ENDSEC;DATA('a',('demo'));#1=POINT($,1.,1.);ENDSEC;",
    ),
    (
        "DATA('a',('DEMO'));ENDSEC;",
        "DATA('a',('DEMO'));ENDSEC;DATA('b',('DEMO'));ENDSEC;",
    ),
];

#[test]
fn tells_sections_apart(rt: HostRuntime) {
    check(
        &rt,
        rt.alloc(),
        SHAPES,
        Rows::Compared(SECTIONS, Answer::Different, OTHER_SECTIONS),
    );
}

const OTHER_HEADERS: Pairs = &[
    (
        "FILE_DESCRIPTION((''),'2;1');FILE_NAME('','',(''),(''),'','','');FILE_SCHEMA(('DEMO'));",
        "FILE_DESCRIPTION((''),'2;1');FILE_NAME('','',(''),(''),'','','');FILE_SCHEMA(('demo'));",
    ),
    (
        "FILE_DESCRIPTION((''),'2;1');FILE_NAME('','',(''),(''),'','','');FILE_SCHEMA(('DEMO'));A(1);",
        "FILE_DESCRIPTION((''),'2;1');FILE_NAME('','',(''),(''),'','','');FILE_SCHEMA(('DEMO'));A(1.);",
    ),
    (
        "FILE_DESCRIPTION((''),'2;1');FILE_NAME('','',('a','b'),(''),'','','');FILE_SCHEMA(('DEMO'));",
        "FILE_DESCRIPTION((''),'2;1');FILE_NAME('','',('b','a'),(''),'','','');FILE_SCHEMA(('DEMO'));",
    ),
];

#[test]
fn tells_headers_apart(rt: HostRuntime) {
    check(
        &rt,
        rt.alloc(),
        SHAPES,
        Rows::Compared(HEADER, Answer::Different, OTHER_HEADERS),
    );
}

/// What a reader gives of a text: how many bytes a call, and how many calls don't fail.
#[derive(Clone, Copy)]
pub(super) enum Given {
    Whole(&'static str),
    Slow(&'static str, usize, usize),
    Endless,
}

impl Given {
    fn source(self) -> Source<'static> {
        match self {
            Given::Whole(text) => reader_of(text.as_bytes()),
            Given::Slow(text, most, calls) => Source::Bytes(Slow {
                bytes: text.as_bytes(),
                most,
                calls,
            }),
            Given::Endless => Source::Endless,
        }
    }
}

/// By its name: what two readers give of files of at most 1,000 bytes, the refusal, how many reads of each move bytes, and
/// how many of each fail.
pub(super) type Readings = &'static [(
    &'static str,
    (Given, Given),
    (Which, &'static str),
    [u64; 4],
)];

fn reads(
    alloc: Global,
    schema: &Schema,
    (first, second): (Given, Given),
    (which, line): (Which, &'static str),
    counts: [u64; 4],
) -> bool {
    let Some(limits) = Limits::new(1000, 1000, 1000, 1000) else {
        return false;
    };
    let readers = (first.source(), second.source());
    compared(alloc, schema, limits, readers, Answer::Refused(which, line)) == Some(counts)
}

pub(super) fn wrong_reading(alloc: Global, schema: &Schema, rows: Readings) -> Wrong {
    for (place, (name, readers, refusal, counts)) in rows.iter().enumerate() {
        if !reads(alloc, schema, *readers, *refusal, *counts) {
            return Some((name, place));
        }
    }
    None
}

/// A file with an instance of no entity.
const UNKNOWN: &str =
    "ISO-10303-21;\nHEADER;\nFILE_DESCRIPTION((''),'2;1');\nFILE_NAME('','',(''),(''),'','','');\nFILE_SCHEMA(('DEMO'));\nENDSEC;\nDATA;\n#1=FOO();ENDSEC;\nEND-ISO-10303-21;\n";

const REFUSED: Readings = &[
    (
        "the first is refused",
        (Given::Whole(UNKNOWN), Given::Whole(EMPTY)),
        (Which::First, "refused 41 UnknownEntity in #1"),
        [1, 0, 0, 0],
    ),
    (
        "both are refused",
        (Given::Whole(UNKNOWN), Given::Whole("")),
        (Which::First, "refused 41 UnknownEntity in #1"),
        [1, 0, 0, 0],
    ),
    (
        "the second is empty",
        (Given::Whole(EMPTY), Given::Whole("")),
        (Which::Second, "refused 24 EndsEarly at statement 1"),
        [1, 0, 0, 0],
    ),
    (
        "the second is refused",
        (Given::Whole(EMPTY), Given::Whole(UNKNOWN)),
        (Which::Second, "refused 41 UnknownEntity in #1"),
        [1, 1, 0, 0],
    ),
    (
        "the second isn't read where the first is refused",
        (Given::Whole("X;"), Given::Whole(EMPTY)),
        (Which::First, "refused 20 Unexpected at statement 1"),
        [1, 0, 0, 0],
    ),
];

#[test]
fn names_the_file_that_is_refused(rt: HostRuntime) {
    check(&rt, rt.alloc(), SHAPES, Rows::Readings(REFUSED));
}

const FAILING: Readings = &[
    (
        "the second reader fails behind 20 bytes",
        (Given::Whole(EMPTY), Given::Slow(EMPTY, 20, 1)),
        (Which::Second, "refused 91 ReadFault at statement 2"),
        [1, 1, 0, 1],
    ),
    (
        "the first reader fails at once",
        (Given::Slow(EMPTY, 20, 0), Given::Whole(EMPTY)),
        (Which::First, "refused 91 ReadFault at statement 1"),
        [0, 0, 1, 0],
    ),
    (
        "the second reader never ends",
        (Given::Whole(EMPTY), Given::Endless),
        (Which::Second, "refused 23 FileTooLong at statement 1"),
        [1, 1, 0, 0],
    ),
];

#[test]
fn fails_with_its_readers(rt: HostRuntime) {
    check(&rt, rt.alloc(), SHAPES, Rows::Readings(FAILING));
}
