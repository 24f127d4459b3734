//! Limits on statements, on files and on their canonical forms.
use super::answers::{Answers, Wanted, comes, is_line};
use super::files::{DEMO, EMPTY, ENDED, OPEN, SECTIONS, SHAPES, framed};
use super::{Rows, Wrong, check};
use p21_stream::{Extent, Limits, Refusal, Schema, Surveyed, Watched, survey};
use std::alloc::Global;

const RECORDS: Answers = &[
    (
        "#2=POINT('éé',1.,1.);",
        "refused 27 CanonicalTooLong at statement 8",
    ),
    (
        "#2=POINT('é',1.,1.);",
        "#2=POINT('\\X2\\00E9\\X0\\',1.,1.);\n",
    ),
    (
        "#2 = POINT ( 'a'\n,  1.00000000, /* and a remark that isn't counted */ 1.0000000000 ) ;",
        "#2=POINT('a',1.,1.);\n",
    ),
    (
        "#2=POINT('a',1.00000000,1.000000000000000000000000000000);",
        "refused 22 RecordTooLong at statement 8",
    ),
];

#[test]
fn limits_records(rt: HostRuntime) {
    check(
        &rt,
        rt.alloc(),
        SHAPES,
        Rows::Within([50, 40, 1000, 1000], DEMO, RECORDS),
    );
}

const FILES: Answers = &[
    ("", ""),
    ("\n", "refused 23 FileTooLong at statement 10"),
    ("X", "refused 23 FileTooLong at statement 10"),
];

#[test]
fn limits_files(rt: HostRuntime) {
    check(
        &rt,
        rt.alloc(),
        SHAPES,
        Rows::Within([100, 100, 152, 152], ENDED, FILES),
    );
}

const CANONICAL_FILES: Answers = &[("", "refused 27 CanonicalTooLong at statement 9")];

#[test]
fn limits_canonical_files(rt: HostRuntime) {
    check(
        &rt,
        rt.alloc(),
        SHAPES,
        Rows::Within([100, 100, 1000, 151], ENDED, CANONICAL_FILES),
    );
}

/// The last bytes of the canonical heading are the last ones that its limit allows, or they are one too many.
const HEADINGS: Answers = &[
    (
        "DATA('123456789012345678',('DEMO'));ENDSEC;",
        "DATA('123456789012345678',('DEMO'));\nENDSEC;\n",
    ),
    (
        "DATA('1234567890123456789',('DEMO'));ENDSEC;",
        "refused 27 CanonicalTooLong at statement 7",
    ),
    (
        "DATA('é123456',('DEMO'));ENDSEC;",
        "DATA('\\X2\\00E9\\X0\\123456',('DEMO'));\nENDSEC;\n",
    ),
    (
        "DATA('é1234567',('DEMO'));ENDSEC;",
        "refused 27 CanonicalTooLong at statement 7",
    ),
];

#[test]
fn limits_headings(rt: HostRuntime) {
    check(
        &rt,
        rt.alloc(),
        SHAPES,
        Rows::Within([100, 36, 1000, 1000], SECTIONS, HEADINGS),
    );
}

const HEADINGS_OF_FILES: Answers = &[(
    "DATA('a',('DEMO'));ENDSEC;",
    "refused 27 CanonicalTooLong at statement 7",
)];

#[test]
fn limits_canonical_files_at_headings(rt: HostRuntime) {
    check(
        &rt,
        rt.alloc(),
        SHAPES,
        Rows::Within([100, 100, 1000, 139], SECTIONS, HEADINGS_OF_FILES),
    );
}

/// Limits, instances, and the refusals that a survey lists, the last of which ends the reading.
pub(super) type Surveys = &'static [([u64; 4], &'static str, &'static [&'static str])];

fn are_lines(alloc: Global, refusals: &[Refusal], lines: &[&str]) -> bool {
    for (refusal, line) in refusals.iter().zip(lines.iter()) {
        if !is_line(alloc, *refusal, line) {
            return false;
        }
    }
    refusals.len() == lines.len()
}

fn lists(alloc: Global, schema: &Schema, limits: Limits, file: &[u8], lines: &[&str]) -> bool {
    let mut reader = Watched::new(file);
    match survey(alloc, schema, limits, u64::MAX, &mut reader) {
        Ok(Surveyed::Refused(refusals)) => {
            matches!(refusals.extent, Extent::ReadTo(_)) && are_lines(alloc, &refusals.list, lines)
        }
        _ => false,
    }
}

fn lists_within(
    alloc: Global,
    schema: &Schema,
    [a, b, c, d]: [u64; 4],
    text: &str,
    lines: &[&str],
) -> Option<bool> {
    let limits = Limits::new(a, b, c, d)?;
    let file = framed(alloc, DEMO, text.as_bytes())?;
    Some(lists(alloc, schema, limits, &file, lines))
}

pub(super) fn wrong_survey(alloc: Global, schema: &Schema, rows: Surveys) -> Wrong {
    for (place, (limits, text, lines)) in rows.iter().enumerate() {
        if lists_within(alloc, schema, *limits, text, lines) != Some(true) {
            return Some((text, place));
        }
    }
    None
}

const SURVEYS: Surveys = &[
    (
        [50, 40, 1000, 1000],
        "#2=POINT('a',1.00000000,1.000000000000000000000000000000);",
        &["refused 22 RecordTooLong at statement 8"],
    ),
    (
        [50, 40, 1000, 1000],
        "#1=POINT($,1.);#2=POINT('a',1.00000000,1.000000000000000000000000000000);",
        &[
            "refused 45 Count in #1",
            "refused 22 RecordTooLong at statement 9",
        ],
    ),
    (
        [50, 40, 1000, 1000],
        "#2=POINT('éé',1.,1.);",
        &["refused 27 CanonicalTooLong at statement 8"],
    ),
    (
        [100, 100, 143, 143],
        "#1=POINT($,1.,1.);",
        &["refused 23 FileTooLong at statement 8"],
    ),
    (
        [100, 100, 1000, 144],
        "#1=POINT($,1.,1.);",
        &["refused 27 CanonicalTooLong at statement 8"],
    ),
];

#[test]
fn limits_surveys(rt: HostRuntime) {
    check(&rt, rt.alloc(), SHAPES, Rows::Surveyed(SURVEYS));
}

const BEHIND_TOKENS: Answers = &[
    (
        "#1=POINT($,1.E99999",
        "refused 8 NumberRange at statement 8",
    ),
    (
        "#1=POINT($,1.E99999,",
        "refused 8 NumberRange at statement 8",
    ),
    (
        "#1=POINT($,X1234567,",
        "refused 23 FileTooLong at statement 8",
    ),
    (
        "#1=POINT($,1. 1.234 ",
        "refused 20 Unexpected at statement 8",
    ),
    (
        "#1=POINT($,1.E999990",
        "refused 23 FileTooLong at statement 8",
    ),
];

#[test]
fn refuses_a_token_before_the_byte_that_ends_it(rt: HostRuntime) {
    check(
        &rt,
        rt.alloc(),
        SHAPES,
        Rows::Within([100, 100, 145, 145], OPEN, BEHIND_TOKENS),
    );
}

/// Limits that can't be, since a canonical form may have more bytes than the source.
const NO_LIMITS: &[[u64; 4]] = &[[10, 11, 10, 10], [10, 10, 10, 11]];

fn first_taken() -> Option<[u64; 4]> {
    for [record, canonical_record, file, canonical_file] in NO_LIMITS {
        if Limits::new(*record, *canonical_record, *file, *canonical_file).is_some() {
            return Some([*record, *canonical_record, *file, *canonical_file]);
        }
    }
    None
}

#[test]
fn refuses_limits(rt: HostRuntime) {
    assert_eq!(rt; first_taken(), None);
}

/// What may have no more bytes than a number: a statement and its canonical form, or the canonical form alone; a file and its
/// canonical form, or the canonical form alone.
#[derive(Clone, Copy)]
pub(super) enum Limited {
    Records,
    CanonicalRecords,
    Files,
    CanonicalFiles,
}

impl Limited {
    /// The numbers of the limits: of a record and its canonical form, and of a file and its canonical form.
    fn numbers(self, most: usize) -> [u64; 4] {
        let most = most as u64;
        match self {
            Limited::Records => [most, most, 1000, 1000],
            Limited::CanonicalRecords => [1000, most, 1000, 1000],
            Limited::Files => [100, 100, most, most],
            Limited::CanonicalFiles => [100, 100, 1000, most],
        }
    }

    pub(super) fn limits(self, most: usize) -> Option<Limits> {
        let [record, canonical_record, file, canonical_file] = self.numbers(most);
        Limits::new(record, canonical_record, file, canonical_file)
    }
}

/// From one number to another, the refusal of the file without instances, if it is refused.
pub(super) type Ranges = &'static [(usize, usize, &'static str)];

fn is_limited(alloc: Global, schema: &Schema, limits: Limits, line: &str) -> bool {
    let text = EMPTY.as_bytes();
    if line.is_empty() {
        comes(alloc, schema, limits, text, Wanted::File(text))
    } else {
        comes(alloc, schema, limits, text, Wanted::Refusal(line))
    }
}

fn holds(alloc: Global, schema: &Schema, limits: Option<Limits>, line: &str) -> bool {
    match limits {
        Some(limits) => is_limited(alloc, schema, limits, line),
        None => false,
    }
}

fn first_limit(
    alloc: Global,
    schema: &Schema,
    limited: Limited,
    (first, last): (usize, usize),
    line: &str,
) -> Option<usize> {
    for most in first..=last {
        if !holds(alloc, schema, limited.limits(most), line) {
            return Some(most);
        }
    }
    None
}

pub(super) fn wrong_limit(alloc: Global, schema: &Schema, limited: Limited, rows: Ranges) -> Wrong {
    for (first, last, line) in rows {
        if let Some(most) = first_limit(alloc, schema, limited, (*first, *last), line) {
            return Some((line, most));
        }
    }
    None
}

const EACH_OF_RECORDS: Ranges = &[
    (0, 12, "refused 22 RecordTooLong at statement 1"),
    (13, 28, "refused 22 RecordTooLong at statement 3"),
    (29, 35, "refused 22 RecordTooLong at statement 4"),
    (36, 49, ""),
];

#[test]
fn limits_records_to_each_number(rt: HostRuntime) {
    check(
        &rt,
        rt.alloc(),
        SHAPES,
        Rows::Limited(Limited::Records, EACH_OF_RECORDS),
    );
}

/// Where a line of the file ends right behind the limit, its canonical form is too long with the line feed.
const EACH_OF_FILES: Ranges = &[
    (0, 12, "refused 23 FileTooLong at statement 1"),
    (13, 13, "refused 27 CanonicalTooLong at statement 1"),
    (14, 20, "refused 23 FileTooLong at statement 2"),
    (21, 21, "refused 27 CanonicalTooLong at statement 2"),
    (22, 50, "refused 23 FileTooLong at statement 3"),
    (51, 51, "refused 27 CanonicalTooLong at statement 3"),
    (52, 87, "refused 23 FileTooLong at statement 4"),
    (88, 88, "refused 27 CanonicalTooLong at statement 4"),
    (89, 110, "refused 23 FileTooLong at statement 5"),
    (111, 111, "refused 27 CanonicalTooLong at statement 5"),
    (112, 118, "refused 23 FileTooLong at statement 6"),
    (119, 119, "refused 27 CanonicalTooLong at statement 6"),
    (120, 124, "refused 23 FileTooLong at statement 7"),
    (125, 125, "refused 27 CanonicalTooLong at statement 7"),
    (126, 132, "refused 23 FileTooLong at statement 8"),
    (133, 133, "refused 27 CanonicalTooLong at statement 8"),
    (134, 150, "refused 23 FileTooLong at statement 9"),
    (151, 151, "refused 27 CanonicalTooLong at statement 9"),
    (152, 159, ""),
];

#[test]
fn limits_files_to_each_number(rt: HostRuntime) {
    check(
        &rt,
        rt.alloc(),
        SHAPES,
        Rows::Limited(Limited::Files, EACH_OF_FILES),
    );
}
