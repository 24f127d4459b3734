//! Readers that fail, schemas that are refused, and what is read at all.
use crate::devices::{Behind, SmallReader};
use crate::run::Left::{self, Failure, Refusal};
use crate::run::{AMPLE_ROOMS, READ_FAULT, canon, check, check_all, same, show, syntax_all};
use crate::schemas::{DEMO, EMPTY};
use std::alloc::Global;

/// A reader that gives a text, and then fails.
fn failing(text: &str, most: usize) -> SmallReader<'_> {
    SmallReader {
        bytes: text.as_bytes(),
        most,
        then: Behind::Fails,
    }
}

/// A reader that gives the first bytes of the file without instances, and then fails.
fn failing_file(count: usize) -> SmallReader<'static> {
    let bytes = EMPTY.as_bytes();
    SmallReader {
        bytes: bytes.split_at(count.min(bytes.len())).0,
        most: 7,
        then: Behind::Fails,
    }
}

/// A reader that gives a text up to its end.
fn whole(text: &str) -> SmallReader<'_> {
    SmallReader {
        bytes: text.as_bytes(),
        most: text.len(),
        then: Behind::Ends,
    }
}

/// The first command that leaves something else.
fn first_command(
    alloc: Global,
    schema: SmallReader,
    file: SmallReader,
    left: Left,
) -> &'static str {
    if !check(alloc, &mut { schema }, file, AMPLE_ROOMS).is(left) {
        return "check";
    }
    if !canon(alloc, &mut { schema }, file, AMPLE_ROOMS).is(left) {
        return "canon";
    }
    if !show(alloc, &mut { schema }, file, 1, AMPLE_ROOMS).is(left) {
        return "show";
    }
    if !same(alloc, &mut { schema }, file, file, AMPLE_ROOMS).is(left) {
        return "same";
    }
    "none"
}

/// Whether two files are shown to fail of which one does.
fn fails_compared(alloc: Global, first: SmallReader, second: SmallReader) -> bool {
    same(alloc, &mut DEMO.as_bytes(), first, second, AMPLE_ROOMS).is(READ_FAULT)
}

/// Where a file begins to fail that isn't shown to fail, by itself or beside another.
fn first_count(alloc: Global, counts: &[usize]) -> Option<usize> {
    for count in counts {
        let file = failing_file(*count);
        if first_command(alloc, whole(DEMO), file, READ_FAULT) != "none"
            || !fails_compared(alloc, file, whole(EMPTY))
            || !fails_compared(alloc, whole(EMPTY), file)
        {
            return Some(*count);
        }
    }
    None
}

#[test]
fn shows_read_faults_of_files(rt: HostRuntime) {
    assert_eq!(rt; first_count(rt.alloc(), &[0, 20, 87, 151, 152]), None);
}

#[test]
fn shows_read_faults_of_schemas(rt: HostRuntime) {
    assert_eq!(rt;
        first_command(rt.alloc(), failing(DEMO, 100), whole(EMPTY), READ_FAULT),
        "none"
    );
}

/// Schemas that are refused, each with its line.
const REFUSED: &[(&str, &str)] = &[
    ("SCHEMA s; (* END_SCHEMA;", "schema refused S1 Token\n"),
    ("SCHEMA s; END_SCHEMA", "schema refused S2 Syntax\n"),
    (
        "SCHEMA s; ENTITY a; END_ENTITY; ENTITY a; END_ENTITY; END_SCHEMA;",
        "schema refused S3 Duplicate\n",
    ),
    (
        "SCHEMA s; ENTITY a; x : foo; END_ENTITY; END_SCHEMA;",
        "schema refused S4 UnknownName\n",
    ),
    (
        "SCHEMA s; ENTITY a SUBTYPE OF (b); END_ENTITY; ENTITY b SUBTYPE OF (a); END_ENTITY; END_SCHEMA;",
        "schema refused S5 Circular\n",
    ),
    (
        "SCHEMA s; USE FROM t; END_SCHEMA;",
        "schema refused S6 LeftOut\n",
    ),
    (
        "SCHEMA s; ENTITY a; x : LIST [3:1] OF REAL; END_ENTITY; END_SCHEMA;",
        "schema refused S7 Bounds\n",
    ),
    (
        "SCHEMA s; ENTITY a; y : REAL; END_ENTITY; ENTITY b SUBTYPE OF (a); DERIVE SELF\\a.z : REAL := 0.0; END_ENTITY; END_SCHEMA;",
        "schema refused S8 RedeclaredPlace\n",
    ),
];

/// The first schema that isn't refused so. The file would fail at its first read, so it isn't read.
fn first_schema(alloc: Global, rows: &'static [(&'static str, &'static str)]) -> &'static str {
    for (schema, line) in rows {
        if first_command(alloc, whole(schema), failing_file(0), Refusal(line)) != "none" {
            return schema;
        }
    }
    "none"
}

#[test]
fn reads_no_file_where_the_schema_is_refused(rt: HostRuntime) {
    assert_eq!(rt; first_schema(rt.alloc(), REFUSED), "none");
}

/// Whether a file is refused before its reader fails.
fn refuses_first(alloc: Global) -> bool {
    let file = failing("ISO-10303-21;HEADER;DATA;", 100);
    let run = check(alloc, &mut DEMO.as_bytes(), file, AMPLE_ROOMS);
    run.is(Refusal("refused 20 Unexpected at statement 3\n"))
}

/// The file without instances up to its data section, with an instance that is refused.
const BEGUN: &str =
    "ISO-10303-21;HEADER;FILE_DESCRIPTION((''),'2;1');FILE_NAME('','',(''),(''),'','','');FILE_SCHEMA(('DEMO'));ENDSEC;DATA;#1=POINT($,1.);";

/// Whether a refusal is listed behind which the reader fails.
fn lists_before_it_fails(alloc: Global) -> bool {
    let schema = &mut DEMO.as_bytes();
    let run = check_all(alloc, schema, failing(BEGUN, 100), u64::MAX, AMPLE_ROOMS);
    let lines = "refused 45 Count in #1\nread fault\nrefusals 1, read 134 bytes\n";
    run.is(Failure("", lines))
}

/// The same with a statement that is broken.
const BROKEN: &str =
    "ISO-10303-21;HEADER;FILE_DESCRIPTION((''),'2;1');FILE_NAME('','',(''),(''),'','','');FILE_SCHEMA(('DEMO'));ENDSEC;DATA;#1=B(,);#2=";

/// The same of a file by itself.
fn lists_alone_before_it_fails(alloc: Global) -> bool {
    let run = syntax_all(alloc, &mut failing(BROKEN, 100), u64::MAX, AMPLE_ROOMS);
    let lines = "refused 20 Unexpected at statement 8\nread fault\nrefusals 1, read 127 bytes\n";
    run.is(Failure("", lines))
}

/// The reads that gave bytes of a file that fails, and those that failed: none where something else is left.
fn reads_under(alloc: Global, schema: &str, left: Left) -> Option<(u64, u64)> {
    let run = check(alloc, &mut schema.as_bytes(), failing_file(0), AMPLE_ROOMS);
    run.is(left).then_some((run.moved.0, run.failures))
}

/// How often each file was read, of a first file and one without instances.
fn reads_of_both(alloc: Global, first: &str) -> (u64, u64) {
    let (file, other) = (first.as_bytes(), EMPTY.as_bytes());
    same(alloc, &mut DEMO.as_bytes(), file, other, AMPLE_ROOMS).moved
}

/// The first rule of what is read that isn't kept.
fn first_broken(alloc: Global) -> &'static str {
    if !refuses_first(alloc) {
        return "a file is refused before its reader fails";
    }
    if !lists_before_it_fails(alloc) {
        return "a refusal is listed behind which the reader fails";
    }
    if !lists_alone_before_it_fails(alloc) {
        return "a refusal of a file by itself is listed behind which the reader fails";
    }
    let line = "schema refused S2 Syntax\n";
    if reads_under(alloc, "SCHEMA s; END_SCHEMA", Refusal(line)) != Some((0, 0)) {
        return "no file is read where the schema is refused";
    }
    if reads_under(alloc, DEMO, READ_FAULT) != Some((0, 1)) {
        return "the file is read behind the schema";
    }
    if reads_of_both(alloc, EMPTY) != (1, 1) {
        return "both files are read";
    }
    if reads_of_both(alloc, "ISO-10303-21;") != (1, 0) {
        return "no second file is read where the first is refused";
    }
    "none"
}

#[test]
fn reads_in_order(rt: HostRuntime) {
    assert_eq!(rt; first_broken(rt.alloc()), "none");
}
