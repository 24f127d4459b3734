use p21_examples::{Budget, Problem, Stopped, canonical_under, hold_the_same, receive};
use p21_stream::{Limits, Schema, read_schema};
use std::alloc::Global;
use std::io::{self, Read};
use std::process::Abort;

const POINTS: &str = "SCHEMA demo; ENTITY point; x, y : REAL; END_ENTITY; END_SCHEMA;";

/// The text of a schema, a file, and its canonical file or the name of the refusal.
const CANONICAL: &[(&str, &str, &str)] = &[
    (
        POINTS,
        "ISO-10303-21; HEADER; FILE_DESCRIPTION((''),'2;1'); FILE_NAME('','',(''),(''),'','',''); FILE_SCHEMA(('DEMO')); ENDSEC; DATA; #2 = POINT(1.0, 10.E-1); ENDSEC; END-ISO-10303-21;",
        "ISO-10303-21;\nHEADER;\nFILE_DESCRIPTION((''),'2;1');\nFILE_NAME('','',(''),(''),'','','');\nFILE_SCHEMA(('DEMO'));\nENDSEC;\nDATA;\n#2=POINT(1.,1.);\nENDSEC;\nEND-ISO-10303-21;\n",
    ),
    (
        POINTS,
        "ISO-10303-21; HEADER; FILE_DESCRIPTION((''),'2;1'); FILE_NAME('','',(''),(''),'','',''); FILE_SCHEMA(('DEMO')); ENDSEC; DATA; #2 = POINT(1.0); ENDSEC; END-ISO-10303-21;",
        "Count",
    ),
    ("SCHEMA demo;", "", "Syntax"),
];

fn is_canonical(alloc: Global, schema: &str, file: &str, wanted: &str) -> bool {
    match canonical_under(alloc, schema.as_bytes(), Limits::usual(), file.as_bytes()) {
        Ok(text) => text.as_slice() == wanted.as_bytes(),
        Err(Problem::OfSchema(fault)) => fault.name() == wanted,
        Err(Problem::OfFile(refusal)) => refusal.name() == wanted,
    }
}

fn first_not_canonical(alloc: Global) -> &'static str {
    for (schema, file, wanted) in CANONICAL {
        if !is_canonical(alloc, schema, file, wanted) {
            return wanted;
        }
    }
    "none"
}

#[test]
fn canonical_files(rt: HostRuntime) {
    assert_eq!(rt; first_not_canonical(rt.alloc()), "none");
}

const HEADER: &str =
    "ISO-10303-21;HEADER;FILE_DESCRIPTION((''),'2;1');FILE_NAME('','',(''),(''),'','','');FILE_SCHEMA(('DEMO'));ENDSEC;DATA;";

const END: &str = "ENDSEC;END-ISO-10303-21;";

/// The instances of two files, and what is answered of them.
const COMPARED: &[(&str, &str, &str)] = &[
    (
        "#1=POINT(1.,1.);#2=POINT(0.,1.);",
        "#2=POINT(0.0,10.E-1);#01=POINT(1.0,1.);",
        "same",
    ),
    ("#1=POINT(1.,1.);", "#1=POINT(1.,2.);", "different"),
    ("#1=POINT(1.,1.);", "#1=POINT(1.);", "Count"),
];

fn compared(alloc: Global, schema: &Schema, first: &str, second: &str) -> &'static str {
    let first = HEADER
        .as_bytes()
        .chain(first.as_bytes())
        .chain(END.as_bytes());
    let second = HEADER
        .as_bytes()
        .chain(second.as_bytes())
        .chain(END.as_bytes());
    match hold_the_same(alloc, schema, Limits::usual(), first, second) {
        Ok(true) => "same",
        Ok(false) => "different",
        Err((_, refusal)) => refusal.name(),
    }
}

fn first_compared_otherwise(alloc: Global) -> &'static str {
    let Ok(schema) = read_schema(alloc, POINTS.as_bytes()) else {
        return "no schema";
    };
    for (first, second, wanted) in COMPARED {
        if compared(alloc, &schema, first, second) != *wanted {
            return second;
        }
    }
    "none"
}

#[test]
fn files_compared(rt: HostRuntime) {
    assert_eq!(rt; first_compared_otherwise(rt.alloc()), "none");
}

/// Gives seven bytes at a time, and fails behind so many reads.
#[derive(Drop)]
struct Trickle<'a> {
    bytes: &'a [u8],
    reads: u64,
}

impl Read for Trickle<'_> {
    fn read(&mut self, buf: &mut [u8]) -> io::Result<usize> {
        if self.reads == 0 {
            return Err(io::Error::from(io::ErrorKind::Interrupted));
        }
        self.reads -= 1;
        let count = buf.len().min(7).min(self.bytes.len());
        buf[..count].copy_from_slice(&self.bytes[..count]);
        self.bytes = &self.bytes[count..];
        Ok(count)
    }
}

/// A file of two points, with 87 canonical bytes of header records and 16 of each point.
const FILE: &str =
    "ISO-10303-21;HEADER;FILE_DESCRIPTION((''),'2;1');FILE_NAME('','',(''),(''),'','','');FILE_SCHEMA(('DEMO'));ENDSEC;DATA;#1=POINT(1.,1.0);#2=POINT(0.,1.);ENDSEC;END-ISO-10303-21;";

/// A file; the pending bytes, the kept bytes and the reads that are allowed, and the reads that don't fail; how many
/// instances came, or the kept bytes that were too many, and what came of it.
const RECEIVED: &[(&str, [u64; 4], u64, &str)] = &[
    (FILE, [1000, 1000, 1000, 1000], 2, "accepted"),
    (FILE, [1000, 119, 1000, 1000], 2, "accepted"),
    (FILE, [1000, 118, 1000, 1000], 119, "too large"),
    (FILE, [20, 1000, 1000, 1000], 0, "too large"),
    (FILE, [1000, 1000, 3, 1000], 0, "too slow"),
    (FILE, [1000, 1000, 1000, 3], 0, "broken"),
    (
        "ISO-10303-21;HEADER;ENDSEC;",
        [1000, 1000, 1000, 1000],
        0,
        "HeaderShape",
    ),
    (
        "ISO-10303-21;HEADER;",
        [1000, 1000, 1000, 1000],
        0,
        "EndsEarly",
    ),
];

fn received(alloc: Global, schema: &Schema, file: &str, numbers: [u64; 4]) -> (u64, &'static str) {
    let [pending, kept, reads, whole] = numbers;
    let budget = Budget {
        pending,
        kept,
        reads,
    };
    let mut source = Trickle {
        bytes: file.as_bytes(),
        reads: whole,
    };
    match receive(alloc, schema, Limits::usual(), &mut source, budget) {
        Ok(accepted) => (accepted.count(), "accepted"),
        Err(Stopped::Broken) => (0, "broken"),
        Err(Stopped::Refused(refusal)) => (0, refusal.name()),
        Err(Stopped::TooLarge(held)) => (held.kept, "too large"),
        Err(Stopped::TooSlow) => (0, "too slow"),
    }
}

fn first_received_otherwise(alloc: Global) -> &'static str {
    let Ok(schema) = read_schema(alloc, POINTS.as_bytes()) else {
        return "no schema";
    };
    for (file, numbers, number, wanted) in RECEIVED {
        let (found, word) = received(alloc, &schema, file, *numbers);
        if found != *number || word != *wanted {
            return wanted;
        }
    }
    "none"
}

#[test]
fn files_received(rt: HostRuntime) {
    assert_eq!(rt; first_received_otherwise(rt.alloc()), "none");
}
