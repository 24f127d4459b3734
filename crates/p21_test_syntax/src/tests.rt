//! What comes of files that are read by themselves.
use p21_stream_io::Watched;
use p21_stream_statements::{At, Place, Refusal};
use p21_stream_syntax::{
    IllFormed, WellFormed, syntax, syntax_located, syntax_of, syntax_of_located,
};
use p21_syntax_words::header_words;
use p21_values::{Limits, Name, NoMemory};
use std::alloc::Global;
use std::io;
use std::io::Read;

/// The records of a header in front of the third.
const NAMES: &str =
    "ISO-10303-21;HEADER;FILE_DESCRIPTION((''),'2;1');FILE_NAME('','',(''),(''),'','','');";
/// What stands behind them in front of the instances of a file without named sections.
const DEMO: &str = "FILE_SCHEMA(('demo {1 2}'));ENDSEC;DATA;";
/// The last lines of a file.
const BACK: &str = "ENDSEC;END-ISO-10303-21;";

/// The text of a file, by four parts, and what comes of it: `NAME N` of a well-formed one, with the name of its schema and the
/// number of its instances, or its refusal.
type Row = (&'static str, &'static str, &'static str, &'static str);

const ROWS: &[Row] = &[
    (DEMO, "", BACK, "DEMO 0"),
    (
        DEMO,
        "#1=A($);#2=b();",
        BACK,
        "refused 1 BadByte at statement 9",
    ),
    (
        DEMO,
        "#1=A(#3,(#2));#2=(B(#1)A());#3=C(D(#3),'#9');",
        BACK,
        "DEMO 3",
    ),
    (
        DEMO,
        "#1=A(1.);#1=A(1.,2.);",
        BACK,
        "refused 40 DuplicateName in #1",
    ),
    (DEMO, "#7=A();#01=A(#007);", BACK, "DEMO 2"),
    (
        DEMO,
        "#1=A(#2);#3=A(#4);",
        BACK,
        "refused 56 Dangling in #1",
    ),
    (
        DEMO,
        "#1=A(#2);#2=A(B((#4)));",
        BACK,
        "refused 56 Dangling in #2",
    ),
    (DEMO, "#1=(A()B(#2,#1));", BACK, "refused 56 Dangling in #1"),
    (
        DEMO,
        "#18446744073709551615=A(#18446744073709551615);",
        BACK,
        "DEMO 1",
    ),
    (
        DEMO,
        "#18446744073709551616=A();",
        BACK,
        "refused 10 NameRange at statement 8",
    ),
    (DEMO, "#1=A(nan);", BACK, "refused 1 BadByte at statement 8"),
    (DEMO, "#1=A('\u{e9}');", BACK, "DEMO 1"),
    (
        DEMO,
        "#1=A(1)",
        BACK,
        "refused 20 Unexpected at statement 8",
    ),
    (DEMO, "#1=A(1);", "", "refused 24 EndsEarly at statement 9"),
    (
        DEMO,
        "#1=A();ENDSEC;END-ISO-10303-21;",
        "#2",
        "refused 25 AfterEnd at statement 11",
    ),
    (
        "FILE_SCHEMA((''));ENDSEC;DATA;",
        "",
        BACK,
        "refused 31 SchemaName at statement 5",
    ),
    (
        "FILE_SCHEMA((' DEMO'));ENDSEC;DATA;",
        "",
        BACK,
        "refused 31 SchemaName at statement 5",
    ),
    (
        "FILE_SCHEMA(('203_DESIGN'));ENDSEC;DATA;",
        "",
        BACK,
        "refused 31 SchemaName at statement 5",
    ),
    (
        "FILE_SCHEMA(('_a'));ENDSEC;DATA;",
        "",
        BACK,
        "refused 31 SchemaName at statement 5",
    ),
    (
        "FILE_SCHEMA(('Ap203_2-x'));ENDSEC;DATA;",
        "#1=A();",
        BACK,
        "AP203_2 1",
    ),
    (
        "FILE_SCHEMA(('a','b'));ENDSEC;DATA;",
        "",
        BACK,
        "refused 30 HeaderShape at statement 5",
    ),
    (
        "FILE_SCHEMA(('a'));ENDSEC;DATA('x',('A {1}'));ENDSEC;",
        "DATA('y',('a'));#1=P(#1);",
        BACK,
        "A 1",
    ),
    (
        "FILE_SCHEMA(('a'));ENDSEC;DATA('x',('a'));",
        "#1=P(#2);ENDSEC;DATA('',('a'));#2=P();",
        BACK,
        "A 2",
    ),
    (
        "FILE_SCHEMA(('a'));ENDSEC;DATA('x',('a'));",
        "#1=P();ENDSEC;DATA('y',('a'));#1=P();",
        BACK,
        "refused 40 DuplicateName in #1",
    ),
    (
        "FILE_SCHEMA(('a'));ENDSEC;DATA('x',('a'));",
        "ENDSEC;DATA('\\X\\78',('a'));",
        BACK,
        "refused 33 SectionTwice at statement 9",
    ),
    (
        "FILE_SCHEMA(('a'));ENDSEC;DATA('x',('b'));",
        "",
        BACK,
        "refused 31 SchemaName at statement 7",
    ),
    (
        "FILE_SCHEMA(('a'));ENDSEC;DATA('x',('a_'));",
        "",
        BACK,
        "refused 31 SchemaName at statement 7",
    ),
];

/// The line of a well-formed file: none where memory runs out.
fn found_line(alloc: Global, found: &WellFormed) -> Option<String> {
    let name = str::from_utf8(&found.schema).ok()?;
    let instances = found.instances;
    format!(in alloc; "{name} {instances}").ok()
}

/// The line of a refusal: none where memory runs out.
fn refusal_line(alloc: Global, refusal: Refusal) -> Option<String> {
    let number = refusal.number();
    let name = refusal.name();
    match refusal.at {
        At::Statement(statement) => {
            format!(in alloc; "refused {number} {name} at statement {statement}").ok()
        }
        At::Instance(Name(instance)) => {
            format!(in alloc; "refused {number} {name} in #{instance}").ok()
        }
    }
}

/// What comes of a reader or of a text.
fn line_of(alloc: Global, answer: Result<WellFormed, Refusal>) -> Option<String> {
    match answer {
        Ok(found) => found_line(alloc, &found),
        Err(refusal) => refusal_line(alloc, refusal),
    }
}

/// Whether this is the line of an answer.
fn is_line(alloc: Global, answer: Result<WellFormed, Refusal>, wanted: &str) -> bool {
    match line_of(alloc, answer) {
        Some(line) => line.as_str() == wanted,
        None => false,
    }
}

/// Whether this comes of a file of four parts, from a reader and in memory.
fn comes_of(alloc: Global, row: Row) -> bool {
    let (schema, instances, back, wanted) = row;
    let Ok(text) = format!(in alloc; "{NAMES}{schema}{instances}{back}") else {
        return false;
    };
    let mut reader = Watched::new(text.as_bytes());
    let limits = Limits::usual();
    is_line(alloc, syntax(alloc, limits, &mut reader), wanted)
        && is_line(alloc, syntax_of(alloc, limits, text.as_bytes()), wanted)
}

/// The number of the first row that doesn't hold.
fn first_wrong(alloc: Global, rows: &[Row]) -> Option<usize> {
    rows.iter().position(|row| !comes_of(alloc, *row))
}

/// What stands behind the names of a file, up to its end, and how many bytes stand in front of what is refused: none where nothing is, and
/// of a reference. The names have 85 bytes.
type Placed = (&'static str, Option<u64>);

const PLACED: &[Placed] = &[
    ("FILE_SCHEMA(('S'));ENDSEC;DATA;#1=A();", None),
    ("FILE_SCHEMA((''));ENDSEC;DATA;", Some(98)),
    ("FILE_SCHEMA(($));ENDSEC;DATA;", Some(97)),
    ("FILE_SCHEMA(('S'));ENDSEC;DATA('a',('T'));", Some(121)),
    (
        "FILE_SCHEMA(('S'));ENDSEC;DATA('a',('S'));ENDSEC;DATA('a',('S'));",
        Some(139),
    ),
    (
        "FILE_SCHEMA(('S'));ENDSEC;DATA;#1=A($);#2=B(#1);#01=A($);",
        Some(133),
    ),
    ("FILE_SCHEMA(('S'));ENDSEC;DATA;#1=A(\"3\");", Some(123)),
    ("FILE_SCHEMA(('S'));ENDSEC;DATA;#1=A(#2);", None),
];

/// A reader that gives a few bytes at once.
#[derive(Clone, Copy)]
struct Slow<'a> {
    bytes: &'a [u8],
    most: usize,
}

impl Read for Slow<'_> {
    fn read(&mut self, buf: &mut [u8]) -> io::Result<usize> {
        let count = buf.len().min(self.most).min(self.bytes.len());
        buf[..count].copy_from_slice(&self.bytes[..count]);
        self.bytes = &self.bytes[count..];
        Ok(count)
    }
}

/// Where a file is refused.
fn place_in(answer: Result<WellFormed, IllFormed>) -> Option<u64> {
    match answer {
        Ok(_found) => None,
        Err(ill_formed) => byte_of(ill_formed.place),
    }
}

/// The byte of a place.
fn byte_of(place: Option<Place>) -> Option<u64> {
    match place {
        Some(place) => Some(place.byte),
        None => None,
    }
}

/// Whether a file is refused there, in memory and from readers that give it in pieces.
fn is_placed(alloc: Global, row: Placed) -> bool {
    let (text, wanted) = row;
    let Ok(file) = format!(in alloc; "{NAMES}{text}{BACK}") else {
        return false;
    };
    let limits = Limits::usual();
    for most in [1, 7, 10_000] {
        let mut reader = Watched::new(Slow {
            bytes: file.as_bytes(),
            most,
        });
        if place_in(syntax_located(alloc, limits, &mut reader)) != wanted {
            return false;
        }
    }
    place_in(syntax_of_located(alloc, limits, file.as_bytes())) == wanted
}

/// The number of the first file that is refused elsewhere.
fn first_elsewhere(alloc: Global, rows: &[Placed]) -> Option<usize> {
    rows.iter().position(|row| !is_placed(alloc, *row))
}

/// Records of a header in front of FILE_SCHEMA and behind it, instances, the header in words, and the keywords with their counts.
type Told = (
    &'static str,
    &'static str,
    &'static str,
    &'static str,
    &'static str,
);

const TOLD: &[Told] = &[
    (
        "FILE_DESCRIPTION(('a','b'),'2;1');FILE_NAME('c','d',('e'),('f'),'g','h','i');",
        "",
        "#1=AB(#2);#2=(A()B($)C());#3=B(1);",
        "description: a\ndescription: b\nimplementation level: 2;1\nfile name: c\ntime stamp: d\nauthor: e\norganization: f\n\
preprocessor version: g\noriginating system: h\nauthorization: i\nschema: DEMO {1}\n",
        "A 1\nAB 1\nB 2\nC 1\n",
    ),
    (
        "FILE_DESCRIPTION((),$);FILE_NAME('\\X\\0D\\X2\\202D20270085\\X0\\','',($),$,$,$,$);",
        "X(1);!FILE_NAME('z');",
        "",
        "file name: \\X2\\000D\\X0\\\\X2\\202D\\X0\\\u{2027}\\X2\\0085\\X0\\\ntime stamp:\nschema: DEMO {1}\nfurther record: X\nfurther record: !FILE_NAME\n",
        "",
    ),
];

/// Whether a file says this of itself.
fn tells(alloc: Global, told: Told) -> bool {
    let (records, further, instances, header, keywords) = told;
    let Ok(text) = format!(in alloc;
        "ISO-10303-21;HEADER;{records}FILE_SCHEMA(('DEMO {{1}}'));{further}ENDSEC;DATA;{instances}{BACK}"
    ) else {
        return false;
    };
    match syntax_of(alloc, Limits::usual(), text.as_bytes()) {
        Ok(found) => says(alloc, &found, header, keywords),
        Err(_) => false,
    }
}

/// Whether this is said of a well-formed file.
fn says(alloc: Global, found: &WellFormed, header: &str, keywords: &str) -> bool {
    is_text(header_words(alloc, &found.header), header)
        && is_text(found.keywords.text(alloc), keywords)
}

fn is_text(made: Result<Vec<u8>, NoMemory>, wanted: &str) -> bool {
    match made {
        Ok(text) => text.as_slice() == wanted.as_bytes(),
        Err(NoMemory) => false,
    }
}

/// The number of the first file that says something else.
fn first_otherwise(alloc: Global, rows: &[Told]) -> Option<usize> {
    rows.iter().position(|row| !tells(alloc, *row))
}

#[test]
fn tells_what_files_say_of_themselves(rt: HostRuntime) {
    assert_eq!(rt; first_otherwise(rt.alloc(), TOLD), None);
}

#[test]
fn reads_files_by_themselves(rt: HostRuntime) {
    assert_eq!(rt; first_wrong(rt.alloc(), ROWS), None);
}

#[test]
fn located(rt: HostRuntime) {
    assert_eq!(rt; first_elsewhere(rt.alloc(), PLACED), None);
}
