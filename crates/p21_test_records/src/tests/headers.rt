use super::*;
use p21_canon::write_header;

/// The statements up to the header.
const BEGIN: &str = "ISO-10303-21;HEADER;";

/// The statements of a header up to its schema.
const HEADER: &str =
    "ISO-10303-21;HEADER;FILE_DESCRIPTION($,$);FILE_NAME($,$,$,$,$,$,$);FILE_SCHEMA(('S'));";

/// The statements of a header.
const WHOLE_HEADER: &str =
    "ISO-10303-21;HEADER;FILE_DESCRIPTION($,$);FILE_NAME($,$,$,$,$,$,$);FILE_SCHEMA(('S'));ENDSEC;";

/// Whether the canonical line of a header record, or of what begins a section, is this.
fn has_line(alloc: Global, statement: &Event, wanted: &str) -> bool {
    let mut out = Vec::new(alloc);
    match statement {
        Event::Header(part) | Event::Named(part) => {
            write_header(part, &mut out).is_ok() && out.as_slice() == wanted.as_bytes()
        }
        _ => false,
    }
}

/// Whether the canonical line of a statement behind others is this.
fn gives_line(alloc: Global, front: &str, text: &str, wanted: &str) -> bool {
    let mut reader = Reader::behind(alloc, front);
    reader.feed(text.as_bytes());
    match reader.statement() {
        Some(statement) => has_line(alloc, statement, wanted),
        None => false,
    }
}

/// The first statement that has another line, or whose line has.
fn first_wrong_line(alloc: Global, front: &str, rows: Rows) -> &'static str {
    for (text, wanted) in rows {
        if !gives_line(alloc, front, text, wanted) || !gives_line(alloc, front, wanted, wanted) {
            return text;
        }
    }
    "none"
}

const DESCRIPTIONS: Rows = &[
    (
        "FILE_DESCRIPTION(('\\X\\E9'),$);",
        "FILE_DESCRIPTION(('\\X2\\00E9\\X0\\'),$);",
    ),
    (
        "FILE_DESCRIPTION ( ( 'b' , 'a' , 'b' ) , '2;1' ) ;",
        "FILE_DESCRIPTION(('b','a','b'),'2;1');",
    ),
];

#[test]
fn writes_descriptions(rt: HostRuntime) {
    passes(&rt, first_wrong_line(rt.alloc(), BEGIN, DESCRIPTIONS));
}

const FURTHER_RECORDS: Rows = &[
    ("!MY_RECORD(1.0,.A.);", "!MY_RECORD(1.,.A.);"),
    ("MY_RECORD(+01,1.0);", "MY_RECORD(1,1.);"),
    (
        "K($,*,A(!B(-0.0)),\"0\",(),(3,1,2));",
        "K($,*,A(!B(0.)),\"0\",(),(3,1,2));",
    ),
    ("K();", "K();"),
];

#[test]
fn writes_further_header_records(rt: HostRuntime) {
    passes(&rt, first_wrong_line(rt.alloc(), HEADER, FURTHER_RECORDS));
}

const NAMED_SECTIONS: Rows = &[
    ("DATA('a',('DEMO'));", "DATA('a',('DEMO'));"),
    ("DATA ( '\\X\\61' , ( 'demo' ) ) ;", "DATA('a',('demo'));"),
];

#[test]
fn writes_names_of_sections(rt: HostRuntime) {
    passes(
        &rt,
        first_wrong_line(rt.alloc(), WHOLE_HEADER, NAMED_SECTIONS),
    );
}
