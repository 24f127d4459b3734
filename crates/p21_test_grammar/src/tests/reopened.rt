//! A parser that is taken back to the end of its last statement.
use super::*;

/// A text in front of which stand a header and `DATA;`; the text behind which the parser goes on, and what that gives.
const REOPENED: &[(&str, &str, &str)] = &[
    ("", "#2=K();", "#2=K() end EndsEarly"),
    ("#1", "#2=K();", "#2=K() end EndsEarly"),
    ("#1=K(", "#2=K();", "#2=K() end EndsEarly"),
    ("#1=K((1,A((", "#2=K();", "#2=K() end EndsEarly"),
    ("#1=(K(1)", "#2=K();", "#2=K() end EndsEarly"),
    ("#1=K(1)", ";", "En Unexpected"),
    ("#1=K();#3=K(1)", "#2=K();", "#2=K() end EndsEarly"),
    ("#1=K(1,)", "#2=K();", "#2=K() end EndsEarly"),
    (
        "#1=K(1;",
        "#2=K();ENDSEC;END-ISO-10303-21;",
        "#2=K() end finish ",
    ),
    ("#1=;", "ENDSEC;DATA ", "end LeftOut(SecondSection)"),
    ("ENDSEC", "#2=K();", "#2=K() end EndsEarly"),
    ("ENDSEC;#1", "END-ISO-10303-21;", "finish "),
    ("ENDSEC;END-ISO-10303-21;#1", "#2 ", "AfterEnd"),
    ("ENDSEC;END-ISO-10303-21;#1", "", ""),
];

/// Whether the parser goes on so, with no parenthesis open.
fn goes_on(rt: &HostRuntime, before: &str, text: &str, expected: &str) -> bool {
    let mut reader = Reader::behind(rt, HEAD, "DATA;");
    reader.feed(before);
    reader.feed(" ");
    reader.parser.reopen();
    reader.refused = None;
    reader.parser.depth() == 0 && comes_to(reader, text, expected)
}

fn first_wrong_behind(rt: &HostRuntime) -> &'static str {
    for (before, text, expected) in REOPENED {
        if !goes_on(rt, before, text, expected) {
            return before;
        }
    }
    "none"
}

/// A text behind the header, and whether the parser stands in a data section behind it.
const SECTIONS: &[(&str, bool)] = &[
    ("", false),
    ("DATA", false),
    ("DATA;", true),
    ("DATA;#1=K(", true),
    ("DATA;#1;", true),
    ("DATA('a',('S'));", true),
    ("DATA;ENDSEC", true),
    ("DATA;ENDSEC;", false),
    ("DATA;ENDSEC;#1", false),
];

fn first_otherwise_in_data(rt: &HostRuntime) -> &'static str {
    for (text, is_in_data) in SECTIONS {
        let mut reader = Reader::behind(rt, HEAD, text);
        reader.feed(" ");
        if reader.parser.is_in_data() != *is_in_data {
            return text;
        }
    }
    "none"
}

#[test]
fn goes_on_behind_the_last_statement(rt: HostRuntime) {
    passes(&rt, first_wrong_behind(&rt));
    passes(&rt, first_otherwise_in_data(&rt));
}
