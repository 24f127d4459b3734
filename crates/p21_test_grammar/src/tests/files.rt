use super::*;

const WHOLE: Rows = &[(
    HEAD,
    "begin header FILE_DESCRIPTION(('' ) '2;1' ) FILE_NAME('' '' ('' ) ('' ) '' '' '' ) FILE_SCHEMA(('DEMO' ) ) end end EndsEarly",
)];

const SECTIONS: Rows = &[
    (
        "DATA;#7=K('a',-0.0,((),1),A(B($)),*,#2,.T.,\"23B\");#8=(B()A(!C(",
        "data #7=K('a' 0. (() 1 ) A:B:$ * #2 .T. \"23B\" ) LeftOut(UserKeyword)",
    ),
    ("DATA;ENDSEC;END-ISO-10303-21;", "data end finish "),
    (
        "DATA;#1=(B()A(1));ENDSEC;END-ISO-10303-21;",
        "data #1=/B()/A(1 ) end finish ",
    ),
    (
        "DATA;#1=(A((1,2,3,4,5,6,7,8,9)));ENDSEC;END-ISO-10303-21;",
        "data #1=/A((1 2 3 4 5 6 7 8 9 ) ) end finish ",
    ),
    (
        "DATA('b',('DEMO'));#1=A();ENDSEC;DATA('',('demo'));ENDSEC;END-ISO-10303-21;",
        "named DATA('b' ('DEMO' ) ) #1=A() end named DATA('' ('demo' ) ) end finish ",
    ),
    (
        "DATA;ENDSEC;DATA('a',('DEMO'));",
        "data end LeftOut(SecondSection)",
    ),
    (
        "DATA('a',('DEMO'));ENDSEC;DATA;",
        "named DATA('a' ('DEMO' ) ) end LeftOut(SecondSection)",
    ),
    ("DATA('a');", "SectionShape"),
    ("DATA($,('DEMO'));", "SectionShape"),
    ("DATA('a',('DEMO','DEMO'));", "SectionShape"),
    ("DATA('a','DEMO');", "SectionShape"),
    ("DATA(#1);", "SectionShape"),
    ("DATA('a',(!A(", "LeftOut(UserKeyword)"),
    ("END-ISO-10303-21 ", "LeftOut(NoDataSection)"),
    ("ANCHOR;", "LeftOut(Anchor)"),
    ("REFERENCE;", "LeftOut(Reference)"),
    ("SIGNATURE;", "LeftOut(Signature)"),
    ("DATA;ENDSEC;SIGNATURE;", "data end LeftOut(Signature)"),
    ("DATA;ANCHOR;", "data En Unexpected"),
    ("DATA;DATA;", "data En Unexpected"),
    (
        "DATA;ENDSEC;END-ISO-10303-21;X ",
        "data end finish AfterEnd",
    ),
    (
        "DATA;ENDSEC;END-ISO-10303-21;/* end */\x1a",
        "data end finish ",
    ),
    (
        "DATA;ENDSEC;END-ISO-10303-21;SIGNATURE ",
        "data end finish LeftOut(Signature)",
    ),
    ("DATA;#1=!A", "data end EndsEarly"),
    ("DATA;#1=!A(", "data LeftOut(UserKeyword)"),
    ("DATA;#1=POINT(;", "data HDEknwrtib$*() Unexpected"),
    ("DATA;#1=POINT(1,);", "data HDEknwrtib$*( Unexpected"),
    ("DATA;#1=();", "data HDEk Unexpected"),
    ("DATA;#1=A(B(1,2));", "data ) Unexpected"),
    ("DATA;#1=A(B());", "data HDEknwrtib$*( Unexpected"),
    ("DATA;X=", "data En Unexpected"),
    ("DATA,", "(; Unexpected"),
    ("DATA('a',('D')),", "; Unexpected"),
    ("'DATA' ", "D Unexpected"),
    ("DATA;#1,", "data = Unexpected"),
    ("DATA;#1=1 ", "data HDEk( Unexpected"),
    ("DATA;#1=A;", "data ( Unexpected"),
    ("DATA;#1=(A()1 ", "data HDEk) Unexpected"),
    ("DATA;#1=(A())=", "data ; Unexpected"),
    ("DATA;#1=A(B,", "data ( Unexpected"),
    ("DATA;#1=A((1)1 ", "data ), Unexpected"),
    ("DATA;ENDSEC=", "data ; Unexpected"),
    ("DATA;ENDSEC;(", "data end F Unexpected"),
];

/// The first text that gives other statements behind `head`, or another refusal.
fn first_wrong(rt: &HostRuntime, head: &str, rows: Rows) -> &'static str {
    for (text, expected) in rows {
        if !comes_to(Reader::behind(rt, head, ""), text, expected) {
            return text;
        }
    }
    "none"
}

/// Sections that are left out, where a section or the end may begin, and elsewhere.
const LEFT_OUT: &[(&str, &str, &str)] = &[
    ("ISO-10303-21;", "ANCHOR ", "LeftOut(Anchor)"),
    ("ISO-10303-21;", "REFERENCE ", "LeftOut(Reference)"),
    ("ISO-10303-21;", "SIGNATURE ", "LeftOut(Signature)"),
    ("ISO-10303-21;", "DATA ", "H Unexpected"),
    ("ISO-10303-21;", "!ANCHOR ", "H Unexpected"),
    ("ISO-10303-21;HEADER;", "ANCHOR;", "( Unexpected"),
    ("ISO-10303-21;HEADER;", "(", "HDEku Unexpected"),
    ("ISO-10303-21;HEADER;", "ENDSEC,", "(; Unexpected"),
    ("", "DATA ", "B Unexpected"),
    ("ISO-10303-21;HEADER;", "ANCHOR(1);", "HeaderShape"),
    (
        HEAD,
        "DATA;ENDSEC;REFERENCE ",
        "data end LeftOut(Reference)",
    ),
    (
        HEAD,
        "DATA('a',('D'));ENDSEC;ANCHOR ",
        "named DATA('a' ('D' ) ) end LeftOut(Anchor)",
    ),
    (
        HEAD,
        "DATA('a',('D'));ENDSEC;HEADER ",
        "named DATA('a' ('D' ) ) end DF Unexpected",
    ),
];

fn first_otherwise_left_out(rt: &HostRuntime) -> &'static str {
    for (head, text, expected) in LEFT_OUT {
        if !comes_to(Reader::behind(rt, head, ""), text, expected) {
            return text;
        }
    }
    "none"
}

/// Headers, with what comes of each, its statements apart.
const HEADERS: Rows = &[
    (
        "FILE_DESCRIPTION($,$);FILE_NAME($,$,$,(),$,$,$);FILE_SCHEMA(('demo'));ENDSEC;",
        "end EndsEarly",
    ),
    (
        "FILE_DESCRIPTION((),'');FILE_NAME('','',('',$),(''),'','','');FILE_SCHEMA(('D'));!MINE(1.,A(.B.));ENDSEC(1);ENDSEC;",
        "end EndsEarly",
    ),
    ("FILE_DESCRIPTION(('','',$),'',$);", "HeaderShape"),
    ("FILE_DESCRIPTION('','');", "HeaderShape"),
    ("FILE_NAME('','',(''),(''),'','','');", "HeaderShape"),
    ("!FILE_DESCRIPTION((''),'');", "HeaderShape"),
    (
        "FILE_DESCRIPTION((''),'');FILE_NAME('','',(''),(''),'','');",
        "HeaderShape",
    ),
    (
        "FILE_DESCRIPTION((''),'');FILE_NAME('','',(1),(''),'','','');",
        "HeaderShape",
    ),
    (
        "FILE_DESCRIPTION((''),'');FILE_NAME('','',(''),(''),'','','');FILE_SCHEMA($);",
        "HeaderShape",
    ),
    (
        "FILE_DESCRIPTION((''),'');FILE_NAME('','',(''),(''),'','','');FILE_SCHEMA(('A','B'));",
        "HeaderShape",
    ),
    (
        "FILE_DESCRIPTION((''),'');FILE_NAME('','',(''),(''),'','','');FILE_SCHEMA(($));",
        "HeaderShape",
    ),
    ("FILE_DESCRIPTION((''),'');ENDSEC;", "HeaderShape"),
    (
        "FILE_DESCRIPTION((''),'');FILE_NAME('','',(''),(''),'','','');FILE_SCHEMA(('A'));FILE_SCHEMA(('A'));",
        "HeaderShape",
    ),
    ("FILE_DESCRIPTION((''),#1", "end EndsEarly"),
    ("FILE_DESCRIPTION((''),#1 ,", "HDEkuwrtib$*( Unexpected"),
    ("DATA;", "( Unexpected"),
];

fn first_wrong_header(rt: &HostRuntime) -> &'static str {
    for (text, expected) in HEADERS {
        if !comes_to(Reader::behind(rt, HEADER, text), "", expected) {
            return text;
        }
    }
    "none"
}

/// An opening, a parameter or nothing, and how many there are of the opening and of `)` behind the parameter.
const NESTED: &[(&str, &str, u32, &str)] = &[
    ("(", "", 64, "end finish "),
    ("(", "", 65, "TooDeep"),
    ("B(", "$", 64, "end finish "),
    ("B(", "$", 65, "TooDeep"),
];

fn nested(rt: &HostRuntime, opening: &str, inner: &str, count: u32) -> Reader {
    let mut reader = Reader::behind(rt, HEAD, "DATA;#1=A(");
    reader.repeat(opening, count);
    reader.feed(inner);
    reader.repeat(")", count);
    reader.feed(");");
    reader
}

/// The place of the first row of which something else comes.
fn first_otherwise_nested(rt: &HostRuntime) -> Option<usize> {
    for (place, (opening, inner, count, expected)) in NESTED.iter().enumerate() {
        let reader = nested(rt, opening, inner, *count);
        if !comes_to(reader, "ENDSEC;END-ISO-10303-21;", expected) {
            return Some(place);
        }
    }
    None
}

/// Two texts, and how many of an opening may stand behind them. The parentheses of a record and of an external mapping
/// don't count; a list and a typed parameter count alike.
const OPENINGS: &[(&str, &str, &str, u32)] = &[
    (HEADER, "K(", "(", 64),
    (HEADER, "K(", "!B(", 64),
    (HEADER, "K((),A(1),", "(", 64),
    (HEADER, "K((),", "(A(", 32),
    (HEADER, "K((", "A((", 31),
    (HEAD, "DATA;#1=K((),", "(A(", 32),
    (HEAD, "DATA;#1=(K(1)B(", "A((", 32),
    (HEAD, "DATA(", "(", 64),
];

fn opened(rt: &HostRuntime, first: &str, before: &str, opening: &str, count: u32) -> Reader {
    let mut reader = Reader::behind(rt, first, before);
    reader.repeat(opening, count);
    reader
}

fn first_otherwise_opened(rt: &HostRuntime) -> &'static str {
    for (first, before, opening, count) in OPENINGS {
        let is_open = comes_to(
            opened(rt, first, before, opening, *count),
            "",
            "end EndsEarly",
        );
        let is_refused = comes_to(
            opened(rt, first, before, opening, *count),
            opening,
            "TooDeep",
        );
        if !is_open || !is_refused {
            return before;
        }
    }
    "none"
}

const DEPTHS: &[(&str, usize)] = &[
    ("", 0),
    ("DATA;", 0),
    ("DATA;#1=CLOUD(", 0),
    ("DATA;#1=CLOUD((#2),((", 2),
    ("DATA;#1=(CLOUD((A(", 2),
    ("DATA;#1=(CLOUD((A(1)", 1),
    ("DATA;#1=CLOUD((#2),((1.)),(TALLY(1)));", 0),
    ("DATA('a',(", 1),
    ("DATA;#1=CLOUD((#2),((=", 2),
];

fn first_of_another_depth(rt: &HostRuntime) -> &'static str {
    for (text, depth) in DEPTHS {
        let mut reader = Reader::behind(rt, HEAD, text);
        if !reader.is_steady() || reader.parser.depth() != *depth {
            return text;
        }
    }
    "none"
}

/// The 94 tokens of a small file, with a blank between each and the next.
const SMALL: &str = "ISO-10303-21 ; \
    HEADER ; \
    FILE_DESCRIPTION ( ( '' , $ ) , '2;1' ) ; \
    FILE_NAME ( '' , '' , ( '' ) , ( ) , $ , $ , $ ) ; \
    FILE_SCHEMA ( ( 'D' ) ) ; \
    !K ( A ( .B. ) ) ; \
    ENDSEC ; \
    DATA ( 'a' , ( 'D' ) ) ; \
    #1 = ( A ( 1 , $ ) B ( C ( * ) ) ) ; \
    #2 = D ( ( 1. , \"0\" ) ) ; \
    ENDSEC ; \
    END-ISO-10303-21 ;";

/// How many bytes of the small file are not refused for ending early.
fn first_otherwise_cut(rt: &HostRuntime) -> Option<usize> {
    for end in 0..SMALL.len() {
        let mut reader = Reader::new(rt);
        reader.feed_bytes(&SMALL.as_bytes()[..end]);
        if !comes_to(reader, "", "end EndsEarly") {
            return Some(end);
        }
    }
    None
}

const REFUSED: &[(&str, GrammarFault)] = &[
    ("DATA;#1=K((1 1 ", GrammarFault::Unexpected),
    ("DATA;ENDSEC;END-ISO-10303-21;;", GrammarFault::AfterEnd),
    ("ANCHOR ", GrammarFault::LeftOut(Absent::Anchor)),
    ("REFERENCE ", GrammarFault::LeftOut(Absent::Reference)),
    ("SIGNATURE ", GrammarFault::LeftOut(Absent::Signature)),
    (
        "DATA;#1=K(A(!B ",
        GrammarFault::LeftOut(Absent::UserKeyword),
    ),
    (
        "DATA;ENDSEC;DATA ",
        GrammarFault::LeftOut(Absent::SecondSection),
    ),
    (
        "END-ISO-10303-21 ",
        GrammarFault::LeftOut(Absent::NoDataSection),
    ),
    ("DATA();", GrammarFault::SectionShape),
];

/// Whether a text is refused so, at each call from then on.
fn is_refused(rt: &HostRuntime, text: &str, fault: GrammarFault) -> bool {
    let mut reader = Reader::behind(rt, HEAD, text);
    reader.refused == Some(fault)
        && reader.is_steady()
        && reader.parser.finish().err() == Some(fault)
}

fn first_otherwise_refused(rt: &HostRuntime) -> &'static str {
    for (text, fault) in REFUSED {
        if !is_refused(rt, text, *fault) {
            return text;
        }
    }
    "none"
}

const FAULTS: &[(GrammarFault, u8, &str)] = &[
    (GrammarFault::Unexpected, 20, "Unexpected"),
    (GrammarFault::TooDeep, 21, "TooDeep"),
    (GrammarFault::EndsEarly, 24, "EndsEarly"),
    (GrammarFault::AfterEnd, 25, "AfterEnd"),
    (GrammarFault::LeftOut(Absent::Anchor), 26, "LeftOut(Anchor)"),
    (
        GrammarFault::LeftOut(Absent::Reference),
        26,
        "LeftOut(Reference)",
    ),
    (
        GrammarFault::LeftOut(Absent::Signature),
        26,
        "LeftOut(Signature)",
    ),
    (
        GrammarFault::LeftOut(Absent::UserKeyword),
        26,
        "LeftOut(UserKeyword)",
    ),
    (
        GrammarFault::LeftOut(Absent::SecondSection),
        26,
        "LeftOut(SecondSection)",
    ),
    (
        GrammarFault::LeftOut(Absent::NoDataSection),
        26,
        "LeftOut(NoDataSection)",
    ),
    (GrammarFault::HeaderShape, 30, "HeaderShape"),
    (GrammarFault::SectionShape, 32, "SectionShape"),
    (GrammarFault::NoMemory, 90, "NoMemory"),
];

fn first_misnamed() -> &'static str {
    for (fault, number, name) in FAULTS {
        if fault.number() != *number || fault.name() != *name {
            return name;
        }
    }
    "none"
}

#[test]
fn gives_statements(rt: HostRuntime) {
    passes(&rt, first_wrong(&rt, "", WHOLE));
    passes(&rt, first_wrong(&rt, HEAD, SECTIONS));
    passes(&rt, first_otherwise_left_out(&rt));
    passes(&rt, first_wrong_header(&rt));
}

#[test]
fn counts_openings(rt: HostRuntime) {
    passes_at(&rt, first_otherwise_nested(&rt));
    passes(&rt, first_otherwise_opened(&rt));
    passes(&rt, first_of_another_depth(&rt));
}

#[test]
fn refuses_ends_and_more(rt: HostRuntime) {
    passes_at(&rt, first_otherwise_cut(&rt));
    assert!(rt; comes_to(Reader::behind(&rt, SMALL, " "), "", ""));
    passes(&rt, first_otherwise_refused(&rt));
    passes(&rt, first_misnamed());
}
