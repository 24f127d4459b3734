use super::*;

type Texts = &'static [(&'static str, &'static str)];

type Bytes = &'static [(&'static [u8], &'static str)];

/// The first text that gives other answers.
fn first_wrong(alloc: Global, rows: Texts) -> &'static str {
    for (text, answers) in rows {
        if !gives(alloc, Limits::usual(), text.as_bytes(), answers) {
            return text;
        }
    }
    "none"
}

/// The first text that isn't refused so at its last byte.
fn first_taken(alloc: Global, rows: Texts) -> &'static str {
    for (text, answers) in rows {
        if !is_refused_at_the_last(alloc, Limits::usual(), text.as_bytes(), answers) {
            return text;
        }
    }
    "none"
}

/// The first bytes that aren't refused so at their last one.
fn first_bytes_taken(alloc: Global, rows: Bytes) -> &'static [u8] {
    for (bytes, answers) in rows {
        if !is_refused_at_the_last(alloc, Limits::usual(), bytes, answers) {
            return bytes;
        }
    }
    b"none"
}

const CAFE: &str = "'caf\\X2\\00E9\\X0\\'";

const STRINGS: Texts = &[
    ("'caf\\X\\E9'", CAFE),
    ("'caf\\S\\i'", CAFE),
    ("'caf\\X2\\00E9\\X0\\'", CAFE),
    ("'\\PA\\caf\\S\\i'", CAFE),
    ("'caf\u{E9}'", CAFE),
    ("'\\S\\'x'", "'\\X2\\00A7\\X0\\x'"),
    ("'\\S\\\\'", "'\\X2\\00DC\\X0\\'"),
    ("'it''s \\\\'", "'it''s \\\\'"),
    ("'a\nb'", "'ab'"),
    ("'\\X2\\D83DDE00\\X0\\'", "'\\X4\\0001F600\\X0\\'"),
    ("'\\X4\\0001F600\\X0\\'", "'\\X4\\0001F600\\X0\\'"),
    ("''", "''"),
    ("''''", "''''"),
    ("'a'('b'", "'a' ( 'b'"),
    ("'\u{0}a\u{1F}\u{7F}'", "'a'"),
    ("'\\X2\\0041DBFFDFFF0042\\X0\\'", "'A\\X4\\0010FFFF\\X0\\B'"),
    (
        "'\\X4\\0000D7FF0000E000\\X0\\\u{20AC}\u{10FFFF}'",
        "'\\X2\\D7FF\\X0\\\\X2\\E000\\X0\\\\X2\\20AC\\X0\\\\X4\\0010FFFF\\X0\\'",
    ),
    (
        "'a''b\\\\c\\S\\i\\PA\\\\X\\E9\\X2\\00410042\\X0\\\\X4\\0001F60000000043\\X0\\\u{E9}'",
        "'a''b\\\\c\\X2\\00E9\\X0\\\\X2\\00E9\\X0\\AB\\X4\\0001F600\\X0\\C\\X2\\00E9\\X0\\'",
    ),
];

#[test]
fn reads_strings(rt: HostRuntime) {
    assert_eq!(rt; first_wrong(rt.alloc(), STRINGS), "none");
}

const SCALARS: Texts = &[
    ("+012.500E+03", "1.25E4"),
    ("+007", "7"),
    ("-0", "0"),
    ("123.450", "1.2345E2"),
    ("1.E0000000001", "1.E1"),
    ("0.E999999999", "0."),
    ("1.E9999", "1.E9999"),
    ("10.E9999", "end NumberRange"),
    ("0.E1000000000", "end NumberRange"),
    ("1.E", "end EndsEarly"),
    ("+", "end EndsEarly"),
    (".T.", ".T."),
    ("$", "$"),
    ("\"23B\"", "\"23B\""),
    ("\"0\"", "\"0\""),
    ("\"30\"", "\"30\""),
    ("#007", "#7"),
    ("#18446744073709551615", "#18446744073709551615"),
    ("1 2", "1 2"),
    ("(1)", "( 1 )"),
    ("RED", "RED"),
    ("1+2-3.", "1 2 -3."),
    ("", ""),
];

#[test]
fn reads_scalars(rt: HostRuntime) {
    assert_eq!(rt; first_wrong(rt.alloc(), SCALARS), "none");
}

const STATEMENTS: Texts = &[
    ("ISO-10303-21;", "ISO-10303-21 ;"),
    ("END-ISO-10303-21", "END-ISO-10303-21"),
    ("ISO;END", "ISO ; END"),
    ("ISO_1 ENDSEC", "ISO_1 ENDSEC"),
    ("ISO-10303-21-1", "ISO-10303-21 -1"),
    ("!A_1(.B_2.,*)", "!A_1 ( .B_2. , * )"),
    (
        "#1=POINT('it''s \\X2\\00E9\\X0\\',1.E2,2.)/**/;",
        "#1 = POINT ( 'it''s \\X2\\00E9\\X0\\' , 1.E2 , 2. ) ;",
    ),
    (
        "#10 = ( SHAPE('') POINT(1.E-07,-2.5)\r\n MARKED(.GREEN.) );\r\n",
        "#10 = ( SHAPE ( '' ) POINT ( 1.E-7 , -2.5 ) MARKED ( .GREEN. ) ) ;",
    ),
    ("\u{0}$\u{7F}\u{1F}$\u{20}", "$ $"),
];

#[test]
fn reads_statements(rt: HostRuntime) {
    assert_eq!(rt; first_wrong(rt.alloc(), STATEMENTS), "none");
}

const COMMENTS: Texts = &[
    ("/*****/1", "1"),
    ("/***/*/1", "* BadByte"),
    ("/**/**/1", "* * BadByte"),
    ("/**//*/1", "end OpenComment"),
    ("/*/***/1", "1"),
    ("/*/*/*/1", "* BadByte"),
    ("/*//**/1", "1"),
    ("/*///*/1", "1"),
    ("1/**/2", "1 2"),
    ("/*'*/1", "1"),
    ("/*\u{E9};* /*/1", "1"),
    ("/**/", ""),
    ("/*", "end OpenComment"),
    ("/*/", "end OpenComment"),
    ("/**", "end OpenComment"),
    ("1/", "1 end EndsEarly"),
    ("'/*'1", "'/*' 1"),
];

#[test]
fn reads_comments(rt: HostRuntime) {
    assert_eq!(rt; first_wrong(rt.alloc(), COMMENTS), "none");
}

const ENDS: Texts = &[
    ("'", "end OpenString"),
    ("'a''", "end OpenString"),
    ("'\\", "end OpenString"),
    ("'\\S\\'", "end OpenString"),
    ("'\\X2\\DD", "end OpenString"),
    ("'\\X4\\11111", "end OpenString"),
    ("1.E+", "end EndsEarly"),
    ("-", "end EndsEarly"),
    (".", "end EndsEarly"),
    (".T", "end EndsEarly"),
    ("!", "end EndsEarly"),
    ("#", "end EndsEarly"),
    ("\"", "end EndsEarly"),
    ("\"0", "end EndsEarly"),
    ("\"0A", "end EndsEarly"),
    ("ISO-", "end EndsEarly"),
    ("ISO-1", "end EndsEarly"),
    ("ISO-10303-2", "end EndsEarly"),
    ("END-ISO-10303-2", "end EndsEarly"),
    ("A;#", "A ; end EndsEarly"),
];

#[test]
fn refuses_ends(rt: HostRuntime) {
    assert_eq!(rt; first_wrong(rt.alloc(), ENDS), "none");
}

const BYTES_OF_STRINGS: Bytes = &[
    (b"'caf\xE9'", "NotUtf8"),
    (b"'\x80", "NotUtf8"),
    (b"'\xC0", "NotUtf8"),
    (b"'\xE2\x82\n", "NotUtf8"),
    (b"'\xED\xA0", "NotUtf8"),
    (b"'\xF4\x90", "NotUtf8"),
    (b"'\\X2\\D83D\\", "BadCodePoint"),
    (b"'\\X2\\DE00", "BadCodePoint"),
    (b"'\\X2\\D83DD83D", "BadCodePoint"),
    (b"'\\X2\\D83D0041", "BadCodePoint"),
    (b"'\\X4\\0000D83D", "BadCodePoint"),
    (b"'\\X4\\00110000", "BadCodePoint"),
    (b"'\\X4\\0001F60000000041FFFFFFFF", "BadCodePoint"),
    (b"'\\X2\\00e", "BadDirective"),
    (b"'\\X2\\\\", "BadDirective"),
    (b"'\\X2\\D83D'", "BadDirective"),
    (b"'a\\PB", "BadDirective"),
    (b"'\\N", "BadDirective"),
    (b"'\\F", "BadDirective"),
    (b"'\\X\\e", "BadDirective"),
    (b"'\\S\n", "BadDirective"),
];

#[test]
fn refuses_bytes_of_strings(rt: HostRuntime) {
    assert_eq!(rt;
        first_bytes_taken(rt.alloc(), BYTES_OF_STRINGS),
        b"none".as_slice()
    );
}

const BYTES_OF_TOKENS: Texts = &[
    ("%", "BadByte"),
    ("a", "BadByte"),
    ("\\", "BadByte"),
    ("~", "BadByte"),
    ("/%", "BadByte"),
    ("//", "BadByte"),
    ("A-", "BadByte"),
    ("ENDS-", "BadByte"),
    ("XISO-", "BadByte"),
    ("!ISO-", "BadByte"),
    ("ISO-2", "BadByte"),
    ("END-1", "BadByte"),
    ("ISO-10303-21A", "BadByte"),
    ("END-ISO-10303-21_", "BadByte"),
    (".t", "BadByte"),
    (".T ", "BadByte"),
    ("!1", "BadByte"),
    ("+x", "BadNumber"),
    ("1.EX", "BadNumber"),
    ("1.E+-", "BadNumber"),
    ("10.E9999)", "NumberRange"),
    ("0.E1000000000 ", "NumberRange"),
    ("\"33", "BadBinary"),
    ("\"1\"", "BadBinary"),
    ("\"4", "BadBinary"),
    ("\"0a", "BadBinary"),
    ("#18446744073709551616", "NameRange"),
    ("#184467440737095516150", "NameRange"),
    ("#)", "BadName"),
    ("#a", "BadName"),
    ("&", "LeftOut(Scope)"),
    ("@", "LeftOut(ValueName)"),
    ("#A", "LeftOut(ConstantName)"),
    ("#_", "LeftOut(ConstantName)"),
];

#[test]
fn refuses_bytes_of_tokens(rt: HostRuntime) {
    assert_eq!(rt; first_taken(rt.alloc(), BYTES_OF_TOKENS), "none");
}
