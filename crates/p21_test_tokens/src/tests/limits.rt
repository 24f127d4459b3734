use super::*;

/// The limits on a statement and on the file, the text, and the answers.
type Rows = &'static [(u64, u64, &'static str, &'static str)];

const KEPT: Rows = &[
    (5, 10, "12 /**/34;", "12 34 ;"),
    (5, 10, "1234;1234;", "1234 ; 1234 ;"),
    (5, 10, "     1234;", "1234 ;"),
    (5, 10, "12345/**/", "12345"),
    (5, 10, "12345/", "12345 end EndsEarly"),
    (5, 10, "'a\n\n'", "'a'"),
    (5, 10, "/*45678*/", ""),
    (7, 14, "#12345;#12345;", "#12345 ; #12345 ;"),
    (2, 3, "12 ", "12"),
    (0, 4, "/**/", ""),
];

/// The first text that gives other answers under its limits.
fn first_wrong(rows: Rows, alloc: Global) -> &'static str {
    for (record, file, text, answers) in rows {
        let Some(limits) = Limits::new(*record, *record, *file, *file) else {
            return "no limits";
        };
        if !gives(alloc, limits, text.as_bytes(), answers) {
            return text;
        }
    }
    "none"
}

/// The first text that isn't refused so at its last byte.
fn first_taken(rows: Rows, alloc: Global) -> &'static str {
    for (record, file, text, answers) in rows {
        let Some(limits) = Limits::new(*record, *record, *file, *file) else {
            return "no limits";
        };
        if !is_refused_at_the_last(alloc, limits, text.as_bytes(), answers) {
            return text;
        }
    }
    "none"
}

#[test]
fn keeps_to_the_limits(rt: HostRuntime) {
    assert_eq!(rt; first_wrong(KEPT, rt.alloc()), "none");
}

const PASSED: Rows = &[
    (5, 10, "12345;", "12345 RecordTooLong"),
    (5, 10, "123456", "RecordTooLong"),
    (5, 10, "#12345", "RecordTooLong"),
    (9, 5, "#12345", "FileTooLong"),
    (5, 10, "12345%", "12345 RecordTooLong"),
    (5, 10, "12345/%", "12345 BadByte"),
    (5, 10, "1234,,", "1234 , RecordTooLong"),
    (5, 10, "1,,,,,", "1 , , , , RecordTooLong"),
    (5, 10, "1; 12,34,", "1 ; 12 , 34 RecordTooLong"),
    (5, 10, "'a\n\n\n\n", "RecordTooLong"),
    (5, 10, "'abcd\\", "RecordTooLong"),
    (2, 10, ".T ", "RecordTooLong"),
    (0, 4, "(", "RecordTooLong"),
    (5, 10, "1234;1234; ", "1234 ; 1234 ; FileTooLong"),
    (5, 5, "12345;", "12345 FileTooLong"),
    (5, 5, "     %", "FileTooLong"),
    (9, 9, "/*345678*/", "FileTooLong"),
    (9, 5, "'\n\n\n';", "'' FileTooLong"),
    (8, 8, "1.E99999;", "NumberRange"),
    (9, 4, "'\\S\\a", "FileTooLong"),
    (9, 0, " ", "FileTooLong"),
    (9, 1, "%", "BadByte"),
];

#[test]
fn refuses_past_the_limits(rt: HostRuntime) {
    assert_eq!(rt; first_taken(PASSED, rt.alloc()), "none");
}

#[test]
fn refuses_a_bad_byte_in_front_of_a_limit(rt: HostRuntime) {
    let answers = match Limits::new(9, 9, 1, 1) {
        Some(limits) => read_cut(rt.alloc(), limits, b"%%", b""),
        None => Vec::new(rt.alloc()),
    };
    assert_eq!(rt; answers.as_slice(), b"BadByte".as_slice());
}
