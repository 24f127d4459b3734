//! What could stand at the place of a refusal, as it is told in JSON: of a token with which no statement goes on the tokens with which it
//! could, each by its sign or by the standard's word for it (ISO 10303-21, tokens), and of a header record the record.

use p21_stream::{At, Expected, Fault, GrammarFault, KINDS, Kind, Located};
use p21_stream_statements::{Form, HeaderRecord, header_record};
use std::alloc::AllocError;

/// Appends the member of what could stand there, if that is known.
pub(crate) fn push_expected(located: &Located, lines: &mut String) -> Result<(), AllocError> {
    match located.refusal.fault {
        Fault::Grammar(GrammarFault::Unexpected) => push_tokens(located.expected, lines),
        Fault::Grammar(GrammarFault::HeaderShape) => push_record(located.refusal.at, lines),
        _ => Ok(()),
    }
}

/// Appends the member of the tokens that could stand there.
fn push_tokens(expected: Expected, lines: &mut String) -> Result<(), AllocError> {
    lines.push_str(",\"expected\":[")?;
    let mut sign = "\"";
    for kind in &KINDS {
        if is_told(expected, *kind) {
            lines.push_str(sign)?;
            lines.push_str(word_of(*kind))?;
            lines.push_str("\"")?;
            sign = ",\"";
        }
    }
    lines.push_str("]")
}

/// Whether a kind is told. Where any keyword could stand, none is told by its word but the one that ends the header.
fn is_told(expected: Expected, kind: Kind) -> bool {
    if !expected.has(kind) {
        return false;
    }
    match kind {
        Kind::HeaderStart => !expected.has(Kind::Keyword),
        Kind::DataStart => !expected.has(Kind::Keyword),
        Kind::SectionEnd => !expected.has(Kind::Keyword) || begins_header_record(expected),
        _ => true,
    }
}

/// Whether a record of the header could begin there: a user-defined keyword could, and no list as where a parameter begins.
fn begins_header_record(expected: Expected) -> bool {
    expected.has(Kind::UserKeyword) && !expected.has(Kind::Left)
}

/// The sign of a kind of token, or the standard's word for it.
fn word_of(kind: Kind) -> &'static str {
    match kind {
        Kind::Begin => "ISO-10303-21",
        Kind::HeaderStart => "HEADER",
        Kind::DataStart => "DATA",
        Kind::SectionEnd => "ENDSEC",
        Kind::Finish => "END-ISO-10303-21",
        Kind::Keyword => "keyword",
        Kind::UserKeyword => "user-defined keyword",
        Kind::Name => "instance name",
        Kind::Whole => "integer",
        Kind::Real => "real",
        Kind::Text => "string",
        Kind::Item => "enumeration",
        Kind::Bits => "binary",
        Kind::Dollar => "$",
        Kind::Star => "*",
        Kind::Left => "(",
        Kind::Right => ")",
        Kind::Comma => ",",
        Kind::Equals => "=",
        Kind::Semicolon => ";",
    }
}

/// Appends the member of the record that the header has at a statement. A further record has no form of its own.
fn push_record(at: At, lines: &mut String) -> Result<(), AllocError> {
    let At::Statement(statement) = at else {
        return Ok(());
    };
    let Some(HeaderRecord { keyword, forms }) = header_record(statement) else {
        return Ok(());
    };
    lines.push_str(",\"expected\":[\"")?;
    lines.push_str(keyword)?;
    let mut sign = "(";
    for form in forms {
        lines.push_str(sign)?;
        lines.push_str(word_of_form(*form))?;
        sign = ", ";
    }
    lines.push_str(")\"]")
}

/// What a parameter of a header record is. The texts and lists may be `$`, but for the schema's.
fn word_of_form(form: Form) -> &'static str {
    match form {
        Form::Text => "string",
        Form::Texts => "strings",
        Form::Schema => "(string)",
    }
}
