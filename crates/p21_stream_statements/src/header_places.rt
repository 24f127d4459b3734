use crate::marks::{Mark, Sign, marks_of};
use crate::parameters::Parameters;
use p21_values::NoMemory;
use std::alloc::Global;

/// What a parameter of a header record is.
#[derive(Clone, Copy, Debug, PartialEq, Eq)]
pub enum Form {
    /// A text or `$`.
    Text,
    /// A list of texts, or `$`.
    Texts,
    /// A list of one text.
    Schema,
}

/// A record that a header begins with (ISO 10303-21, header section entities).
#[derive(Clone, Copy, Debug)]
pub struct HeaderRecord {
    pub keyword: &'static str,
    pub forms: &'static [Form],
}

const FIRST: HeaderRecord = HeaderRecord {
    keyword: "FILE_DESCRIPTION",
    forms: &[Form::Texts, Form::Text],
};

const SECOND: HeaderRecord = HeaderRecord {
    keyword: "FILE_NAME",
    forms: &[
        Form::Text,
        Form::Text,
        Form::Texts,
        Form::Texts,
        Form::Text,
        Form::Text,
        Form::Text,
    ],
};

const THIRD: HeaderRecord = HeaderRecord {
    keyword: "FILE_SCHEMA",
    forms: &[Form::Schema],
};

/// The record that a file has as the statement of this number, if it is one of the three that a header begins with: the two lines of
/// its beginning are the statements 1 and 2. It takes no memory.
pub fn header_record(statement: u64) -> Option<HeaderRecord> {
    match statement {
        3 => Some(FIRST),
        4 => Some(SECOND),
        5 => Some(THIRD),
        _ => None,
    }
}

/// Where a header record differs from what it must be, by its bytes and the number of its statement: at the first
/// parameter that is too many or has another form, or at the `)` where one is missing; else at its keyword.
///
/// # Errors
///
/// `NoMemory`.
pub(crate) fn header_place(alloc: Global, source: &[u8], number: u64) -> Result<u64, NoMemory> {
    let Some(wanted) = header_record(number) else {
        return Ok(0);
    };
    if !has_key(source, wanted.keyword.as_bytes()) {
        return Ok(0);
    }
    let marks = marks_of(alloc, source)?;
    let found = match place_of_count(&marks, wanted.forms.len()) {
        Some(place) => Some(place),
        None => place_of_form(&marks, wanted.forms),
    };
    Ok(found.unwrap_or(0))
}

/// Where the text stands that names the schema: it is the last one.
///
/// # Errors
///
/// `NoMemory`.
pub(crate) fn schema_place(alloc: Global, source: &[u8]) -> Result<u64, NoMemory> {
    let marks = marks_of(alloc, source)?;
    let mut found = 0;
    for mark in &marks {
        if mark.sign == Sign::Text {
            found = mark.start;
        }
    }
    Ok(found)
}

/// Where the name of a data section stands: it is the first text.
///
/// # Errors
///
/// `NoMemory`.
pub(crate) fn section_place(alloc: Global, source: &[u8]) -> Result<u64, NoMemory> {
    let marks = marks_of(alloc, source)?;
    for mark in &marks {
        if mark.sign == Sign::Text {
            return Ok(mark.start);
        }
    }
    Ok(0)
}

/// Whether the bytes begin with this keyword.
fn has_key(source: &[u8], key: &[u8]) -> bool {
    let Some(rest) = source.strip_prefix(key) else {
        return false;
    };
    match rest.first() {
        Some(byte) => !(byte.is_ascii_uppercase() || byte.is_ascii_digit() || *byte == b'_'),
        None => true,
    }
}

/// Where a record has another number of parameters than it must have: the first one too many, or the `)`.
fn place_of_count(record: &[Mark], wanted: usize) -> Option<u64> {
    let mut parameters = Parameters::of(record);
    for _ in 0..wanted {
        if parameters.next().is_none() {
            return start_of(parameters.end());
        }
    }
    match parameters.next() {
        Some(parameter) => start_of(parameter.first().copied()),
        None => None,
    }
}

/// Where the first parameter stands that has another form.
fn place_of_form(record: &[Mark], forms: &[Form]) -> Option<u64> {
    let mut parameters = Parameters::of(record);
    for form in forms {
        let Some(parameter) = parameters.next() else {
            return None;
        };
        if !has_form(parameter, *form) {
            return start_of(parameter.first().copied());
        }
    }
    None
}

fn start_of(mark: Option<Mark>) -> Option<u64> {
    match mark {
        Some(mark) => Some(mark.start),
        None => None,
    }
}

fn has_form(parameter: &[Mark], form: Form) -> bool {
    match form {
        Form::Text => is_text_or_unset(parameter),
        Form::Texts => is_unset(parameter) || is_list_of_texts(parameter),
        Form::Schema => parameter.len() == 3 && parameter[1].sign == Sign::Text,
    }
}

fn is_unset(parameter: &[Mark]) -> bool {
    parameter.len() == 1 && parameter[0].sign == Sign::Unset
}

fn is_text_or_unset(parameter: &[Mark]) -> bool {
    parameter.len() == 1 && is_of_texts(parameter[0].sign)
}

/// Whether a parameter is a list of texts and `$`.
fn is_list_of_texts(parameter: &[Mark]) -> bool {
    let Some((first, rest)) = parameter.split_first() else {
        return false;
    };
    let Some((_, inner)) = rest.split_last() else {
        return false;
    };
    if first.sign != Sign::Left {
        return false;
    }
    for mark in inner {
        if !is_of_texts(mark.sign) && mark.sign != Sign::Comma {
            return false;
        }
    }
    true
}

fn is_of_texts(sign: Sign) -> bool {
    sign == Sign::Text || sign == Sign::Unset
}
