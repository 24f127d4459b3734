//! Schemas, and files of them.
use std::alloc::{AllocError, Global};
use std::ops::Range;

/// A schema.
#[derive(Clone, Copy)]
pub(crate) enum Subject {
    Demo,
    Redecl,
    Wide,
    Sole,
}

impl Subject {
    fn name(self) -> &'static str {
        match self {
            Subject::Demo => "DEMO",
            Subject::Redecl => "REDECL",
            Subject::Wide => "WIDE",
            Subject::Sole => "SOLE",
        }
    }

    pub(crate) fn text(self) -> &'static str {
        match self {
            Subject::Demo => DEMO,
            Subject::Redecl => REDECL,
            Subject::Wide => WIDE,
            Subject::Sole => SOLE,
        }
    }
}

pub(crate) const DEMO: &str = "SCHEMA demo;
TYPE distance = REAL; END_TYPE;
TYPE tally = INTEGER; END_TYPE;
TYPE colour = ENUMERATION OF (red, green); END_TYPE;
TYPE measure = SELECT (distance, tally); END_TYPE;
TYPE item = SELECT (measure, point); END_TYPE;
ENTITY shape ABSTRACT SUPERTYPE; label : OPTIONAL STRING; END_ENTITY;
ENTITY point SUBTYPE OF (shape); x, y : distance; END_ENTITY;
ENTITY marked SUBTYPE OF (shape); mark : colour; END_ENTITY;
ENTITY origin SUBTYPE OF (point);
DERIVE SELF\\point.x : distance := 0.0; END_ENTITY;
ENTITY cloud; members : SET OF point; sizes : BAG OF BAG OF REAL;
values : LIST [1:3] OF UNIQUE item; END_ENTITY;
END_SCHEMA;
";

const REDECL: &str = "SCHEMA redecl;
ENTITY r; k : NUMBER; END_ENTITY;
ENTITY a SUBTYPE OF (r); SELF\\r.k : INTEGER; END_ENTITY;
ENTITY b SUBTYPE OF (r); SELF\\r.k : REAL; END_ENTITY;
END_SCHEMA;
";

const WIDE: &str = "SCHEMA wide;
ENTITY e; s : STRING(3); f : STRING(2) FIXED; b : BINARY(4);
o : ARRAY [1:2] OF OPTIONAL INTEGER; n : BOOLEAN; END_ENTITY;
END_SCHEMA;
";

const SOLE: &str = "SCHEMA sole;
ENTITY s SUPERTYPE OF (ONEOF (a, b)); k : INTEGER; END_ENTITY;
ENTITY a SUBTYPE OF (s); END_ENTITY;
ENTITY b SUBTYPE OF (s); END_ENTITY;
ENTITY c SUBTYPE OF (s); END_ENTITY;
END_SCHEMA;
";

/// The lines of a file up to the one that names its schema.
const FRONT: &str =
    "ISO-10303-21;\nHEADER;\nFILE_DESCRIPTION((''),'2;1');\nFILE_NAME('','',(''),(''),'','','');\n";

/// The canonical file of the schema DEMO that has no instances.
pub(crate) const EMPTY: &str = "ISO-10303-21;
HEADER;
FILE_DESCRIPTION((''),'2;1');
FILE_NAME('','',(''),(''),'','','');
FILE_SCHEMA(('DEMO'));
ENDSEC;
DATA;
ENDSEC;
END-ISO-10303-21;
";

/// A text, and what stands in it.
#[derive(Clone, Copy)]
pub(crate) enum File {
    /// The text as it stands.
    Text(&'static str),
    /// The text of a schema.
    Declares(Subject),
    /// A file of the schema DEMO with these lines in its data section.
    Lines(&'static str),
    /// A file of a schema with these lines in its data section.
    LinesOf(Subject, &'static str),
    /// A file of the schema DEMO with these lines behind its header.
    Sections(&'static str),
    /// The file without instances, with another text in place of one that it has.
    Replaced(&'static str, &'static str),
    /// A file with a name, of a point whose second value is so many lists, one in another.
    Lists(&'static str, usize),
    /// A file with a name, of these lines, so many points, and these lines.
    Points(&'static str, &'static str, u32, &'static str),
}

impl File {
    /// What a test calls it.
    pub(crate) fn name(self) -> &'static str {
        match self {
            File::Text(text) | File::Lines(text) | File::LinesOf(_, text) => text,
            File::Sections(text) | File::Lists(text, _) => text,
            File::Replaced(from, to) => if to.is_empty() { from } else { to },
            File::Declares(schema) => schema.name(),
            File::Points(text, _, _, _) => text,
        }
    }

    /// The schema that it is a file of.
    pub(crate) fn schema(self) -> Subject {
        match self {
            File::LinesOf(schema, _) => schema,
            _ => Subject::Demo,
        }
    }

    /// Its text: none where memory runs out.
    pub(crate) fn text(self, alloc: Global) -> Option<String> {
        match self {
            File::Text(text) => text.to_owned(alloc).ok(),
            File::Declares(schema) => schema.text().to_owned(alloc).ok(),
            File::Lines(lines) => file_of(alloc, Subject::Demo, lines),
            File::LinesOf(schema, lines) => file_of(alloc, schema, lines),
            File::Sections(lines) => file_with_sections(alloc, lines),
            File::Replaced(from, to) => EMPTY.replacen(alloc, from, to, 1).ok(),
            File::Lists(_, depth) => file_of_lists(alloc, depth),
            File::Points(_, before, count, behind) => file_of_points(alloc, before, count, behind),
        }
    }
}

fn file_of(alloc: Global, schema: Subject, lines: &str) -> Option<String> {
    let name = schema.name();
    format!(in alloc;
        "{FRONT}FILE_SCHEMA(('{name}'));\nENDSEC;\nDATA;\n{lines}ENDSEC;\nEND-ISO-10303-21;\n"
    ).ok()
}

fn file_with_sections(alloc: Global, lines: &str) -> Option<String> {
    format!(in alloc; "{FRONT}FILE_SCHEMA(('DEMO'));\nENDSEC;\n{lines}END-ISO-10303-21;\n").ok()
}

fn file_of_lists(alloc: Global, depth: usize) -> Option<String> {
    let mut lines = String::new(alloc);
    match push_lists(&mut lines, depth) {
        Ok(()) => file_of(alloc, Subject::Demo, &lines),
        Err(_) => None,
    }
}

fn push_lists(lines: &mut String, depth: usize) -> Result<(), AllocError> {
    lines.push_str("#1=POINT($,")?;
    for _opening in 0..depth {
        lines.push('(')?;
    }
    for _closing in 0..depth {
        lines.push(')')?;
    }
    lines.push_str(",1.);\n")
}

fn file_of_points(alloc: Global, before: &str, count: u32, behind: &str) -> Option<String> {
    let mut lines = String::new(alloc);
    match push_points(&mut lines, before, count, behind) {
        Ok(()) => file_of(alloc, Subject::Demo, &lines),
        Err(_) => None,
    }
}

fn push_points(
    lines: &mut String,
    before: &str,
    count: u32,
    behind: &str,
) -> Result<(), AllocError> {
    lines.push_str(before)?;
    push_numbered(lines, 1..count.saturating_add(1), "#", "=POINT($,1.,1.);\n")?;
    lines.push_str(behind)
}

/// Adds each of these numbers, between two texts.
pub(crate) fn push_numbered(
    text: &mut String,
    numbers: Range<u32>,
    front: &str,
    back: &str,
) -> Result<(), AllocError> {
    for number in numbers {
        write!(text, "{front}{number}{back}")?;
    }
    Ok(())
}
