//! Which texts name a schema, and how long the lines of sections are.
use super::{passes, passes_at};
use p21_grammar::Line;
use p21_stream_kept::{line_size, names_schema};

/// Texts, names, and whether each text names the schema.
const NAMES: &[(&[char], &[u8], bool)] = &[
    (&['D', 'e', 'M', 'o'], b"DEMO", true),
    (&['D', 'E', 'M', 'O', ' ', '{', '1', '}'], b"DEMO", true),
    (&['D', 'E', 'M', 'O', '_', '1'], b"DEMO_1", true),
    (&['D', 'E', 'M', 'O', '_', '1'], b"DEMO", false),
    (&['D', 'E', 'M'], b"DEMO", false),
    (&['D', 'E', 'M', 'O', '1'], b"DEMO", false),
    (&[' ', 'D', 'E', 'M', 'O'], b"DEMO", false),
    (&['D', 'É'], b"D", true),
];

/// The number of the first text that names the schema, or not, otherwise than its row says.
fn first_named_otherwise() -> Option<usize> {
    for (place, (text, name, is_named)) in NAMES.iter().enumerate() {
        if names_schema(text, name) != *is_named {
            return Some(place);
        }
    }
    None
}

const SIZES: &[(&str, Line, u64)] = &[
    ("ISO-10303-21;", Line::Begin, 13),
    ("DATA;", Line::DataStart, 5),
    ("END-ISO-10303-21;", Line::Finish, 17),
];

fn first_of_other_size() -> &'static str {
    for (name, line, size) in SIZES {
        if line_size(*line) != *size {
            return name;
        }
    }
    "none"
}

#[test]
fn knows_schemas_and_sizes_of_lines(rt: HostRuntime) {
    passes_at(&rt, first_named_otherwise());
    passes(&rt, first_of_other_size());
}
