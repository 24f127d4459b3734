//! A text beside the lines of a file.
ghost use Rattle.std.specs.Prelude.{◌≡◌, ◌↔◌, ◌++◌, IsTrue, MatchOption, map};
ghost use Rattle.p21_stream_output.specs.Compared.{LacksPrefix};
ghost use Rattle.p21_stream_output.specs.Output.{header_text, line_of, lines_of, section_text, sections_text, written_text};
ghost use Rattle.p21_stream_output.specs.Stored.{HavePositions, ArePositions, texts_at, written_section};
ghost use Rattle.p21_stream_store.specs.Lines.{read_lines};

use crate::accepted::Section;
use p21_stream_store::{Instances, Numbers};

/// Whether a text is that of a file.
pub(crate) fn is_file(
    text: &[u8],
    header: &[u8],
    sections: &[Section],
    instances: &Instances,
) -> bool
    requires { HavePositions instances.now sections.now }
    ensures { IsTrue result ↔ (text.now ≡ written_text header.now (map (written_section instances.now) sections.now)) }
{
    match behind_file(text, header, sections, instances) {
        Some(rest) => rest.is_empty(),
        None => false,
    }
}

/// The rest of a text behind a file, if it begins so.
fn behind_file<'a>(
    text: &'a [u8],
    header: &[u8],
    sections: &[Section],
    instances: &Instances,
) -> Option<&'a [u8]>
    requires { HavePositions instances.now sections.now }
    ensures { MatchOption result (LacksPrefix text.now (written_text header.now (map (written_section instances.now) sections.now)))
        (λ rest. text.now ≡ written_text header.now (map (written_section instances.now) sections.now) ++ rest.now) }
{
    let Some(rest) = behind_header(text, header) else {
        return None;
    };
    let Some(rest) = behind_sections(rest, instances, sections) else {
        return None;
    };
    behind_line(rest, b"END-ISO-10303-21;")
}

/// The rest behind the lines of a header section.
fn behind_header<'a>(text: &'a [u8], header: &[u8]) -> Option<&'a [u8]>
    ensures { MatchOption result (LacksPrefix text.now (header_text header.now)) (λ rest. text.now ≡ header_text header.now ++ rest.now) }
{
    let Some(rest) = behind(text, b"ISO-10303-21;\nHEADER;\n") else {
        return None;
    };
    let Some(rest) = behind(rest, header) else {
        return None;
    };
    behind_line(rest, b"ENDSEC;")
}

/// The rest behind data sections.
fn behind_sections<'a>(
    text: &'a [u8],
    instances: &Instances,
    sections: &[Section],
) -> Option<&'a [u8]>
    requires { HavePositions instances.now sections.now }
    ensures { MatchOption result (LacksPrefix text.now (sections_text (map (written_section instances.now) sections.now)))
        (λ rest. text.now ≡ sections_text (map (written_section instances.now) sections.now) ++ rest.now) }
{
    let mut left = text;
    for section in sections {
        let Some(rest) = behind_section(left, instances, section) else {
            return None;
        };
        left = rest;
    }
    Some(left)
}

/// The rest behind a data section.
fn behind_section<'a>(text: &'a [u8], instances: &Instances, section: &Section) -> Option<&'a [u8]>
    requires { ArePositions instances.now section.now.instance_positions }
    ensures { MatchOption result (LacksPrefix text.now (section_text (written_section instances.now section.now)))
        (λ rest. text.now ≡ section_text (written_section instances.now section.now) ++ rest.now) }
{
    let Some(rest) = behind_line(text, &section.line) else {
        return None;
    };
    let Some(rest) = behind_lines(rest, instances, &section.instance_positions) else {
        return None;
    };
    behind_line(rest, b"ENDSEC;")
}

/// The rest behind the lines of instances.
fn behind_lines<'a>(
    text: &'a [u8],
    instances: &Instances,
    instance_positions: &Numbers,
) -> Option<&'a [u8]>
    requires { ArePositions instances.now instance_positions.now }
    ensures { MatchOption result (LacksPrefix text.now (lines_of (texts_at instances.now instance_positions.now)))
        (λ rest. text.now ≡ lines_of (texts_at instances.now instance_positions.now) ++ rest.now) }
{
    let mut left = text;
    let mut next = 0;
    while next < instance_positions.len() {
        let lines = instances.lines(instance_positions, next);
        let Some(rest) = behind_texts(left, lines.texts()) else {
            return None;
        };
        left = rest;
        next += lines.len();
    }
    Some(left)
}

/// The rest behind lines.
fn behind_texts<'a>(text: &'a [u8], lines: &[&[u8]]) -> Option<&'a [u8]>
    ensures { MatchOption result (LacksPrefix text.now (lines_of (read_lines lines.now)))
        (λ rest. text.now ≡ lines_of (read_lines lines.now) ++ rest.now) }
{
    let mut left = text;
    for line in lines {
        let Some(rest) = behind_line(left, line) else {
            return None;
        };
        left = rest;
    }
    Some(left)
}

/// The rest behind a line and its line feed.
fn behind_line<'a>(text: &'a [u8], line: &[u8]) -> Option<&'a [u8]>
    ensures { MatchOption result (LacksPrefix text.now (line_of line.now)) (λ rest. text.now ≡ line_of line.now ++ rest.now) }
{
    let Some(rest) = behind(text, line) else {
        return None;
    };
    behind(rest, b"\n")
}

/// The rest of a text behind a prefix, if it begins so.
fn behind<'a>(text: &'a [u8], front: &[u8]) -> Option<&'a [u8]>
    ensures { MatchOption result (LacksPrefix text.now front.now) (λ rest. text.now ≡ front.now ++ rest.now) }
{
    text.strip_prefix(front)
}
