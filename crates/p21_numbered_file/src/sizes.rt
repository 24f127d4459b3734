//! How many bytes a file has.
ghost use Rattle.std.specs.List.{AllByRecursion as Each};
ghost use Rattle.std.specs.Prelude.{◌≡◌, ◌≤◌, ◌↔◌, length, IfSome, IsTrue};
ghost use Rattle.p21_spec_laws.specs.CompleteFile.{Line};
ghost use Rattle.p21_numbered.specs.Lines.{held_lines};
ghost use Rattle.p21_numbered_file.specs.Sizes.{file_size as size_of_file, lines_size as size_of_lines, sections_size as size_of_sections};

use p21_numbered::NumberedLine;
use p21_stream_output::NamedSection;

/// The bytes of the lines that a file has beside its header records, its data sections and its instances, each with its line feed.
const FRAME: u64 = 48;

/// The bytes of the end of a data section, with its line feed, and of the line feed behind its beginning.
const SECTION_FRAME: u64 = 9;

/// The bytes of the file of these header lines, sections and lines of instances, where 64 bits count them.
pub(crate) fn file_size(
    header: &[u8],
    parts: &[NamedSection],
    lines: &[NumberedLine],
) -> Option<u64>
    ensures { IfSome result (λ size. size ≡ size_of_file header.now parts.now (held_lines lines.now)) }
{
    let sections = sections_size(parts)?;
    let instances = lines_size(lines)?;
    let body = sections.checked_add(instances)?;
    let head = FRAME.checked_add(header.len() as u64)?;
    head.checked_add(body)
}

/// The bytes of the beginnings and ends of data sections.
fn sections_size(parts: &[NamedSection]) -> Option<u64>
    ensures { IfSome result (λ size. size ≡ size_of_sections parts.now) }
{
    let mut size: u64 = 0;
    for k in 0..parts.len() {
        let own = SECTION_FRAME.checked_add(parts[k].line.len() as u64)?;
        size = size.checked_add(own)?;
    }
    Some(size)
}

/// The bytes of lines, each with its line feed.
fn lines_size(lines: &[NumberedLine]) -> Option<u64>
    ensures { IfSome result (λ size. size ≡ size_of_lines (held_lines lines.now)) }
{
    let mut size: u64 = 0;
    for k in 0..lines.len() {
        let own = (lines[k].text.len() as u64).checked_add(1)?;
        size = size.checked_add(own)?;
    }
    Some(size)
}

/// Whether no line has more bytes than this, its line feed apart.
pub(crate) fn are_within(most: u64, lines: &[NumberedLine]) -> bool
    ensures { IsTrue result ↔ Each (λ (l : Line). length l.1 ≤ most) (held_lines lines.now) }
{
    for line in lines {
        if line.text.len() as u64 > most {
            return false;
        }
    }
    true
}
