//! The canonical file piece by piece, into a buffer of the caller's.
//!
//! A reading of a canonical file is three numbers, which its caller keeps (`Cursor`): a part, a line of it, and a byte
//! of that. So it takes no memory and nothing has to be let go, several read one file side by side, and `Accepted`
//! stays as it is. A line is found by its number, so a call costs what it puts and some look-ups for each line, and
//! never walks through what was read. What a section ends with counts to its last line, so that each line has a byte
//! and each step one. From numbers that no reading came by, `read` goes on from some place or finds nothing left, so a
//! caller owes nothing for them.
ghost use Rattle.std.specs.Prelude.{◌≡◌, ◌<◌, ◌≤◌, ◌+◌, ◌-◌, ◌^◌, ℕ, [], ◌∷◌, ◌++◌, get_or, length, take, drop, MatchOption};
ghost use Rattle.p21_stream_output.specs.Reading.{IsFrontOf, IsNext, Takes, behind_line, header_lines, line_at, lines_at, rest_of, section_lines, start};
ghost use Rattle.p21_stream_output.specs.Stored.{ArePositions, texts_at, written_section};

use crate::accepted::Section;
use p21_stream_store::Instances;
use std::marker::Model;

/// Where a reading of a canonical file stands: in which part, in which line of it, and behind how many bytes of that. The
/// header is the first part, each data section is one, and the end of the file is the last. A reading begins at `start`, and
/// `Accepted::read` alone moves it; from any other numbers it reads on from some place, or finds nothing left.
#[repr(C)]
#[derive(Clone, Copy)]
pub struct Cursor {
    pub part: usize,
    pub line: usize,
    pub byte: usize,
}

impl Cursor {
    /// A cursor at the beginning.
    pub fn start() -> Cursor
        ensures { result ≡ start }
    {
        Cursor {
            part: 0,
            line: 0,
            byte: 0,
        }
    }
}

/// A line, in two places: its text and what ends it.
#[derive(Drop)]
struct Line<'a> {
    text: &'a [u8],
    end: &'a [u8],
}

impl<'a> Model for Line<'a> {
    ghost use Rattle.std.specs.Prelude.{◌<◌, ◌++◌, List, ℕ, length};

    ghost Value = { List ℕ };

    ghost view = { λ a. a.text.now ++ a.end.now };

    ghost invariant = { λ a. 0 < length a.end.now };
}

impl<'a> Line<'a> {
    /// What stands behind so many bytes of the line, as far as it lies in one place.
    fn behind(&self, byte: usize) -> &'a [u8]
        ensures front { IsFrontOf result.now (drop byte self.now) }
        ensures some { byte ≡ 0 → 0 < length result.now }
        ensures small { byte + length result.now < 2 ^ 64 }
    {
        if byte < self.text.len() {
            return &self.text[byte..];
        }
        let behind = byte - self.text.len();
        if behind < self.end.len() {
            return &self.end[behind..];
        }
        &[]
    }
}

/// The parts of a file with their lines.
#[derive(Drop)]
pub(crate) struct Parts<'a> {
    pub(crate) header: &'a [u8],
    pub(crate) sections: &'a [Section],
    pub(crate) instances: &'a Instances,
}

impl<'a> Model for Parts<'a> {
    ghost use Rattle.std.specs.Prelude.{List, ℕ, map};
    ghost use Rattle.p21_stream_output.specs.Reading.{written_parts};
    ghost use Rattle.p21_stream_output.specs.Stored.{HavePositions, written_section};

    ghost Value = { List (List (List ℕ)) };

    ghost view = { λ a. written_parts a.header.now (map (written_section a.instances.now) a.sections.now) };

    ghost invariant = { λ a. HavePositions a.instances.now a.sections.now };
}

impl<'a> Parts<'a> {
    /// The number of the last part. Each part has lines.
    fn last(&self) -> usize
        ensures last { length self.now ≡ result + 1 }
        ensures lines { (part : ℕ) → part ≤ result → 0 < length (lines_at self.now part) }
    {
        self.sections.len() + 1
    }

    /// The number of the last line of a part.
    fn last_line(&self, part: usize) -> usize
        requires { part < length self.now }
        ensures { length (lines_at self.now part) ≡ result + 1 }
    {
        if part > self.sections.len() {
            return 0;
        }
        if part == 0 {
            return 1;
        }
        let section = &self.sections[part - 1];
        section.instance_positions.len()
    }

    /// A line of a part.
    fn line_at(&self, part: usize, line: usize) -> Line<'a>
        requires part { part < length self.now }
        requires line { line < length (lines_at self.now part) }
        ensures { result ≡ line_at self.now part line }
    {
        if part == 0 {
            return header_line(self.header, line);
        }
        if part > self.sections.len() {
            return Line {
                text: b"END-ISO-10303-21;",
                end: b"\n",
            };
        }
        section_line(&self.sections[part - 1], self.instances, line)
    }

    /// The beginning of the next line, if there is one.
    fn next(&self, cursor: Cursor) -> Option<Cursor>
        requires { cursor.part < length self.now }
        ensures { MatchOption result (behind_line self.now cursor.part cursor.line ≡ []) (IsNext self.now cursor.part cursor.line) }
    {
        if cursor.line < self.last_line(cursor.part) {
            return Some(Cursor {
                part: cursor.part,
                line: cursor.line + 1,
                byte: 0,
            });
        }
        if cursor.part < self.last() {
            return Some(Cursor {
                part: cursor.part + 1,
                line: 0,
                byte: 0,
            });
        }
        None
    }

    /// What is left of the line at which a cursor stands, as far as it lies in one place.
    fn left_of_line(&self, cursor: Cursor) -> &'a [u8]
        requires { cursor.part < length self.now }
        ensures front { IsFrontOf result.now (drop cursor.byte (line_at self.now cursor.part cursor.line)) }
        ensures small { cursor.byte + length result.now < 2 ^ 64 }
    {
        if cursor.line > self.last_line(cursor.part) {
            return &[];
        }
        self.line_at(cursor.part, cursor.line).behind(cursor.byte)
    }

    /// What stands behind a cursor, as far as it lies in one place. A cursor at the end of a line is moved to the next one first.
    fn behind(&self, cursor: &mut Cursor) -> &'a [u8]
        requires part { cursor.old.part < length self.now }
        ensures part { cursor.new.part < length self.now }
        ensures same { rest_of self.now cursor.new ≡ rest_of self.now cursor.old }
        ensures front { IsFrontOf result.now (drop cursor.new.byte (line_at self.now cursor.new.part cursor.new.line)) }
        ensures end { result.now ≡ [] → rest_of self.now cursor.new ≡ [] }
        ensures small { cursor.new.byte + length result.now < 2 ^ 64 }
    {
        let left = self.left_of_line(*cursor);
        if !left.is_empty() {
            return left;
        }
        let Some(next) = self.next(*cursor) else {
            return left;
        };
        *cursor = next;
        self.line_at(next.part, next.line).behind(next.byte)
    }

    /// Fills a buffer with what stands behind a cursor, as far as it goes, moves the cursor behind that, and says how many bytes
    /// these are.
    pub(crate) fn fill(&self, cursor: &mut Cursor, buffer: &mut [u8]) -> usize
        ensures { Takes (rest_of self.now cursor.old) (rest_of self.now cursor.new) buffer.old buffer.new result }
    {
        if cursor.part > self.last() {
            return 0;
        }
        let mut filled = 0;
        while filled < buffer.len() {
            let rest = self.behind(cursor);
            if rest.is_empty() {
                return filled;
            }
            let count = put(buffer, filled, rest);
            cursor.byte += count;
            filled += count;
        }
        filled
    }
}

/// A line of the header: what stands in front of the records, or these with the end of the section.
fn header_line(header: &[u8], line: usize) -> Line<'_>
    requires { line ≤ 1 }
    ensures { result ≡ get_or (header_lines header.now) line [] }
{
    if line == 0 {
        return Line {
            text: b"ISO-10303-21;",
            end: b"\nHEADER;\n",
        };
    }
    Line {
        text: header,
        end: b"ENDSEC;\n",
    }
}

/// A line of a data section. The end of the section stands behind its last line, and counts to it.
fn section_line<'a>(section: &'a Section, instances: &'a Instances, line: usize) -> Line<'a>
    requires placed { ArePositions instances.now section.now.instance_positions }
    requires line { line ≤ length section.now.instance_positions }
    ensures { result ≡ get_or (section_lines (written_section instances.now section.now)) line [] }
{
    let text = section_text(section, instances, line);
    if line < section.instance_positions.len() {
        return Line { text, end: b"\n" };
    }
    Line {
        text,
        end: b"\nENDSEC;\n",
    }
}

/// The text of a line of a data section: its `DATA`, or that of an instance.
fn section_text<'a>(section: &'a Section, instances: &'a Instances, line: usize) -> &'a [u8]
    requires placed { ArePositions instances.now section.now.instance_positions }
    requires line { line ≤ length section.now.instance_positions }
    ensures { result.now ≡ get_or (section.now.line.items ∷ texts_at instances.now section.now.instance_positions) line [] }
{
    if line == 0 {
        return &section.line;
    }
    let place = section.instance_positions.get(line - 1);
    instances.text(place)
}

/// Puts as many bytes into a buffer as have room behind those that fill it, and says how many these are.
fn put(buffer: &mut [u8], filled: usize, bytes: &[u8]) -> usize
    requires { filled ≤ length buffer.old }
    ensures count { result ≡ length (take (length buffer.old - filled) bytes.now) }
    ensures buffer { buffer.new ≡ take filled buffer.old ++ (take result bytes.now ++ drop (filled + result) buffer.old) }
{
    let count = bytes.len().min(buffer.len() - filled);
    buffer[filled..filled + count].copy_from_slice(&bytes[..count]);
    count
}
