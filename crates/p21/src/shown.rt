//! Paths and words of the command line as they are printed.
//!
//! A path in `cannot open FILE` stays on its line. It stands as it was given, but control characters, characters that
//! end a line and marks of direction are written by their numbers, as the tools write them: `\n`, `\x1b`, `\u202e`. So
//! nothing that names a file speaks to a terminal, and a script reads one line. A backslash stays one, since a path
//! that is shown is for people; what `clap` says of other words it says itself.
use std::fmt;

/// A text on one line. What would break the line, or have a terminal do something, stands as its number: `\n`, `\x1b`, `\u202e`.
#[derive(Clone, Copy, Drop)]
pub(crate) struct Shown<'a>(pub(crate) &'a str);

impl fmt::Display for Shown<'_> {
    fn fmt<W: fmt::Write>(&self, f: &mut fmt::Formatter<W>) -> fmt::Result {
        for letter in self.0.chars() {
            write_letter(letter, f)?;
        }
        Ok(())
    }
}

/// A path as a word of a shell: as it stands, between apostrophes, or where a terminal doesn't show it between `$'` and `'`.
#[derive(Clone, Copy, Drop)]
pub(crate) struct Quoted<'a>(pub(crate) &'a str);

impl fmt::Display for Quoted<'_> {
    fn fmt<W: fmt::Write>(&self, f: &mut fmt::Formatter<W>) -> fmt::Result {
        if !self.0.is_empty() && self.0.bytes().all(is_plain) {
            return f.write_str(self.0);
        }
        if self.0.chars().all(|letter| !is_numbered(letter as u32)) {
            return write_between(self.0, "'", "'\\''", "\\", f);
        }
        write_between(self.0, "$'", "\\'", "\\\\", f)
    }
}

/// Writes a text behind such a sign and in front of an apostrophe, its own apostrophes and backslashes as these.
fn write_between<W: fmt::Write>(
    text: &str,
    sign: &str,
    apostrophe: &str,
    backslash: &str,
    f: &mut fmt::Formatter<W>,
) -> fmt::Result {
    f.write_str(sign)?;
    for letter in text.chars() {
        match letter {
            '\'' => f.write_str(apostrophe)?,
            '\\' => f.write_str(backslash)?,
            _ => write_letter(letter, f)?,
        }
    }
    f.write_str("'")
}

/// Whether a shell reads the byte as itself.
fn is_plain(byte: u8) -> bool {
    byte.is_ascii_alphanumeric() || b"%+,-./:=@_".contains(&byte)
}

/// Whether a character is written by its number.
fn is_numbered(code: u32) -> bool {
    is_control(code) || has_effect(code)
}

/// A character, or its number where it isn't shown.
fn write_letter<W: fmt::Write>(letter: char, f: &mut fmt::Formatter<W>) -> fmt::Result {
    let code = letter as u32;
    match letter {
        '\n' => f.write_str("\\n"),
        '\r' => f.write_str("\\r"),
        '\t' => f.write_str("\\t"),
        _ if is_control(code) => write!(f, "\\x{code:02x}"),
        _ if has_effect(code) => write!(f, "\\u{code:04x}"),
        _ => f.write_char(letter),
    }
}

/// Whether a character is a control character (Unicode, general category Cc).
fn is_control(code: u32) -> bool {
    code < 0x20 || (0x7f <= code && code < 0xa0)
}

/// Whether a character ends a line, or turns the direction of the others (Unicode, Zl, Zp and Bidi_Control).
fn has_effect(code: u32) -> bool {
    code == 0x61c
        || (0x200e <= code && code <= 0x200f)
        || (0x2028 <= code && code <= 0x202e)
        || (0x2066 <= code && code <= 0x2069)
}
