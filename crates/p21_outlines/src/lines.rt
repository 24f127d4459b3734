//! Lines one by one.

/// Lines, each with a line feed, of which some have been handed out.
#[derive(Clone, Copy)]
pub struct Lines<'a> {
    pub rest: &'a [u8],
}

impl<'a> Lines<'a> {
    /// The next line, without its line feed. It takes no memory.
    pub fn next(&mut self) -> Option<&'a [u8]> {
        let rest = self.rest;
        for at in 0..rest.len() {
            if rest[at] == b'\n' {
                self.rest = &rest[at + 1..];
                return Some(&rest[..at]);
            }
        }
        None
    }
}

/// What stands before the first `(` of a line, and what behind it.
pub(crate) fn split_line(line: &[u8]) -> (&[u8], &[u8]) {
    for at in 0..line.len() {
        if line[at] == b'(' {
            return (&line[..at], &line[at + 1..]);
        }
    }
    (line, &[])
}
