//! Files and schemas that are cut off, and files that come in pieces.
use crate::devices::{Behind, SmallReader};
use crate::run::Command::{Check, Schema};
use crate::run::Left::{Answer, Refusal};
use crate::run::{AMPLE_ROOMS, canon, leaves_of};
use crate::schemas::DEMO;
use crate::schemas::File::{self, Lines};
use std::alloc::Global;
use std::io::Read;

/// What the last character of a text stands in.
#[derive(Clone, Copy, PartialEq)]
enum Inside {
    Nothing,
    Text,
    Remark,
}

/// How far a text has come.
#[derive(Clone, Copy)]
struct Front {
    inside: Inside,
    last: char,
    statement: u32,
}

impl Front {
    fn take(&mut self, next: char) {
        self.inside = match (self.inside, self.last, next) {
            (Inside::Nothing, _, '\'') => Inside::Text,
            (Inside::Text, _, '\'') => Inside::Nothing,
            (Inside::Nothing, '/', '*') => Inside::Remark,
            (Inside::Remark, '*', '/') => Inside::Nothing,
            (inside, _, _) => inside,
        };
        if self.inside == Inside::Nothing && next == ';' {
            self.statement = self.statement.saturating_add(1);
        }
        self.last = next;
    }

    /// The fault of a file that ends here.
    fn fault(&self) -> &'static str {
        match self.inside {
            Inside::Nothing => "24 EndsEarly",
            Inside::Text => "2 OpenString",
            Inside::Remark => "3 OpenComment",
        }
    }
}

/// Whether a file that ends here is refused so.
fn is_refused(alloc: Global, cut: &str, front: Front) -> bool {
    let fault = front.fault();
    let statement = front.statement;
    match format!(in alloc; "refused {fault} at statement {statement}\n") {
        Ok(line) => leaves_of(alloc, Check, DEMO, cut, AMPLE_ROOMS, Refusal(&line)),
        Err(_) => false,
    }
}

/// Where a text that is cut off before its last semicolon isn't refused.
fn first_cut_taken(alloc: Global, text: &str) -> Option<usize> {
    let mut front = Front {
        inside: Inside::Nothing,
        last: ' ',
        statement: 1,
    };
    let whole = text.trim_end().len();
    for (end, next) in text.char_indices() {
        if end + 1 >= whole {
            return None;
        }
        if !is_refused(alloc, text.split_at(end).0, front) {
            return Some(end);
        }
        front.take(next);
    }
    Some(whole)
}

/// Files that are refused wherever they are cut off.
const CUT: &[File] = &[
    Lines("#2 = POINT($, 1.0, 10.E-1);\n"),
    Lines(
        "/* a /* b */#10 = ( SHAPE('it''s /* ') POINT(1.E-07,-2.5)\r\n MARKED(.GREEN.) );\r\n/**/",
    ),
];

/// Which file isn't refused, and where it is cut off then.
fn first_file_taken(alloc: Global) -> Option<(usize, usize)> {
    for (number, file) in CUT.iter().enumerate() {
        let Some(text) = file.text(alloc) else {
            return Some((number, 0));
        };
        if let Some(end) = first_cut_taken(alloc, &text) {
            return Some((number, end));
        }
    }
    None
}

#[test]
fn refuses_a_file_cut_anywhere(rt: HostRuntime) {
    assert_eq!(rt; first_file_taken(rt.alloc()), None);
}

/// Where a schema that ends with its last semicolon may be cut off and isn't refused for its end.
fn first_schema_taken(alloc: Global, text: &str) -> Option<usize> {
    let left = Refusal("schema refused S2 Syntax\n");
    for (end, _next) in text.char_indices() {
        if !leaves_of(alloc, Schema, "", text.split_at(end).0, AMPLE_ROOMS, left) {
            return Some(end);
        }
    }
    None
}

#[test]
fn refuses_a_schema_cut_anywhere(rt: HostRuntime) {
    assert_eq!(rt; first_schema_taken(rt.alloc(), DEMO.trim_end()), None);
}

const WRITTEN: File = Lines("#1=POINT('it''s \\X2\\00E9\\X0\\',1.E2,2.)/**/;\n");

const CANONICAL: File = Lines("#1=POINT('it''s \\X2\\00E9\\X0\\',1.E2,2.);\n");

/// Where a file that comes in two pieces is rewritten otherwise.
fn first_wrong_cut(alloc: Global, file: &str, canonical: &str) -> Option<usize> {
    for end in 0..=file.len() {
        let (first, second) = file.as_bytes().split_at(end);
        let run = canon(
            alloc,
            &mut DEMO.as_bytes(),
            first.chain(second),
            AMPLE_ROOMS,
        );
        if !run.is(Answer(canonical)) {
            return Some(end);
        }
    }
    None
}

/// Of how many bytes the pieces are where a file in small pieces is rewritten otherwise.
fn first_wrong_size(alloc: Global, file: &str, canonical: &str) -> Option<usize> {
    for most in [1, 2, 7, 64] {
        let mut schema = in_pieces(DEMO, most);
        let run = canon(alloc, &mut schema, in_pieces(file, most), AMPLE_ROOMS);
        if !run.is(Answer(canonical)) {
            return Some(most);
        }
    }
    None
}

fn in_pieces(text: &str, most: usize) -> SmallReader<'_> {
    SmallReader {
        bytes: text.as_bytes(),
        most,
        then: Behind::Ends,
    }
}

/// What is wrong with the file in two pieces, and in small ones.
fn wrong_of_pieces(alloc: Global) -> (Option<usize>, Option<usize>) {
    let Some(file) = WRITTEN.text(alloc) else {
        return (Some(0), Some(0));
    };
    let Some(canonical) = CANONICAL.text(alloc) else {
        return (Some(0), Some(0));
    };
    (
        first_wrong_cut(alloc, &file, &canonical),
        first_wrong_size(alloc, &file, &canonical),
    )
}

#[test]
fn reads_a_file_in_pieces(rt: HostRuntime) {
    assert_eq!(rt; wrong_of_pieces(rt.alloc()), (None, None));
}
