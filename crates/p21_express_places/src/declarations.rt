use crate::words::{Word, behind_run, stand_at, up_to};
use p21_values::NoMemory;
use std::alloc::Global;

/// How the declarations of a kind begin and end, and whether one may stand in another.
#[derive(Clone, Copy)]
struct Frame {
    opens: &'static [u8],
    closes: &'static [u8],
    nests: bool,
}

const FRAMES: &[Frame] = &[
    Frame {
        opens: b"ENTITY",
        closes: b"END_ENTITY",
        nests: false,
    },
    Frame {
        opens: b"TYPE",
        closes: b"END_TYPE",
        nests: false,
    },
    Frame {
        opens: b"FUNCTION",
        closes: b"END_FUNCTION",
        nests: true,
    },
    Frame {
        opens: b"PROCEDURE",
        closes: b"END_PROCEDURE",
        nests: true,
    },
    Frame {
        opens: b"RULE",
        closes: b"END_RULE",
        nests: false,
    },
    Frame {
        opens: b"CONSTANT",
        closes: b"END_CONSTANT",
        nests: false,
    },
    Frame {
        opens: b"SUBTYPE_CONSTRAINT",
        closes: b"END_SUBTYPE_CONSTRAINT",
        nests: false,
    },
];

/// What stands in front of the names of supertypes.
const SUBTYPE_OF: &[&[u8]] = &[b"SUBTYPE", b"OF", b"("];

/// What stands in front of the names of a ONEOF list, and behind them where it stands alone.
const ONE_OF: &[&[u8]] = &[b"SUPERTYPE", b"OF", b"(", b"ONEOF", b"("];

const ALONE: &[&[u8]] = &[b")", b")"];

/// What is declared of which the schema keeps something.
#[derive(Clone, Copy, PartialEq, Eq)]
pub(crate) enum Kind {
    Entity,
    Type,
}

/// The declaration of an entity or a type, from its word up to the `;` behind its end.
#[derive(Clone, Copy)]
pub(crate) struct Declaration<'w, 't> {
    pub(crate) kind: Kind,
    pub(crate) words: &'w [Word<'t>],
}

impl<'w, 't> Declaration<'w, 't> {
    /// Its name, which stands behind its word.
    pub(crate) fn name(self) -> Option<Word<'t>> {
        self.words.get(1).copied()
    }

    /// So many bytes of the text stand in front of it, and in front of what follows it.
    pub(crate) fn bounds(self) -> (usize, usize) {
        match (self.words.first(), self.words.last()) {
            (Some(first), Some(last)) => (first.start, last.end()),
            _ => (0, 0),
        }
    }

    /// What stands in front of its first `;`.
    pub(crate) fn heading(self) -> &'w [Word<'t>] {
        up_to(self.words, b";")
    }

    /// What a type is declared as, behind its `=`, without its rules.
    pub(crate) fn body(self) -> &'w [Word<'t>] {
        let heading = self.heading();
        &heading[heading.len().min(3)..]
    }

    /// The names of its supertypes, and the commas between them.
    pub(crate) fn supertypes(self) -> &'w [Word<'t>] {
        up_to(behind_run(self.heading(), SUBTYPE_OF), b")")
    }

    /// The names of its ONEOF list, and the commas between them, where it stands alone.
    pub(crate) fn one_of(self) -> &'w [Word<'t>] {
        let rest = behind_run(self.heading(), ONE_OF);
        let count = up_to(rest, b")").len();
        if stand_at(rest, count, ALONE) {
            return &rest[..count.min(rest.len())];
        }
        &rest[..0]
    }
}

/// The declarations of entities and types of a text that the grammar takes, in their order.
pub(crate) fn declarations_of<'w, 't>(
    alloc: Global,
    words: &'w [Word<'t>],
) -> Result<Vec<Declaration<'w, 't>>, NoMemory> {
    let mut found = Vec::new(alloc);
    let mut start = 0;
    for _ in 0..words.len() {
        let Some(first) = words.get(start) else {
            return Ok(found);
        };
        let end = end_of(words, start, *first);
        if let Some(kind) = kind_of(*first) {
            found.push(Declaration {
                kind,
                words: words.get(start..end).unwrap_or(words),
            })?;
        }
        start = end;
    }
    Ok(found)
}

/// Where what follows begins: behind the declaration that this word begins, or behind the word.
fn end_of(words: &[Word], start: usize, first: Word) -> usize {
    match frame_of(first) {
        Some(frame) => end_of_declaration(words, start, frame),
        None => start.saturating_add(1),
    }
}

fn kind_of(word: Word) -> Option<Kind> {
    if word.is(b"ENTITY") {
        return Some(Kind::Entity);
    }
    if word.is(b"TYPE") {
        return Some(Kind::Type);
    }
    None
}

fn frame_of(word: Word) -> Option<Frame> {
    for frame in FRAMES {
        if word.is(frame.opens) {
            return Some(*frame);
        }
    }
    None
}

/// Where what follows the `;` behind the end of a declaration begins.
fn end_of_declaration(words: &[Word], start: usize, frame: Frame) -> usize {
    let mut open = 0usize;
    for at in start..words.len() {
        if words[at].is(frame.closes) {
            open = open.saturating_sub(1);
        } else if words[at].is(frame.opens) && (frame.nests || at == start) {
            open = open.saturating_add(1);
        }
        if open == 0 {
            return words.len().min(at.saturating_add(2));
        }
    }
    words.len()
}
