//! Files rewritten, over readers and writers that give and take little at a time, and fail.
use super::answers::is_line;
use super::devices::{AMPLE, Full, Narrow, Slow, Source, Space};
use super::files::{CONVERTED, CONVERTED_CANONICAL, EMPTY, SHAPES};
use super::{Rows, Wrong, check};
use p21_stream::{Limits, Refusal, Schema, Watched, rewrite};
use std::alloc::Global;

/// What is to be answered where a file is rewritten.
#[derive(Clone, Copy)]
pub(super) enum Answer {
    Size(u64),
    Line(&'static str),
    /// A refusal of this number.
    Number(u8),
}

/// A file that is rewritten, and what comes of it.
#[derive(Clone, Copy)]
pub(super) struct Case {
    name: &'static str,
    file: &'static str,
    canonical: &'static str,
    // How many bytes the reader gives a call, and how many calls don't fail.
    reads: (usize, usize),
    space: Space,
    answer: Answer,
    // How many bytes the writer gets, and how many reads and writes fail.
    written: usize,
    failures: (u64, u64),
}

pub(super) type Cases = &'static [Case];

fn is_refusal(alloc: Global, refusal: Refusal, wanted: Answer) -> bool {
    match wanted {
        Answer::Size(_) => false,
        Answer::Line(line) => is_line(alloc, refusal, line),
        Answer::Number(number) => refusal.number() == number,
    }
}

fn is_size(size: u64, wanted: Answer) -> bool {
    match wanted {
        Answer::Size(wanted) => size == wanted,
        Answer::Line(_) => false,
        Answer::Number(_) => false,
    }
}

fn is_answer(alloc: Global, found: Result<u64, Refusal>, wanted: Answer) -> bool {
    match found {
        Ok(size) => is_size(size, wanted),
        Err(refusal) => is_refusal(alloc, refusal, wanted),
    }
}

impl Case {
    fn holds(self, alloc: Global, schema: &Schema) -> bool {
        let (most, calls) = self.reads;
        let bytes = self.file.as_bytes();
        let canonical = self.canonical.as_bytes();
        let mut reader = Watched::new(Source::Bytes(Slow { bytes, most, calls }));
        let mut writer = Watched::new(Narrow::new(canonical, self.space));
        let found = rewrite(alloc, schema, Limits::usual(), &mut reader, &mut writer);
        let failures = (reader.failures(), writer.failures());
        let left = writer.into_inner().left();
        is_answer(alloc, found, self.answer)
            && left == canonical.len().checked_sub(self.written)
            && failures == self.failures
    }

    /// The first call of the reader at which it may fail and something else comes.
    fn first_read(self, alloc: Global, schema: &Schema) -> Option<usize> {
        let most = self.reads.0.max(1);
        for calls in 0..=self.file.len().div_ceil(most) {
            let reads = (most, calls);
            if !(Case { reads, ..self }).holds(alloc, schema) {
                return Some(calls);
            }
        }
        None
    }

    /// The first number of bytes behind which the writer may be full and something else comes.
    fn first_write(self, alloc: Global, schema: &Schema) -> Option<usize> {
        for room in 0..self.canonical.len() {
            let space = Space { room, ..self.space };
            let written = room;
            if !(Case {
                space,
                written,
                ..self
            })
            .holds(alloc, schema)
            {
                return Some(room);
            }
        }
        None
    }
}

pub(super) fn wrong_case(alloc: Global, schema: &Schema, rows: Cases) -> Wrong {
    for (place, case) in rows.iter().enumerate() {
        if !case.holds(alloc, schema) {
            return Some((case.name, place));
        }
    }
    None
}

pub(super) fn wrong_read(alloc: Global, schema: &Schema, rows: Cases) -> Wrong {
    for case in rows {
        if let Some(calls) = case.first_read(alloc, schema) {
            return Some((case.name, calls));
        }
    }
    None
}

pub(super) fn wrong_write(alloc: Global, schema: &Schema, rows: Cases) -> Wrong {
    for case in rows {
        if let Some(room) = case.first_write(alloc, schema) {
            return Some((case.name, room));
        }
    }
    None
}

/// The file without instances over a reader of seven bytes a call and a writer of one.
const WITHOUT_INSTANCES: Case = Case {
    name: "a file without instances",
    file: EMPTY,
    canonical: EMPTY,
    reads: (7, 1000),
    space: Space { most: 1, ..AMPLE },
    answer: Answer::Size(152),
    written: 152,
    failures: (0, 0),
};

/// The file of a converter over the same.
const OF_A_CONVERTER: Case = Case {
    name: "a file of a converter",
    file: CONVERTED,
    canonical: CONVERTED_CANONICAL,
    answer: Answer::Size(283),
    written: 283,
    ..WITHOUT_INSTANCES
};

const READ_FAULT: Case = Case {
    space: AMPLE,
    written: 0,
    failures: (1, 0),
    ..WITHOUT_INSTANCES
};

const WRITE_FAULT: Case = Case {
    reads: (1000, 1000),
    answer: Answer::Line("refused 92 WriteFault at statement 10"),
    written: 10,
    failures: (0, 1),
    ..WITHOUT_INSTANCES
};

const CASES: Cases = &[
    WITHOUT_INSTANCES,
    OF_A_CONVERTER,
    Case {
        name: "a reader that fails behind 20 bytes",
        reads: (20, 1),
        answer: Answer::Line("refused 91 ReadFault at statement 2"),
        ..READ_FAULT
    },
    Case {
        name: "a reader that fails behind the whole",
        reads: (152, 1),
        answer: Answer::Line("refused 91 ReadFault at statement 10"),
        ..READ_FAULT
    },
    Case {
        name: "a writer that fails behind 10 bytes",
        space: Space {
            most: 1000,
            room: 10,
            then: Full::Fails,
        },
        ..WRITE_FAULT
    },
    Case {
        name: "a writer that takes none behind 10 bytes",
        space: Space {
            most: 1000,
            room: 10,
            then: Full::TakesNone,
        },
        ..WRITE_FAULT
    },
];

#[test]
fn rewrites_and_fails(rt: HostRuntime) {
    check(&rt, rt.alloc(), SHAPES, Rows::Rewritten(CASES));
}

const FAILING_READS: Cases = &[Case {
    name: "a reader of seven bytes a call",
    reads: (7, 0),
    space: AMPLE,
    answer: Answer::Number(91),
    written: 0,
    failures: (1, 0),
    ..OF_A_CONVERTER
}];

#[test]
fn fails_where_a_read_fails(rt: HostRuntime) {
    check(&rt, rt.alloc(), SHAPES, Rows::FailingReads(FAILING_READS));
}

const FAILING_WRITE: Case = Case {
    name: "a writer that fails once it is full",
    reads: (1000, 1000),
    space: AMPLE,
    answer: Answer::Number(92),
    failures: (0, 1),
    ..OF_A_CONVERTER
};

const FAILING_WRITES: Cases = &[
    FAILING_WRITE,
    Case {
        name: "a writer that takes none once it is full",
        space: Space {
            then: Full::TakesNone,
            ..AMPLE
        },
        ..FAILING_WRITE
    },
];

#[test]
fn fails_where_a_write_fails(rt: HostRuntime) {
    check(&rt, rt.alloc(), SHAPES, Rows::FailingWrites(FAILING_WRITES));
}
