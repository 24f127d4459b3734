//! Files of many instances, of one with many references, and of many references to instances behind them.
use super::accepted::{Fact, answers};
use super::answers::{Wanted, comes_at_once};
use super::files::{DEMO, SHAPES};
use super::{Rows, Wrong, check};
use p21_stream::{Limits, Schema};
use std::alloc::{AllocError, Global};

/// A large file.
#[derive(Clone, Copy)]
pub(super) enum Many {
    /// 10,000 points, by their names.
    Points,
    /// Points, each with its name as its label: all names below 10,007, a prime, in the order of the multiples of this.
    Labelled(u64),
    /// A cloud of 2,000 points, and of one more name if there is one.
    Cloud(&'static str),
    /// 8,501 references to instances behind them: the first to `#9998`, 4,500 to `#9999`, which stands behind these, and
    /// the others to `#9997`; and more behind all.
    Ahead(&'static str),
    /// An instance, and 1,100 behind it, which all have the same record and name the first, `#1`.
    Behind(&'static str, &'static str),
}

fn push_labelled(file: &mut String, step: u64) -> Result<(), AllocError> {
    for place in 1..10_007_u64 {
        let name = place.wrapping_mul(step) % 10_007;
        write!(file, "#{name}=POINT('{name}',1.,1.);\n")?;
    }
    Ok(())
}

/// Adds each of these numbers, between two texts.
fn push_numbers(
    file: &mut String,
    (first, end): (u64, u64),
    front: &str,
    behind: &str,
) -> Result<(), AllocError> {
    for number in first..end {
        write!(file, "{front}{number}{behind}")?;
    }
    Ok(())
}

fn push_cloud(file: &mut String, more: &str) -> Result<(), AllocError> {
    file.push_str("#1=CLOUD((#2")?;
    push_numbers(file, (3, 2_002), ",#", "")?;
    file.push_str(more)?;
    file.push_str("),(),(TALLY(1)));")?;
    push_numbers(file, (2, 2_002), "#", "=POINT($,1.,1.);")
}

fn push_ahead(file: &mut String, more: &str) -> Result<(), AllocError> {
    file.push_str("#5000=CLOUD((#9998),(),(TALLY(1)));")?;
    push_numbers(file, (1, 4_501), "#", "=CLOUD((#9999),(),(TALLY(1)));")?;
    file.push_str("#9999=POINT($,1.,1.);")?;
    push_numbers(
        file,
        (10_000, 14_000),
        "#",
        "=CLOUD((#9997),(),(TALLY(1)));",
    )?;
    file.push_str(more)
}

fn push_behind(file: &mut String, first: &str, others: &str) -> Result<(), AllocError> {
    write!(file, "#1={first};")?;
    for name in 2..1_102_u64 {
        write!(file, "#{name}={others};")?;
    }
    Ok(())
}

fn push_lines(file: &mut String, lines: Many) -> Result<(), AllocError> {
    match lines {
        Many::Points => push_numbers(file, (1, 10_001), "#", "=POINT($,1.,1.);\n"),
        Many::Labelled(step) => push_labelled(file, step),
        Many::Cloud(more) => push_cloud(file, more),
        Many::Ahead(more) => push_ahead(file, more),
        Many::Behind(first, others) => push_behind(file, first, others),
    }
}

fn push_file(file: &mut String, lines: Many) -> Result<(), AllocError> {
    file.push_str(DEMO.before)?;
    push_lines(file, lines)?;
    file.push_str(DEMO.behind)
}

/// The text of a file: none where memory runs out.
fn file_of(alloc: Global, lines: Many) -> Option<String> {
    let mut file = String::new(alloc);
    match push_file(&mut file, lines) {
        Ok(()) => Some(file),
        Err(_) => None,
    }
}

/// What is to come of a large file: an answer, or a refusal.
#[derive(Clone, Copy)]
pub(super) enum Outcome {
    Accepted(Fact<'static>),
    Refused(&'static str),
}

/// By its name: a large file, and what is to come of it.
pub(super) type Files = &'static [(&'static str, Many, Outcome)];

fn comes(alloc: Global, schema: &Schema, file: &[u8], wanted: Outcome) -> bool {
    match wanted {
        Outcome::Accepted(fact) => answers(alloc, schema, file, fact),
        Outcome::Refused(line) => comes_at_once(
            alloc,
            schema,
            Limits::usual(),
            file,
            Wanted::Refusal(line),
        ),
    }
}

fn comes_of(alloc: Global, schema: &Schema, lines: Many, wanted: Outcome) -> bool {
    match file_of(alloc, lines) {
        Some(file) => comes(alloc, schema, file.as_bytes(), wanted),
        None => false,
    }
}

pub(super) fn wrong_file(alloc: Global, schema: &Schema, rows: Files) -> Wrong {
    for (place, (name, lines, wanted)) in rows.iter().enumerate() {
        if !comes_of(alloc, schema, *lines, *wanted) {
            return Some((name, place));
        }
    }
    None
}

const FILES: Files = &[
    (
        "many points",
        Many::Points,
        Outcome::Accepted(Fact::Counts(10_000, 219_046)),
    ),
    (
        "many members",
        Many::Cloud(""),
        Outcome::Accepted(Fact::LineBetween(
            1,
            "#1=CLOUD((#10,#100,#1000,#1001,",
            ",#998,#999),(),(TALLY(1)));",
        )),
    ),
    (
        "many members and one twice",
        Many::Cloud(",#02"),
        Outcome::Refused("refused 52 NotDistinct in #1"),
    ),
];

const AHEAD: Files = &[
    (
        "references ahead",
        Many::Ahead("#9998=ORIGIN($,*,1.);#9997=POINT($,1.,1.);"),
        Outcome::Accepted(Fact::Counts(8_504, 309_147)),
    ),
    (
        "the first of those left names no instance",
        Many::Ahead("#9997=MARKED($,.RED.);"),
        Outcome::Refused("refused 56 Dangling in #5000"),
    ),
    (
        "the first of those left names one of the wrong kind",
        Many::Ahead("#9998=MARKED($,.RED.);"),
        Outcome::Refused("refused 57 WrongTarget in #5000"),
    ),
    (
        "the second of those left names no instance",
        Many::Ahead("#9998=POINT($,1.,1.);"),
        Outcome::Refused("refused 56 Dangling in #10000"),
    ),
    (
        "the second of those left names one of the wrong kind",
        Many::Ahead("#9998=POINT($,1.,1.);#9997=MARKED($,.RED.);"),
        Outcome::Refused("refused 57 WrongTarget in #10000"),
    ),
    (
        "an instance that nobody names has a name twice",
        Many::Ahead("#9998=POINT($,1.,1.);#9997=POINT($,1.,1.);#4500=POINT($,1.,1.);"),
        Outcome::Refused("refused 40 DuplicateName in #4500"),
    ),
];

/// So many references wait that those which are served by then are looked at and dropped on the way.
#[test]
fn serves_many_references_ahead(rt: HostRuntime) {
    check(&rt, rt.alloc(), SHAPES, Rows::Large(AHEAD));
}

/// The entity that serves is another than the first of the set, it serves a select, or none does.
const BEHIND: Files = &[
    (
        "many references to the second of three parts",
        Many::Behind(
            "(MARKED(.RED.)POINT(1.,2.)SHAPE($))",
            "CLOUD((#1),(),(TALLY(1)))",
        ),
        Outcome::Accepted(Fact::Counts(1_101, 35_388)),
    ),
    (
        "many references of a select",
        Many::Behind("POINT($,1.,1.)", "CLOUD((),(),(#1))"),
        Outcome::Accepted(Fact::Counts(1_101, 26_567)),
    ),
    (
        "many references to one of the wrong kind",
        Many::Behind("MARKED($,.RED.)", "CLOUD((#1),(),(TALLY(1)))"),
        Outcome::Refused("refused 57 WrongTarget in #2"),
    ),
    (
        "many references of a select to one of the wrong kind",
        Many::Behind("MARKED($,.RED.)", "CLOUD((),(),(#1))"),
        Outcome::Refused("refused 57 WrongTarget in #2"),
    ),
];

/// So many references wait that they are looked at on the way, with the instance that they name in front of them.
#[test]
fn serves_many_references_back(rt: HostRuntime) {
    check(&rt, rt.alloc(), SHAPES, Rows::Large(BEHIND));
}

#[test]
fn takes_many_instances_and_members(rt: HostRuntime) {
    check(&rt, rt.alloc(), SHAPES, Rows::Large(FILES));
}

/// Whether a file has as many instances as labelled points are, and their text by their names as its canonical file.
fn is_in_order(alloc: Global, schema: &Schema, file: &[u8]) -> bool {
    match file_of(alloc, Many::Labelled(1)) {
        Some(text) => answers(alloc, schema, file, Fact::Whole(10_006, text.as_bytes())),
        None => false,
    }
}

fn comes_in_order(alloc: Global, schema: &Schema, step: u64) -> bool {
    match file_of(alloc, Many::Labelled(step)) {
        Some(file) => is_in_order(alloc, schema, file.as_bytes()),
        None => false,
    }
}

pub(super) fn wrong_order(alloc: Global, schema: &Schema, steps: &[u64]) -> Wrong {
    for (place, step) in steps.iter().enumerate() {
        if !comes_in_order(alloc, schema, *step) {
            return Some(("labelled points", place));
        }
    }
    None
}

const STEPS: &[u64] = &[1, 10_006, 7_919];

#[test]
fn puts_many_points_in_order(rt: HostRuntime) {
    check(&rt, rt.alloc(), SHAPES, Rows::Orders(STEPS));
}
