//! Files whose instances of some names are left out, or whose statements are passed over, in pieces of any size.
ghost use Rattle.std.specs.Prelude.{◌<◌};

use p21_grammar::Event;
use p21_stream_log::{Log, Opening, Passage, ends_within, is_front, opening_of};
use p21_stream_resume::Seeker;
use p21_values::{Limits, Name, NoMemory};
use std::alloc::Global;
use std::process::Abort;

/// What is in front of the data of each file here.
const HEAD: &str =
    "ISO-10303-21;HEADER;FILE_DESCRIPTION((''),'2;1');FILE_NAME('','',(''),(''),'','','');FILE_SCHEMA(('DEMO'));ENDSEC;DATA;";

/// Instances, the name of the one that is left out, and how many of their bytes stand in front of it, or that a signpost stands in a string.
type Rows = &'static [(&'static str, u64, Option<usize>)];

const ROWS: Rows = &[
    ("#1=A();#2=A($);", 2, Some(7)),
    ("#1=A();\n  #2=A($);", 2, Some(10)),
    ("#1=A(); /* of #2=A(); */#2=A(';');", 2, Some(24)),
    ("#2=A('#3=A();');", 2, Some(0)),
    ("#2=A('); #3=');", 2, None),
    ("#2=A(');\nENDSEC ;');", 2, None),
];

/// What comes of the instance that is left out: how many bytes stand in front of it, or none where a signpost stands in a string of it.
type Answer = Option<Option<u64>>;

/// Takes each statement of a piece but the instance of this name.
fn read(log: &mut Log, piece: &[u8], name: Name, answer: &mut Answer) -> bool {
    let mut rest = piece;
    // A token that waited is given without a further byte.
    for _ in 0..=piece.len().saturating_mul(2) {
        if rest.is_empty() {
            return true;
        }
        let Ok((count, event)) = log.step(rest) else {
            return false;
        };
        rest = &rest[count..];
        judge(log, event, name, answer);
    }
    false
}

/// Takes a statement that has ended, or leaves out the instance of this name.
fn judge(log: &mut Log, event: Option<Event>, name: Name, answer: &mut Answer) {
    let Some(event) = event else {
        return;
    };
    if is_named(&event, name) {
        *answer = Some(log.leave_out());
    } else {
        log.take();
    }
}

fn is_named(event: &Event, wanted: Name) -> bool {
    match event {
        Event::Instance(name, _) => name.0 == wanted.0,
        _ => false,
    }
}

/// What comes of the instance of this name behind the header, in pieces of a size.
fn answer_of(alloc: Global, text: &str, name: u64, size: usize) -> Answer
    requires { 0 < size }
{
    let mut log = Log::new(alloc, Limits::usual());
    let mut answer = None;
    if !read(&mut log, HEAD.as_bytes(), Name(name), &mut answer) {
        return None;
    }
    if !read_in_pieces(&mut log, text, Name(name), size, &mut answer) {
        return None;
    }
    answer
}

/// Takes each statement of a text but the instance of this name, in pieces of a size.
fn read_in_pieces(log: &mut Log, text: &str, name: Name, size: usize, answer: &mut Answer) -> bool
    requires { 0 < size }
{
    for piece in text.as_bytes().chunks(size) {
        if !read(log, piece, name, answer) {
            return false;
        }
    }
    true
}

/// The first text of which something else comes, in pieces of some size.
fn first_wrong(alloc: Global, rows: Rows) -> &'static str {
    for (text, name, wanted) in rows {
        let wanted = match wanted {
            Some(count) => Some(HEAD.len().saturating_add(*count) as u64),
            None => None,
        };
        for size in 1..=text.len() {
            if answer_of(alloc, text, *name, size) != Some(wanted) {
                return text;
            }
        }
    }
    "none"
}

#[test]
fn what_is_left_out_begins_there(rt: HostRuntime) {
    assert_eq!(rt; first_wrong(rt.alloc(), ROWS), "none");
}

/// Behind the header an instance is passed over that is read elsewhere.
fn begins_behind_passed(alloc: Global, instance: &str, text: &str) -> Result<Answer, NoMemory> {
    let mut log = Log::new(alloc, Limits::usual());
    let mut answer = None;
    if !read(&mut log, HEAD.as_bytes(), Name(2), &mut answer) {
        return Ok(None);
    }
    if !log.pass_over(instance.as_bytes())? {
        return Ok(None);
    }
    log.take();
    if !read(&mut log, text.as_bytes(), Name(2), &mut answer) {
        return Ok(None);
    }
    Ok(answer)
}

#[test]
fn an_instance_is_passed_over(rt: HostRuntime) {
    let wanted = Some(Some(HEAD.len().saturating_add(7) as u64));
    assert_eq!(rt;
        begins_behind_passed(rt.alloc(), "#1=A();", "#2=B();"),
        Ok(wanted)
    );
}

/// Bytes, and whether a statement that hasn't ended begins so.
const FRONTS: &[(&str, bool)] = &[
    ("", true),
    ("#1=A('x;", true),
    ("#1=A('x';", false),
    (" /* ; ", true),
    ("#1=A();", false),
    ("#1=a", false),
];

/// The first text of which the other is told.
fn first_other(alloc: Global) -> &'static str {
    for (text, is_so) in FRONTS {
        if is_front(alloc, Limits::usual(), text.as_bytes()) != Ok(*is_so) {
            return text;
        }
    }
    "none"
}

#[test]
fn tells_fronts(rt: HostRuntime) {
    assert_eq!(rt; first_other(rt.alloc()), "none");
}

/// An instance that is refused behind the header, how many of its bytes stand in front of what is refused, and these.
type Broken = &'static [(&'static str, usize, &'static str)];

const BROKEN: Broken = &[
    ("#1=A(nan);", 5, "#1=A("),
    ("#1=A('x;y',nan);", 11, "#1=A('x;y',"),
    ("#1=A($;#2=A();", 6, "#1=A($"),
    ("#1=A(nan);", 99, ""),
];

/// The front of the statement that is refused in front of this place, in pieces of a size: none where nothing is refused, or memory is.
fn front_behind(
    alloc: Global,
    text: &str,
    place: usize,
    size: usize,
    wanted: &str,
) -> Result<bool, NoMemory>
    requires { 0 < size }
{
    let mut log = Log::new(alloc, Limits::usual());
    let mut answer = None;
    if !read(&mut log, HEAD.as_bytes(), Name(0), &mut answer) {
        return Ok(false);
    }
    for piece in text.as_bytes().chunks(size) {
        let mut rest = piece;
        for _ in 0..=piece.len().saturating_mul(2) {
            if rest.is_empty() {
                break;
            }
            match log.step(rest) {
                Ok((count, _)) => rest = &rest[count..],
                Err(_) => {
                    let bytes = log.bytes_with(alloc, rest)?;
                    let place = HEAD.len().saturating_add(place) as u64;
                    let front = log.broken_front(alloc, Limits::usual(), &bytes, place)?;
                    return Ok(front == wanted.as_bytes());
                }
            }
        }
    }
    Ok(false)
}

/// The first text of which another front is told, in pieces of some size, or memory was refused.
fn first_other_front(alloc: Global, rows: Broken) -> Result<&'static str, NoMemory> {
    for (text, place, wanted) in rows {
        for size in 1..=text.len() {
            if !front_behind(alloc, text, *place, size, wanted)? {
                return Ok(text);
            }
        }
    }
    Ok("none")
}

#[test]
fn tells_what_is_broken(rt: HostRuntime) {
    assert_eq!(rt; first_other_front(rt.alloc(), BROKEN), Ok("none"));
}

/// Bytes behind a statement, and how they begin.
const OPENINGS: &[(&str, Opening)] = &[
    ("ENDSEC;", Opening::SectionEnd),
    (" \n/* #1=A(); */ENDSEC", Opening::SectionEnd),
    ("ENDSE", Opening::Untold),
    ("", Opening::Untold),
    ("\n /", Opening::Untold),
    ("/* ENDSEC;", Opening::Untold),
    ("#1=A();ENDSEC;", Opening::Statement),
    ("/ENDSEC;", Opening::Statement),
    (" ENDSCOPE;", Opening::Statement),
    ("endsec;", Opening::Statement),
];

/// The first bytes of which something else is said.
fn first_opening() -> &'static str {
    for (bytes, wanted) in OPENINGS {
        if opening_of(bytes.as_bytes()) != *wanted {
            return bytes;
        }
    }
    "none"
}

#[test]
fn tells_how_bytes_begin(rt: HostRuntime) {
    assert_eq!(rt; first_opening(), "none");
}

/// The bytes of a first instance, which is refused, up to where the reading goes on; those from there on; the name of another instance
/// there, and how many bytes stand between. The last ones are whole instances with a signpost in a string.
type GoneOn = &'static [(&'static str, &'static str, u64, usize)];

const GONE_ON: GoneOn = &[
    ("#1=A(nan);\n", "#2=A($);", 2, 0),
    ("#1=A($;", "#2=A(); /* #3 */ #3=A();", 3, 17),
    ("#1=A('x;y',nan);", "\n#1 =A();", 1, 1),
    ("#1=A(');", "#2=A();#3=A(');", 2, 0),
    ("#1=A(');\n", "#2=A('');\n#1=A($);#3=A(');", 1, 10),
];

/// Where the instance of this name begins behind a first one that is passed over.
fn gone_on(alloc: Global, front: &str, behind: &str, name: u64, size: usize) -> Answer
    requires { 0 < size }
{
    let mut log = Log::new(alloc, Limits::usual());
    let mut answer = None;
    if !read(&mut log, HEAD.as_bytes(), Name(1), &mut answer) {
        return None;
    }
    if read_in_pieces(&mut log, front, Name(1), size, &mut answer) {
        let is_whole = read_in_pieces(&mut log, behind, Name(1), size, &mut answer);
        if is_whole && answer != Some(None) {
            return None;
        }
    }
    if !log.go_on(HEAD.len().saturating_add(front.len()) as u64) {
        return None;
    }
    answer = None;
    if !read_in_pieces(&mut log, behind, Name(name), size, &mut answer) {
        return None;
    }
    answer
}

/// The first text behind which an instance begins elsewhere, in pieces of some size.
fn first_gone_wrong(alloc: Global, rows: GoneOn) -> &'static str {
    for (front, behind, name, count) in rows {
        let begins = HEAD
            .len()
            .saturating_add(front.len())
            .saturating_add(*count) as u64;
        for size in 1..=behind.len() {
            if gone_on(alloc, front, behind, *name, size) != Some(Some(begins)) {
                return front;
            }
        }
    }
    "none"
}

#[test]
fn goes_on_behind_a_statement(rt: HostRuntime) {
    assert_eq!(rt; first_gone_wrong(rt.alloc(), GONE_ON), "none");
}

#[test]
fn goes_on_in_no_longer_file(rt: HostRuntime) {
    let mut log = Log::new(rt.alloc(), Limits::usual());
    assert_eq!(rt; log.go_on(68_719_476_737), false);
    assert_eq!(rt; log.go_on(68_719_476_736), true);
}

/// A statement that is refused and what stands behind it; how many bytes stand in front of what is refused; and the name of an instance
/// behind where the reading goes on, with how many bytes stand in front of it; or none, where the reading doesn't go on.
type Passed = &'static [(&'static str, usize, u64, Option<usize>)];

const PASSED: Passed = &[
    ("#1=A(nan);\n#2=A($);", 5, 2, Some(11)),
    ("#1=A($\n#2 = A();#3=A();", 7, 3, Some(16)),
    ("#1=A('x,$);\n#2=A('y');#3=A(');", 18, 2, Some(12)),
    (" #1=A(nan);#1=B(#4);\n/* #5= */#2=A();", 6, 2, Some(30)),
    ("#1=A(nan)#2=B(#3);", 5, 2, Some(9)),
    ("#1=A(nan), #2=B(#3);", 5, 2, None),
    ("#1=A(nan);ISO-10303-21;#2=A();", 5, 2, None),
];

/// A stretch that is looked through, and how many bytes of it are taken.
type Stretch = Option<(Seeker, usize)>;

/// Passes over a statement of which a step refused some of these bytes, up to a landmark in them, behind which statements are taken but the
/// instance of this name; says whether it goes on, or may.
fn pass(
    alloc: Global,
    log: &mut Log,
    rest: &[u8],
    place: usize,
    name: Name,
    stretch: &mut Stretch,
    answer: &mut Answer,
) -> Result<bool, NoMemory> {
    let bytes = log.bytes_with(alloc, rest)?;
    let place = HEAD.len().saturating_add(place) as u64;
    let front = log.broken_front(alloc, Limits::usual(), &bytes, place)?;
    let behind = &bytes[front.len().min(bytes.len())..];
    match log.pass(alloc, front, behind)? {
        Passage::GoesOn(count) => Ok(read(log, &bytes[count.min(bytes.len())..], name, answer)),
        Passage::Sought(seeker) => {
            *stretch = Some((seeker, bytes.len()));
            Ok(true)
        }
        _ => Ok(false),
    }
}

/// Goes on behind a stretch in the next piece, if a landmark ends in it.
fn pass_on(
    log: &mut Log,
    piece: &[u8],
    name: Name,
    stretch: &mut Stretch,
    answer: &mut Answer,
) -> Result<bool, NoMemory> {
    let Some((mut seeker, taken)) = stretch.take() else {
        return Ok(false);
    };
    match log.pass_on(&mut seeker, taken, piece)? {
        None => {
            *stretch = Some((seeker, taken.saturating_add(piece.len())));
            Ok(true)
        }
        Some((count, Passage::GoesOn(_))) => Ok(
            read(log, seeker.signpost_bytes(), name, answer)
                && read(log, &piece[count.min(piece.len())..], name, answer),
        ),
        Some(_) => Ok(false),
    }
}

/// Where the instance of this name begins behind a statement that is passed over, with so many bytes in front of what is refused, in pieces
/// of a size.
fn passed(
    alloc: Global,
    text: &str,
    place: usize,
    name: Name,
    size: usize,
) -> Result<Answer, NoMemory>
    requires { 0 < size }
{
    let mut log = Log::new(alloc, Limits::usual());
    let mut answer = None;
    let mut stretch = None;
    if !read(&mut log, HEAD.as_bytes(), name, &mut answer) {
        return Ok(None);
    }
    for piece in text.as_bytes().chunks(size) {
        let goes = if stretch.is_some() {
            pass_on(&mut log, piece, name, &mut stretch, &mut answer)?
        } else {
            let rest = refused_in(&mut log, piece, name, &mut answer);
            rest.is_empty()
                || pass(
                    alloc,
                    &mut log,
                    rest,
                    place,
                    name,
                    &mut stretch,
                    &mut answer,
                )?
        };
        if !goes {
            return Ok(None);
        }
    }
    Ok(answer)
}

/// Takes each statement of a piece but the instance of this name, up to a step that is refused: what is left of the piece then, or nothing.
fn refused_in<'a>(log: &mut Log, piece: &'a [u8], name: Name, answer: &mut Answer) -> &'a [u8] {
    let mut rest = piece;
    for _ in 0..=piece.len().saturating_mul(2) {
        if rest.is_empty() {
            return rest;
        }
        match log.step(rest) {
            Ok((count, event)) => {
                rest = &rest[count..];
                judge(log, event, name, answer);
            }
            Err(_) => return rest,
        }
    }
    rest
}

/// The first text behind which an instance begins elsewhere, in pieces of some size, or memory was refused.
fn first_passed_wrong(alloc: Global, rows: Passed) -> Result<&'static str, NoMemory> {
    for (text, place, name, wanted) in rows {
        let wanted = match wanted {
            Some(count) => Some(Some(HEAD.len().saturating_add(*count) as u64)),
            None => None,
        };
        for size in 1..=text.len() {
            if passed(alloc, text, *place, Name(*name), size)? != wanted {
                return Ok(text);
            }
        }
    }
    Ok("none")
}

#[test]
fn passes_over_a_statement(rt: HostRuntime) {
    assert_eq!(rt; first_passed_wrong(rt.alloc(), PASSED), Ok("none"));
}

/// What stands behind the header, and whether the bytes are a file.
const ENDS: &[(&str, bool)] = &[
    ("ENDSEC;END-ISO-10303-21;", true),
    ("#1=A();ENDSEC;END-ISO-10303-21;\n", true),
    ("#1=A();ENDSEC;", false),
    ("#1=A();ENDSEC;END-ISO-10303-21;/*", false),
    ("", false),
];

fn ends_file(alloc: Global, text: &str) -> bool {
    let mut log = Log::new(alloc, Limits::usual());
    let mut answer = None;
    read(&mut log, HEAD.as_bytes(), Name(0), &mut answer)
        && read(&mut log, text.as_bytes(), Name(0), &mut answer)
        && log.finish().is_ok()
}

/// The first text of which something else is said.
fn first_other_end(alloc: Global) -> &'static str {
    for (text, is_so) in ENDS {
        if ends_file(alloc, text) != *is_so {
            return text;
        }
    }
    "none"
}

#[test]
fn tells_the_end_of_a_file(rt: HostRuntime) {
    assert_eq!(rt; first_other_end(rt.alloc()), "none");
}

/// What stands behind the header up to the end of the file; the number of its refusal; and how many bytes stand in front of the first
/// signpost by which the reading goes on.
const ENDS_WITHIN: &[(&str, u8, Option<usize>)] = &[
    ("#1=A('x;\n#2=B();", 2, Some(9)),
    ("#1=A('x", 2, None),
    ("#1=A('x'", 24, None),
    ("#1=A(/*\n#2=B();", 3, Some(8)),
    ("#1=A('\n#2=', /*\n#3=B();", 3, Some(7)),
    ("/* #2=B();", 3, None),
    ("#1=A(/*\n#2=B();*/", 24, None),
    ("#1=A('\n#2=',1.E99999999999999999999", 8, Some(7)),
    ("#1", 24, None),
];

/// The refusal of the end of a file, and where its reading goes on.
fn end_within(alloc: Global, text: &str) -> Result<(u8, Option<usize>), NoMemory> {
    let mut log = Log::new(alloc, Limits::usual());
    let mut answer = None;
    if !read(&mut log, HEAD.as_bytes(), Name(0), &mut answer)
        || !read(&mut log, text.as_bytes(), Name(0), &mut answer)
    {
        return Ok((0, None));
    }
    let bytes = log.bytes_with(alloc, &[])?;
    let fault = ends_within(alloc, Limits::usual(), &bytes)?;
    match log.pass(alloc, &bytes, &[])? {
        Passage::GoesOn(count) => Ok((fault.number(), Some(count))),
        _ => Ok((fault.number(), None)),
    }
}

/// The first text of which something else is said, or memory was refused.
fn first_other_within(alloc: Global) -> Result<&'static str, NoMemory> {
    for (text, number, place) in ENDS_WITHIN {
        if end_within(alloc, text)? != (*number, *place) {
            return Ok(text);
        }
    }
    Ok("none")
}

#[test]
fn tells_where_a_file_ends(rt: HostRuntime) {
    assert_eq!(rt; first_other_within(rt.alloc()), Ok("none"));
}

/// Instances that are refused behind the header, and how many of their bytes stand in front of what is refused.
const REFUSED: &[(&str, usize)] = &[
    ("#1=A(nan);", 5),
    ("#1=A(1 /* #2= */ $);", 17),
    ("#1=A() 'x;y' ;", 11),
    ("#1=A('\\q');", 7),
    ("#1=A()B();", 6),
    ("#1=A(1 'it''s');", 13),
];

/// Where the first step that is refused stands behind the header, in pieces of a size: none where none is refused.
fn place_of_refused(alloc: Global, text: &str, size: usize) -> Result<Option<u64>, NoMemory>
    requires { 0 < size }
{
    let mut log = Log::new(alloc, Limits::usual());
    let mut answer = None;
    if !read(&mut log, HEAD.as_bytes(), Name(0), &mut answer) {
        return Ok(None);
    }
    for piece in text.as_bytes().chunks(size) {
        let mut rest = piece;
        for _ in 0..=piece.len().saturating_mul(2) {
            if rest.is_empty() {
                break;
            }
            match log.step(rest) {
                Ok((count, _)) => rest = &rest[count..],
                Err(fault) => {
                    let bytes = log.bytes_with(alloc, rest)?;
                    return Ok(Some(log.refused_at(fault, &bytes)));
                }
            }
        }
    }
    Ok(None)
}

/// The first text of which another place is told, in pieces of some size, or memory was refused.
fn first_other_place(alloc: Global) -> Result<&'static str, NoMemory> {
    for (text, place) in REFUSED {
        let wanted = HEAD.len().saturating_add(*place) as u64;
        for size in 1..=text.len() {
            if place_of_refused(alloc, text, size)? != Some(wanted) {
                return Ok(text);
            }
        }
    }
    Ok("none")
}

#[test]
fn tells_where_a_refusal_stands(rt: HostRuntime) {
    assert_eq!(rt; first_other_place(rt.alloc()), Ok("none"));
}
