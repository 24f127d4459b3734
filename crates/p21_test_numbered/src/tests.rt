ghost use Rattle.std.specs.Prelude.{IfSome};
ghost use Rattle.p21_spec_file.specs.Accepted.{IsAccepted};
ghost use Rattle.p21_stream_output.specs.Output.{output_text};

use p21_numbered_file::{Unpaired, paired_file};
use p21_stream::{accept, headline, read_schema};
use p21_stream_numbered::{
    Accepted, Limits, Name, NumberingRefusal, Schema, Watched, Which, numbered, same_but_for_names,
};
use std::alloc::{AllocError, Global};
use std::collections::BTreeMap;
use std::process::Abort;

/// A schema of nodes that may have a next one.
const NODES: &str = "SCHEMA demo;
ENTITY node; label : STRING; next : OPTIONAL node; END_ENTITY;
ENTITY ring; nodes : LIST OF node; END_ENTITY;
END_SCHEMA;
";

/// The lines of a file up to its instances.
const FRONT: &str =
    "ISO-10303-21;\nHEADER;\nFILE_DESCRIPTION((''),'2;1');\nFILE_NAME('','',(''),(''),'','','');\nFILE_SCHEMA(('DEMO'));\nENDSEC;\nDATA;\n";

/// The lines behind them.
const BACK: &str = "ENDSEC;\nEND-ISO-10303-21;\n";

/// What is answered for a file: its instances under their numbers; two names that its model doesn't tell apart; or the number and the
/// name of a refusal.
#[derive(Clone, Copy)]
enum Numbered {
    Lines(&'static str),
    Alike(u64, u64),
    Refused(u8, &'static str),
}

/// Instances, and what is answered for a file of them whose canonical form may have so many bytes; the lines around them have 152.
type Files = &'static [(&'static str, u64, Numbered)];

/// What is answered for two files.
#[derive(Clone, Copy)]
enum Compared {
    Same,
    Different,
    Refused(Which, u8),
}

/// The instances of two files, and what is answered for these.
type Pairs = &'static [(&'static str, &'static str, Compared)];

/// The first one's instances under the names of their partners, and the new name and the old one of each; or none, where these are too
/// long.
type Renamed = Option<(&'static str, &'static [(u64, u64)])>;

/// The instances of two files, and what is answered for these where a canonical file may have so many bytes.
type Partners = &'static [(&'static str, &'static str, u64, Renamed)];

/// Rows of one kind.
#[derive(Clone, Copy)]
enum Rows {
    Files(Files),
    Pairs(Pairs),
    Partners(Partners),
}

const MANY: u64 = 1_000_000;

const FILES: Files = &[
    ("", MANY, Numbered::Lines("")),
    (
        "#7=NODE('b',#3);#3=NODE('a',$);",
        MANY,
        Numbered::Lines("#1=NODE('a',$);\n#2=NODE('b',#1);\n"),
    ),
    // What refers to an instance tells it too.
    (
        "#1=NODE('a',$);#2=NODE('a',$);#3=NODE('b',#2);",
        MANY,
        Numbered::Lines("#1=NODE('a',$);\n#2=NODE('a',$);\n#3=NODE('b',#2);\n"),
    ),
    // Copies have whichever numbers.
    (
        "#9=NODE('a',$);#5=NODE('a',$);",
        MANY,
        Numbered::Lines("#1=NODE('a',$);\n#2=NODE('a',$);\n"),
    ),
    (
        "#8=NODE('a',#9);#9=NODE('a',#8);",
        MANY,
        Numbered::Refused(59, "Alike"),
    ),
    (
        "#8=NODE('a',#9);#9=NODE('a',#8);",
        MANY,
        Numbered::Alike(8, 9),
    ),
    ("#8=NODE('a',#7);", MANY, Numbered::Refused(56, "Dangling")),
    // Ten instances of one digit need two for the tenth.
    (
        "#0=NODE('',$);#1=NODE('',$);#2=NODE('',$);#3=NODE('',$);#4=NODE('',$);#5=NODE('',$);#6=NODE('',$);#7=NODE('',$);#8=NODE('',$);#9=NODE('',$);",
        302,
        Numbered::Refused(27, "CanonicalTooLong"),
    ),
    (
        "#0=NODE('',$);#1=NODE('',$);#2=NODE('',$);#3=NODE('',$);#4=NODE('',$);#5=NODE('',$);#6=NODE('',$);#7=NODE('',$);#8=NODE('',$);#9=NODE('',$);",
        303,
        Numbered::Lines(
            "#1=NODE('',$);\n#2=NODE('',$);\n#3=NODE('',$);\n#4=NODE('',$);\n#5=NODE('',$);\n#6=NODE('',$);\n#7=NODE('',$);\n#8=NODE('',$);\n#9=NODE('',$);\n#10=NODE('',$);\n",
        ),
    ),
];

const PAIRS: Pairs = &[
    (
        "#7=NODE('b',#3);#3=NODE('a',$);",
        "#1=NODE('b',#2);#2=NODE('a',$);",
        Compared::Same,
    ),
    (
        "#7=NODE('b',#3);#3=NODE('a',$);",
        "#7=NODE('b',$);#3=NODE('a',#7);",
        Compared::Different,
    ),
    // A file is the same as itself, decided or not.
    (
        "#8=NODE('a',#9);#9=NODE('a',#8);",
        "#9=NODE('a',#8);#8=NODE('a',#9);",
        Compared::Same,
    ),
    (
        "#8=NODE('a',#9);#9=NODE('a',#8);",
        "#1=NODE('a',#2);#2=NODE('a',#1);",
        Compared::Refused(Which::First, 59),
    ),
    (
        "#8=NODE('a',#9);#9=NODE('a',#8);",
        "#8=NODE('a',$);#9=NODE('b',#8);",
        Compared::Different,
    ),
    (
        "#8=NODE('a',$);",
        "#8=NODE('a');",
        Compared::Refused(Which::Second, 45),
    ),
];

const PARTNERS: Partners = &[
    ("", "", MANY, Some(("", &[]))),
    (
        "#7=NODE('b',#3);#3=NODE('a',$);",
        "#1=NODE('b',#2);#2=NODE('a',$);",
        MANY,
        Some(("#1=NODE('b',#2);\n#2=NODE('a',$);\n", &[(1, 7), (2, 3)])),
    ),
    // One says something else.
    (
        "#7=NODE('b',#3);#3=NODE('a',$);",
        "#1=NODE('c',#2);#2=NODE('a',$);",
        MANY,
        Some(("#1=NODE('b',#2);\n#2=NODE('a',$);\n", &[(1, 7), (2, 3)])),
    ),
    // What has no partner gets a name that is free in the second file.
    (
        "#7=NODE('a',$);#8=RING((#7));",
        "#1=NODE('a',$);",
        MANY,
        Some(("#1=NODE('a',$);\n#2=RING((#1));\n", &[(1, 7), (2, 8)])),
    ),
    (
        "#7=NODE('a',$);#8=RING((#7));",
        "#2=NODE('a',$);",
        MANY,
        Some(("#1=RING((#2));\n#2=NODE('a',$);\n", &[(1, 8), (2, 7)])),
    ),
    // A name of two digits needs a byte more.
    (
        "#1=NODE('',$);#2=NODE('',$);",
        "#10=NODE('',$);",
        183,
        Some(("#1=NODE('',$);\n#10=NODE('',$);\n", &[(10, 1), (1, 2)])),
    ),
    ("#1=NODE('',$);#2=NODE('',$);", "#10=NODE('',$);", 182, None),
];

/// A file of these instances: none where memory runs out.
fn file_of(alloc: Global, instances: &str) -> Option<Vec<u8>> {
    let mut file = Vec::new(alloc);
    match push_framed(&mut file, instances) {
        Ok(()) => Some(file),
        Err(_) => None,
    }
}

fn push_framed(file: &mut Vec<u8>, instances: &str) -> Result<(), AllocError> {
    file.extend_from_slice(FRONT.as_bytes())?;
    file.extend_from_slice(instances.as_bytes())?;
    file.extend_from_slice(BACK.as_bytes())
}

/// Whether the file has these instances.
fn has_lines(alloc: Global, file: &Accepted, lines: &str) -> bool {
    match file_of(alloc, lines) {
        Some(text) => file.is_text(&text),
        None => false,
    }
}

fn is_refusal(refusal: NumberingRefusal, wanted: Numbered) -> bool {
    match wanted {
        Numbered::Lines(_) => false,
        Numbered::Alike(one, other) => refusal == NumberingRefusal::Alike(Name(one), Name(other)),
        Numbered::Refused(number, name) => refusal.number() == number && refusal.name() == name,
    }
}

fn is_numbered(alloc: Global, schema: &Schema, bytes: u64, file: &[u8], wanted: Numbered) -> bool {
    let Some(limits) = Limits::new(MANY, MANY, MANY, bytes) else {
        return false;
    };
    let mut reader = Watched::new(file);
    match numbered(alloc, schema, limits, &mut reader) {
        Ok(file) => match wanted {
            Numbered::Lines(lines) => has_lines(alloc, &file, lines),
            Numbered::Alike(_, _) => false,
            Numbered::Refused(_, _) => false,
        },
        Err(refusal) => is_refusal(refusal, wanted),
    }
}

fn is_compared(alloc: Global, schema: &Schema, one: &[u8], other: &[u8], wanted: Compared) -> bool {
    let mut one = Watched::new(one);
    let mut other = Watched::new(other);
    match same_but_for_names(alloc, schema, Limits::usual(), &mut one, &mut other) {
        Ok(same) => match wanted {
            Compared::Same => same,
            Compared::Different => !same,
            Compared::Refused(_, _) => false,
        },
        Err((file, refusal)) => match wanted {
            Compared::Refused(which, number) => file == which && refusal.number() == number,
            Compared::Same => false,
            Compared::Different => false,
        },
    }
}

fn is_pair(alloc: Global, schema: &Schema, one: &str, other: &str, wanted: Compared) -> bool {
    let Some(one) = file_of(alloc, one) else {
        return false;
    };
    match file_of(alloc, other) {
        Some(other) => is_compared(alloc, schema, &one, &other, wanted),
        None => false,
    }
}

/// An accepted file: none where it is refused.
fn accepted(alloc: Global, schema: &Schema, limits: Limits, file: &[u8]) -> Option<Accepted>
    ensures { IfSome result (λ file. IsAccepted schema.now limits (output_text file)) }
{
    headline(schema, limits);
    let mut reader = Watched::new(file);
    match accept(alloc, schema, limits, &mut reader) {
        Ok(accepted) => Some(accepted),
        Err(_) => None,
    }
}

/// Whether the new names lead to these old ones, and there are no others.
fn are_old(found: &BTreeMap<u64, u64>, olds: &[(u64, u64)]) -> bool {
    for (new, old) in olds {
        if found.get(new) != Some(old) {
            return false;
        }
    }
    found.len() == olds.len()
}

fn is_renamed(
    alloc: Global,
    schema: &Schema,
    limits: Limits,
    one: &Accepted,
    other: &Accepted,
    wanted: Renamed,
) -> bool
    requires one { IsAccepted schema.now limits (output_text one.now) }
    requires other { IsAccepted schema.now limits (output_text other.now) }
{
    match paired_file(alloc, schema, limits, one, other, 0) {
        Ok(paired) => match wanted {
            Some((lines, olds)) => {
                has_lines(alloc, &paired.file, lines) && are_old(&paired.old_names, olds)
            }
            None => false,
        },
        Err(Unpaired::TooLong) => wanted.is_none(),
        Err(Unpaired::NoMemory) => false,
    }
}

fn are_partners(
    alloc: Global,
    schema: &Schema,
    bytes: u64,
    one: &[u8],
    other: &[u8],
    wanted: Renamed,
) -> bool {
    let Some(limits) = Limits::new(MANY, MANY, MANY, bytes) else {
        return false;
    };
    let Some(one) = accepted(alloc, schema, limits, one) else {
        return false;
    };
    match accepted(alloc, schema, limits, other) {
        Some(other) => is_renamed(alloc, schema, limits, &one, &other, wanted),
        None => false,
    }
}

/// The number of the first two files for which something else is answered.
fn wrong_partners(alloc: Global, schema: &Schema, pairs: Partners) -> Option<usize> {
    for (place, (one, other, bytes, wanted)) in pairs.iter().enumerate() {
        let Some(one) = file_of(alloc, one) else {
            return Some(place);
        };
        let Some(other) = file_of(alloc, other) else {
            return Some(place);
        };
        if !are_partners(alloc, schema, *bytes, &one, &other, *wanted) {
            return Some(place);
        }
    }
    None
}

/// The number of the first file for which something else is answered.
fn wrong_file(alloc: Global, schema: &Schema, files: Files) -> Option<usize> {
    for (place, (instances, bytes, wanted)) in files.iter().enumerate() {
        let Some(file) = file_of(alloc, instances) else {
            return Some(place);
        };
        if !is_numbered(alloc, schema, *bytes, &file, *wanted) {
            return Some(place);
        }
    }
    None
}

/// The number of the first pair for which something else is answered.
fn wrong_pair(alloc: Global, schema: &Schema, pairs: Pairs) -> Option<usize> {
    for (place, (one, other, wanted)) in pairs.iter().enumerate() {
        if !is_pair(alloc, schema, one, other, *wanted) {
            return Some(place);
        }
    }
    None
}

/// The number of the first row that doesn't hold of files of nodes: none where each does.
fn first_wrong(alloc: Global, rows: Rows) -> Option<usize> {
    let Ok(schema) = read_schema(alloc, NODES.as_bytes()) else {
        return Some(usize::MAX);
    };
    match rows {
        Rows::Files(files) => wrong_file(alloc, &schema, files),
        Rows::Pairs(pairs) => wrong_pair(alloc, &schema, pairs),
        Rows::Partners(pairs) => wrong_partners(alloc, &schema, pairs),
    }
}

/// Fails where a row doesn't hold.
fn check(rt: &impl Abort, alloc: Global, rows: Rows) {
    assert_eq!(*rt; first_wrong(alloc, rows), None);
}

#[test]
fn numbers_files(rt: HostRuntime) {
    check(&rt, rt.alloc(), Rows::Files(FILES));
}

#[test]
fn compares_files(rt: HostRuntime) {
    check(&rt, rt.alloc(), Rows::Pairs(PAIRS));
}

#[test]
fn renames_files(rt: HostRuntime) {
    check(&rt, rt.alloc(), Rows::Partners(PARTNERS));
}
