use super::*;
use p21_express_graph::{Names, are_distinct};

/// Lists of names, each with what it shows, and whether none is listed twice.
const LISTS: &[(&str, &[&[u8]], bool)] = &[
    ("no name", &[], true),
    ("one name", &[b"SHAPE"], true),
    ("three names", &[b"SHAPE", b"POINT", b"MARKED"], true),
    ("beginnings", &[b"SHAPE", b"SHAPES", b"SHAP"], true),
    ("twice apart", &[b"SHAPE", b"POINT", b"SHAPE"], false),
    ("twice at the end", &[b"POINT", b"MARKED", b"MARKED"], false),
];

/// Different names.
const LISTED: &[&[u8]] = &[b"SHAPE", b"POINT", b"SHAPES", b"MARKED"];

/// Names, and their places among those.
const PLACES: &[(&str, Option<usize>)] = &[
    ("SHAPE", Some(0)),
    ("POINT", Some(1)),
    ("SHAPES", Some(2)),
    ("MARKED", Some(3)),
    ("CLOUD", None),
    ("SHAP", None),
    ("ZONE", None),
    ("", None),
];

/// Whether such a list is told to have no name twice, and whether its names are kept just then.
fn tells(alloc: Global, listed: &[&[u8]], distinct: bool) -> bool {
    match (are_distinct(alloc, listed), Names::of(alloc, listed)) {
        (Ok(told), Ok(names)) => told == distinct && names.is_some() == distinct,
        _ => false,
    }
}

/// The first list that is told otherwise than its row says.
fn first_told_otherwise(alloc: Global) -> &'static str {
    for (shown, listed, distinct) in LISTS {
        if !tells(alloc, listed, *distinct) {
            return shown;
        }
    }
    "none"
}

fn first_misplaced(names: &Names) -> &'static str {
    for (name, place) in PLACES {
        if names.position(name.as_bytes()) != *place {
            return name;
        }
    }
    "none"
}

/// The first of the names that is placed otherwise than its row says.
fn first_misplaced_of(alloc: Global) -> &'static str {
    match Names::of(alloc, LISTED) {
        Ok(Some(names)) => first_misplaced(&names),
        _ => "kept",
    }
}

#[test]
fn names_listed_twice_are_told(rt: HostRuntime) {
    passes(&rt, first_told_otherwise(rt.alloc()));
}

#[test]
fn names_stand_in_the_order_in_which_they_are_listed(rt: HostRuntime) {
    passes(&rt, first_misplaced_of(rt.alloc()));
}
