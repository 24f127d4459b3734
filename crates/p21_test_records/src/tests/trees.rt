use super::*;
use p21_grammar::{Key, Param, Params, Part, Parts, Word};

/// A record `B` with these parameters.
pub(super) fn part_of(alloc: Global, params: Vec<Param>) -> Option<Part> {
    match Word::read(alloc, b"B") {
        Ok(word) => Some(Part {
            key: Key { user: false, word },
            params: Params::from_vec(params),
        }),
        Err(_) => None,
    }
}

/// `B(#7,$)`
fn part(alloc: Global) -> Option<Part> {
    match Vec::from_array(alloc, [Param::Name(Name(7)), Param::Dollar]) {
        Ok(params) => part_of(alloc, params),
        Err(_) => None,
    }
}

/// Whether parameters are a name and `$`, looked at and then moved out.
fn are_name_and_dollar(params: Params) -> bool {
    params.items().len() == 2
        && matches!(params.items().first(), Some(Param::Name(_)))
        && ends_in_dollar(&params.into_items())
}

fn ends_in_dollar(params: &[Param]) -> bool {
    params.len() == 2 && matches!(params.last(), Some(Param::Dollar))
}

fn holds_name_and_dollar(alloc: Global) -> bool {
    match part(alloc) {
        Some(part) => are_name_and_dollar(part.params),
        None => false,
    }
}

#[test]
fn holds_parameters(rt: HostRuntime) {
    assert!(rt; holds_name_and_dollar(rt.alloc()));
}

/// So many records `B(#7,$)`.
fn parts_of(alloc: Global, count: u32) -> Option<Vec<Part>> {
    let mut all = Vec::new(alloc);
    for _ in 0..count {
        if !push_part(alloc, &mut all) {
            return None;
        }
    }
    Some(all)
}

fn push_part(alloc: Global, all: &mut Vec<Part>) -> bool {
    match part(alloc) {
        Some(part) => all.push(part).is_ok(),
        None => false,
    }
}

/// How many records stand in a row, looked at and then moved out.
fn counts(parts: Parts) -> (usize, usize) {
    let seen = parts.items().len();
    (seen, parts.into_items().len())
}

/// The counts of so many records in a row: none where a row can't be of so many.
fn counts_of(alloc: Global, count: u32) -> Option<(usize, usize)> {
    let all = parts_of(alloc, count)?;
    let parts = Parts::from_vec(all)?;
    Some(counts(parts))
}

#[test]
fn holds_one_record_at_least(rt: HostRuntime) {
    assert_eq!(rt; counts_of(rt.alloc(), 0), None);
    assert_eq!(rt; counts_of(rt.alloc(), 1), Some((1, 1)));
}
