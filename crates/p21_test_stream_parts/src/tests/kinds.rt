//! Memberships, each of which is stored once.
use super::passes_at;
use p21_express_graph::EntityId;
use p21_stream_store::Memberships;
use std::alloc::Global;

const ONE: &[EntityId] = &[EntityId(7)];

const TWO: &[EntityId] = &[EntityId(7), EntityId(3)];

/// Memberships one after another, each by its section and its entities, with the number that it has.
const ADDED: &[(usize, &[EntityId], usize)] = &[
    (0, ONE, 0),
    (0, ONE, 0),
    (0, TWO, 1),
    (0, ONE, 0),
    (1, ONE, 2),
    (0, TWO, 1),
    (0, &[], 3),
    (1, ONE, 2),
    (0, TWO, 1),
];

/// Whether a membership gets this number, and is found by it.
fn adds(
    alloc: Global,
    kinds: &mut Memberships,
    (section, entities): (usize, &[EntityId]),
    wanted: usize,
) -> bool {
    match kinds.add(alloc, section, entities) {
        Ok(number) => number == wanted && kinds.get(number) == (section, entities),
        Err(_) => false,
    }
}

/// The number of the first row that doesn't hold.
fn first_added_otherwise(alloc: Global, kinds: &mut Memberships) -> Option<usize> {
    for (place, (section, entities, number)) in ADDED.iter().enumerate() {
        if !adds(alloc, kinds, (*section, entities), *number) {
            return Some(place);
        }
    }
    None
}

fn first_wrong(alloc: Global) -> Option<usize> {
    let mut kinds = Memberships::new(alloc);
    first_added_otherwise(alloc, &mut kinds)
}

#[test]
fn keeps_each_kind_once(rt: HostRuntime) {
    passes_at(&rt, first_wrong(rt.alloc()));
}
