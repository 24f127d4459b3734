//! Instances that are stored.
use p21_stream_store::{Instances, Numbers};
use std::alloc::{AllocError, Global};
use std::process::Abort;

/// A name, the number of a membership, and the text: a letter so many times.
type Kept = (u64, usize, (u8, usize));

/// Adds an instance, if none has its name, and says whether it is one more.
fn add(instances: &mut Instances, name: u64, kind: usize, text: &[u8]) -> bool {
    let before = instances.len();
    instances.find(name).is_none()
        && instances.push(name, kind, text).is_ok()
        && instances.len() == before.saturating_add(1)
}

fn is_found(instances: &Instances, name: u64, kind: usize, text: &[u8]) -> bool {
    instances.find(name) == Some((kind, text))
}

fn text_of(alloc: Global, (letter, count): (u8, usize)) -> Result<Vec<u8>, AllocError> {
    vec![in alloc; letter; count]
}

fn adds(alloc: Global, instances: &mut Instances, (name, kind, text): Kept) -> bool {
    match text_of(alloc, text) {
        Ok(text) => add(instances, name, kind, &text),
        Err(_) => false,
    }
}

fn finds(alloc: Global, instances: &Instances, (name, kind, text): Kept) -> bool {
    match text_of(alloc, text) {
        Ok(text) => is_found(instances, name, kind, &text),
        Err(_) => false,
    }
}

/// The name of the first instance that isn't added.
fn first_left(alloc: Global, instances: &mut Instances, rows: &[Kept]) -> Option<u64> {
    for row in rows {
        if !adds(alloc, instances, *row) {
            return Some(row.0);
        }
    }
    None
}

/// The name of the first instance that isn't found again.
fn first_lost(alloc: Global, instances: &Instances, rows: &[Kept]) -> Option<u64> {
    for row in rows {
        if !finds(alloc, instances, *row) {
            return Some(row.0);
        }
    }
    None
}

/// The name of the first that is found, of names that no instance has.
fn first_found(instances: &Instances, names: &[u64]) -> Option<u64> {
    for name in names {
        if instances.find(*name).is_some() {
            return Some(*name);
        }
    }
    None
}

fn is_at(instances: &Instances, place: usize, name: u64) -> bool {
    place < instances.len()
        && instances.find(name) == Some((instances.membership_at(place), instances.text(place)))
}

/// The first name that a walk by rising names passes over, or none.
fn first_passed_over(instances: &Instances, names: &[u64]) -> Option<u64> {
    let mut least = 0;
    for name in names {
        match instances.next_from(least) {
            Some((found, _)) if found == *name => least = name.saturating_add(1),
            _ => return Some(*name),
        }
    }
    None
}

/// The first name at which another instance is written, or none.
fn first_misplaced(instances: &Instances, order: &Numbers, names: &[u64]) -> Option<u64> {
    for (number, name) in names.iter().enumerate() {
        if number >= order.len() || !is_at(instances, order.get(number), *name) {
            return Some(*name);
        }
    }
    None
}

/// Instances in the order in which they come, names that none has, and the order in which they are written.
#[derive(Clone, Copy)]
struct Store {
    rows: &'static [Kept],
    others: &'static [u64],
    order: &'static [u64],
}

/// What is wrong with the order: a name that isn't at its position, or how many are written.
fn wrong_order(alloc: Global, instances: &Instances, names: &[u64]) -> Option<(&'static str, u64)> {
    let Ok(order) = instances.order(alloc) else {
        return Some(("ordered", 0));
    };
    if let Some(name) = first_misplaced(instances, &order, names) {
        return Some(("misplaced", name));
    }
    if order.len() != names.len() {
        return Some(("ordered", order.len() as u64));
    }
    if let Some(name) = first_passed_over(instances, names) {
        return Some(("passed over", name));
    }
    None
}

/// What is wrong with instances that are stored: what happened otherwise, and to which name; or how many are stored or ordered.
fn wrong_of(alloc: Global, instances: &mut Instances, store: Store) -> Option<(&'static str, u64)> {
    if let Some(name) = first_left(alloc, instances, store.rows) {
        return Some(("left", name));
    }
    if let Some(name) = first_lost(alloc, instances, store.rows) {
        return Some(("lost", name));
    }
    if let Some(name) = first_found(instances, store.others) {
        return Some(("found", name));
    }
    if instances.len() != store.rows.len() {
        return Some(("kept", instances.len() as u64));
    }
    wrong_order(alloc, instances, store.order)
}

fn wrong(alloc: Global, store: Store) -> Option<(&'static str, u64)> {
    let mut instances = Instances::new(alloc);
    wrong_of(alloc, &mut instances, store)
}

/// Fails where something is wrong with the store of this name.
fn check(rt: &impl Abort, alloc: Global, name: &str, store: Store) {
    assert_eq!(*rt; wrong(alloc, store), None, "{name}");
}

const NOTHING: Store = Store {
    rows: &[],
    others: &[0],
    order: &[],
};

const WITH_KINDS: Store = Store {
    rows: &[(1, 7, (b'a', 7)), (2, 3, (b'b', 0)), (3, 7, (b'c', 7))],
    others: &[0, 4],
    order: &[1, 2, 3],
};

const LONG: Store = Store {
    rows: &[
        (1, 0, (b'a', 1)),
        (2, 0, (b'x', 300_000)),
        (3, 0, (b'b', 1)),
        (4, 0, (b'y', 262_143)),
        (5, 0, (b'c', 1)),
    ],
    others: &[],
    order: &[1, 2, 3, 4, 5],
};

const IN_ANY_ORDER: Store = Store {
    rows: &[
        (5, 1, (b'a', 6)),
        (10, 1, (b'b', 6)),
        (u64::MAX, 1, (b'c', 6)),
        (0, 1, (b'd', 6)),
        (7, 1, (b'e', 6)),
        (6, 1, (b'f', 6)),
        (15, 1, (b'g', 6)),
    ],
    others: &[1, 11],
    order: &[0, 5, 6, 7, 10, 15, u64::MAX],
};

#[test]
fn keeps_instances(rt: HostRuntime) {
    check(&rt, rt.alloc(), "nothing", NOTHING);
    check(&rt, rt.alloc(), "texts with their kinds", WITH_KINDS);
    check(&rt, rt.alloc(), "long texts", LONG);
    check(&rt, rt.alloc(), "instances in any order", IN_ANY_ORDER);
}
