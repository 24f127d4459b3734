use p21_numbering::{RankedInstance, Unordered, order};
use std::alloc::{AllocError, Global};
use std::rt::HostRuntime;

/// An instance: its name, its rank, what it says, those that it hangs together with, and one that is loose.
type Row = (u64, u64, &'static [u64], &'static [u64], Option<(u64, u64)>);

/// Instances of small graphs, and all orders of them in which no rank falls and of two that hang together both are the same copy:
/// those of all permutations that a trial found.
const ORDERS: &[(&[Row], &[&[u64]])] = &[
    (
        &[
            (7, 0, &[1, 0, 2], &[8], None),
            (8, 2, &[2], &[], None),
            (9, 0, &[1, 0, 2], &[10], None),
            (10, 2, &[2], &[], None),
        ],
        &[&[7, 9, 8, 10], &[9, 7, 10, 8]],
    ),
    (
        &[
            (7, 1, &[], &[], None),
            (8, 3, &[], &[], None),
            (9, 0, &[], &[], None),
            (10, 2, &[], &[], None),
            (11, 4, &[], &[], None),
        ],
        &[&[9, 7, 10, 8, 11]],
    ),
    (
        &[
            (7, 0, &[1, 0, 0], &[8], None),
            (8, 0, &[1, 0, 0], &[9], None),
            (9, 0, &[1, 0, 0], &[7], None),
        ],
        &[],
    ),
    (
        &[(7, 0, &[1], &[], None), (8, 0, &[1], &[], None)],
        &[&[7, 8], &[8, 7]],
    ),
    (
        &[
            (7, 0, &[1], &[], None),
            (8, 0, &[1], &[], None),
            (9, 2, &[], &[], Some((7, 0))),
        ],
        &[],
    ),
    (
        &[
            (7, 0, &[1, 0, 0], &[8], None),
            (8, 0, &[1, 0, 0], &[7], None),
            (9, 0, &[1, 0, 0], &[10], None),
            (10, 0, &[1, 0, 0], &[9], None),
        ],
        &[],
    ),
    (
        &[
            (7, 0, &[1, 0, 3], &[11], None),
            (8, 0, &[1, 0, 3], &[12], None),
            (9, 0, &[1, 0, 3], &[10], None),
            (10, 3, &[2], &[], None),
            (11, 3, &[2], &[], None),
            (12, 3, &[2], &[], None),
        ],
        &[
            &[7, 8, 9, 11, 12, 10],
            &[7, 9, 8, 11, 10, 12],
            &[8, 7, 9, 12, 11, 10],
            &[8, 9, 7, 12, 10, 11],
            &[9, 7, 8, 10, 11, 12],
            &[9, 8, 7, 10, 12, 11],
        ],
    ),
    (&[], &[&[]]),
];

fn instances(alloc: Global, rows: &[Row]) -> Result<Vec<RankedInstance>, AllocError> {
    let mut all = Vec::new(alloc);
    for row in rows {
        let (name, rank, said, beside, loose) = *row;
        all.push(RankedInstance {
            name,
            rank,
            said: Vec::from_slice(alloc, said)?,
            beside: Vec::from_slice(alloc, beside)?,
            loose,
        })?;
    }
    Ok(all)
}

fn rank_of(rows: &[Row], name: u64) -> Option<u64> {
    for row in rows {
        if row.0 == name {
            return Some(row.1);
        }
    }
    None
}

fn is_among(orders: &[&[u64]], found: &[u64]) -> bool {
    for one in orders {
        if *one == found {
            return true;
        }
    }
    false
}

/// Whether the answer is one of the orders, or two names of one rank where there is none.
fn is_right(alloc: Global, rows: &[Row], orders: &[&[u64]]) -> bool {
    let Ok(all) = instances(alloc, rows) else {
        return false;
    };
    match order(alloc, &all) {
        Ok(found) => is_among(orders, &found),
        Err(Unordered::Alike(one, other)) => {
            orders.is_empty() && one != other && rank_of(rows, one) == rank_of(rows, other)
        }
        Err(Unordered::NoMemory) => false,
    }
}

/// The first row that is answered wrongly, or how many there are.
fn first_wrong(alloc: Global) -> usize {
    for at in 0..ORDERS.len() {
        let (rows, orders) = ORDERS[at];
        if !is_right(alloc, rows, orders) {
            return at;
        }
    }
    ORDERS.len()
}

#[test]
fn orders_instances(rt: HostRuntime) {
    assert_eq!(rt; first_wrong(rt.alloc()), ORDERS.len());
}
