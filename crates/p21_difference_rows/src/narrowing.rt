//! The element in which two values differ. What it answers is tested.
use p21_model_values::{Elements, Value};
use p21_values::NoMemory;
use std::alloc::Global;

/// The texts in which two values differ, and the way to them: the index of an element, counted from 1 on, for each aggregate that they
/// stand in. One of them is empty where an element came or went.
#[derive(Drop)]
pub(crate) struct Narrowed<'a> {
    pub indices: Vec<u64>,
    pub before: &'a [u8],
    pub after: &'a [u8],
}

/// Where two values differ: in one element, where they are aggregates that are the same but for it, and in that again.
///
/// # Errors
///
/// Want of memory.
pub(crate) fn narrow<'a>(
    alloc: Global,
    before: Value<'a>,
    after: Value<'a>,
) -> Result<Narrowed<'a>, NoMemory> {
    let mut indices = Vec::new(alloc);
    let mut first = before.text;
    let mut second = after.text;
    for _ in 0..before.text.len() {
        let Some((index, inner, other)) = inside(first, second) else {
            break;
        };
        indices.push(index)?;
        first = inner;
        second = other;
    }
    Ok(Narrowed {
        indices,
        before: first,
        after: second,
    })
}

/// The one element in which two aggregates differ, with its index.
fn inside<'a>(before: &'a [u8], after: &'a [u8]) -> Option<(u64, &'a [u8], &'a [u8])> {
    let mut first = elements_of(before)?;
    let mut second = elements_of(after)?;
    for index in 1..u64::MAX {
        let (Some(one), Some(other)) = (peek(first), peek(second)) else {
            return differing(index, first, second);
        };
        if one != other {
            return differing(index, first, second);
        }
        let _one = first.next();
        let _other = second.next();
    }
    None
}

/// The elements of an aggregate.
fn elements_of(text: &[u8]) -> Option<Elements<'_>> {
    match text.split_first() {
        Some((first, rest)) if *first == b'(' => Some(Elements { rest }),
        _ => None,
    }
}

/// The next element, which stays.
fn peek<'a>(elements: Elements<'a>) -> Option<&'a [u8]> {
    let mut left = elements;
    match left.next() {
        Some(value) => Some(value.text),
        None => None,
    }
}

/// The first elements, where those behind them are the same, or those behind one of them are all of the other.
fn differing<'a>(
    index: u64,
    first: Elements<'a>,
    second: Elements<'a>,
) -> Option<(u64, &'a [u8], &'a [u8])> {
    let mut behind = first;
    let mut behind_other = second;
    let one = behind.next();
    let other = behind_other.next();
    if let Some(came) = other {
        if behind_other.rest == first.rest {
            return Some((index, &[], came.text));
        }
    }
    if let Some(went) = one {
        if behind.rest == second.rest {
            return Some((index, went.text, &[]));
        }
    }
    if behind.rest != behind_other.rest {
        return None;
    }
    Some((index, one?.text, other?.text))
}
