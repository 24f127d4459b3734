use crate::marks::{Mark, Sign, marks_of};
use crate::parameters::Parameters;
use p21_values::NoMemory;
use std::alloc::Global;

/// Where in an instance a value or a part of its record stands, by its bytes and the steps that lead from there up to the record:
/// the numbers of the elements around it, where the value of a typed parameter is its element 0, that of the parameter, and
/// that of the part. Where there is no parameter of the number, it is the `)` behind the last; where the steps lead nowhere,
/// there is none.
///
/// # Errors
///
/// `NoMemory`.
pub(crate) fn record_place(
    alloc: Global,
    source: &[u8],
    steps: &[usize],
) -> Result<Option<u64>, NoMemory> {
    let marks = marks_of(alloc, source)?;
    Ok(place_of_steps(&marks, steps))
}

fn place_of_steps(instance: &[Mark], steps: &[usize]) -> Option<u64> {
    let (part, inner) = steps.split_last()?;
    // In front of the record stand its name and `=`.
    let found = part_at(instance.get(2..)?, *part)?;
    let Some((parameter, elements)) = inner.split_last() else {
        return start_of(found);
    };
    let mut parameters = Parameters::of(found);
    match parameter_at(&mut parameters, *parameter) {
        Some(value) => start_of(element_at(value, elements)?),
        None => Some(parameters.end()?.start),
    }
}

/// The tokens of a record from its part of this number on.
fn part_at(record: &[Mark], number: usize) -> Option<&[Mark]> {
    let (first, rest) = record.split_first()?;
    if first.sign != Sign::Left {
        return Some(record);
    }
    let mut left = rest;
    for _ in 0..number {
        let count = tokens_of_part(left);
        if count == 0 {
            return None;
        }
        left = left.get(count..)?;
    }
    Some(left)
}

/// How many tokens a part has that stands first: up to the `)` that closes it.
fn tokens_of_part(tokens: &[Mark]) -> usize {
    let mut open: u64 = 0;
    for at in 0..tokens.len() {
        match tokens[at].sign {
            Sign::Left => open = open.saturating_add(1),
            Sign::Right => {
                if open < 2 {
                    return at.saturating_add(1);
                }
                open -= 1;
            }
            Sign::Comma | Sign::Text | Sign::Unset | Sign::Other => {}
        }
    }
    0
}

/// The tokens of the parameter of this number. None where there are fewer, and then all of them are passed over.
fn parameter_at<'a>(parameters: &mut Parameters<'a>, number: usize) -> Option<&'a [Mark]> {
    for _ in 0..number {
        parameters.next()?;
    }
    parameters.next()
}

/// The tokens of the value inside another one to which steps lead, from the last one on.
fn element_at<'a>(value: &'a [Mark], steps: &[usize]) -> Option<&'a [Mark]> {
    let mut found = value;
    for at in 0..steps.len() {
        let step = steps[steps.len() - 1 - at];
        found = parameter_at(&mut Parameters::within(found), step)?;
    }
    Some(found)
}

fn start_of(tokens: &[Mark]) -> Option<u64> {
    Some(tokens.first()?.start)
}
