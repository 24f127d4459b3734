//! The names of instances in both files.
ghost use Rattle.std.specs.Prelude.{◌≡◌, ◌++◌, OnOk};
ghost use Rattle.p21_difference_rows.specs.Fronts.{both_named};
ghost use Rattle.p21_difference_rows.specs.RealNames.{real_name};

use crate::pushing::{push, push_named, push_number};
use p21_values::NoMemory;
use std::alloc::Global;
use std::collections::BTreeMap;

/// The name that an instance of the first file really has, by the one with which it stands there.
pub(crate) fn real_name(names: Option<&BTreeMap<u64, u64>>, name: u64) -> u64
    ensures { result ≡ real_name names.entry name }
{
    let Some(names) = names else {
        return name;
    };
    match names.get(&name) {
        Some(real) => *real,
        None => name,
    }
}

/// Appends a text, the names that an instance has in both files, or the one that it has in both, and a text.
pub(crate) fn push_both_named(
    alloc: Global,
    before: &[u8],
    real: u64,
    name: u64,
    behind: &[u8],
    text: &mut Vec<u8>,
) -> Result<(), NoMemory>
    ensures { OnOk result (text.new.items ≡ text.old.items ++ both_named before.now real name behind.now) }
{
    if real == name {
        return push_named(alloc, before, name, behind, text);
    }
    push_named(alloc, before, real, b"/#", text)?;
    push_number(alloc, name, text)?;
    push(behind, text)
}
