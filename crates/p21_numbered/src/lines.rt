//! The lines of the instances of a file under new names, and under the numbers that the model gives them.
ghost use Rattle.std.specs.List.{AllByRecursion as Each};
ghost use Rattle.std.specs.Prelude.{◌≡◌, IfOk};
ghost use Rattle.p21_spec_numbering.specs.Renamed.{IsInjectiveOn, renamed_typed};
ghost use Rattle.p21_mapping_values.specs.TypedView.{typed_view};
ghost use Rattle.p21_canon.specs.Meant.{IsMeant};
ghost use Rattle.p21_numbering.specs.Instances.{Instance as InstanceOf, file_instance, file_instances, names_of};
ghost use Rattle.p21_numbering.specs.NewNames.{new_name};
ghost use Rattle.p21_numbering.specs.NodesOf.{HasKnownParts};
ghost use Rattle.p21_numbered.specs.Lines.{AreLinesUnder, AreMeantUnder, AreOfFile, IsLineUnder, NumbersFile, held_line};

use crate::numbered_line::NumberedLine;
use p21_canon::write_record;
use p21_numbering::{Instance, Unordered, file_order, numbers_in, renamed_record};
use p21_schema::Schema;
use p21_values::{Name, NoMemory};
use std::alloc::Global;
use std::collections::BTreeMap;

/// The number of each instance of a file, from 1 on, as the model gives it, and its canonical line under these numbers; in the order
/// in which the instances come.
///
/// # Errors
///
/// `Alike`, with two names that the model doesn't tell apart, where it isn't decided; `NoMemory`.
pub fn numbered_lines(
    alloc: Global,
    schema: &Schema,
    instances: Vec<Instance<'_>>,
) -> Result<Vec<NumberedLine>, Unordered>
    requires known { Each (λ (i : InstanceOf). HasKnownParts schema.now i.typed) (file_instances instances.items) }
    requires file { AreOfFile schema.now (file_instances instances.items) }
    ensures { NumbersFile schema.now (file_instances instances.entry.items) result }
{
    schema.well_formed();
    let order = match file_order(alloc, schema, &instances) {
        Ok(order) => order,
        Err(fault) => return Err(fault),
    };
    let numbers = numbers_in(alloc, &order)?;
    let lines = lines_under(alloc, schema, instances, &numbers)?;
    Ok(lines)
}

/// The canonical line of each instance of a file under its new name, of which no two are one, with new names for its references; in the
/// order in which the instances come. The map has the new name for each old one.
///
/// # Errors
///
/// `NoMemory`.
pub fn lines_under(
    alloc: Global,
    schema: &Schema,
    instances: Vec<Instance<'_>>,
    names: &BTreeMap<u64, u64>,
) -> Result<Vec<NumberedLine>, NoMemory>
    requires known { Each (λ (i : InstanceOf). HasKnownParts schema.now i.typed) (file_instances instances.items) }
    requires file { AreOfFile schema.now (file_instances instances.items) }
    requires apart { IsInjectiveOn (names_of (file_instances instances.items)) (new_name names.now) }
    ensures { IfOk result (λ lines. AreLinesUnder schema.now (new_name names.now) (file_instances instances.entry.items) lines.items) }
{
    schema.well_formed();
    written_lines(alloc, schema, instances, names)
}

/// The lines of instances that are meant under new names.
fn written_lines(
    alloc: Global,
    schema: &Schema,
    instances: Vec<Instance<'_>>,
    names: &BTreeMap<u64, u64>,
) -> Result<Vec<NumberedLine>, NoMemory>
    requires { AreMeantUnder schema.now (new_name names.now) (file_instances instances.items) }
    ensures { IfOk result (λ lines. AreLinesUnder schema.now (new_name names.now) (file_instances instances.entry.items) lines.items) }
{
    let mut lines = Vec::with_capacity(alloc, instances.len())?;
    let mut left = instances;
    left.reverse();
    while let Some(one) = left.pop() {
        let line = line_under(alloc, schema, one, names)?;
        lines.push(line)?;
    }
    Ok(lines)
}

/// The line of an instance under new names.
fn line_under(
    alloc: Global,
    schema: &Schema,
    instance: Instance<'_>,
    names: &BTreeMap<u64, u64>,
) -> Result<NumberedLine, NoMemory>
    requires { IsMeant schema.now (renamed_typed (new_name names.now) (typed_view instance.typed)) }
    ensures { IfOk result (λ line. IsLineUnder schema.now (new_name names.now) (file_instance instance.entry) (held_line line)) }
{
    let Instance {
        name,
        heading: _,
        typed,
    } = instance;
    let number = new_name(names, name);
    let renamed = renamed_record(alloc, typed, names)?;
    let mut text = Vec::new(alloc);
    write_record(schema, Name(number), &renamed, &mut text)?;
    Ok(NumberedLine { number, text })
}

/// The new name for a name, by a map from old ones to new ones; 0 where it has none.
pub fn new_name(names: &BTreeMap<u64, u64>, name: u64) -> u64
    ensures { result ≡ new_name names.now name }
{
    match names.get(&name) {
        Some(new) => *new,
        None => 0,
    }
}
