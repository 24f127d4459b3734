//! A file under the names that its instances' partners in another one have.
ghost use Rattle.std.specs.List.{AllByRecursion as Each};
ghost use Rattle.std.specs.Prelude.{IfOk};
ghost use Rattle.p21_spec_file.specs.Accepted.{IsAccepted};
ghost use Rattle.p21_numbering.specs.Instances.{Instance as InstanceOf, file_instances, names_of};
ghost use Rattle.p21_numbering.specs.NewNames.{new_name};
ghost use Rattle.p21_numbering.specs.NodesOf.{HasKnownParts};
ghost use Rattle.p21_stream_output.specs.Output.{output_text};
ghost use Rattle.p21_numbered_file.specs.Numbering.{IsReadOfAccepted};
ghost use Rattle.p21_numbered_file.specs.Pairing.{GivesBack, IsReadOfText, PairsFiles, PairsInstances, PairsRead};
ghost use Rattle.p21_numbered_file.specs.Reading.{IsReadOf};

use crate::assembly::put_together;
use crate::comparing::text_of;
use crate::headings::heading_texts;
use crate::numbering::{is_within, named_instances, places_of};
use crate::read_file::ReadFile;
use crate::reading::read_text;
use p21_numbered::{Instance, lines_under, new_name};
use p21_pairing::{names_by, partners};
use p21_schema::Schema;
use p21_stream_output::Accepted;
use p21_values::{Limits, NoMemory};
use std::alloc::{AllocError, Global};
use std::collections::BTreeMap;

/// A file under names by which its instances are paired with those of another one.
#[derive(Drop)]
pub struct Paired {
    /// The file: an instance that has a partner has its name, and one without a name that no instance of the other file has.
    pub file: Accepted,
    /// The old name of each instance, by its new one.
    pub old_names: BTreeMap<u64, u64>,
    /// How many pairs differ that were made by the order of the files alone, and could have been others: above `MOST_CHOICES` they decide
    /// nothing.
    pub choices: usize,
}

/// Why there is no such file.
#[derive(Clone, Copy, Debug, PartialEq, Eq)]
pub enum Unpaired {
    /// The file with the new names, or a line of it, is longer than the limits allow.
    TooLong,
    /// Memory ran out.
    NoMemory,
}

impl From<NoMemory> for Unpaired {
    ghost use Rattle.std.specs.Prelude.{◌≡◌};
    ghost use Rattle.p21_numbered_file.specs.declared.pairing.Unpaired.TheVariants.{NoMemory};

    ghost from_gives = { λ _ fault. fault ≡ NoMemory };

    fn from(_error: NoMemory) -> Unpaired {
        Unpaired::NoMemory
    }
}

impl From<AllocError> for Unpaired {
    ghost use Rattle.std.specs.Prelude.{◌≡◌};
    ghost use Rattle.p21_numbered_file.specs.declared.pairing.Unpaired.TheVariants.{NoMemory};

    ghost from_gives = { λ _ fault. fault ≡ NoMemory };

    fn from(_error: AllocError) -> Unpaired {
        Unpaired::NoMemory
    }
}

/// The first of two accepted files under names by which its instances are paired with those of the second: its text is that of the
/// second, if that is a canonical file, exactly where nothing differs by these pairs. A refusal of a write names the statement of the
/// number.
///
/// # Errors
///
/// `TooLong`, where the names of the partners make it longer than the limits allow; `NoMemory`.
pub fn paired_file(
    alloc: Global,
    schema: &Schema,
    limits: Limits,
    first: &Accepted,
    second: &Accepted,
    statement: u64,
) -> Result<Paired, Unpaired>
    requires first { IsAccepted schema.now limits (output_text first.now) }
    requires second { IsAccepted schema.now limits (output_text second.now) }
    ensures { PairsFiles schema.now limits (output_text first.now) (output_text second.now) result }
{
    let read = read_accepted(alloc, schema, limits, first)?;
    let other = read_accepted(alloc, schema, limits, second)?;
    renamed_file(alloc, schema, limits, read, other, statement)
}

/// What stands in an accepted file.
fn read_accepted<'a>(
    alloc: Global,
    schema: &'a Schema,
    limits: Limits,
    accepted: &Accepted,
) -> Result<ReadFile<'a>, NoMemory>
    requires { IsAccepted schema.now limits (output_text accepted.now) }
    ensures { IfOk result (λ read. IsReadOf schema.now (output_text accepted.now) read) }
{
    let text = text_of(alloc, accepted)?;
    read_text(alloc, schema, limits, &text)
}

/// The file of what was read of one accepted text, under names by which its instances are paired with those of another.
fn renamed_file(
    alloc: Global,
    schema: &Schema,
    limits: Limits,
    read: ReadFile<'_>,
    other: ReadFile<'_>,
    statement: u64,
) -> Result<Paired, Unpaired>
    requires first { IsReadOfAccepted schema.now limits read }
    requires second { IsReadOfAccepted schema.now limits other }
    ensures { PairsRead schema.now limits read.entry other.entry result }
{
    schema.well_formed();
    let ReadFile {
        header,
        sections,
        instances,
    } = read;
    let texts = heading_texts(alloc, &sections)?;
    let places = places_of(alloc, &instances)?;
    let named = named_instances(alloc, instances, &texts)?;
    let names = new_names(alloc, schema, &named, other)?;
    let lines = lines_under(alloc, schema, named, &names.new)?;
    let file = put_together(alloc, header, &sections, &places, &lines, statement)?;
    if is_within(limits, &file, &lines) {
        Ok(Paired {
            file,
            old_names: names.old,
            choices: names.choices,
        })
    } else {
        Err(Unpaired::TooLong)
    }
}

/// The new name of each instance by its old one, the old one by the new one, and how many pairs differ and could have been others.
#[derive(Drop)]
struct NewNames {
    pub new: BTreeMap<u64, u64>,
    pub old: BTreeMap<u64, u64>,
    pub choices: usize,
}

/// The new names of the instances of a file, by their partners in what was read of another one.
fn new_names(
    alloc: Global,
    schema: &Schema,
    instances: &[Instance<'_>],
    other: ReadFile<'_>,
) -> Result<NewNames, NoMemory>
    requires known { Each (λ (i : InstanceOf). HasKnownParts schema.now i.typed) (file_instances instances.now) }
    requires other { IsReadOfText schema.now other }
    ensures pairing { IfOk result (λ names. PairsInstances schema.now (file_instances instances.now) other.entry (new_name names.new)) }
    ensures old { IfOk result (λ names. GivesBack names.old (new_name names.new) (names_of (file_instances instances.now))) }
{
    schema.well_formed();
    let ReadFile {
        header: _,
        sections,
        instances: read,
    } = other;
    let texts = heading_texts(alloc, &sections)?;
    let others = named_instances(alloc, read, &texts)?;
    let found = partners(alloc, schema, instances, &others)?;
    let new = names_by(alloc, instances, &others, &found.partners)?;
    let old = old_names(alloc, instances, &new)?;
    Ok(NewNames {
        new,
        old,
        choices: found.choices,
    })
}

/// The name of each instance, by its new one.
fn old_names(
    alloc: Global,
    instances: &[Instance<'_>],
    names: &BTreeMap<u64, u64>,
) -> Result<BTreeMap<u64, u64>, AllocError>
    ensures { IfOk result (λ old. GivesBack old (new_name names.now) (names_of (file_instances instances.now))) }
{
    let mut old = BTreeMap::new(alloc);
    for k in 0..instances.len() {
        let name = instances[k].name;
        old.insert(new_name(names, name), name)?;
    }
    Ok(old)
}
