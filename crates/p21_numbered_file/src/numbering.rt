//! The numbered file of a text.
ghost use Rattle.std.specs.List.{AllByRecursion as Each};
ghost use Rattle.std.specs.Prelude.{◌≡◌, ◌<◌, ◌↔◌, length, map, IfOk, IsTrue};
ghost use Rattle.p21_spec_file.specs.Accepted.{IsAccepted};
ghost use Rattle.p21_numbering.specs.Instances.{file_instances};
ghost use Rattle.p21_numbered_file.specs.Numbering.{IsReadOfAccepted, IsWithin, NumbersRead, NumbersText, unnumbered_of};
ghost use Rattle.p21_numbered.specs.Lines.{held_lines};
ghost use Rattle.p21_stream_output.specs.Output.{output_text};
ghost use Rattle.p21_numbered_file.specs.Instances.{instance_in};
ghost use Rattle.p21_numbered_file.specs.declared.read_file.ReadInstance.{ReadInstance as Read};

use crate::assembly::put_together;
use crate::headings::heading_texts;
use crate::read_file::{ReadFile, ReadInstance};
use crate::reading::read_text;
use crate::sizes::are_within;
use p21_numbered::{Instance, NumberedLine, Unordered, numbered_lines};
use p21_schema::Schema;
use p21_stream_output::Accepted;
use p21_values::{Limits, Name, NoMemory};
use std::alloc::{AllocError, Global};

/// Why a file has no numbered file.
#[derive(Clone, Copy, Debug, PartialEq, Eq)]
pub enum Unnumbered {
    /// The model doesn't tell the instances of these two names apart, and they may not be exchanged.
    Alike(Name, Name),
    /// The numbered file, or a line of it, is longer than the limits allow.
    TooLong,
    /// Memory ran out.
    NoMemory,
}

impl From<NoMemory> for Unnumbered {
    ghost use Rattle.std.specs.Prelude.{◌≡◌};
    ghost use Rattle.p21_numbered_file.specs.declared.numbering.Unnumbered.TheVariants.{NoMemory};

    ghost from_gives = { λ _ fault. fault ≡ NoMemory };

    fn from(_error: NoMemory) -> Unnumbered {
        Unnumbered::NoMemory
    }
}

impl From<AllocError> for Unnumbered {
    ghost use Rattle.std.specs.Prelude.{◌≡◌};
    ghost use Rattle.p21_numbered_file.specs.declared.numbering.Unnumbered.TheVariants.{NoMemory};

    ghost from_gives = { λ _ fault. fault ≡ NoMemory };

    fn from(_error: AllocError) -> Unnumbered {
        Unnumbered::NoMemory
    }
}

/// The numbered file of a text that is accepted. A refusal of a write names the statement of the number.
///
/// # Errors
///
/// `Alike`, with two names that the model doesn't tell apart, where it isn't decided; `TooLong`; `NoMemory`.
pub fn numbered_text(
    alloc: Global,
    schema: &Schema,
    limits: Limits,
    text: &[u8],
    statement: u64,
) -> Result<Accepted, Unnumbered>
    requires { IsAccepted schema.now limits text.now }
    ensures { NumbersText schema.now limits text.now result }
{
    let read = read_text(alloc, schema, limits, text)?;
    numbered_file(alloc, schema, limits, read, statement)
}

/// The numbered file of what was read of an accepted text.
fn numbered_file(
    alloc: Global,
    schema: &Schema,
    limits: Limits,
    read: ReadFile<'_>,
    statement: u64,
) -> Result<Accepted, Unnumbered>
    requires { IsReadOfAccepted schema.now limits read }
    ensures { NumbersRead schema.now limits read.entry result }
{
    schema.well_formed();
    let ReadFile {
        header,
        sections,
        instances,
    } = read;
    let texts = heading_texts(alloc, &sections)?;
    let places = places_of(alloc, &instances)?;
    let named = named_instances(alloc, instances, &texts)?;
    let lines = match numbered_lines(alloc, schema, named) {
        Ok(lines) => lines,
        Err(fault) => return Err(without_order(fault)),
    };
    let file = put_together(alloc, header, &sections, &places, &lines, statement)?;
    if is_within(limits, &file, &lines) {
        Ok(file)
    } else {
        Err(Unnumbered::TooLong)
    }
}

/// Whether a file and each of its lines have no more bytes than the limits allow.
pub(crate) fn is_within(limits: Limits, file: &Accepted, lines: &[NumberedLine]) -> bool
    ensures { IsTrue result ↔ IsWithin limits (output_text file.now) (held_lines lines.now) }
{
    file.len() <= limits.file_canonical() && are_within(limits.record_canonical(), lines)
}

/// Why a file whose instances have no order has no numbered file.
fn without_order(fault: Unordered) -> Unnumbered
    ensures { result ≡ unnumbered_of fault }
{
    match fault {
        Unordered::Alike(one, other) => Unnumbered::Alike(Name(one), Name(other)),
        Unordered::NoMemory => Unnumbered::NoMemory,
    }
}

/// The number of the section of each instance.
pub(crate) fn places_of(
    alloc: Global,
    instances: &[ReadInstance<'_>],
) -> Result<Vec<usize>, NoMemory>
    ensures { IfOk result (λ places. places.items ≡ map (λ (i : Read). i.section) instances.now) }
{
    let mut places = Vec::with_capacity(alloc, instances.len())?;
    for k in 0..instances.len() {
        places.push(instances[k].section)?;
    }
    Ok(places)
}

/// The instances with the texts of the headings of their sections.
pub(crate) fn named_instances<'a>(
    alloc: Global,
    instances: Vec<ReadInstance<'a>>,
    texts: &'a [Vec<&'a [char]>],
) -> Result<Vec<Instance<'a>>, NoMemory>
    requires { Each (λ (i : Read). i.section < length texts.now) instances.items }
    ensures { IfOk result (λ named. file_instances named.items ≡ map (instance_in texts.now) instances.entry.items) }
{
    let mut named = Vec::with_capacity(alloc, instances.len())?;
    for one in instances {
        let ReadInstance {
            name,
            section,
            typed,
        } = one;
        named.push(Instance {
            name,
            heading: &texts[section],
            typed,
        })?;
    }
    Ok(named)
}
