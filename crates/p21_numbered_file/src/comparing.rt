//! Two texts compared by what they mean but for the names of instances.
ghost use Rattle.std.specs.Prelude.{◌≡◌, ◌↔◌, IfErr, IfOk, IsTrue};
ghost use Rattle.p21_spec_file.specs.Accepted.{IsAccepted};
ghost use Rattle.p21_stream_output.specs.Output.{output_text};
ghost use Rattle.p21_numbered_file.specs.declared.numbering.Unnumbered.TheVariants as unnumbered;
ghost use Rattle.p21_numbered_file.specs.Comparing.{TellsTexts, told_apart, told_of_none};

use crate::numbering::{Unnumbered, numbered_text};
use p21_schema::Schema;
use p21_stream_io::Watched;
use p21_stream_output::Accepted;
use p21_values::{Limits, NoMemory};
use std::alloc::Global;

/// Whether two accepted texts mean the same but for the names of their instances: a text does so as itself, and where one of two has a
/// numbered file and the other hasn't, they don't.
///
/// # Errors
///
/// Why neither has a numbered file: that of the first, where both have the same reason; `NoMemory`.
pub fn are_same_but_for_names(
    alloc: Global,
    schema: &Schema,
    limits: Limits,
    one: &[u8],
    other: &[u8],
) -> Result<bool, Unnumbered>
    requires one { IsAccepted schema.now limits one.now }
    requires other { IsAccepted schema.now limits other.now }
    ensures { TellsTexts schema.now limits one.now other.now result }
{
    schema.well_formed();
    if one == other {
        return Ok(true);
    }
    let first = numbered_text(alloc, schema, limits, one, 0);
    let second = numbered_text(alloc, schema, limits, other, 0);
    match first {
        Ok(first) => match second {
            Ok(second) => have_one_text(alloc, &first, &second),
            Err(fault) => apart(fault),
        },
        Err(fault) => match second {
            Ok(_) => apart(fault),
            Err(its) => without_numbers(fault, its),
        },
    }
}

/// Whether two files have one text.
fn have_one_text(alloc: Global, first: &Accepted, second: &Accepted) -> Result<bool, Unnumbered>
    ensures ok { IfOk result (λ same. IsTrue same ↔ (output_text first.now ≡ output_text second.now)) }
    ensures err { IfErr result (λ fault. fault ≡ unnumbered.NoMemory) }
{
    let text = text_of(alloc, first)?;
    Ok(second.is_text(&text))
}

/// The text of an accepted file.
///
/// # Errors
///
/// `NoMemory` alone: a vector takes all bytes for which there is room.
pub fn text_of(alloc: Global, accepted: &Accepted) -> Result<Vec<u8>, NoMemory>
    ensures { IfOk result (λ text. text.items ≡ output_text accepted.now) }
{
    let mut writer = Watched::new(Vec::new(alloc));
    match accepted.write_to(&mut writer) {
        Ok(()) => Ok(writer.into_inner()),
        Err(_) => Err(NoMemory),
    }
}

/// What is told where one of two has a numbered file, and the other none.
fn apart(fault: Unnumbered) -> Result<bool, Unnumbered>
    ensures { result ≡ told_apart fault }
{
    match fault {
        Unnumbered::Alike(_, _) => Ok(false),
        Unnumbered::TooLong => Ok(false),
        Unnumbered::NoMemory => Err(Unnumbered::NoMemory),
    }
}

/// What is told where neither has a numbered file.
fn without_numbers(fault: Unnumbered, its: Unnumbered) -> Result<bool, Unnumbered>
    ensures { result ≡ told_of_none fault its }
{
    match fault {
        Unnumbered::NoMemory => Err(Unnumbered::NoMemory),
        Unnumbered::Alike(one, other) => match its {
            Unnumbered::Alike(_, _) => Err(Unnumbered::Alike(one, other)),
            Unnumbered::TooLong => Ok(false),
            Unnumbered::NoMemory => Err(Unnumbered::NoMemory),
        },
        Unnumbered::TooLong => match its {
            Unnumbered::Alike(_, _) => Ok(false),
            Unnumbered::TooLong => Err(Unnumbered::TooLong),
            Unnumbered::NoMemory => Err(Unnumbered::NoMemory),
        },
    }
}
