//! The data sections of an accepted file.
ghost use Rattle.std.specs.List.{AllZip};
ghost use Rattle.std.specs.Prelude.{◌≡◌, [], IfOk};
ghost use Rattle.p21_spec_exchange.specs.DataSection.{named, unnamed};
ghost use Rattle.p21_stream_output.specs.NamedSections.{AreEmpty, HasHeading};
ghost use Rattle.p21_stream_kept.specs.Sections.{heading_in, headings_of};

use crate::kept::heading_line;
use crate::sections::Section;
use crate::shape::heading;
use p21_stream_output::NamedSection;
use p21_stream_store::Numbers;
use p21_values::{Canonical, NoMemory, Text};
use std::alloc::Global;

/// The data sections as they begin, in the order of the source.
pub(crate) fn named_sections_of(
    alloc: Global,
    sections: &[Section],
) -> Result<Vec<NamedSection>, NoMemory>
    ensures begin { IfOk result (λ parts. AllZip HasHeading (headings_of sections.now) parts.items) }
    ensures empty { IfOk result (λ parts. AreEmpty parts.items) }
{
    let mut parts = Vec::new(alloc);
    for section in sections {
        let part = named_section_of(alloc, section)?;
        parts.push(part)?;
    }
    Ok(parts)
}

/// A data section as it begins.
fn named_section_of(alloc: Global, section: &Section) -> Result<NamedSection, NoMemory>
    ensures begins { IfOk result (λ part. HasHeading (heading_in section.now.part) part) }
    ensures empty { IfOk result (λ part. part.instance_positions ≡ []) }
{
    let Some(record) = &section.part else {
        return section_without_name(alloc);
    };
    match heading(record) {
        Some((name, text)) => section_with_name(alloc, name, text),
        None => section_without_name(alloc),
    }
}

/// A data section with a name as it begins.
fn section_with_name(alloc: Global, name: &Text, text: &Text) -> Result<NamedSection, NoMemory>
    ensures begins { IfOk result (λ part. HasHeading (named name.now text.now) part) }
    ensures empty { IfOk result (λ part. part.instance_positions ≡ []) }
{
    name.holds();
    let line = heading_line(alloc, name, text)?;
    let mut spelled = Vec::new(alloc);
    name.write_canonical(&mut spelled)?;
    Ok(NamedSection {
        name: spelled,
        line,
        instance_positions: Numbers::new(alloc),
    })
}

/// A data section without a name as it begins.
fn section_without_name(alloc: Global) -> Result<NamedSection, NoMemory>
    ensures begins { IfOk result (λ part. HasHeading unnamed part) }
    ensures empty { IfOk result (λ part. part.instance_positions ≡ []) }
{
    Ok(NamedSection {
        name: Vec::new(alloc),
        line: Vec::from_slice(alloc, b"DATA;")?,
        instance_positions: Numbers::new(alloc),
    })
}
