//! The numbered file, put together.
ghost use Rattle.std.specs.Prelude.{◌≡◌, ◌<◌, length, IfOk, IsPermutation};
ghost use Rattle.p21_spec_basics.proofs.Shuffles.{NoneTwice};
ghost use Rattle.p21_numbered.specs.Lines.{held_lines};
ghost use Rattle.p21_numbered_file.specs.Assembly.{IsPutTogether, IsReady, stored_rows, line_names};

use crate::headings::named_sections;
use crate::memberships::section_memberships;
use crate::sizes::file_size;
use p21_grammar_tree::Part;
use p21_numbered::NumberedLine;
use p21_stream_output::{Accepted, accepted_file};
use p21_stream_store::Instances;
use p21_values::NoMemory;
use std::alloc::Global;

/// The file of these header lines and data sections, and of lines of instances, each of the section of its number; behind so many
/// statements. A file whose bytes 64 bits don't count takes more memory than there is.
pub(crate) fn put_together(
    alloc: Global,
    header: Vec<u8>,
    sections: &[Option<Part>],
    places: &[usize],
    lines: &[NumberedLine],
    statement: u64,
) -> Result<Accepted, NoMemory>
    requires { IsReady sections.now places.now (held_lines lines.now) }
    ensures { IfOk result (λ file. IsPutTogether header.items sections.now places.now (held_lines lines.now) file) }
{
    let parts = named_sections(alloc, sections)?;
    let memberships = section_memberships(alloc, sections.len())?;
    let instances = stored_lines(alloc, places, lines)?;
    let Some(size) = file_size(&header, &parts, lines) else {
        return Err(NoMemory);
    };
    accepted_file(
        alloc,
        header,
        parts,
        &memberships,
        instances,
        size,
        statement,
    )
}

/// Lines of instances, each with the number of its section for that of its membership.
fn stored_lines(
    alloc: Global,
    places: &[usize],
    lines: &[NumberedLine],
) -> Result<Instances, NoMemory>
    requires size { length places.now ≡ length (held_lines lines.now) }
    requires once { NoneTwice (line_names (held_lines lines.now)) }
    ensures { IfOk result (λ instances. IsPermutation (stored_rows places.now (held_lines lines.now)) instances) }
{
    let mut instances = Instances::new(alloc);
    for k in 0..lines.len() {
        let line = &lines[k];
        instances.push(line.number, places[k], &line.text)?;
    }
    Ok(instances)
}
