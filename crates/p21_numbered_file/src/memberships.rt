//! One membership for each data section.
ghost use Rattle.std.specs.Prelude.{◌≡◌, IfOk};
ghost use Rattle.p21_numbered_file.specs.Assembly.{section_memberships as memberships_of};

use p21_stream_store::Memberships;
use p21_values::NoMemory;
use std::alloc::Global;

/// A membership for each of so many sections, under the number of the section. The sets of entities are left out: no line tells
/// of them.
pub(crate) fn section_memberships(alloc: Global, many: usize) -> Result<Memberships, NoMemory>
    ensures { IfOk result (λ memberships. memberships ≡ memberships_of many) }
{
    let mut memberships = Memberships::new(alloc);
    for section in 0..many {
        memberships.add(alloc, section, &[])?;
    }
    Ok(memberships)
}
