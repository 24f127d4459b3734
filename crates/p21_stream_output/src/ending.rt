ghost use Rattle.std.specs.Prelude.{◌≡◌, IfOk, length};
ghost use Rattle.p21_spec_laws.specs.Keeping.{Kept};
ghost use Rattle.p21_stream_output.specs.Ending.{AreNamed, HasNamesOnce, HasSize, IsFileOfKept, IsKeptIn};
ghost use Rattle.p21_stream_output.specs.Filing.{HaveMemberships, AreOfSections};
ghost use Rattle.p21_stream_output.specs.NamedSections.{AreEmpty};

use crate::accepted::Accepted;
use crate::filing::file_instances;
use crate::named_sections::{NamedSection, sections_of, sort_sections};
use p21_stream_store::{Instances, Memberships};
use p21_values::NoMemory;
use std::alloc::Global;

/// The accepted file of the canonical lines of its header records, each with its line feed, of its data sections in the
/// order of the source, with no positions yet, and of its instances. Its size is counted already, and so are its statements: the
/// number is that of the one that was open at the end of the bytes. What is kept comes field by field, since a struct of another
/// crate that is taken by value is expensive to prove.
///
/// # Errors
///
/// `NoMemory`.
pub fn accepted_file(
    alloc: Global,
    header: Vec<u8>,
    mut parts: Vec<NamedSection>,
    memberships: &Memberships,
    instances: Instances,
    size: u64,
    statement: u64,
) -> Result<Accepted, NoMemory>
    requires memberships { HaveMemberships memberships.now instances }
    requires sections { AreOfSections (length parts.items) memberships.now }
    requires named { AreNamed instances }
    requires empty { AreEmpty parts.items }
    requires size { HasSize header.items parts.items memberships.now instances size }
    ensures kept { IfOk result (λ file. (kept : Kept) → IsKeptIn kept header.items parts.items memberships.now instances → HasNamesOnce kept
        → IsFileOfKept kept file) }
    ensures statement { IfOk result (λ file. file.statement ≡ statement) }
{
    file_instances(alloc, &mut parts, memberships, &instances)?;
    sort_sections(&mut parts);
    let sections = sections_of(alloc, parts)?;
    Ok(Accepted::new(header, sections, instances, size, statement))
}
