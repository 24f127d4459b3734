//! A caller of p21_mapping that names no other library.
ghost use Rattle.std.specs.Prelude.{◌↔◌, ◌∷◌, [], IsTrue};
ghost use Rattle.p21_mapping.specs.p21_spec_file.Reference.{Serves};
ghost use Rattle.p21_mapping.specs.p21_spec_schema.Schema.{entity_member};

use p21_mapping::{
    CheckFault, EntityId, Member, Name, Need, NoMemory, Record, Schema, check_record, serves,
};
use std::alloc::Global;

/// How many references a record has, where it is one of the schema.
///
/// # Errors
///
/// Those of `check_record`.
pub fn count_references(
    alloc: Global,
    schema: &Schema,
    record: &Record,
) -> Result<usize, CheckFault> {
    let (_, needs) = check_record(alloc, schema, record)?;
    Ok(needs.len())
}

/// Whether an instance of one entity may stand where a reference wants another. It takes no memory.
pub fn may_stand_for(schema: &Schema, target: Name, wanted: EntityId, entity: EntityId) -> bool
    ensures { IsTrue result ↔ Serves schema.now (entity_member wanted.0) (entity.0 ∷ []) }
{
    let need = Need {
        target,
        wanted: Member::Entity(wanted),
    };
    serves(schema, &need, &[entity])
}

/// Whether a check ended for want of memory.
pub fn lacked_memory(fault: &CheckFault) -> bool {
    fault.number() == CheckFault::from(NoMemory).number()
}
