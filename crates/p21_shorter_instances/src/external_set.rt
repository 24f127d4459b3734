//! What is asked of the set of an instance of external mapping (ISO 10303-21, mapping of EXPRESS entity data types: external
//! mapping).
ghost use Rattle.std.specs.Prelude.{◌≢◌, ℕ, Contains, IfOk, IsTrue};
ghost use Rattle.p21_express_graph.specs.Lookups.{AreEntities};
ghost use Rattle.p21_express_graph.specs.Orders.{numbers};
ghost use Rattle.p21_shorter_instances.specs.ExternalSet.{HasSeveralLeaves, IsExternalSet};

use crate::sets::are_same;
use p21_express_graph::EntityId;
use p21_grammar_tree::CheckFault;
use p21_mapping::{check_members, check_set, has_abstract_leaf};
use p21_schema::Schema;
use p21_values::NoMemory;
use std::alloc::Global;

/// Whether the simple records of an instance may be those of these entities in this order, and its canonical record has the
/// same: they are a set, rise by keyword, and aren't the closure of one entity.
pub(crate) fn is_external_set(
    alloc: Global,
    schema: &Schema,
    listed: &[EntityId],
) -> Result<bool, NoMemory>
    requires { AreEntities schema.now (numbers listed.now) }
    ensures { IfOk result (λ usual. IsTrue usual → IsExternalSet schema.now (numbers listed.now)) }
{
    match check_external_set(alloc, schema, listed) {
        Ok(usual) => Ok(usual),
        Err(CheckFault::NoMemory) => Err(NoMemory),
        Err(_) => Ok(false),
    }
}

fn check_external_set(
    alloc: Global,
    schema: &Schema,
    listed: &[EntityId],
) -> Result<bool, CheckFault>
    requires { AreEntities schema.now (numbers listed.now) }
    ensures { IfOk result (λ usual. IsTrue usual → IsExternalSet schema.now (numbers listed.now)) }
{
    check_members(alloc, schema, listed)?;
    let rising = schema.rising(listed)?;
    if !are_same(&rising, listed) {
        return Ok(false);
    }
    let several = has_several_leaves(schema, listed)?;
    if !several {
        return Ok(false);
    }
    let found = has_abstract_leaf(schema, listed)?;
    if found {
        return Ok(false);
    }
    check_set(alloc, schema, listed)?;
    Ok(true)
}

/// Whether several entities of a set are no supertype of another one in it.
fn has_several_leaves(schema: &Schema, entities: &[EntityId]) -> Result<bool, NoMemory>
    requires { AreEntities schema.now (numbers entities.now) }
    ensures { IfOk result (λ several. IsTrue several → HasSeveralLeaves schema.now (numbers entities.now)) }
{
    let leaves = schema.leaves(entities)?;
    Ok(has_two(&leaves))
}

/// Whether the first two entities differ.
fn has_two(entities: &[EntityId]) -> bool
    ensures { IsTrue result → (e f : ℕ) × (e ≢ f) × Contains (numbers entities.now) e × Contains (numbers entities.now) f }
{
    if entities.len() < 2 {
        return false;
    }
    let first = entities[0];
    let second = entities[1];
    first.0 != second.0
}
