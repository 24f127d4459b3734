//! The entities of an instance of external mapping, read ahead of its values.
ghost use Rattle.std.specs.Prelude.{◌<◌, ◌≤◌, length, IfOk, IfSome};
ghost use Rattle.p21_express_graph.specs.Lookups.{AreEntities};
ghost use Rattle.p21_express_graph.specs.Orders.{numbers};
ghost use Rattle.p21_express_graph.specs.Resolved.{IsEntity};

use p21_express_graph::EntityId;
use p21_schema::Schema;
use p21_shorter_tokens::{behind_separators, leading_keyword};
use p21_values::NoMemory;
use std::alloc::Global;

/// The entities that the keywords of simple records at the front name, up to a `)` behind them.
pub(crate) fn entities_ahead(
    alloc: Global,
    schema: &Schema,
    bytes: &[u8],
) -> Result<Option<Vec<EntityId>>, NoMemory>
    ensures { IfOk result (λ found. IfSome found (λ listed. AreEntities schema.now (numbers listed.items))) }
{
    let mut listed = Vec::new(alloc);
    let rest = list_ahead(schema, bytes, &mut listed)?;
    match behind_separators(rest).first() {
        Some(b')') => Ok(Some(listed)),
        _ => Ok(None),
    }
}

/// Adds the entities, and answers what stands behind the simple records.
fn list_ahead<'a>(
    schema: &Schema,
    bytes: &'a [u8],
    listed: &mut Vec<EntityId>,
) -> Result<&'a [u8], NoMemory>
    requires { AreEntities schema.now (numbers listed.old.items) }
    ensures { AreEntities schema.now (numbers listed.new.items) }
{
    let mut rest = bytes;
    while let Some((entity, behind)) = entity_ahead(schema, rest) {
        listed.push(entity)?;
        rest = behind;
    }
    Ok(rest)
}

/// The entity that the keyword at the front names, and what stands behind its parameters.
fn entity_ahead<'a>(schema: &Schema, bytes: &'a [u8]) -> Option<(EntityId, &'a [u8])>
    ensures entity { IfSome result (λ found. IsEntity schema.now found.0.0) }
    ensures shorter { IfSome result (λ found. length found.1.now < length bytes.now) }
{
    let front = behind_separators(bytes);
    let word = leading_keyword(front)?;
    let entity = schema.entity(word)?;
    let behind = behind_parameters(&front[word.len()..])?;
    Some((entity, behind))
}

/// What stands behind the first `)` that closes what was opened before it. A `;`, in a string too, ends the search: so it goes
/// no further than the statement.
fn behind_parameters(bytes: &[u8]) -> Option<&[u8]>
    ensures { IfSome result (λ rest. length rest.now < length bytes.now) }
{
    let mut open: usize = 0;
    let mut quoted = false;
    for at in 0..bytes.len() {
        match bytes[at] {
            b';' => return None,
            b'\'' => quoted = !quoted,
            b'(' if !quoted => open += 1,
            b')' if !quoted && open <= 1 => return Some(&bytes[at + 1..]),
            b')' if !quoted => open -= 1,
            _ => {}
        }
    }
    None
}
