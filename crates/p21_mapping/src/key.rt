ghost use Rattle.std.specs.Prelude.{ℕ, MatchOption, MatchResult};
ghost use Rattle.p21_spec_exchange.specs.Record.{complex};
ghost use Rattle.p21_express_graph.specs.Orders.{numbers};
ghost use Rattle.p21_spec_file.specs.Meaning.{NamesEntity};
ghost use Rattle.p21_grammar_tree.specs.View.{key_view, part_views};
ghost use Rattle.p21_mapping.specs.Shape.{AreNamed, Refuses};

use p21_express_graph::EntityId;
use p21_grammar_tree::{CheckFault, Key, Part};
use p21_schema::Schema;
use std::alloc::Global;

/// The entity that a keyword names. A user-defined keyword names none.
pub(crate) fn named(schema: &Schema, key: &Key) -> Option<EntityId>
    ensures { MatchOption result ((e : ℕ) → NamesEntity schema.now (key_view key.now) e → ⊥)
        (λ entity. NamesEntity schema.now (key_view key.now) entity.0) }
{
    if key.user {
        return None;
    }
    schema.entity(key.word.bytes())
}

/// The entities that the keywords of simple records name.
pub(crate) fn named_entities(
    alloc: Global,
    schema: &Schema,
    parts: &[Part],
) -> Result<Vec<EntityId>, CheckFault>
    ensures { MatchResult result (λ listed. AreNamed schema.now (part_views parts.now) (numbers listed.items))
        (Refuses schema.now (complex (part_views parts.now))) }
{
    let mut listed = Vec::with_capacity(alloc, parts.len())?;
    for part in parts {
        let part: &Part = part;
        match named(schema, &part.key) {
            Some(entity) => listed.push(entity)?,
            None => return Err(CheckFault::UnknownEntity),
        }
    }
    Ok(listed)
}
