//! The node of an instance, and what it says without names.
ghost use Rattle.std.specs.Prelude.{◌≡◌, ◌++◌, ◌∷◌, [], IfOk, OnOk};
ghost use Rattle.p21_spec_numbering.specs.Numbered.{entity_name, unnamed_text as text_of};
ghost use Rattle.p21_express_graph.specs.Resolved.{IsEntity};
ghost use Rattle.p21_mapping_values.specs.TypedView.{ids_view, rows_view, typed_view};
ghost use Rattle.p21_numbering.specs.Nodes.{held_node};
ghost use Rattle.p21_numbering.specs.NodesOf.{HasKnownParts, IsNodeFor, row_of_texts};
ghost use Rattle.p21_numbering.specs.Rows.{lent_rows};

use crate::graph::Node;
use crate::renamed_text::write_list;
use crate::text_rows::{with_text, with_texts};
use crate::uses::uses_in;
use p21_express_graph::EntityId;
use p21_mapping_values::Typed;
use p21_schema::Schema;
use p21_values::{Canonical, NoMemory};
use std::alloc::{AllocError, Global};
use std::collections::BTreeMap;

/// Texts that are no longer than so many bytes need no more room.
const USUAL: usize = 120;

/// The node of an instance of this name, in a section whose heading has these texts.
///
/// # Errors
///
/// `NoMemory`.
pub fn node(
    alloc: Global,
    schema: &Schema,
    name: u64,
    heading: &[&[char]],
    typed: &Typed<'_>,
) -> Result<Node, NoMemory>
    requires { HasKnownParts schema.now (typed_view typed.now) }
    ensures name { IfOk result (λ node. node.name ≡ name) }
    ensures node { IfOk result (λ node. IsNodeFor schema.now name (typed_view typed.now) (lent_rows heading.now) (held_node node)) }
{
    let uses = uses_in(alloc, typed)?;
    let text = unnamed_text(alloc, schema, typed)?;
    let label = label(alloc, heading, &text)?;
    Ok(Node { name, label, uses })
}

/// Each entity with its values, where each reference is written `#0`: an empty map of new names gives 0.
fn unnamed_text(alloc: Global, schema: &Schema, typed: &Typed<'_>) -> Result<Vec<u8>, NoMemory>
    requires { HasKnownParts schema.now (typed_view typed.now) }
    ensures { IfOk result (λ text. text.items ≡ text_of schema.now (ids_view typed.now.parts) (rows_view typed.now.values)) }
{
    let names = BTreeMap::new(alloc);
    let mut text = Vec::with_capacity(alloc, USUAL)?;
    let entities = typed.parts.items();
    let rows = typed.values.items();
    for i in 0..entities.len() {
        if i >= rows.len() {
            return Ok(text);
        }
        append_keyword(schema, entities[i], &mut text)?;
        write_list(schema, rows[i].items(), &names, &mut text)?;
    }
    Ok(text)
}

/// Appends the keyword of an entity.
fn append_keyword(schema: &Schema, entity: EntityId, out: &mut Vec<u8>) -> Result<(), NoMemory>
    requires { IsEntity schema.now entity.0 }
    ensures { OnOk result (out.new.items ≡ out.old.items ++ entity_name schema.now entity.0) }
{
    schema.entity_word(entity).write_canonical(out)
}

/// The texts of a heading and a text as a row.
fn label(alloc: Global, heading: &[&[char]], text: &[u8]) -> Result<Vec<u64>, AllocError>
    ensures { IfOk result (λ row. row.items ≡ row_of_texts (lent_rows heading.now ++ (text.now ∷ []))) }
{
    let room = Vec::with_capacity(alloc, text.len().saturating_add(1))?;
    let row = with_texts(room, heading)?;
    with_text(row, text)
}
