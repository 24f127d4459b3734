ghost use Rattle.std.specs.Prelude.{◌≡◌, ◌++◌, ℕ, codes, length, nat_eq, Contains, IfOk, OnErr, OnOk};
ghost use Rattle.std.specs.List.{AllByRecursion as Each, IsDistinct};
ghost use Rattle.p21_canon.specs.StatementTexts.{AreSpelledParts, HasRows, IsClosureOf, IsSpelledPart, entity_name, part_text, parts_text, row_of, rows_texts, still_first, texts_behind};
ghost use Rattle.p21_spec_exchange.specs.Token.{IsSpelled, keyword};
ghost use Rattle.p21_express_graph.specs.Lookups.{AreEntities};
ghost use Rattle.p21_express_graph.specs.Orders.{numbers};
ghost use Rattle.p21_express_graph.specs.Resolved.{IsEntity};
ghost use Rattle.p21_spec_file.specs.ValueText.{value_texts, with_commas_between};
ghost use Rattle.p21_spec_schema.specs.Order.{order};
ghost use Rattle.p21_mapping_values.specs.KnownTypes.{HaveKnownTypes};
ghost use Rattle.p21_mapping_values.specs.Spelled.{AreSpelled};
ghost use Rattle.p21_mapping_values.specs.TypedView.{ids_view, rows_view, typed_view};
ghost use Rattle.p21_mapping_values.specs.View.{views};
ghost use Rattle.p21_values.specs.Canonical.{Continues};

use crate::position::position_of;
use p21_express_graph::EntityId;
use p21_mapping_values::{Typed, Value, Values, append_byte, append_separator, write_value};
use p21_schema::Schema;
use p21_values::{Canonical, NoMemory};

/// Appends the keyword of an entity and the texts of values in parentheses, or a part of it where memory runs out.
fn append_part(
    schema: &Schema,
    entity: EntityId,
    values: &[Value],
    out: &mut Vec<u8>,
) -> Result<(), NoMemory>
    requires entity { IsEntity schema.now entity.0 }
    requires known { HaveKnownTypes schema.now (views values.now) }
    ensures ok { OnOk result (out.new.items ≡ out.old.items ++ part_text schema.now entity.0 (value_texts schema.now (views values.now))) }
    ensures spelled { OnOk result (IsSpelledPart schema.now entity.0 (views values.now)) }
    ensures err { OnErr result (Continues out.old.items out.new.items) }
{
    append_keyword(schema, entity, out)?;
    append_byte(b'(', out)?;
    append_values(schema, values, true, out)?;
    append_byte(b')', out)
}

/// Appends the keyword of an entity.
fn append_keyword(schema: &Schema, entity: EntityId, out: &mut Vec<u8>) -> Result<(), NoMemory>
    requires { IsEntity schema.now entity.0 }
    ensures ok { OnOk result (out.new.items ≡ out.old.items ++ entity_name schema.now entity.0) }
    ensures spelled { OnOk result (IsSpelled (keyword (entity_name schema.now entity.0))) }
    ensures err { OnErr result (Continues out.old.items out.new.items) }
{
    schema.entity_word(entity).write_canonical(out)
}

/// Appends the texts of values with a comma between each two, and one in front where they aren't the first, or a part of
/// them where memory runs out. Answers whether what comes then is still the first.
fn append_values(
    schema: &Schema,
    values: &[Value],
    mut first: bool,
    out: &mut Vec<u8>,
) -> Result<bool, NoMemory>
    requires { HaveKnownTypes schema.now (views values.now) }
    ensures ok { OnOk result (out.new.items ≡ out.old.items ++ texts_behind first (value_texts schema.now (views values.now))) }
    ensures still { IfOk result (λ still. still ≡ still_first first (value_texts schema.now (views values.now))) }
    ensures spelled { OnOk result (AreSpelled schema.now (views values.now)) }
    ensures err { OnErr result (Continues out.old.items out.new.items) }
{
    for value in values {
        append_separator(first, out)?;
        write_value(schema, value, out)?;
        first = false;
    }
    Ok(first)
}

/// Appends the record of internal mapping and its `;`, or a part of it where memory runs out.
pub(crate) fn append_internal(
    schema: &Schema,
    leaf: EntityId,
    typed: &Typed<'_>,
    out: &mut Vec<u8>,
) -> Result<(), NoMemory>
    requires row { HasRows schema.now (typed_view typed.now) }
    requires closure { IsClosureOf schema.now (ids_view typed.now.parts) leaf.0 }
    ensures ok { OnOk result (out.new.items ≡ out.old.items
        ++ (part_text schema.now leaf.0 (rows_texts schema.now (typed_view typed.now) (order schema.now leaf.0)) ++ codes ";")) }
    ensures keyword { OnOk result (IsSpelled (keyword (entity_name schema.now leaf.0))) }
    ensures spelled { OnOk result (Each (λ e. AreSpelled schema.now (row_of (typed_view typed.now) e)) (order schema.now leaf.0)) }
    ensures err { OnErr result (Continues out.old.items out.new.items) }
{
    append_keyword(schema, leaf, out)?;
    append_byte(b'(', out)?;
    append_rows(schema, typed, schema.order_of(leaf), out)?;
    append_byte(b')', out)?;
    append_byte(b';', out)
}

/// Appends the texts of the values of some entities with a comma between each two, or a part of them where memory runs out.
fn append_rows(
    schema: &Schema,
    typed: &Typed<'_>,
    entities: &[EntityId],
    out: &mut Vec<u8>,
) -> Result<(), NoMemory>
    requires rows { HasRows schema.now (typed_view typed.now) }
    requires members { (e : ℕ) → Contains (numbers entities.now) e → Contains (ids_view typed.now.parts) e }
    ensures ok { OnOk result (out.new.items ≡ out.old.items
        ++ with_commas_between (rows_texts schema.now (typed_view typed.now) (numbers entities.now))) }
    ensures spelled { OnOk result (Each (λ e. AreSpelled schema.now (row_of (typed_view typed.now) e)) (numbers entities.now)) }
    ensures err { OnErr result (Continues out.old.items out.new.items) }
{
    let mut first = true;
    for entity in entities {
        let values = row(schema, typed, *entity);
        first = append_values(schema, values, first, out)?;
    }
    Ok(())
}

/// The values beside an entity.
fn row<'a>(schema: &Schema, typed: &'a Typed<'_>, entity: EntityId) -> &'a [Value]
    requires entities { AreEntities schema.now (ids_view typed.now.parts) }
    requires distinct { IsDistinct nat_eq (ids_view typed.now.parts) }
    requires long { length typed.now.parts ≡ length typed.now.values }
    requires member { Contains (ids_view typed.now.parts) entity.0 }
    ensures { views result.now ≡ row_of (typed_view typed.now) entity.0 }
{
    let at = position_of(schema, typed.parts.items(), entity);
    typed.values.items()[at].items()
}

/// Appends the record of external mapping and its `;`, or a part of it where memory runs out.
pub(crate) fn append_external(
    schema: &Schema,
    typed: &Typed<'_>,
    out: &mut Vec<u8>,
) -> Result<(), NoMemory>
    requires { HasRows schema.now (typed_view typed.now) }
    ensures ok { OnOk result (out.new.items ≡ out.old.items
        ++ ((codes "(" ++ (parts_text schema.now (ids_view typed.now.parts) (rows_view typed.now.values) ++ codes ")")) ++ codes ";")) }
    ensures spelled { OnOk result (AreSpelledParts schema.now (ids_view typed.now.parts) (rows_view typed.now.values)) }
    ensures err { OnErr result (Continues out.old.items out.new.items) }
{
    append_byte(b'(', out)?;
    append_parts(schema, typed.parts.items(), typed.values.items(), out)?;
    append_byte(b')', out)?;
    append_byte(b';', out)
}

/// Appends each entity with its values, or a part of it where memory runs out.
fn append_parts(
    schema: &Schema,
    entities: &[EntityId],
    rows: &[Values],
    out: &mut Vec<u8>,
) -> Result<(), NoMemory>
    requires entities { AreEntities schema.now (numbers entities.now) }
    requires known { Each (HaveKnownTypes schema.now) (rows_view rows.now) }
    requires long { length entities.now ≡ length rows.now }
    ensures ok { OnOk result (out.new.items ≡ out.old.items ++ parts_text schema.now (numbers entities.now) (rows_view rows.now)) }
    ensures spelled { OnOk result (AreSpelledParts schema.now (numbers entities.now) (rows_view rows.now)) }
    ensures err { OnErr result (Continues out.old.items out.new.items) }
{
    for i in 0..entities.len() {
        append_part(schema, entities[i], rows[i].items(), out)?;
    }
    Ok(())
}
