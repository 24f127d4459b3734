//! The text that is printed of a schema.
ghost use Rattle.std.specs.Prelude.{◌≡◌, [], ◌∷◌, ◌++◌, List, ℕ, IfOk, OnErr, OnOk, codes};
ghost use Rattle.std.specs.Io.KnownBytes.{Appends};
ghost use Rattle.p21_commands.specs.OwnTexts.{AreOwnTexts, IsOwnText};
ghost use Rattle.p21_commands.specs.Print.{IsPlaceWord};
ghost use Rattle.p21_commands.specs.SchemaText.{are_some, comma_if, entity_line, entity_lines, entity_name, entity_prefix, joined, schema_text, words_of};
ghost use Rattle.p21_express_graph.specs.Resolved.{IsEntity, IsPlace};
ghost use Rattle.p21_express_graph.specs.Meaning.{place as place_of};
ghost use Rattle.p21_spec_file.specs.ValueText.{with_commas, with_commas_between};
ghost use Rattle.p21_spec_schema.specs.Order.{own_places, places};
ghost use Rattle.p21_spec_schema.specs.Schema.{PlaceNamed};
ghost use Rattle.p21_stream_io.specs.Transfer.{AppendsAllBut, AppendsPartOf};
ghost use Rattle.p21_stream_io.specs.Watch.{one_call_more};

use p21_express_graph::{EntityId, Place};
use p21_schema::Schema;
use p21_stream_io::{Waiting, Watched, WriteFault};
use p21_values::NoMemory;
use std::alloc::Global;
use std::io::Write;

/// The name of a place, or `*` where it is derived in the entity's own set.
fn place_word(schema: &Schema, entity: EntityId, place: Place) -> &[u8]
    requires entity { IsEntity schema.now entity.0 }
    requires place { IsPlace schema.now (place_of place) }
    ensures { IsPlaceWord schema.now entity.0 (place_of place) result.now }
{
    if schema.own_derives(entity, place) {
        b"*"
    } else {
        schema.place_name(place)
    }
}

/// Appends the name of a place behind a comma.
fn push_name(schema: &Schema, place: Place, out: &mut Vec<u8>) -> Result<(), NoMemory>
    requires { IsPlace schema.now (place_of place) }
    ensures { OnOk result ((name : List ℕ) × PlaceNamed schema.now (place_of place) name
        × (out.new.items ≡ out.old.items ++ (codes "," ++ name))) }
{
    out.push(b',')?;
    out.extend_from_slice(schema.place_name(place))?;
    Ok(())
}

/// The names of the places that an entity declares itself, with a comma before each: its part of the line of each subtype.
/// None where an entity derives one of the places.
fn own_text(alloc: Global, schema: &Schema, owner: EntityId) -> Result<Option<Vec<u8>>, NoMemory>
    requires { IsEntity schema.now owner.0 }
    ensures { IfOk result (IsOwnText schema.now owner.0) }
{
    let mut text = Vec::new(alloc);
    for index in 0..schema.attribute_count(owner) {
        let place = Place {
            entity: owner,
            index,
        };
        if schema.is_derived(place) {
            return Ok(None);
        }
        push_name(schema, place, &mut text)?;
    }
    Ok(Some(text))
}

/// The texts of all entities, of which the lines are put together.
pub(crate) fn own_texts(alloc: Global, schema: &Schema) -> Result<Vec<Option<Vec<u8>>>, NoMemory>
    ensures { IfOk result (λ texts. AreOwnTexts schema.now texts.items) }
{
    schema.holds_together();
    let mut texts = Vec::with_capacity(alloc, schema.entities())?;
    for number in 0..schema.entities() {
        texts.push(own_text(alloc, schema, EntityId(number as u32))?)?;
    }
    Ok(texts)
}

/// Puts the word of a place, behind a comma where words stand before it.
fn put_word<W: Write>(
    waiting: &mut Waiting,
    writer: &mut Watched<W>,
    schema: &Schema,
    entity: EntityId,
    place: Place,
    some: bool,
) -> Result<(), WriteFault>
    requires entity { IsEntity schema.now entity.0 }
    requires place { IsPlace schema.now (place_of place) }
    ensures ok { OnOk result (AppendsAllBut (W.contents writer.old.inner) (W.contents writer.new.inner)
        (waiting.old ++ joined some (words_of schema.now entity.0 (place_of place ∷ []))) waiting.new) }
    ensures err { OnErr result (AppendsPartOf (W.contents writer.old.inner) (W.contents writer.new.inner)
        (waiting.old ++ joined some (words_of schema.now entity.0 (place_of place ∷ [])))) }

    ensures written { OnOk result (writer.new.failures ≡ writer.old.failures) }
    ensures failed { OnErr result (writer.new.failures ≡ one_call_more writer.old.failures) }
{
    let Ok(()) = waiting.put(writer, comma_if(some)) else {
        return Err(WriteFault);
    };
    let Ok(()) = waiting.put(writer, place_word(schema, entity, place)) else {
        return Err(WriteFault);
    };
    Ok(())
}

/// A comma where words stand before another one.
fn comma_if(some: bool) -> &'static [u8]
    ensures { result.now ≡ comma_if some }
{
    if some { b"," } else { b"" }
}

/// Puts the words of the places that an owner declares itself in the line of an entity, behind a comma where words stand before
/// them, and says whether words stand there then.
fn put_own<W: Write>(
    waiting: &mut Waiting,
    writer: &mut Watched<W>,
    schema: &Schema,
    entity: EntityId,
    owner: EntityId,
    some: bool,
) -> Result<bool, WriteFault>
    requires entity { IsEntity schema.now entity.0 }
    requires owner { IsEntity schema.now owner.0 }
    ensures ok { OnOk result (AppendsAllBut (W.contents writer.old.inner) (W.contents writer.new.inner)
        (waiting.old ++ joined some (words_of schema.now entity.0 (own_places schema.now owner.0))) waiting.new) }
    ensures some { IfOk result (λ after. after ≡ are_some some (words_of schema.now entity.0 (own_places schema.now owner.0))) }
    ensures err { OnErr result (AppendsPartOf (W.contents writer.old.inner) (W.contents writer.new.inner)
        (waiting.old ++ joined some (words_of schema.now entity.0 (own_places schema.now owner.0)))) }

    ensures written { OnOk result (writer.new.failures ≡ writer.old.failures) }
    ensures failed { OnErr result (writer.new.failures ≡ one_call_more writer.old.failures) }
{
    let mut after = some;
    for index in 0..schema.attribute_count(owner) {
        let place = Place {
            entity: owner,
            index,
        };
        let Ok(()) = put_word(waiting, writer, schema, entity, place, after) else {
            return Err(WriteFault);
        };
        after = true;
    }
    Ok(after)
}

/// The same, by the text of the owner where it has one.
fn put_owner<W: Write>(
    waiting: &mut Waiting,
    writer: &mut Watched<W>,
    schema: &Schema,
    texts: &[Option<Vec<u8>>],
    entity: EntityId,
    owner: EntityId,
    some: bool,
) -> Result<bool, WriteFault>
    requires texts { AreOwnTexts schema.now texts.now }
    requires entity { IsEntity schema.now entity.0 }
    requires owner { IsEntity schema.now owner.0 }
    ensures ok { OnOk result (AppendsAllBut (W.contents writer.old.inner) (W.contents writer.new.inner)
        (waiting.old ++ joined some (words_of schema.now entity.0 (own_places schema.now owner.0))) waiting.new) }
    ensures some { IfOk result (λ after. after ≡ are_some some (words_of schema.now entity.0 (own_places schema.now owner.0))) }
    ensures err { OnErr result (AppendsPartOf (W.contents writer.old.inner) (W.contents writer.new.inner)
        (waiting.old ++ joined some (words_of schema.now entity.0 (own_places schema.now owner.0)))) }

    ensures written { OnOk result (writer.new.failures ≡ writer.old.failures) }
    ensures failed { OnErr result (writer.new.failures ≡ one_call_more writer.old.failures) }
{
    match &texts[owner.0 as usize] {
        Some(text) => put_text(waiting, writer, text, some),
        None => put_own(waiting, writer, schema, entity, owner, some),
    }
}

/// Puts words with a comma before each, without that of the first where no words stand before them, and says whether words stand
/// there then.
fn put_text<W: Write>(
    waiting: &mut Waiting,
    writer: &mut Watched<W>,
    text: &[u8],
    some: bool,
) -> Result<bool, WriteFault>
    ensures ok { (words : List (List ℕ)) → text.now ≡ with_commas words
        → OnOk result (AppendsAllBut (W.contents writer.old.inner) (W.contents writer.new.inner) (waiting.old ++ joined some words)
        waiting.new) }
    ensures some { (words : List (List ℕ)) → text.now ≡ with_commas words → IfOk result (λ after. after ≡ are_some some words) }
    ensures err { (words : List (List ℕ)) → text.now ≡ with_commas words
        → OnErr result (AppendsPartOf (W.contents writer.old.inner) (W.contents writer.new.inner) (waiting.old ++ joined some words)) }

    ensures written { OnOk result (writer.new.failures ≡ writer.old.failures) }
    ensures failed { OnErr result (writer.new.failures ≡ one_call_more writer.old.failures) }
{
    if text.is_empty() {
        return Ok(some);
    }
    let words = if some { text } else { &text[1..] };
    let Ok(()) = waiting.put(writer, words) else {
        return Err(WriteFault);
    };
    Ok(true)
}

/// Puts the words of the places of an entity.
fn put_words<W: Write>(
    waiting: &mut Waiting,
    writer: &mut Watched<W>,
    schema: &Schema,
    texts: &[Option<Vec<u8>>],
    entity: EntityId,
) -> Result<(), WriteFault>
    requires texts { AreOwnTexts schema.now texts.now }
    requires entity { IsEntity schema.now entity.0 }
    ensures ok { OnOk result (AppendsAllBut (W.contents writer.old.inner) (W.contents writer.new.inner)
        (waiting.old ++ with_commas_between (words_of schema.now entity.0 (places schema.now entity.0))) waiting.new) }
    ensures err { OnErr result (AppendsPartOf (W.contents writer.old.inner) (W.contents writer.new.inner)
        (waiting.old ++ with_commas_between (words_of schema.now entity.0 (places schema.now entity.0)))) }

    ensures written { OnOk result (writer.new.failures ≡ writer.old.failures) }
    ensures failed { OnErr result (writer.new.failures ≡ one_call_more writer.old.failures) }
{
    schema.holds_together();
    let mut some = false;
    for owner in schema.order_of(entity) {
        let Ok(after) = put_owner(waiting, writer, schema, texts, entity, *owner, some) else {
            return Err(WriteFault);
        };
        some = after;
    }
    Ok(())
}

/// Puts what stands in front of the words of an entity: its name, behind `ABSTRACT` where it is that.
fn put_front<W: Write>(
    waiting: &mut Waiting,
    writer: &mut Watched<W>,
    schema: &Schema,
    entity: EntityId,
) -> Result<(), WriteFault>
    requires { IsEntity schema.now entity.0 }
    ensures ok { OnOk result (AppendsAllBut (W.contents writer.old.inner) (W.contents writer.new.inner)
        (waiting.old ++ (entity_prefix schema.now entity.0 ++ entity_name schema.now entity.0)) waiting.new) }
    ensures err { OnErr result (AppendsPartOf (W.contents writer.old.inner) (W.contents writer.new.inner)
        (waiting.old ++ (entity_prefix schema.now entity.0 ++ entity_name schema.now entity.0))) }

    ensures written { OnOk result (writer.new.failures ≡ writer.old.failures) }
    ensures failed { OnErr result (writer.new.failures ≡ one_call_more writer.old.failures) }
{
    let Ok(()) = waiting.put(writer, prefix(schema, entity)) else {
        return Err(WriteFault);
    };
    let Ok(()) = waiting.put(writer, schema.entity_name(entity)) else {
        return Err(WriteFault);
    };
    Ok(())
}

/// What stands in front of the name of an abstract entity; nothing for any other.
fn prefix(schema: &Schema, entity: EntityId) -> &'static [u8]
    requires { IsEntity schema.now entity.0 }
    ensures { result.now ≡ entity_prefix schema.now entity.0 }
{
    if schema.is_abstract(entity) {
        b"ABSTRACT "
    } else {
        b""
    }
}

/// Puts the line of an entity.
fn put_entity<W: Write>(
    waiting: &mut Waiting,
    writer: &mut Watched<W>,
    schema: &Schema,
    texts: &[Option<Vec<u8>>],
    entity: EntityId,
) -> Result<(), WriteFault>
    requires texts { AreOwnTexts schema.now texts.now }
    requires entity { IsEntity schema.now entity.0 }
    ensures ok { OnOk result (AppendsAllBut (W.contents writer.old.inner) (W.contents writer.new.inner)
        (waiting.old ++ entity_line schema.now entity.0) waiting.new) }
    ensures err { OnErr result (AppendsPartOf (W.contents writer.old.inner) (W.contents writer.new.inner)
        (waiting.old ++ entity_line schema.now entity.0)) }

    ensures written { OnOk result (writer.new.failures ≡ writer.old.failures) }
    ensures failed { OnErr result (writer.new.failures ≡ one_call_more writer.old.failures) }
{
    let Ok(()) = put_front(waiting, writer, schema, entity) else {
        return Err(WriteFault);
    };
    let Ok(()) = waiting.put(writer, b"(") else {
        return Err(WriteFault);
    };
    let Ok(()) = put_words(waiting, writer, schema, texts, entity) else {
        return Err(WriteFault);
    };
    let Ok(()) = waiting.put(writer, b")\n") else {
        return Err(WriteFault);
    };
    Ok(())
}

/// Puts the lines of all entities.
fn put_entities<W: Write>(
    waiting: &mut Waiting,
    writer: &mut Watched<W>,
    schema: &Schema,
    texts: &[Option<Vec<u8>>],
) -> Result<(), WriteFault>
    requires { AreOwnTexts schema.now texts.now }
    ensures ok { OnOk result (AppendsAllBut (W.contents writer.old.inner) (W.contents writer.new.inner)
        (waiting.old ++ entity_lines schema.now) waiting.new) }
    ensures err { OnErr result (AppendsPartOf (W.contents writer.old.inner) (W.contents writer.new.inner)
        (waiting.old ++ entity_lines schema.now)) }

    ensures written { OnOk result (writer.new.failures ≡ writer.old.failures) }
    ensures failed { OnErr result (writer.new.failures ≡ one_call_more writer.old.failures) }
{
    schema.holds_together();
    for number in 0..schema.entities() {
        let entity = EntityId(number as u32);
        let Ok(()) = put_entity(waiting, writer, schema, texts, entity) else {
            return Err(WriteFault);
        };
    }
    Ok(())
}

/// Puts the line of a schema.
fn put_name<W: Write>(
    waiting: &mut Waiting,
    writer: &mut Watched<W>,
    schema: &Schema,
) -> Result<(), WriteFault>
    ensures ok { OnOk result (AppendsAllBut (W.contents writer.old.inner) (W.contents writer.new.inner)
        (waiting.old ++ (codes "SCHEMA " ++ (schema.now.name ++ codes "\n"))) waiting.new) }
    ensures err { OnErr result (AppendsPartOf (W.contents writer.old.inner) (W.contents writer.new.inner)
        (waiting.old ++ (codes "SCHEMA " ++ (schema.now.name ++ codes "\n")))) }

    ensures written { OnOk result (writer.new.failures ≡ writer.old.failures) }
    ensures failed { OnErr result (writer.new.failures ≡ one_call_more writer.old.failures) }
{
    let Ok(()) = waiting.put(writer, b"SCHEMA ") else {
        return Err(WriteFault);
    };
    let Ok(()) = waiting.put(writer, schema.name()) else {
        return Err(WriteFault);
    };
    let Ok(()) = waiting.put(writer, b"\n") else {
        return Err(WriteFault);
    };
    Ok(())
}

/// Writes the text that is printed of a schema, by the texts of its entities. No byte stands in a buffer afterwards. It takes no
/// memory, however long the lines are.
pub(crate) fn write_text<W: Write>(
    writer: &mut Watched<W>,
    schema: &Schema,
    texts: &[Option<Vec<u8>>],
) -> Result<(), WriteFault>
    requires { AreOwnTexts schema.now texts.now }
    ensures ok { OnOk result (Appends (W.contents writer.old.inner) (W.contents writer.new.inner) (schema_text schema.now)) }
    ensures err { OnErr result (AppendsPartOf (W.contents writer.old.inner) (W.contents writer.new.inner) (schema_text schema.now)) }

    ensures written { OnOk result (writer.new.failures ≡ writer.old.failures) }
    ensures failed { OnErr result (writer.new.failures ≡ one_call_more writer.old.failures) }
{
    let mut waiting = Waiting::new();
    let Ok(()) = put_name(&mut waiting, writer, schema) else {
        return Err(WriteFault);
    };
    let Ok(()) = put_entities(&mut waiting, writer, schema, texts) else {
        return Err(WriteFault);
    };
    let Ok(()) = waiting.flush(writer) else {
        return Err(WriteFault);
    };
    Ok(())
}
