//! What is left out of a list where that is asked for.
//!
//! An attribute is named by an entity and by its own name, `ENTITY.ATTRIBUTE`: it is left out of each instance of the entity, which
//! declares it itself or has it of a supertype.
ghost use Rattle.std.specs.Prelude.{◌≡◌, ◌++◌, ◌↔◌, Contains, IsTrue, List, IfNone, IfSome, MatchOption, false, map, ℕ};
ghost use Rattle.p21_difference_rows.specs.Asked.{attribute_name_of, left_out_of, ratio_given};
ghost use Rattle.p21_express_graph.specs.Meaning.{place as place_of};
ghost use Rattle.p21_express_graph.specs.Resolved.{IsEntity, IsPlace};
ghost use Rattle.p21_spec_differences.specs.HeaderNames.{IsHeaderKeyword};
ghost use Rattle.p21_spec_differences.specs.LeftOut.{AttributeName as NameOf, IsIgnored, IsKnown, MayBeMeant, NamesPlace, leaves_out};
ghost use Rattle.p21_spec_differences.specs.Near.{AreNearBy};
ghost use Rattle.p21_spec_exchange.specs.Parameter.{Param};
ghost use Rattle.p21_spec_exchange.specs.Record.{Record};
ghost use Rattle.p21_spec_file.specs.CanonicalTexts.{IsInstanceText};
ghost use Rattle.p21_spec_schema.specs.Schema.{Place as PlaceOf, PlaceNamed};
ghost use Rattle.p21_spec_schema.specs.Supertype.{IsA};
ghost use Rattle.p21_model_values.specs.Written.{IsTextOf};
ghost use Rattle.p21_tolerance.specs.Spelled.{SpellsTolerance};
ghost use Rattle.p21_tolerance.specs.declared.tolerance.Tolerance.{Tolerance as ToleranceOf};

use p21_express_graph::{EntityId, Place};
use p21_model::Instance;
use p21_model_values::Value;
use p21_schema::Schema;
use p21_tolerance::{Tolerance, are_near};

/// The name of an attribute, in upper case: that of an entity, and its own.
#[derive(Clone, Copy)]
pub struct AttributeName<'a> {
    pub entity: &'a [u8],
    pub attribute: &'a [u8],
}

/// A tolerance, with the text of its number.
#[derive(Clone, Copy)]
pub struct GivenTolerance<'a> {
    pub tolerance: Tolerance,
    pub text: &'a [u8],
}

impl<'a> GivenTolerance<'a> {
    /// The tolerance that a text spells, as `Tolerance::of` reads it.
    pub fn of(text: &'a [u8]) -> Option<GivenTolerance<'a>>
        ensures some { IfSome result (λ given. SpellsTolerance text.now given.tolerance × (given.text.now ≡ text.now)) }
        ensures none { IfNone result ((tolerance : ToleranceOf) → SpellsTolerance text.now tolerance → ⊥) }
    {
        let Some(tolerance) = Tolerance::of(text) else {
            return None;
        };
        Some(GivenTolerance { tolerance, text })
    }
}

/// What is left out of a list: the header, attributes, and values of instances that are the same but for reals within a tolerance.
#[derive(Clone, Copy)]
pub struct LeftOut<'a> {
    pub header: bool,
    pub attributes: &'a [AttributeName<'a>],
    pub tolerance: Option<GivenTolerance<'a>>,
}

/// Whether something is left out.
pub(crate) fn leaves_out(left_out: LeftOut<'_>) -> bool
    ensures { result ≡ leaves_out (left_out_of left_out.entry) }
{
    if left_out.header {
        return true;
    }
    match left_out.tolerance {
        Some(_) => true,
        None => !left_out.attributes.is_empty(),
    }
}

/// Whether two values are within the tolerance, if there is one.
pub(crate) fn is_near(left_out: LeftOut<'_>, first: Value<'_>, second: Value<'_>) -> bool
    ensures { (p q : Param) → IsTextOf first.entry.text.now p → IsTextOf second.entry.text.now q
        → IsTrue result ↔ AreNearBy (ratio_given left_out.entry.tolerance) p q }
{
    match left_out.tolerance {
        Some(given) => are_near(first, second, given.tolerance),
        None => false,
    }
}

/// Whether one of the names is that of the attribute at a place of an instance.
pub(crate) fn is_ignored(names: &[AttributeName<'_>], instance: &Instance<'_>, place: Place) -> bool
    requires { IsPlace instance.now.schema.now (place_of place) }
    ensures { (record_ : Record) (stated : IsInstanceText instance.now.schema.now instance.now.name record_ instance.now.line.now)
        → IsTrue result ↔ IsIgnored instance.now.schema.now (map attribute_name_of names.now) stated.canonical_meaning.entities
        (place_of place) }
{
    for name in names {
        if names_place(*name, instance, place) {
            return true;
        }
    }
    false
}

/// Whether a name is that of the attribute at a place of an instance.
fn names_place(name: AttributeName<'_>, instance: &Instance<'_>, place: Place) -> bool
    requires { IsPlace instance.now.schema.now (place_of place) }
    ensures { (record_ : Record) (stated : IsInstanceText instance.now.schema.now instance.now.name record_ instance.now.line.now)
        → IsTrue result ↔ NamesPlace instance.now.schema.now (attribute_name_of name.entry) stated.canonical_meaning.entities
        (place_of place) }
{
    let schema = instance.schema;
    schema.well_formed();
    if !are_equal(schema.place_name(place), name.attribute) {
        return false;
    }
    let Some(entity) = schema.entity(name.entity) else {
        return false;
    };
    if !schema.is_a(entity, place.entity) {
        return false;
    }
    is_of(instance, entity)
}

/// Whether an entity is among those of an instance.
fn is_of(instance: &Instance<'_>, entity: EntityId) -> bool
    ensures { (record_ : Record) (stated : IsInstanceText instance.now.schema.now instance.now.name record_ instance.now.line.now)
        → IsTrue result ↔ Contains stated.canonical_meaning.entities entity.0 }
{
    let mut left = instance.entities();
    while let Some(found) = left.next() {
        if found.0 == entity.0 {
            return true;
        }
    }
    false
}

/// The first of the names that is that of no attribute of the schema, if one is; those of header records aren't looked up. It takes no
/// memory.
pub fn first_unknown<'a>(
    schema: &Schema,
    names: &'a [AttributeName<'a>],
) -> Option<AttributeName<'a>>
    ensures { MatchOption result
        ((name : NameOf) → Contains (map attribute_name_of names.now) name → MayBeMeant schema.now name)
        (λ name. Contains (map attribute_name_of names.now) (attribute_name_of name)
        × ¬ IsKnown schema.now (attribute_name_of name)) }
{
    for name in names {
        if is_missing(schema, *name) {
            return Some(*name);
        }
    }
    None
}

/// Whether the schema lacks an attribute, and no header record has it.
fn is_missing(schema: &Schema, name: AttributeName<'_>) -> bool
    ensures missing { IsTrue result → ¬ IsKnown schema.now (attribute_name_of name.entry) }
    ensures meant { result ≡ false → MayBeMeant schema.now (attribute_name_of name.entry) }
{
    if is_of_header(name) {
        return false;
    }
    !is_known(schema, name)
}

/// Whether a name may be that of a parameter of a header record, which no schema has: words, the first of them a keyword of such a
/// record. That they are words is tested.
fn is_of_header(name: AttributeName<'_>) -> bool
    ensures { IsTrue result → IsHeaderKeyword name.entry.entity.now }
{
    if !is_header_keyword(name.entity) {
        return false;
    }
    is_word(without_mark(name.entity)) && is_word(name.attribute)
}

/// Whether header records may have a keyword.
fn is_header_keyword(keyword: &[u8]) -> bool
    ensures { IsTrue result → IsHeaderKeyword keyword.now }
{
    if begins_with(keyword, b"!") {
        return true;
    }
    if begins_with(keyword, b"FILE_") {
        return true;
    }
    begins_with(keyword, b"SECTION_")
}

/// Whether a text begins with another one.
fn begins_with(text: &[u8], front: &[u8]) -> bool
    ensures { IsTrue result → (rest : List ℕ) × (text.now ≡ front.now ++ rest) }
{
    text.starts_with(front)
}

/// A keyword without the `!` of those of users.
fn without_mark(keyword: &[u8]) -> &[u8] {
    match keyword.split_first() {
        Some((first, rest)) if *first == b'!' => rest,
        _ => keyword,
    }
}

/// Whether these are letters in upper case, digits and `_`, one at least.
fn is_word(bytes: &[u8]) -> bool {
    for byte in bytes {
        if !byte.is_ascii_uppercase() && !byte.is_ascii_digit() && *byte != b'_' {
            return false;
        }
    }
    !bytes.is_empty()
}

/// Whether the schema has the attribute.
fn is_known(schema: &Schema, name: AttributeName<'_>) -> bool
    ensures { IsTrue result ↔ IsKnown schema.now (attribute_name_of name.entry) }
{
    schema.well_formed();
    match schema.entity(name.entity) {
        Some(entity) => has_attribute(schema, entity, name.attribute),
        None => false,
    }
}

/// Whether an entity has an attribute of this name, its own or one of a supertype.
fn has_attribute(schema: &Schema, entity: EntityId, name: &[u8]) -> bool
    requires { IsEntity schema.now entity.0 }
    ensures { IsTrue result ↔ ((place : PlaceOf) × IsA schema.now entity.0 place.entity × PlaceNamed schema.now place name.now) }
{
    schema.holds_together();
    for owner in schema.order_of(entity) {
        if declares(schema, *owner, name) {
            return true;
        }
    }
    false
}

/// Whether an entity declares an attribute of this name itself.
fn declares(schema: &Schema, entity: EntityId, name: &[u8]) -> bool
    requires { IsEntity schema.now entity.0 }
    ensures { IsTrue result ↔ ((index : ℕ) × PlaceNamed schema.now (record { entity = entity.0; index = index }) name.now) }
{
    let count = schema.attribute_count(entity);
    for index in 0..count {
        if are_equal(schema.place_name(Place { entity, index }), name) {
            return true;
        }
    }
    false
}

/// Whether two texts are equal.
fn are_equal(one: &[u8], other: &[u8]) -> bool
    ensures { IsTrue result ↔ (one.now ≡ other.now) }
{
    one == other
}
