//! The attributes of an instance, with their values.
ghost use Rattle.std.specs.Prelude.{◌≡◌, ◌<◌, ◌∷◌, [], ℕ, true, List, length, IfSome, IsNone, MatchBool, MatchOption};
ghost use Rattle.p21_spec_exchange.specs.Record.{Part, Record};
ghost use Rattle.p21_spec_schema.specs.Order.{places};
ghost use Rattle.p21_express_graph.specs.Meaning.{place as place_of};
ghost use Rattle.p21_express_graph.specs.Resolved.{IsPlace};
ghost use Rattle.p21_model.specs.Found.{HasAt};
ghost use Rattle.p21_model.specs.Left.{AreLeftParts, HandsOutRow, IsRecordText, NoKeywordFirst, TellsRows, left_size, schema_of};
ghost use Rattle.p21_model_values.specs.Ends.{is_at_end};
ghost use Rattle.p21_model.specs.Rows.{ArePartRows, ArePartsRows, AreRowsOf, Row};

use crate::part::leading_part;
use crate::places::{Places, alone};
use p21_express_graph::Place;
use p21_model_values::{Elements, Value};
use p21_scan::behind;
use p21_schema::Schema;

/// An attribute, by the entity that declares it and its number there, and the value that an instance has at it.
#[derive(Clone, Copy)]
pub struct Attribute<'a> {
    pub place: Place,
    pub value: Value<'a>,
}

/// The attributes of an instance, in the order of its record, of which some have been handed out.
#[derive(Clone, Copy)]
pub struct Attributes<'a> {
    places: Places<'a>,
    values: Elements<'a>,
}

impl<'a> Attributes<'a> {
    /// The attributes of a record.
    pub(crate) fn of_record(schema: &'a Schema, bytes: &'a [u8]) -> Attributes<'a>
        ensures schema { schema_of result ≡ schema.now }
        ensures told { (record_ : Record) (rows : List Row) → IsRecordText record_ bytes.now → AreRowsOf schema.now record_ rows
            → TellsRows result rows }
    {
        match Attributes::of_forms(schema, bytes) {
            Some(attributes) => attributes,
            None => Attributes::none(schema),
        }
    }

    /// The attributes of a record of internal or external mapping.
    fn of_forms(schema: &'a Schema, bytes: &'a [u8]) -> Option<Attributes<'a>>
        ensures schema { IfSome result (λ found. schema_of found ≡ schema.now) }
        ensures told { (record_ : Record) (rows : List Row) → IsRecordText record_ bytes.now → AreRowsOf schema.now record_ rows
            → MatchOption result ⊥ (λ found. TellsRows found rows) }
    {
        match behind(b'(', bytes) {
            Some(parts) => Attributes::of_part(schema, parts),
            None => Attributes::of_whole(schema, bytes),
        }
    }

    /// No attributes.
    fn none(schema: &'a Schema) -> Attributes<'a>
        ensures { schema_of result ≡ schema.now }
    {
        Attributes {
            places: Places {
                schema,
                owners: &[],
                index: 0,
            },
            values: Elements { rest: &[] },
        }
    }

    /// The attributes of a simple record in internal mapping.
    fn of_whole(schema: &'a Schema, bytes: &'a [u8]) -> Option<Attributes<'a>>
        ensures schema { IfSome result (λ found. schema_of found ≡ schema.now) }
        ensures told { (part : Part) (end : List ℕ) (rows : List Row) → AreLeftParts (part ∷ []) end bytes.now
            → ArePartRows schema.now (places schema.now) part rows → MatchOption result ⊥ (λ found. TellsRows found rows) }
    {
        let Some((entity, rest)) = leading_part(schema, bytes) else {
            return None;
        };
        Some(Attributes {
            places: Places {
                schema,
                owners: schema.order_of(entity),
                index: 0,
            },
            values: Elements { rest },
        })
    }

    /// The attributes of simple records in external mapping, if there is one.
    fn of_part(schema: &'a Schema, bytes: &'a [u8]) -> Option<Attributes<'a>>
        ensures schema { IfSome result (λ found. schema_of found ≡ schema.now) }
        ensures shorter { IfSome result (λ found. length found.values.rest.now < length bytes.now) }
        ensures some { (part : Part) (parts : List Part) (end : List ℕ) (rows : List Row) → AreLeftParts (part ∷ parts) end bytes.now
            → ArePartsRows schema.now (part ∷ parts) rows → MatchOption result ⊥ (λ found. TellsRows found rows) }
        ensures none { NoKeywordFirst bytes.now → IsNone result }
    {
        let Some((entity, rest)) = leading_part(schema, bytes) else {
            return None;
        };
        Some(Attributes {
            places: Places {
                schema,
                owners: alone(schema.order_of(entity), entity),
                index: 0,
            },
            values: Elements { rest },
        })
    }

    /// The next attribute, with its value. It takes no memory.
    pub fn next(&mut self) -> Option<Attribute<'a>>
        ensures handed { (rows : List Row) → TellsRows self.old rows → HandsOutRow rows result self.new }
        ensures place { IfSome result (λ attribute. IsPlace (schema_of self.old) (place_of attribute.place)) }
        ensures schema { schema_of self.new ≡ schema_of self.old }
        ensures shorter { IfSome result (λ attribute. left_size self.new < left_size self.old) }
    {
        while self.values.is_empty() {
            match self.behind_part() {
                Some(attributes) => *self = attributes,
                None => return None,
            }
        }
        let Some(value) = self.values.next() else {
            return None;
        };
        let Some(place) = self.places.next() else {
            return None;
        };
        Some(Attribute { place, value })
    }

    /// The value at an attribute that is left, if it is there. It takes no memory.
    pub fn find(&mut self, place: Place) -> Option<Value<'a>>
        ensures { (rows : List Row) → TellsRows self.old rows → HasAt rows (place_of place) result }
    {
        while let Some(attribute) = self.next() {
            if is_same(attribute.place, place) {
                return Some(attribute.value);
            }
        }
        None
    }

    /// The attributes behind those of a simple record that is at its end, if there are any.
    fn behind_part(&self) -> Option<Attributes<'a>>
        ensures schema { IfSome result (λ found. schema_of found ≡ schema_of self.now) }
        ensures shorter { IfSome result (λ found. length found.values.rest.now < length self.now.values.rest.now) }
        ensures told { (rows : List Row) → TellsRows self.now rows → is_at_end self.now.values.rest.now ≡ true
            → MatchOption result (rows ≡ []) (λ found. TellsRows found rows) }
    {
        let Some((_, behind)) = self.values.rest.split_first() else {
            return None;
        };
        Attributes::of_part(self.places.schema, behind)
    }
}

/// Whether two places are the same.
fn is_same(place: Place, other: Place) -> bool
    ensures { MatchBool result (place_of place ≡ place_of other) (place_of place ≡ place_of other → ⊥) }
{
    if place.entity.0 != other.entity.0 {
        return false;
    }
    place.index == other.index
}
