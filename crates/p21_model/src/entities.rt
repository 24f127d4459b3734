//! The entity set of an instance.
ghost use Rattle.std.specs.Prelude.{◌≡◌, ◌≤◌, ◌<◌, ◌∷◌, [], ℕ, List, length, IfSome, IsNone, MatchOption};
ghost use Rattle.p21_spec_exchange.specs.Parameter.{Params};
ghost use Rattle.p21_spec_exchange.specs.Record.{Part, Record};
ghost use Rattle.p21_spec_schema.specs.Order.{order};
ghost use Rattle.p21_express_graph.specs.Orders.{numbers};
ghost use Rattle.p21_model.specs.EntitiesLeft.{AreEntitiesOf, ArePartEntities, HandsOutEntity, TellsEntities, entities_size, set_schema};
ghost use Rattle.p21_model.specs.Left.{AreLeftParts, IsRecordText, NoKeywordFirst};
ghost use Rattle.p21_model_values.specs.Written.{AreLeft};
ghost use Rattle.p21_spec_file.specs.Meaning.{NamesEntity};

use crate::part::leading_part;
use crate::places::alone;
use p21_express_graph::EntityId;
use p21_model_values::Elements;
use p21_scan::behind;
use p21_schema::Schema;

/// The entities of an instance's set, of which some have been handed out.
#[derive(Clone, Copy)]
pub struct Entities<'a> {
    schema: &'a Schema,
    // The entities that are left of the simple record whose values come next.
    owners: &'a [EntityId],
    values: Elements<'a>,
}

impl<'a> Entities<'a> {
    /// The entities of a record.
    pub(crate) fn of_record(schema: &'a Schema, bytes: &'a [u8]) -> Entities<'a>
        ensures schema { set_schema result ≡ schema.now }
        ensures told { (record_ : Record) (entities : List ℕ) → IsRecordText record_ bytes.now → AreEntitiesOf schema.now record_ entities
            → TellsEntities result entities }
    {
        match Entities::of_forms(schema, bytes) {
            Some(entities) => entities,
            None => Entities {
                schema,
                owners: &[],
                values: Elements { rest: &[] },
            },
        }
    }

    /// The entities of a record of internal or external mapping.
    fn of_forms(schema: &'a Schema, bytes: &'a [u8]) -> Option<Entities<'a>>
        ensures schema { IfSome result (λ found. set_schema found ≡ schema.now) }
        ensures told { (record_ : Record) (entities : List ℕ) → IsRecordText record_ bytes.now → AreEntitiesOf schema.now record_
            entities → MatchOption result ⊥ (λ found. TellsEntities found entities) }
    {
        match behind(b'(', bytes) {
            Some(parts) => Entities::of_part(schema, parts),
            None => Entities::of_whole(schema, bytes),
        }
    }

    /// The entity of a simple record in internal mapping, with all above it.
    fn of_whole(schema: &'a Schema, bytes: &'a [u8]) -> Option<Entities<'a>>
        ensures schema { IfSome result (λ found. set_schema found ≡ schema.now) }
        ensures told { (part : Part) (end : List ℕ) (e : ℕ) → AreLeftParts (part ∷ []) end bytes.now → NamesEntity schema.now part.key e
            → MatchOption result ⊥ (λ found. TellsEntities found (order schema.now e)) }
    {
        let Some((entity, rest)) = leading_part(schema, bytes) else {
            return None;
        };
        Some(Entities {
            schema,
            owners: schema.order_of(entity),
            values: Elements { rest },
        })
    }

    /// The entities of simple records in external mapping, if there is one.
    fn of_part(schema: &'a Schema, bytes: &'a [u8]) -> Option<Entities<'a>>
        ensures schema { IfSome result (λ found. set_schema found ≡ schema.now) }
        ensures shorter { IfSome result (λ found. length found.values.rest.now < length bytes.now) }
        ensures few { IfSome result (λ found. length found.owners.now ≤ 1) }
        ensures some { (part : Part) (parts : List Part) (end : List ℕ) (entities : List ℕ) → AreLeftParts (part ∷ parts) end bytes.now →
            ArePartEntities schema.now (part ∷ parts) entities → MatchOption result ⊥ (λ found. TellsEntities found entities) }
        ensures none { NoKeywordFirst bytes.now → IsNone result }
    {
        let Some((entity, rest)) = leading_part(schema, bytes) else {
            return None;
        };
        Some(Entities {
            schema,
            owners: alone(schema.order_of(entity), entity),
            values: Elements { rest },
        })
    }

    /// The next entity. It takes no memory.
    pub fn next(&mut self) -> Option<EntityId>
        ensures handed { (entities : List ℕ) → TellsEntities self.old entities → HandsOutEntity entities result self.new }
        ensures schema { set_schema self.new ≡ set_schema self.old }
        ensures shorter { IfSome result (λ entity. entities_size self.new < entities_size self.old) }
    {
        while self.owners.is_empty() {
            match self.behind_part() {
                Some(entities) => *self = entities,
                None => return None,
            }
        }
        let Some((entity, owners)) = self.owners.split_first() else {
            return None;
        };
        self.owners = owners;
        Some(*entity)
    }

    /// The entities behind a simple record, if there are any.
    fn behind_part(&self) -> Option<Entities<'a>>
        ensures schema { IfSome result (λ found. set_schema found ≡ set_schema self.now) }
        ensures shorter { IfSome result (λ found. length found.values.rest.now < length self.now.values.rest.now) }
        ensures few { IfSome result (λ found. length found.owners.now ≤ 1) }
        ensures told { (entities : List ℕ) → TellsEntities self.now entities → numbers self.now.owners.now ≡ [] → MatchOption result
            (entities ≡ []) (λ found. TellsEntities found entities) }
    {
        let Some(parts) = behind_values(self.values) else {
            return None;
        };
        Entities::of_part(self.schema, parts)
    }
}

/// What stands behind values and the parenthesis that closes them.
fn behind_values(values: Elements<'_>) -> Option<&[u8]>
    ensures shorter { IfSome result (λ behind. length behind.now < length values.entry.rest.now) }
    ensures told { (ps : Params) (after : List ℕ) → AreLeft ps after values.entry.rest.now
        → MatchOption result ⊥ (λ behind. behind.now ≡ after) }
{
    let mut left = values;
    while !left.is_empty() {
        let Some(_) = left.next() else {
            return None;
        };
    }
    let Some((_, behind)) = left.rest.split_first() else {
        return None;
    };
    Some(behind)
}
