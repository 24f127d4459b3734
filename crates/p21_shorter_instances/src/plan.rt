//! What may stand at the attributes of an entity is looked up at its first instance (p21_shorter_instances), and not
//! with the schema: a file uses few of the entities of a large schema.
//!
//! A plan stays with its session (`Progress`), like the room for a line and for references, so that small pieces
//! prepare nothing again. A `SharedSession` owns the schema, so nothing that is kept between two calls may borrow it: a
//! row has the type of an attribute where that holds no other type, or is a list or set of such types, and names every
//! other aggregate type by the entity and the place, so that the schema is asked for it at each value. So a plan has a
//! few words for each attribute of the entities that a file uses, however deep its lists are.
//!
//! An entity that no instance may have with its supertypes as its set is noted, so that they are walked once for all
//! records of it. Such a note owes nothing: an instance that isn't taken goes the general way.
ghost use Rattle.std.specs.Prelude.{◌↔◌, IfOk, IfSome, IsTrue};
ghost use Rattle.p21_express_graph.specs.Resolved.{IsEntity};
ghost use Rattle.p21_spec_schema.specs.Schema.{EntityNamed, Schema as Meant};
ghost use Rattle.p21_shorter_instances.specs.Steps.{IsPlanOf, IsRow, MayStandAlone, row_view, rows_view};

use crate::guess::Guesses;
use crate::row::{Row, find_row};
use p21_express_graph::EntityId;
use p21_schema::Schema;
use p21_values::NoMemory;
use std::alloc::Global;
use std::collections::BTreeSet;
use std::marker::Model;

/// What is known of the instances of a schema, for the entities that were prepared, and guesses of the entities that keywords
/// name. It borrows nothing of the schema.
pub struct Plan {
    alloc: Global,
    // By the number of the entity; those from the last row on aren't prepared.
    rows: Vec<Option<Row>>,
    // The entities that were found to have no instances of internal form. Nothing is claimed of them.
    without: BTreeSet<u32>,
    guesses: Guesses,
}

// Written out: crates above call it, where they would prove a derived one field by field.
impl Drop for Plan {
    fn drop(self) {
        let Plan {
            alloc: _,
            rows: _,
            without: _,
            guesses: _,
        } = self;
    }
}

impl Model for Plan {
    ghost use Rattle.std.specs.Prelude.{List, Option};
    ghost use Rattle.p21_shorter_instances.specs.Prepared.{Prepared, plan_code};

    ghost Value = { List (Option Prepared) };

    ghost coded = { plan_code };

    ghost use Rattle.p21_shorter_instances.specs.Steps.{rows_view};

    ghost view = { λ plan. rows_view plan.rows.items };
}

impl Plan {
    /// Nothing prepared. It takes no memory.
    pub fn new(alloc: Global) -> Plan
        ensures { (s : Meant) → IsPlanOf s result }
    {
        Plan {
            alloc,
            rows: Vec::new(alloc),
            without: BTreeSet::new(alloc),
            guesses: Guesses::new(alloc),
        }
    }

    /// The entity of this name, in upper case. It takes no memory.
    #[inline(always)]
    pub(crate) fn entity(&mut self, schema: &Schema, name: &[u8]) -> Option<EntityId>
        ensures some { IfSome result (λ entity. EntityNamed schema.now entity.0 name.now) }
        ensures plan { IsPlanOf schema.now self.old → IsPlanOf schema.now self.new }
    {
        self.guesses.entity(schema, name)
    }

    /// An entity that may have this name. It takes no memory.
    #[inline(always)]
    pub(crate) fn guess(&self, name: &[u8]) -> Option<EntityId> {
        self.guesses.guess(name)
    }

    /// What is known of the instances whose set is the entity and its supertypes: none where that isn't prepared.
    #[inline(always)]
    pub(crate) fn row(&self, entity: EntityId) -> Option<&Row>
        ensures { (s : Meant) → IsPlanOf s self.now → IfSome result (λ row. IsRow s entity.0 (row_view row.now)) }
    {
        let row = self.rows.get(entity.0 as usize)?;
        match row {
            Some(row) => Some(row),
            None => None,
        }
    }

    /// Whether it is noted that no instance has this entity and its supertypes as its set. It takes no memory.
    pub(crate) fn is_without(&self, entity: EntityId) -> bool {
        self.without.contains(&entity.0)
    }

    /// Prepares an entity, and says whether an instance may have it and its supertypes as its set.
    ///
    /// # Errors
    ///
    /// `NoMemory`.
    #[cold]
    #[inline(never)]
    pub(crate) fn prepare(&mut self, schema: &Schema, entity: EntityId) -> Result<bool, NoMemory>
        requires { IsEntity schema.now entity.0 }
        ensures plan { IsPlanOf schema.now self.old → IsPlanOf schema.now self.new }
        ensures may { IfOk result (λ may. IsTrue may ↔ MayStandAlone schema.now entity.0) }
    {
        if !may_stand_alone(schema, entity) {
            note_entity(&mut self.without, entity)?;
            return Ok(false);
        }
        let row = find_row(self.alloc, schema, entity)?;
        put_row(&mut self.rows, entity.0 as usize, row)?;
        self.guesses.start(entity)?;
        Ok(true)
    }
}

/// Whether an instance may have the entity and its supertypes as its set.
fn may_stand_alone(schema: &Schema, entity: EntityId) -> bool
    requires { IsEntity schema.now entity.0 }
    ensures { IsTrue result ↔ MayStandAlone schema.now entity.0 }
{
    if schema.is_abstract(entity) || schema.own_clashes(entity) {
        return false;
    }
    !schema.leaves_open(entity)
}

/// Notes an entity.
fn note_entity(entities: &mut BTreeSet<u32>, entity: EntityId) -> Result<(), NoMemory> {
    match entities.insert(entity.0) {
        Ok(_) => Ok(()),
        Err(_) => Err(NoMemory),
    }
}

/// Puts the row of an entity in its place.
fn put_row(rows: &mut Vec<Option<Row>>, at: usize, row: Row) -> Result<(), NoMemory>
    ensures { (s : Meant) → IsPlanOf s (rows_view rows.old.items) → IsRow s at (row_view row) → IsPlanOf s (rows_view rows.new.items) }
{
    while rows.len() <= at {
        rows.push(None)?;
    }
    rows[at] = Some(row);
    Ok(())
}
