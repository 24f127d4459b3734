//! A hierarchy is made before it is known what entities redeclare: a redeclaration is looked up in the order of a
//! supertype (ISO 10303-11, Attribute redeclaration). What it has follows from supertypes and ONEOF lists alone, so it
//! stays as it is when the entities redeclare something, and a schema is then made of it.
//!
//! For each entity it has its order, as the prefix of a run that it may share, and the numbers of the ONEOF lists with
//! the entity, rising. Of each entity it has a front of a run that has its proper supertypes, and no other entity but
//! itself. It is one of the run of its first supertype, where that begins with the order of the entity but the last, so
//! that all entities with the same supertypes share it, though each needs an order of its own; else it is the order.
//! `is_a` looks into the index of that front's run: its entities as rising numbers, and the position of each. Other
//! runs have no index, and take 4 bytes for each entity in them. No list keeps spare room.
//!
//! An entity has fewer than 2^32 attributes (a text of 16 MB can't write more): this is a field of `HoldsTogether`,
//! since the place is numbered by a u32.
ghost use Rattle.std.specs.Prelude.{◌≡◌, ◌↔◌, ℕ, IfOk, IsTrue, MatchOption, Some, length, map, slice_get, Contains};
ghost use Rattle.std.specs.List.Sorted.{IsStrictlyIncreasing};
ghost use Rattle.p21_spec_schema.specs.Order.{order};
ghost use Rattle.p21_spec_schema.specs.Schema.{EntityNamed, PlaceNamed, attribute_at, attributes_of};
ghost use Rattle.p21_spec_schema.specs.Supertype.{IsA};
ghost use Rattle.p21_spec_schema.specs.WellFormed.{IsWellFormed};
ghost use Rattle.p21_express_graph.specs.Meaning.{place as place_of};
ghost use Rattle.p21_express_graph.specs.Orders.{numbers};
ghost use Rattle.p21_express_graph.specs.Redeclaring.{redeclaring, redeclaring_schema};
ghost use Rattle.p21_express_graph.specs.Resolved.{HoldsTogether, IsEntity, IsPlace};
ghost use Rattle.p21_express_graph.specs.SchemaContents.{AreNamed, attribute as attribute_of, entity as entity_of, schema_of};
ghost use Rattle.p21_schema.specs.EntityTables.{AreEntityTables};
ghost use Rattle.p21_schema.specs.OneOf.{IsListedIn};

use crate::one_of::all_listed_in;
use p21_express_graph::{
    Above, Attribute, Entity, EntityId, Index, KnownNames, Place, PrefixLists, Redeclarations,
    SchemaContents, all_above, all_orders, contents_with, indexes_of, is_among,
};
use p21_values::NoMemory;
use std::alloc::Global;
use std::marker::Model;

/// What a schema declares, with the orders of its entities prepared for look-ups, so that redeclarations can be resolved.
pub struct Hierarchy {
    parts: SchemaContents,
    tables: EntityTables,
}

/// The orders, what stands above each entity, the indexes of the runs where that is looked up, and for each entity the
/// numbers of the ONEOF lists with it, rising.
#[derive(Drop)]
pub(crate) struct EntityTables {
    orders: PrefixLists,
    // Of each entity, what has its proper supertypes.
    above: Vec<Above>,
    // Of each run of the orders of which a front is taken there.
    indexes: Vec<Index>,
    listed_in: Vec<Vec<usize>>,
}

// Written out: crates above call it, where they would prove a derived one field by field.
impl Drop for Hierarchy {
    fn drop(self) {
        let Hierarchy {
            parts: _,
            tables: _,
        } = self;
    }
}

impl Model for Hierarchy {
    ghost use Rattle.p21_spec_schema.specs.Schema.{Schema as Meant};
    ghost use Rattle.p21_schema.specs.Coding.{schema_code};

    ghost Value = { Meant };

    ghost coded = { schema_code };

    ghost use Rattle.p21_express_graph.specs.SchemaContents.{schema_of, AreNamed};
    ghost use Rattle.p21_express_graph.specs.Resolved.{HoldsTogether};
    ghost use Rattle.p21_schema.specs.EntityTables.{AreEntityTables};

    ghost view = { λ hierarchy. schema_of hierarchy.parts };

    ghost invariant = { λ hierarchy. HoldsTogether (schema_of hierarchy.parts) × AreNamed hierarchy.parts × AreEntityTables (schema_of hierarchy.parts) hierarchy.tables };
}

impl Hierarchy {
    /// Prepares the parts of a schema.
    ///
    /// # Errors
    ///
    /// `NoMemory`.
    pub fn new(alloc: Global, parts: SchemaContents) -> Result<Hierarchy, NoMemory>
        requires named { AreNamed parts }
        requires holds_together { HoldsTogether (schema_of parts) }
        ensures { IfOk result (λ hierarchy. hierarchy ≡ schema_of parts) }
    {
        let tables = entity_tables(alloc, &parts)?;
        Ok(Hierarchy { parts, tables })
    }

    /// The same, where each entity redeclares what is given for its number.
    ///
    /// # Errors
    ///
    /// `NoMemory`.
    pub fn with_redeclarations(
        self,
        alloc: Global,
        found: Vec<Redeclarations>,
    ) -> Result<Hierarchy, NoMemory>
        requires each { length self.entities ≡ length found.items }
        requires whole { HoldsTogether (redeclaring_schema self (map redeclaring found.items)) }
        ensures { IfOk result (λ hierarchy. hierarchy ≡ redeclaring_schema self (map redeclaring found.items)) }
    {
        let Hierarchy { parts, tables } = self;
        let whole = contents_with(alloc, parts, found)?;
        Ok(Hierarchy {
            parts: whole,
            tables,
        })
    }

    /// All names are resolved, and no chain comes back. It does nothing.
    pub fn holds_together(&self)
        ensures { HoldsTogether self.now }
    {
        let _ = &self.parts;
    }

    /// No two entities and no two types have one name, no entity redeclares a place twice as an explicit attribute, and
    /// no chain comes back. It does nothing.
    pub fn well_formed(&self)
        ensures { IsWellFormed self.now }
    {
        self.holds_together();
    }

    /// What is declared. It takes no memory.
    pub(crate) fn contents(&self) -> &SchemaContents
        ensures value { schema_of result.now ≡ self.now }
        ensures named { AreNamed result.now }
    {
        &self.parts
    }

    /// The names of its entities and of its types, each in the order of the declarations. It takes no memory.
    pub fn names(&self) -> &KnownNames
        ensures entities { result.now.entities ≡ map (λ x. x.name) self.now.entities }
        ensures types { result.now.types ≡ map (λ x. x.name) self.now.types }
    {
        &self.parts.names
    }

    /// How many entities there are. It takes no memory.
    pub fn entities(&self) -> usize
        ensures { result ≡ length self.now.entities }
    {
        self.parts.entities.len()
    }

    /// The entity of this name, in upper case. It takes no memory.
    pub fn entity(&self, name: &[u8]) -> Option<EntityId>
        ensures { MatchOption result ((e : ℕ) → EntityNamed self.now e name.now → ⊥) (λ entity. EntityNamed self.now entity.0 name.now) }
    {
        match self.parts.names.entities.position(name) {
            Some(at) => Some(EntityId(at as u32)),
            None => None,
        }
    }

    /// Whether an entity is another one, or that is a direct or indirect supertype of it. It takes no memory.
    pub fn is_a(&self, sub: EntityId, sup: EntityId) -> bool
        requires { IsEntity self.now sub.0 }
        ensures { IsTrue result ↔ IsA self.now sub.0 sup.0 }
    {
        self.holds_together();
        if sub.0 == sup.0 {
            return true;
        }
        let above = &self.tables.above[sub.0 as usize];
        if self.tables.indexes[above.front.run].has(sup.0, above.front.size) {
            return true;
        }
        is_among(&above.others, sup.0)
    }

    /// Whether the orders of two entities are fronts of one run, that of the other one no longer.
    pub(crate) fn begins_with(&self, entity: EntityId, other: EntityId) -> bool
        requires entity { IsEntity self.now entity.0 }
        requires other { IsEntity self.now other.0 }
        ensures { IsTrue result → IsA self.now entity.0 other.0 }
    {
        self.holds_together();
        let whole = self.tables.orders.prefix_of(entity.0);
        let front = self.tables.orders.prefix_of(other.0);
        front.run == whole.run && front.size <= whole.size
    }

    /// The order of an entity in an instance (ISO 10303-21, Mapping of EXPRESS entity data types: internal mapping). It
    /// takes no memory.
    pub fn order_of(&self, entity: EntityId) -> &[EntityId]
        requires { IsEntity self.now entity.0 }
        ensures { numbers result.now ≡ order self.now entity.0 }
    {
        self.tables.orders.list(entity.0)
    }

    /// How many ONEOF lists there are.
    pub(crate) fn one_of_lists(&self) -> usize
        ensures { result ≡ length self.now.one_of_lists }
    {
        self.parts.one_of_lists.len()
    }

    /// The numbers of the ONEOF lists with an entity, in rising order.
    pub(crate) fn lists_with(&self, entity: EntityId) -> &[usize]
        ensures each { (k : ℕ) → Contains result.now k ↔ IsListedIn self.now k entity.0 }
        ensures rising { IsStrictlyIncreasing result.now }
    {
        match self.tables.listed_in.get(entity.0 as usize) {
            Some(lists) => lists,
            None => &[],
        }
    }

    /// How many attributes an entity declares itself. It takes no memory.
    pub fn attribute_count(&self, entity: EntityId) -> u32
        requires { IsEntity self.now entity.0 }
        ensures { result ≡ length (attributes_of self.now entity.0) }
    {
        self.holds_together();
        self.entity_at(entity).attributes.len() as u32
    }

    /// The name of the attribute at a place, in upper case. It takes no memory.
    pub fn place_name(&self, place: Place) -> &[u8]
        requires { IsPlace self.now (place_of place) }
        ensures { PlaceNamed self.now (place_of place) result.now }
    {
        self.attribute_at(place).name.bytes()
    }

    /// The entity of this number.
    pub(crate) fn entity_at(&self, entity: EntityId) -> &Entity
        requires { IsEntity self.now entity.0 }
        ensures { slice_get self.now.entities entity.0 ≡ Some (entity_of result.now) }
    {
        &self.parts.entities[entity.0 as usize]
    }

    /// The attribute at a place.
    pub(crate) fn attribute_at(&self, place: Place) -> &Attribute
        requires { IsPlace self.now (place_of place) }
        ensures { attribute_at self.now (place_of place) ≡ Some (attribute_of result.now) }
    {
        &self.entity_at(place.entity).attributes[place.index as usize]
    }
}

/// The tables of the entities of a schema.
fn entity_tables(alloc: Global, parts: &SchemaContents) -> Result<EntityTables, NoMemory>
    requires { HoldsTogether (schema_of parts.now) }
    ensures { IfOk result (AreEntityTables (schema_of parts.now)) }
{
    let orders = all_orders(alloc, parts)?;
    let above = all_above(alloc, parts, &orders)?;
    let indexes = indexes_of(alloc, parts.entities.len(), &orders.runs, &above)?;
    let listed_in = all_listed_in(alloc, parts)?;
    Ok(EntityTables {
        orders,
        above,
        indexes,
        listed_in,
    })
}
