//! The model of `Schema` is the pure schema itself and not a record of the program's: so no caller meets a table, and
//! tables may change under one contract. The price is that schemas have to be coded as numbers and lists
//! (`specs/Coding`), on which nothing that is claimed rests.
//!
//! A schema is made of a hierarchy once that has its redeclarations, with each table there.
ghost use Rattle.std.specs.Prelude.{◌≡◌, ◌↔◌, ℕ, IsTrue, length, map, ◌++◌, slice_get, MatchOption, IfOk, OnOk, Some};
ghost use Rattle.p21_spec_schema.specs.Schema.{EntityNamed, TypeNamed, PlaceNamed, IsAbstract, entity_member, kind_of, attribute_at, attributes_of};
ghost use Rattle.p21_spec_schema.specs.Select.{Offers};
ghost use Rattle.p21_spec_schema.specs.Supertype.{IsA, AreLeaves};
ghost use Rattle.p21_spec_schema.specs.WellFormed.{IsWellFormed};
ghost use Rattle.p21_express_graph.specs.Lookups.{AreEntities};
ghost use Rattle.p21_spec_schema.specs.Order.{order, places, own_places};
ghost use Rattle.p21_express_graph.specs.Orders.{numbers};
ghost use Rattle.p21_express_graph.specs.Meaning.{place as place_of, kind, member as member_of};
ghost use Rattle.p21_express_graph.specs.Resolved.{HoldsTogether, IsEntity, IsType, IsPlace};
ghost use Rattle.p21_express_graph.specs.SchemaContents.{schema_of, AreNamed, entity as entity_of, attribute as attribute_of, defined as defined_of};

use crate::hierarchy::Hierarchy;
use crate::tables::{Tables, tables_of};
use p21_express_graph::{
    Attribute, Defined, Entity, EntityId, Member, Place, SchemaContents, TypeId, TypeKind, is_among,
};
use p21_values::NoMemory;
use std::alloc::Global;
use std::fmt;
use std::marker::Model;

/// A schema with all names resolved (ISO 10303-11), prepared for look-ups.
pub struct Schema {
    pub(crate) alloc: Global,
    pub(crate) hierarchy: Hierarchy,
    pub(crate) tables: Tables,
}

// Written out: crates above call it, where they would prove a derived one field by field.
impl Drop for Schema {
    fn drop(self) {
        let Schema {
            alloc: _,
            hierarchy: _,
            tables: _,
        } = self;
    }
}

impl fmt::Debug for Schema {
    fn fmt<W: fmt::Write>(&self, f: &mut fmt::Formatter<W>) -> fmt::Result {
        let entities = self.entities();
        write!(f, "Schema {{ entities: {entities} }}")
    }
}

impl Model for Schema {
    ghost use Rattle.p21_spec_schema.specs.Schema.{Schema as Meant};
    ghost use Rattle.p21_schema.specs.Coding.{schema_code};

    ghost Value = { Meant };

    ghost coded = { schema_code };

    ghost use Rattle.p21_schema.specs.Prepared.{IsPrepared};

    ghost view = { λ schema. schema.hierarchy };

    ghost invariant = { λ schema. IsPrepared schema.hierarchy schema.tables };
}

impl Schema {
    /// Prepares a hierarchy for all look-ups.
    ///
    /// # Errors
    ///
    /// `NoMemory`.
    pub fn new(alloc: Global, hierarchy: Hierarchy) -> Result<Schema, NoMemory>
        ensures { IfOk result (λ schema. schema ≡ hierarchy) }
    {
        let tables = tables_of(alloc, &hierarchy)?;
        Ok(Schema {
            alloc,
            hierarchy,
            tables,
        })
    }

    /// All names are resolved, and no chain comes back. It does nothing.
    pub fn holds_together(&self)
        ensures { HoldsTogether self.now }
    {
        self.hierarchy.holds_together();
    }

    /// No two entities and no two types have one name, no entity redeclares a place twice as an explicit attribute, and
    /// no chain comes back. It does nothing.
    pub fn well_formed(&self)
        ensures { IsWellFormed self.now }
    {
        self.holds_together();
    }

    /// What is declared. It takes no memory.
    fn contents(&self) -> &SchemaContents
        ensures value { schema_of result.now ≡ self.now }
        ensures named { AreNamed result.now }
    {
        self.hierarchy.contents()
    }

    /// The name of the schema. It takes no memory.
    pub fn name(&self) -> &[u8]
        ensures { result.now ≡ self.now.name }
    {
        self.contents().name.bytes()
    }

    /// How many entities there are. It takes no memory.
    pub fn entities(&self) -> usize
        ensures { result ≡ length self.now.entities }
    {
        self.hierarchy.entities()
    }

    /// How many types there are. It takes no memory.
    pub fn types(&self) -> usize
        ensures { result ≡ length self.now.types }
    {
        self.contents().types.len()
    }

    /// The entity of this name, in upper case. It takes no memory.
    pub fn entity(&self, name: &[u8]) -> Option<EntityId>
        ensures { MatchOption result ((e : ℕ) → EntityNamed self.now e name.now → ⊥) (λ entity. EntityNamed self.now entity.0 name.now) }
    {
        self.hierarchy.entity(name)
    }

    /// The name of an entity, in upper case. It takes no memory.
    pub fn entity_name(&self, entity: EntityId) -> &[u8]
        requires { IsEntity self.now entity.0 }
        ensures { EntityNamed self.now entity.0 result.now }
    {
        self.entity_at(entity).name.bytes()
    }

    /// Whether an entity is abstract. It takes no memory.
    pub fn is_abstract(&self, entity: EntityId) -> bool
        requires { IsEntity self.now entity.0 }
        ensures { IsTrue result ↔ IsAbstract self.now entity.0 }
    {
        self.entity_at(entity).is_abstract
    }

    /// Whether an entity is another one, or that is a direct or indirect supertype of it. It takes no memory.
    pub fn is_a(&self, sub: EntityId, sup: EntityId) -> bool
        requires { IsEntity self.now sub.0 }
        ensures { IsTrue result ↔ IsA self.now sub.0 sup.0 }
    {
        self.hierarchy.is_a(sub, sup)
    }

    /// The order of an entity in an instance (ISO 10303-21, Mapping of EXPRESS entity data types: internal mapping).
    ///
    /// # Errors
    ///
    /// `NoMemory`.
    pub fn order(&self, entity: EntityId) -> Result<Vec<EntityId>, NoMemory>
        requires { IsEntity self.now entity.0 }
        ensures { IfOk result (λ entities. numbers entities.items ≡ order self.now entity.0) }
    {
        let entities = Vec::from_slice(self.alloc, self.order_of(entity))?;
        Ok(entities)
    }

    /// The same as a slice. It takes no memory.
    pub fn order_of(&self, entity: EntityId) -> &[EntityId]
        requires { IsEntity self.now entity.0 }
        ensures { numbers result.now ≡ order self.now entity.0 }
    {
        self.hierarchy.order_of(entity)
    }

    /// The places of an entity in an instance, in the order of internal mapping.
    ///
    /// # Errors
    ///
    /// `NoMemory`.
    pub fn places(&self, entity: EntityId) -> Result<Vec<Place>, NoMemory>
        requires { IsEntity self.now entity.0 }
        ensures { IfOk result (λ found. map place_of found.items ≡ places self.now entity.0) }
    {
        let mut found = Vec::new(self.alloc);
        self.holds_together();
        for owner in self.order_of(entity) {
            self.push_own_places(*owner, &mut found)?;
        }
        Ok(found)
    }

    fn push_own_places(&self, entity: EntityId, found: &mut Vec<Place>) -> Result<(), NoMemory>
        requires { IsEntity self.now entity.0 }
        ensures { OnOk result (map place_of found.new.items ≡ map place_of found.old.items ++ own_places self.now entity.0) }
    {
        let count = self.attribute_count(entity);
        for index in 0..count {
            found.push(Place { entity, index })?;
        }
        Ok(())
    }

    /// How many attributes an entity declares itself. It takes no memory.
    pub fn attribute_count(&self, entity: EntityId) -> u32
        requires { IsEntity self.now entity.0 }
        ensures { result ≡ length (attributes_of self.now entity.0) }
    {
        self.hierarchy.attribute_count(entity)
    }

    /// The entities of a list that are no supertype of another one in it, in the order of the list.
    ///
    /// # Errors
    ///
    /// `NoMemory`.
    pub fn leaves(&self, entities: &[EntityId]) -> Result<Vec<EntityId>, NoMemory>
        requires { AreEntities self.now (numbers entities.now) }
        ensures { IfOk result (λ leaves. AreLeaves self.now (numbers entities.now) (numbers leaves.items)) }
    {
        let above = self.all_above(entities)?;
        let mut leaves = Vec::new(self.alloc);
        for entity in entities {
            if !is_among(&above, entity.0) {
                leaves.push(*entity)?;
            }
        }
        Ok(leaves)
    }

    /// The name of the attribute at a place, in upper case. It takes no memory.
    pub fn place_name(&self, place: Place) -> &[u8]
        requires { IsPlace self.now (place_of place) }
        ensures { PlaceNamed self.now (place_of place) result.now }
    {
        self.hierarchy.place_name(place)
    }

    /// The type of this name, in upper case. It takes no memory.
    pub fn type_named(&self, name: &[u8]) -> Option<TypeId>
        ensures { MatchOption result ((t : ℕ) → TypeNamed self.now t name.now → ⊥) (λ type_. TypeNamed self.now type_.0 name.now) }
    {
        self.holds_together();
        match self.contents().names.types.position(name) {
            Some(at) => Some(TypeId(at as u32)),
            None => None,
        }
    }

    /// The name of a type, in upper case. It takes no memory.
    pub fn type_name(&self, of: TypeId) -> &[u8]
        requires { IsType self.now of.0 }
        ensures { TypeNamed self.now of.0 result.now }
    {
        self.defined_at(of).name.bytes()
    }

    /// What a type is. It takes no memory.
    pub fn type_kind(&self, of: TypeId) -> &TypeKind
        requires { IsType self.now of.0 }
        ensures { kind_of self.now of.0 ≡ Some (kind result.now) }
    {
        &self.defined_at(of).kind
    }

    /// Whether a select offers an entity, or a type other than a select, itself or by a select in it (ISO 10303-11,
    /// Select data type). Another type offers nothing. It takes no memory.
    pub fn offers(&self, of: TypeId, member: Member) -> bool
        requires { IsType self.now of.0 }
        ensures { IsTrue result ↔ Offers self.now of.0 (member_of member) }
    {
        match member {
            Member::Entity(entity) => is_among(
                &self.tables.offered.entities[of.0 as usize],
                entity.0,
            ),
            Member::Defined(other) => is_among(&self.tables.offered.types[of.0 as usize], other.0),
        }
    }

    /// Whether a select offers an entity. It takes no memory.
    pub fn offers_entity(&self, of: TypeId) -> bool
        requires { IsType self.now of.0 }
        ensures { IsTrue result ↔ ((e : ℕ) × Offers self.now of.0 (entity_member e)) }
    {
        !self.tables.offered.entities[of.0 as usize].is_empty()
    }

    /// The entity of this number.
    pub(crate) fn entity_at(&self, entity: EntityId) -> &Entity
        requires { IsEntity self.now entity.0 }
        ensures { slice_get self.now.entities entity.0 ≡ Some (entity_of result.now) }
    {
        self.hierarchy.entity_at(entity)
    }

    /// The attribute at a place.
    pub(crate) fn attribute_at(&self, place: Place) -> &Attribute
        requires { IsPlace self.now (place_of place) }
        ensures { attribute_at self.now (place_of place) ≡ Some (attribute_of result.now) }
    {
        self.hierarchy.attribute_at(place)
    }

    /// The type of this number.
    pub(crate) fn defined_at(&self, of: TypeId) -> &Defined
        requires { IsType self.now of.0 }
        ensures { slice_get self.now.types of.0 ≡ Some (defined_of result.now) }
    {
        &self.contents().types[of.0 as usize]
    }
}
