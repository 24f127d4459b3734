ghost use Rattle.std.specs.Prelude.{◌≡◌, ◌++◌, ◌∷◌, ◌<◌, [], ℕ, length, slice_get, slice_set, Contains, IfOk, IfSome, MatchOption, OnOk, Some};
ghost use Rattle.p21_express.specs.NamedOwners.{AddsOwner, AddsOwners, AreBlank, AreOwnersOf, HasOwners, IsTable, listed, owners_of};
ghost use Rattle.p21_express_graph.specs.Orders.{numbers, number_lists};
ghost use Rattle.p21_express_graph.specs.Resolved.{IsEntity};
ghost use Rattle.p21_express_graph.specs.SettledOrder.{nexts_of};
ghost use Rattle.p21_spec_schema.specs.Schema.{attributes_of};

use p21_express_graph::{EntityId, Names, Place};
use p21_express_syntax::{AttributeName, Entity, ExplicitAttributes};
use p21_schema::Hierarchy;
use p21_values::NoMemory;
use std::alloc::Global;

/// For each name of an attribute that is redeclared, the entities that declare an attribute of that name.
#[derive(Drop)]
pub(crate) struct NamedOwners {
    names: Option<Names>,
    owners: Vec<Vec<EntityId>>,
}

impl NamedOwners {
    /// Those of the names that declarations redeclare.
    pub(crate) fn of(
        alloc: Global,
        hierarchy: &Hierarchy,
        declared: &[Entity],
    ) -> Result<NamedOwners, NoMemory>
        ensures { IfOk result (AreOwnersOf hierarchy.now) }
    {
        hierarchy.holds_together();
        let mut named = NamedOwners::without_owners(alloc, declared)?;
        for number in 0..hierarchy.entities() {
            named.add_entity(hierarchy, EntityId(number as u32))?;
        }
        Ok(named)
    }

    /// The entities that declare an attribute of a name, if it is one of these.
    pub(crate) fn find(&self, hierarchy: &Hierarchy, name: &[u8]) -> Option<&[EntityId]>
        requires { AreOwnersOf hierarchy.now self.now }
        ensures { IfSome result (λ owners. HasOwners hierarchy.now name.now (numbers owners.now)) }
    {
        match self.position(name) {
            Some(at) => Some(self.owners_at(at)),
            None => None,
        }
    }

    fn owners_at(&self, at: usize) -> &[EntityId]
        requires { at < length self.now.owners.items }
        ensures { numbers result.now ≡ owners_of self.now at }
    {
        &self.owners[at]
    }

    /// The names that declarations redeclare, as yet without owners.
    fn without_owners(alloc: Global, declared: &[Entity]) -> Result<NamedOwners, NoMemory>
        ensures { IfOk result AreBlank }
    {
        let mut redeclared = redeclared_names(alloc, declared)?;
        redeclared.sort_unstable();
        redeclared.dedup();
        let names = Names::of(alloc, &redeclared)?;
        let owners = empty_lists(alloc, redeclared.len())?;
        Ok(NamedOwners { names, owners })
    }

    /// Where a name stands among these.
    fn position(&self, name: &[u8]) -> Option<usize>
        ensures { MatchOption result (Contains (listed self.now) name.now → ⊥) (λ at. slice_get (listed self.now) at ≡ Some name.now) }
    {
        match &self.names {
            Some(names) => names.position(name),
            None => None,
        }
    }

    /// Adds an entity at the names of the attributes that it declares itself.
    fn add_entity(&mut self, hierarchy: &Hierarchy, owner: EntityId) -> Result<(), NoMemory>
        requires entity { IsEntity hierarchy.now owner.0 }
        requires table { IsTable self.old }
        ensures { OnOk result (AddsOwners hierarchy.now owner.0 (length (attributes_of hierarchy.now owner.0)) self.old self.new) }
    {
        for index in 0..hierarchy.attribute_count(owner) {
            let place = Place {
                entity: owner,
                index,
            };
            self.add_owner(owner, hierarchy.place_name(place))?;
        }
        Ok(())
    }

    /// Adds an entity at a name, if that is one of these.
    fn add_owner(&mut self, owner: EntityId, name: &[u8]) -> Result<(), NoMemory>
        requires { IsTable self.old }
        ensures { OnOk result (AddsOwner owner.0 name.now self.old self.new) }
    {
        match self.position(name) {
            Some(at) => {
                self.push_at(at, owner)?;
                Ok(())
            }
            None => Ok(()),
        }
    }

    fn push_at(&mut self, at: usize, owner: EntityId) -> Result<(), NoMemory>
        requires { at < length self.old.owners.items }
        ensures names { OnOk result (self.new.names ≡ self.old.names) }
        ensures owners { OnOk result (number_lists self.new.owners.items ≡ slice_set (number_lists self.old.owners.items) at
            (owners_of self.old at ++ owner.0 ∷ [])) }
    {
        self.owners[at].push(owner)?;
        Ok(())
    }
}

/// So many empty lists.
fn empty_lists(alloc: Global, count: usize) -> Result<Vec<Vec<EntityId>>, NoMemory>
    ensures size { IfOk result (λ lists. length lists.items ≡ count) }
    ensures empty { IfOk result (λ lists. (k : ℕ) → nexts_of (number_lists lists.items) k ≡ []) }
{
    let mut lists = Vec::with_capacity(alloc, count)?;
    for _ in 0..count {
        lists.push(Vec::new(alloc))?;
    }
    Ok(lists)
}

/// The names that declarations redeclare, each as often as they do.
fn redeclared_names<'a>(alloc: Global, declared: &'a [Entity]) -> Result<Vec<&'a [u8]>, NoMemory> {
    let mut names = Vec::new(alloc);
    for entity in declared {
        let entity: &Entity = entity;
        add_names_of(&mut names, entity)?;
    }
    Ok(names)
}

/// Adds the names that an entity redeclares.
fn add_names_of<'a>(names: &mut Vec<&'a [u8]>, entity: &'a Entity) -> Result<(), NoMemory> {
    for attributes in &entity.explicit {
        let attributes: &ExplicitAttributes = attributes;
        add_redeclared(names, &attributes.names)?;
    }
    add_redeclared(names, &entity.derived)
}

/// Adds the names that attributes redeclare.
fn add_redeclared<'a>(
    names: &mut Vec<&'a [u8]>,
    attributes: &'a [AttributeName],
) -> Result<(), NoMemory> {
    for attribute in attributes {
        let attribute: &AttributeName = attribute;
        if let AttributeName::Redeclared { entity: _, name } = attribute {
            names.push(name.bytes())?;
        }
    }
    Ok(())
}
