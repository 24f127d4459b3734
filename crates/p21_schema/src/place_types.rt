//! Two walks decide which redeclaration counts. Of the entities of a set that redeclare a place, the first walk keeps
//! one after another, each a subtype of the one kept before it, and the second compares the last with all. If one of
//! them is a subtype of all others, it is that last one; so no other has to be compared.
ghost use Rattle.std.specs.Prelude.{◌≡◌, ◌↔◌, ℕ, List, IsTrue, Contains, MatchOption, IfSome, Some};
ghost use Rattle.p21_spec_schema.specs.Schema.{Redeclared as MeantRedeclared};
ghost use Rattle.p21_spec_schema.specs.PlaceType.{TypeAt, IsDerivedIn};
ghost use Rattle.p21_express_graph.specs.Meaning.{place as place_of, place_type};
ghost use Rattle.p21_express_graph.specs.Lookups.{AreEntities};
ghost use Rattle.p21_express_graph.specs.Orders.{numbers};
ghost use Rattle.p21_express_graph.specs.SchemaContents.{redeclared as redeclared_of};
ghost use Rattle.p21_express_graph.specs.Resolved.{IsEntity, IsPlace};
ghost use Rattle.p21_schema.specs.Decisions.{AreMembers, Counts, IsBelowAll, IsBelowLast, IsDecision, IsDeriving, IsLowest, IsRedeclaredAs, IsRedeclarer, IsRedeclaring};

use crate::schema::Schema;
use p21_express_graph::{EntityId, Place, PlaceType, Redeclared};

/// So many entities are asked for a place, one after another.
const MOST_ASKED_FOR_A_PLACE: usize = 1;

/// What decides on the type at a place of an instance.
#[derive(Clone, Copy, Debug, Drop)]
pub(crate) enum Decision {
    /// The declaration: no entity of the instance redeclares the place.
    Declared,
    /// An entity derives the place.
    Derived,
    /// What this entity redeclares, by its place in its list.
    Redeclared(EntityId, usize),
    /// Entities redeclare the place, and none of them is a subtype of all others that do.
    Two,
}

impl Schema {
    /// What may stand at a place of an instance with these entities (ISO 10303-11, Attribute redeclaration). It takes
    /// no memory.
    pub fn type_at(&self, entities: &[EntityId], place: Place) -> PlaceType<'_>
        requires entities { AreEntities self.now (numbers entities.now) }
        requires place { IsPlace self.now (place_of place) }
        ensures { TypeAt self.now (numbers entities.now) (place_of place) (place_type result) }
    {
        self.decided_type(place, self.decision(entities, place))
    }

    /// What may stand at a place where this is the decision.
    pub(crate) fn decided_type(&self, place: Place, decision: Decision) -> PlaceType<'_>
        requires place { IsPlace self.now (place_of place) }
        requires decided { (entities : List ℕ) × IsDecision self.now entities (place_of place) decision }
        ensures { (entities : List ℕ) → IsDecision self.now entities (place_of place) decision
            → TypeAt self.now entities (place_of place) (place_type result) }
    {
        match decision {
            Decision::Declared => {
                let attribute = self.attribute_at(place);
                PlaceType::Stored(attribute.optional, &attribute.type_use)
            }
            Decision::Derived => PlaceType::Derived,
            Decision::Redeclared(entity, at) => {
                let redeclared = self.redeclared_at(entity, at);
                PlaceType::Stored(redeclared.optional, &redeclared.type_use)
            }
            Decision::Two => PlaceType::Two,
        }
    }

    /// What an entity redeclares, by its place in its list.
    fn redeclared_at(&self, entity: EntityId, at: usize) -> &Redeclared
        requires { (r : MeantRedeclared) × IsRedeclaredAs self.now entity.0 at r }
        ensures { IsRedeclaredAs self.now entity.0 at (redeclared_of result.now) }
    {
        &self.entity_at(entity).redeclared[at]
    }

    /// What decides on the type at a place of an instance with these entities. Where they are few, what each redeclares is
    /// looked up, and not the place.
    fn decision(&self, entities: &[EntityId], place: Place) -> Decision
        requires { AreEntities self.now (numbers entities.now) }
        ensures { IsDecision self.now (numbers entities.now) (place_of place) result }
    {
        if entities.len() > MOST_ASKED_FOR_A_PLACE && self.redeclarers_of(place).is_empty() {
            return Decision::Declared;
        }
        self.decision_among(entities, None, place)
    }

    /// What decides on the type at a place of an instance, whose entities that redeclare the place are those of these that
    /// count.
    pub(crate) fn decision_among(
        &self,
        entities: &[EntityId],
        own: Option<EntityId>,
        place: Place,
    ) -> Decision
        requires entities { AreEntities self.now (numbers entities.now) }
        requires own { IfSome own (λ e. IsEntity self.now e.0) }
        ensures { (set : List ℕ) → AreMembers self.now (numbers entities.now) own (place_of place) set
            → IsDecision self.now set (place_of place) result }
    {
        if self.is_derived_in(entities, own, place) {
            return Decision::Derived;
        }
        match self.lowest(entities, own, place) {
            Some(lowest) => self.decision_by(lowest, entities, own, place),
            None => Decision::Declared,
        }
    }

    /// Whether the lowest entity that redeclares a place decides.
    fn decision_by(
        &self,
        lowest: EntityId,
        entities: &[EntityId],
        own: Option<EntityId>,
        place: Place,
    ) -> Decision
        requires entities { AreEntities self.now (numbers entities.now) }
        requires own { IfSome own (λ e. IsEntity self.now e.0) }
        requires lowest { IsLowest self.now (numbers entities.now) own (place_of place) lowest.0 }
        ensures { (set : List ℕ) → AreMembers self.now (numbers entities.now) own (place_of place) set
            → (IsDerivedIn self.now set (place_of place) → ⊥) → IsDecision self.now set (place_of place) result }
    {
        if !self.is_below(lowest, entities, own, place) {
            return Decision::Two;
        }
        match self.redeclaration(lowest, place) {
            Some(at) => Decision::Redeclared(lowest, at),
            None => unreachable!(),
        }
    }

    /// Whether an entity that counts derives a place.
    pub(crate) fn is_derived_in(
        &self,
        entities: &[EntityId],
        own: Option<EntityId>,
        place: Place,
    ) -> bool
        requires entities { AreEntities self.now (numbers entities.now) }
        requires own { IfSome own (λ e. IsEntity self.now e.0) }
        ensures { IsTrue result ↔ ((e : ℕ) × Contains (numbers entities.now) e × IsDeriving self.now own (place_of place) e) }
    {
        for entity in entities {
            if self.derives(*entity, own, place) {
                return true;
            }
        }
        false
    }

    /// An entity that counts and redeclares a place as an explicit attribute: where one of them is a subtype of all others,
    /// that one.
    fn lowest(&self, entities: &[EntityId], own: Option<EntityId>, place: Place) -> Option<EntityId>
        requires entities { AreEntities self.now (numbers entities.now) }
        requires own { IfSome own (λ e. IsEntity self.now e.0) }
        ensures { MatchOption result ((e : ℕ) → Contains (numbers entities.now) e → IsRedeclaring self.now own (place_of place) e → ⊥)
            (λ e. IsLowest self.now (numbers entities.now) own (place_of place) e.0) }
    {
        self.holds_together();
        let mut lowest: Option<EntityId> = None;
        for entity in entities {
            if self.redeclares_below(*entity, own, place, lowest) {
                lowest = Some(*entity);
            }
        }
        lowest
    }

    /// Whether an entity counts, redeclares a place as an explicit attribute, and is a subtype of the last one that was found
    /// to.
    fn redeclares_below(
        &self,
        entity: EntityId,
        own: Option<EntityId>,
        place: Place,
        last: Option<EntityId>,
    ) -> bool
        requires entity { IsEntity self.now entity.0 }
        requires own { IfSome own (λ e. IsEntity self.now e.0) }
        ensures { IsTrue result ↔ (IsRedeclaring self.now own (place_of place) entity.0 × IsBelowLast self.now entity.0 last) }
    {
        if !self.redeclares(entity, own, place) {
            return false;
        }
        match last {
            Some(other) => self.is_a(entity, other),
            None => true,
        }
    }

    /// Whether an entity is a subtype of all others that count and redeclare a place as an explicit attribute.
    fn is_below(
        &self,
        entity: EntityId,
        entities: &[EntityId],
        own: Option<EntityId>,
        place: Place,
    ) -> bool
        requires entity { IsEntity self.now entity.0 }
        requires entities { AreEntities self.now (numbers entities.now) }
        requires own { IfSome own (λ e. IsEntity self.now e.0) }
        ensures { IsTrue result ↔ IsBelowAll self.now (numbers entities.now) own (place_of place) entity.0 }
    {
        for other in entities {
            if self.redeclares(*other, own, place) && !self.is_a(entity, *other) {
                return false;
            }
        }
        true
    }

    /// Whether an entity counts, and derives a place.
    pub(crate) fn derives(&self, entity: EntityId, own: Option<EntityId>, place: Place) -> bool
        requires entity { IsEntity self.now entity.0 }
        requires own { IfSome own (λ e. IsEntity self.now e.0) }
        ensures { IsTrue result ↔ IsDeriving self.now own (place_of place) entity.0 }
    {
        let places = self.places_redeclared(entity);
        match places.derived.find(place) {
            Some(_at) => self.counts(entity, own),
            None => false,
        }
    }

    /// Whether an entity counts, and redeclares a place as an explicit attribute.
    fn redeclares(&self, entity: EntityId, own: Option<EntityId>, place: Place) -> bool
        requires entity { IsEntity self.now entity.0 }
        requires own { IfSome own (λ e. IsEntity self.now e.0) }
        ensures { IsTrue result ↔ IsRedeclaring self.now own (place_of place) entity.0 }
    {
        match self.redeclaration(entity, place) {
            Some(_at) => self.counts(entity, own),
            None => false,
        }
    }

    /// Whether an entity counts: all do where no entity is given, else that one and its supertypes.
    fn counts(&self, entity: EntityId, own: Option<EntityId>) -> bool
        requires { IfSome own (λ e. IsEntity self.now e.0) }
        ensures { IsTrue result ↔ Counts self.now own entity.0 }
    {
        match own {
            Some(own) => self.is_a(own, entity),
            None => true,
        }
    }

    /// Where in its list an entity redeclares a place as an explicit attribute.
    pub(crate) fn redeclaration(&self, entity: EntityId, place: Place) -> Option<usize>
        requires { IsEntity self.now entity.0 }
        ensures { MatchOption result (IsRedeclarer self.now (place_of place) entity.0 → ⊥)
            (λ at. (r : MeantRedeclared) × IsRedeclaredAs self.now entity.0 at r × (r.place ≡ place_of place)) }
    {
        let places = self.places_redeclared(entity);
        places.redeclared.find(place)
    }
}
