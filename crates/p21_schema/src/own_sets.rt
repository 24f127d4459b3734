ghost use Rattle.std.specs.Prelude.{◌≡◌, ◌<◌, ◌↔◌, ℕ, IsTrue, length, Contains, IfOk, OnErr};
ghost use Rattle.p21_spec_schema.specs.Schema.{Place as MeantPlace};
ghost use Rattle.p21_spec_schema.specs.OneOf.{Clashes};
ghost use Rattle.p21_spec_schema.specs.Order.{order, own_places};
ghost use Rattle.p21_spec_schema.specs.PlaceType.{IsDerivedIn, TypeAt, two_redeclarations};
ghost use Rattle.p21_spec_schema.specs.Supertype.{IsA};
ghost use Rattle.p21_express_graph.specs.Lookups.{DerivesPlace};
ghost use Rattle.p21_express_graph.specs.Meaning.{place as place_of, place_type};
ghost use Rattle.p21_express_graph.specs.Orders.{numbers};
ghost use Rattle.p21_express_graph.specs.Resolved.{IsEntity, IsPlace};
ghost use Rattle.p21_express_graph.specs.Rising.{IsOwnRising};
ghost use Rattle.p21_schema.specs.Decisions.{IsDecision};
ghost use Rattle.p21_schema.specs.OwnSets.{LeavesOpen};
ghost use Rattle.p21_schema.specs.Redeclarers.{RedeclaresPlace};

use crate::ids::Ids;
use crate::place_types::Decision;
use crate::schema::Schema;
use p21_express_graph::{EntityId, Place, PlaceType};
use p21_values::NoMemory;

impl Schema {
    /// An entity and its supertypes, rising by name. It takes no memory where they are 64 at most.
    ///
    /// # Errors
    ///
    /// `NoMemory`, only where they are more than 64.
    pub fn own_rising(&self, entity: EntityId) -> Result<Ids<'_>, NoMemory>
        requires { IsEntity self.now entity.0 }
        ensures ok { IfOk result (λ entities. IsOwnRising self.now entity.0 (numbers entities)) }
        ensures err { OnErr result (64 < length (order self.now entity.0)) }
    {
        match &self.tables.rising_sets[entity.0 as usize] {
            Some(rising) => Ok(Ids::from_slice(rising)),
            None => {
                let rising = self.find_rising(entity)?;
                Ok(Ids::from_vec(rising))
            }
        }
    }

    /// What may stand at a place of an instance whose set is an entity and its supertypes (ISO 10303-11, Attribute
    /// redeclaration). It takes no memory.
    pub fn own_type(&self, entity: EntityId, place: Place) -> PlaceType<'_>
        requires entity { IsEntity self.now entity.0 }
        requires place { IsPlace self.now (place_of place) }
        ensures { TypeAt self.now (order self.now entity.0) (place_of place) (place_type result) }
    {
        self.decided_type(place, self.own_decision(entity, place))
    }

    /// Whether a place of such an instance is derived. It takes no memory.
    pub fn own_derives(&self, entity: EntityId, place: Place) -> bool
        requires { IsEntity self.now entity.0 }
        ensures { IsTrue result ↔ IsDerivedIn self.now (order self.now entity.0) (place_of place) }
    {
        self.holds_together();
        let redeclarers = self.redeclarers_of(place);
        let order = self.order_of(entity);
        if redeclarers.len() < order.len() {
            self.is_derived_in(redeclarers, Some(entity), place)
        } else {
            self.is_derived_in(order, Some(entity), place)
        }
    }

    /// Whether an entity of the schema redeclares a place as a derived attribute (ISO 10303-11, Attribute redeclaration).
    /// It takes no memory.
    pub fn is_derived(&self, place: Place) -> bool
        ensures { IsTrue result ↔ ((e : ℕ) × DerivesPlace self.now e (place_of place)) }
    {
        self.is_derived_in(self.redeclarers_of(place), None, place)
    }

    /// What decides on that type: of the entities that redeclare the place and those of the set, the fewer are looked at.
    fn own_decision(&self, entity: EntityId, place: Place) -> Decision
        requires { IsEntity self.now entity.0 }
        ensures { IsDecision self.now (order self.now entity.0) (place_of place) result }
    {
        self.holds_together();
        let redeclarers = self.redeclarers_of(place);
        if redeclarers.is_empty() {
            return Decision::Declared;
        }
        if redeclarers.len() == 1 {
            return self.decision_of_one(entity, redeclarers[0], place);
        }
        let order = self.order_of(entity);
        if redeclarers.len() < order.len() {
            self.decision_among(redeclarers, Some(entity), place)
        } else {
            self.decision_among(order, Some(entity), place)
        }
    }

    /// The same where no other entity redeclares the place.
    fn decision_of_one(&self, entity: EntityId, only: EntityId, place: Place) -> Decision
        requires entity { IsEntity self.now entity.0 }
        requires only_is { IsEntity self.now only.0 }
        requires only { (e : ℕ) → RedeclaresPlace self.now e (place_of place) → e ≡ only.0 }
        ensures { IsDecision self.now (order self.now entity.0) (place_of place) result }
    {
        self.holds_together();
        if !self.descends(entity, only) {
            return Decision::Declared;
        }
        if self.derives(only, None, place) {
            return Decision::Derived;
        }
        match self.redeclaration(only, place) {
            Some(at) => Decision::Redeclared(only, at),
            None => Decision::Declared,
        }
    }

    /// Whether an entity is another one or a subtype of it. Where the order of the one begins with that of the other, no
    /// supertype is looked up.
    fn descends(&self, entity: EntityId, other: EntityId) -> bool
        requires entity { IsEntity self.now entity.0 }
        requires other { IsEntity self.now other.0 }
        ensures { IsTrue result ↔ IsA self.now entity.0 other.0 }
    {
        self.hierarchy.begins_with(entity, other) || self.is_a(entity, other)
    }

    /// Whether two entities of the set of an entity and its supertypes stand in one ONEOF list (ISO 10303-11, Subtype/supertype
    /// constraints): no instance has such a set. It takes no memory.
    pub fn own_clashes(&self, entity: EntityId) -> bool
        requires { IsEntity self.now entity.0 }
        ensures { IsTrue result ↔ Clashes self.now (order self.now entity.0) }
    {
        self.tables.own_clashes[entity.0 as usize]
    }

    fn find_rising(&self, entity: EntityId) -> Result<Vec<EntityId>, NoMemory>
        requires { IsEntity self.now entity.0 }
        ensures { IfOk result (λ entities. IsOwnRising self.now entity.0 (numbers entities.items)) }
    {
        self.holds_together();
        self.rising(self.order_of(entity))
    }

    /// Whether redeclarations leave a place of the set of an entity and its supertypes open: entities redeclare it, and none of
    /// them is a subtype of all others that do (ISO 10303-11, Attribute redeclaration). No instance has such a set. All of the set
    /// is walked for it. It takes no memory.
    pub fn leaves_open(&self, entity: EntityId) -> bool
        requires { IsEntity self.now entity.0 }
        ensures { IsTrue result ↔ LeavesOpen self.now entity.0 }
    {
        self.holds_together();
        for owner in self.order_of(entity) {
            if self.leaves_open_of(entity, *owner) {
                return true;
            }
        }
        false
    }

    /// Whether redeclarations leave a place open that an entity of the own set declares.
    fn leaves_open_of(&self, entity: EntityId, owner: EntityId) -> bool
        requires entity { IsEntity self.now entity.0 }
        requires owner { IsEntity self.now owner.0 }
        ensures { IsTrue result ↔ ((p : MeantPlace) × Contains (own_places self.now owner.0) p
            × TypeAt self.now (order self.now entity.0) p two_redeclarations) }
    {
        for index in 0..self.attribute_count(owner) {
            let place = Place {
                entity: owner,
                index,
            };
            if self.is_open_at(entity, place) {
                return true;
            }
        }
        false
    }

    fn is_open_at(&self, entity: EntityId, place: Place) -> bool
        requires { IsEntity self.now entity.0 }
        ensures { IsTrue result ↔ TypeAt self.now (order self.now entity.0) (place_of place) two_redeclarations }
    {
        match self.own_decision(entity, place) {
            Decision::Two => true,
            _ => false,
        }
    }
}
