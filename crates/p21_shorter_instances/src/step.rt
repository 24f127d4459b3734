ghost use Rattle.std.specs.Prelude.{◌≡◌, List, ◌++◌, Contains, IfOk, IfSome, IsTrue, OnOk};
ghost use Rattle.p21_express_graph.specs.DirectRenaming.{ComesTo};
ghost use Rattle.p21_schema.specs.OwnSets.{LeavesOpen};
ghost use Rattle.p21_express_graph.specs.Resolved.{IsEntity, IsPlace, IsTypeUse};
ghost use Rattle.p21_express_graph.specs.Meaning.{place as place_of, type_use};
ghost use Rattle.p21_spec_schema.specs.Order.{order, own_places, places};
ghost use Rattle.p21_spec_schema.specs.PlaceType.{PlaceType as MeantPlaceType, TypeAt, stored_place, two_redeclarations};
ghost use Rattle.p21_spec_schema.specs.Schema as meant;
ghost use Rattle.p21_spec_schema.specs.Schema.{Place as MeantPlace};
ghost use Rattle.p21_shorter_instances.specs.Prepared as prepared;
ghost use Rattle.p21_shorter_instances.specs.Steps.{AreReals, AreStepsAt, IsStepAt, Prepares, step_view};

use crate::aggregate::{are_compared, element_of};
use crate::reals::is_real;
use p21_express_graph::{EntityId, Place, PlaceType, TypeUse};
use p21_schema::{Base, Schema};
use p21_values::NoMemory;
use std::alloc::Global;

/// What may stand at an attribute of an instance (ISO 10303-11, Attribute redeclaration).
#[derive(Debug, Drop)]
pub enum Step {
    /// `*`.
    Derived,
    /// A value of a type that comes down to this one, or `$` where it is OPTIONAL. No aggregates stand in it, one in another.
    Stored(bool, TypeUse),
    /// An aggregate of a type that comes down to this one, whose elements are reals that aren't compared.
    Reals(TypeUse),
    /// What may stand at this place of an instance whose set is the entity and its supertypes. The schema says it, so that no
    /// type of aggregates in aggregates is copied.
    Placed(EntityId, Place),
}

/// What may stand at the attributes of an instance whose set is an entity and its supertypes, in the order of internal
/// mapping.
///
/// # Errors
///
/// `NoMemory`.
pub(crate) fn find_steps(
    alloc: Global,
    schema: &Schema,
    entity: EntityId,
) -> Result<Vec<Step>, NoMemory>
    requires entity { IsEntity schema.now entity.0 }
    requires decided { LeavesOpen schema.now entity.0 → ⊥ }
    ensures { IfOk result (λ steps. AreStepsAt schema.now (order schema.now entity.0) (places schema.now entity.0) steps.items) }
{
    schema.holds_together();
    let mut steps = Vec::with_capacity(alloc, place_count(schema, entity))?;
    for owner in schema.order_of(entity) {
        push_steps(schema, entity, *owner, &mut steps)?;
    }
    Ok(steps)
}

/// How many attributes an instance has whose set is an entity and its supertypes.
fn place_count(schema: &Schema, entity: EntityId) -> usize
    requires { IsEntity schema.now entity.0 }
{
    schema.holds_together();
    let mut count: usize = 0;
    for owner in schema.order_of(entity) {
        count = count.saturating_add(own_count(schema, entity, *owner));
    }
    count
}

/// How many attributes one of these entities declares itself.
fn own_count(schema: &Schema, entity: EntityId, owner: EntityId) -> usize
    requires entity { IsEntity schema.now entity.0 }
    requires owner { Contains (order schema.now entity.0) owner.0 }
{
    schema.holds_together();
    schema.attribute_count(owner) as usize
}

/// Adds what may stand at the attributes that one of these entities declares itself.
fn push_steps(
    schema: &Schema,
    entity: EntityId,
    owner: EntityId,
    steps: &mut Vec<Step>,
) -> Result<(), NoMemory>
    requires entity { IsEntity schema.now entity.0 }
    requires owner { Contains (order schema.now entity.0) owner.0 }
    requires decided { LeavesOpen schema.now entity.0 → ⊥ }
    ensures { OnOk result ((before : List MeantPlace) → AreStepsAt schema.now (order schema.now entity.0) before steps.old.items
        → AreStepsAt schema.now (order schema.now entity.0) (before ++ own_places schema.now owner.0) steps.new.items) }
{
    schema.holds_together();
    let count = schema.attribute_count(owner);
    for index in 0..count {
        let place = Place {
            entity: owner,
            index,
        };
        let step = step_at(*steps.allocator(), schema, entity, place)?;
        steps.push(step)?;
    }
    Ok(())
}

/// What may stand at one of these attributes.
fn step_at(alloc: Global, schema: &Schema, entity: EntityId, place: Place) -> Result<Step, NoMemory>
    requires entity { IsEntity schema.now entity.0 }
    requires place { IsPlace schema.now (place_of place) }
    requires decided { TypeAt schema.now (order schema.now entity.0) (place_of place) two_redeclarations → ⊥ }
    ensures { IfOk result (λ step. IsStepAt schema.now (order schema.now entity.0) (place_of place) step) }
{
    schema.holds_together();
    match schema.own_type(entity, place) {
        PlaceType::Derived => Ok(Step::Derived),
        PlaceType::Stored(optional, of) => {
            let found = reduced_type(alloc, schema, of)?;
            match found {
                Some(last) => Ok(stored_step(schema, optional, last)),
                None => Ok(Step::Placed(entity, place)),
            }
        }
        PlaceType::Two => unreachable!(),
    }
}

/// What may stand where values of this type do.
fn stored_step(schema: &Schema, optional: bool, last: TypeUse) -> Step
    requires { IsTypeUse schema.now (type_use last) }
    ensures { (at : MeantPlaceType) → Prepares schema.now at (prepared.stored_step optional (type_use last))
        → Prepares schema.now at (step_view result) }
{
    if optional {
        return Step::Stored(optional, last);
    }
    if are_reals(schema, &last) {
        return Step::Reals(last);
    }
    Step::Stored(optional, last)
}

/// Whether the elements of an aggregate of this type are reals that aren't compared, none of which may be left out.
fn are_reals(schema: &Schema, of: &TypeUse) -> bool
    requires { IsTypeUse schema.now (type_use of.now) }
    ensures { IsTrue result → AreReals schema.now (type_use of.now) }
{
    let Some((optional, element)) = element_of(of) else {
        return false;
    };
    if optional || are_compared(of) {
        return false;
    }
    schema.holds_together();
    is_real(&schema.base(element))
}

/// What a type comes down to, where that is no declared type; else the type. None where aggregates stand in it, one in another.
fn reduced_type(alloc: Global, schema: &Schema, of: &TypeUse) -> Result<Option<TypeUse>, NoMemory>
    requires { IsTypeUse schema.now (type_use of.now) }
    ensures { IfOk result (λ found. IfSome found (λ last. IsTypeUse schema.now (type_use last)
        × ComesTo schema.now (type_use of.now) (type_use last))) }
{
    schema.holds_together();
    match schema.base(of) {
        Base::Plain(last) => copied_type(alloc, last),
        _ => copied_type(alloc, of),
    }
}

/// The type, where no aggregates stand in it, one in another.
fn copied_type(alloc: Global, of: &TypeUse) -> Result<Option<TypeUse>, NoMemory>
    ensures { IfOk result (λ found. IfSome found (λ same. type_use same ≡ type_use of.now)) }
{
    match of {
        TypeUse::List {
            low,
            high,
            unique,
            element,
        } => copied_list(alloc, *low, *high, *unique, element),
        TypeUse::Set { low, high, element } => copied_set(alloc, *low, *high, element),
        _ => Ok(single_type(of)),
    }
}

/// The type of lists with these elements, where they are no aggregates.
fn copied_list(
    alloc: Global,
    low: u32,
    high: Option<u32>,
    unique: bool,
    element: &TypeUse,
) -> Result<Option<TypeUse>, NoMemory>
    ensures { IfOk result (λ found. IfSome found (λ same. type_use same ≡ meant.list low high unique (type_use element.now))) }
{
    let Some(single) = single_type(element) else {
        return Ok(None);
    };
    let element = Box::new(alloc, single)?;
    Ok(Some(TypeUse::List {
        low,
        high,
        unique,
        element,
    }))
}

/// The type of sets with these elements, where they are no aggregates.
fn copied_set(
    alloc: Global,
    low: u32,
    high: Option<u32>,
    element: &TypeUse,
) -> Result<Option<TypeUse>, NoMemory>
    ensures { IfOk result (λ found. IfSome found (λ same. type_use same ≡ meant.set low high (type_use element.now))) }
{
    let Some(single) = single_type(element) else {
        return Ok(None);
    };
    let element = Box::new(alloc, single)?;
    Ok(Some(TypeUse::Set { low, high, element }))
}

/// A type, where it is no aggregate and so holds no other one.
fn single_type(of: &TypeUse) -> Option<TypeUse>
    ensures { IfSome result (λ same. type_use same ≡ type_use of.now) }
{
    match of {
        TypeUse::Whole => Some(TypeUse::Whole),
        TypeUse::Real => Some(TypeUse::Real),
        TypeUse::Number => Some(TypeUse::Number),
        TypeUse::Boolean => Some(TypeUse::Boolean),
        TypeUse::Logical => Some(TypeUse::Logical),
        TypeUse::Text(width) => Some(TypeUse::Text(*width)),
        TypeUse::Bits(width) => Some(TypeUse::Bits(*width)),
        TypeUse::Entity(entity) => Some(TypeUse::Entity(*entity)),
        TypeUse::Defined(defined) => Some(TypeUse::Defined(*defined)),
        _ => None,
    }
}
