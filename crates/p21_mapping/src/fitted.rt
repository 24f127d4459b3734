ghost use Rattle.std.specs.Prelude.{◌≡◌, ◌≤◌, [], length, map, reverse, IfOk, MatchResult};
ghost use Rattle.std.specs.List.{AllByRecursion as Each, flat_map, zip};
ghost use Rattle.p21_express_graph.specs.Lookups.{AreEntities};
ghost use Rattle.p21_express_graph.specs.Orders.{numbers};
ghost use Rattle.p21_express_graph.specs.Resolved.{IsEntity, IsPlace};
ghost use Rattle.p21_express_graph.specs.Meaning.{place as place_of, place_type};
ghost use Rattle.p21_spec_file.specs.Meaning.{HasPlaceTypes};
ghost use Rattle.p21_grammar_tree.specs.View.{part_views, view as tree};
ghost use Rattle.p21_mapping.specs.Outcome.{needs_view};
ghost use Rattle.p21_mapping.specs.Rows.{FitsHere, RefusesAmong, RefusesHere, RefusesPart, RefusesRow, TakesParts, TakesRow, TakesRows, left_views, param_views};
ghost use Rattle.p21_spec_exchange.specs.Record.{complex};
ghost use Rattle.p21_mapping.specs.Shape.{AreNamed, HasCounts, IsOwnClosure};
ghost use Rattle.p21_mapping_values.specs.TypedView.{rows_view};
ghost use Rattle.p21_mapping_values.specs.View.{list_of, view};
ghost use Rattle.p21_spec_schema.specs.Order.{own_places};
ghost use Rattle.p21_spec_schema.specs.PlaceType.{TypeAt, two_redeclarations};
ghost use Rattle.p21_spec_schema.specs.Schema.{attributes_of};

use crate::among::type_among;
use crate::place::fit_place;
use crate::positions::Positions;
use crate::trail::Trail;
use p21_express_graph::{EntityId, Place, PlaceType};
use p21_grammar_tree::{CheckFault, Param, Part};
use p21_mapping_values::{Need, Value, Values};
use p21_schema::Schema;
use p21_values::NoMemory;
use std::alloc::Global;

/// The set of entities of a record, in a schema.
#[derive(Drop)]
pub(crate) struct EntitySet<'a> {
    pub schema: &'a Schema,
    /// The entity whose closure it is, where that is known.
    pub own: Option<EntityId>,
    pub entities: Positions<'a>,
}

/// What may stand at a place of a set of entities. Where the set is the closure of one, this is known beforehand.
fn type_here<'a>(
    alloc: Global,
    set: &EntitySet<'a>,
    place: Place,
) -> Result<PlaceType<'a>, NoMemory>
    requires own { IsOwnClosure set.now.schema.now set.now.own set.now.entities }
    requires entities { AreEntities set.now.schema.now set.now.entities }
    requires place { IsPlace set.now.schema.now (place_of place) }
    ensures { IfOk result (λ at. TypeAt set.now.schema.now set.now.entities (place_of place) (place_type at)) }
{
    match set.own {
        Some(entity) => Ok(set.schema.own_type(entity, place)),
        None => type_among(alloc, set.schema, &set.entities, place),
    }
}

/// The value of a parameter at a place of a set of entities.
fn fit_here(
    alloc: Global,
    set: &EntitySet<'_>,
    place: Place,
    param: Param,
    needs: &mut Vec<Need>,
    trail: &mut Trail,
) -> Result<Value, CheckFault>
    requires own { IsOwnClosure set.now.schema.now set.now.own set.now.entities }
    requires entities { AreEntities set.now.schema.now set.now.entities }
    requires place { IsPlace set.now.schema.now (place_of place) }
    requires decided { TypeAt set.now.schema.now set.now.entities (place_of place) two_redeclarations → ⊥ }
    ensures { MatchResult result (λ found. FitsHere set.now.schema.now set.now.entities (place_of place) (tree param) (view found)
        (needs_view needs.old.items) (needs_view needs.new.items))
        (RefusesHere set.now.schema.now set.now.entities (place_of place) (tree param)) }
{
    set.schema.holds_together();
    let at = type_here(alloc, set, place)?;
    let found = fit_place(alloc, set.schema, at, param, needs, trail);
    found
}

/// The values of the places that an entity declares, which as many of the parameters stand at. They are taken from the
/// end of the row, where the first one stands.
pub(crate) fn fit_row(
    alloc: Global,
    set: &EntitySet<'_>,
    owner: EntityId,
    params: &mut Vec<Param>,
    needs: &mut Vec<Need>,
    trail: &mut Trail,
) -> Result<Values, CheckFault>
    requires own { IsOwnClosure set.now.schema.now set.now.own set.now.entities }
    requires entities { AreEntities set.now.schema.now set.now.entities }
    requires owner { IsEntity set.now.schema.now owner.0 }
    requires decided { HasPlaceTypes set.now.schema.now set.now.entities owner.0 }
    requires enough { length (attributes_of set.now.schema.now owner.0) ≤ length (reverse params.old.items) }
    ensures { MatchResult result (λ values. TakesRow set.now.schema.now set.now.entities owner.0 (left_views params.old.items)
        (left_views params.new.items) (map view (list_of values)) (needs_view needs.old.items) (needs_view needs.new.items))
        (RefusesRow set.now.schema.now set.now.entities owner.0 (left_views params.old.items)) }
{
    let count = set.schema.attribute_count(owner);
    let mut values = Vec::with_capacity(alloc, count as usize)?;
    for index in 0..count {
        let Some(param) = params.pop() else {
            unreachable!()
        };
        let place = Place {
            entity: owner,
            index,
        };
        match fit_here(alloc, set, place, param, needs, trail) {
            Ok(value) => values.push(value)?,
            Err(fault) => {
                trail.note_attribute(place);
                return Err(fault);
            }
        }
    }
    Ok(Values::from_vec(values))
}

/// The values of the places of entities, one entity behind the other, which as many parameters stand at.
pub(crate) fn simple_rows(
    alloc: Global,
    set: &EntitySet<'_>,
    listed: &[EntityId],
    params: Vec<Param>,
    needs: &mut Vec<Need>,
    trail: &mut Trail,
) -> Result<Vec<Values>, CheckFault>
    requires own { IsOwnClosure set.now.schema.now set.now.own set.now.entities }
    requires entities { AreEntities set.now.schema.now set.now.entities }
    requires listed { AreEntities set.now.schema.now (numbers listed.now) }
    requires decided { Each (HasPlaceTypes set.now.schema.now set.now.entities) (numbers listed.now) }
    requires each { length params.items ≡ length (flat_map (own_places set.now.schema.now) (numbers listed.now)) }
    ensures { MatchResult result (λ rows. TakesRows set.now.schema.now set.now.entities (numbers listed.now) (param_views params.items) []
        (rows_view rows.items) (needs_view needs.old.items) (needs_view needs.new.items))
        (RefusesAmong set.now.schema.now set.now.entities (zip (flat_map (own_places set.now.schema.now) (numbers listed.now))
        (param_views params.items))) }
{
    let count = params.len();
    let mut left = params;
    left.reverse();
    let mut rows = Vec::with_capacity(alloc, listed.len())?;
    for owner in listed {
        match fit_row(alloc, set, *owner, &mut left, needs, trail) {
            Ok(row) => rows.push(row)?,
            Err(fault) => {
                trail.note_parameter(0, count, left.len());
                return Err(fault);
            }
        }
    }
    Ok(rows)
}

/// The values of the places that each entity declares, which the parameters of its simple record stand at.
pub(crate) fn complex_rows(
    alloc: Global,
    set: &EntitySet<'_>,
    listed: &[EntityId],
    parts: Vec<Part>,
    needs: &mut Vec<Need>,
    trail: &mut Trail,
) -> Result<Vec<Values>, CheckFault>
    requires own { IsOwnClosure set.now.schema.now set.now.own set.now.entities }
    requires entities { AreEntities set.now.schema.now set.now.entities }
    requires decided { Each (HasPlaceTypes set.now.schema.now set.now.entities) (numbers listed.now) }
    requires named { AreNamed set.now.schema.now (part_views parts.items) (numbers listed.now) }
    requires counts { HasCounts set.now.schema.now (complex (part_views parts.items)) }
    ensures { MatchResult result (λ rows. TakesParts set.now.schema.now set.now.entities (numbers listed.now) (part_views parts.items) []
        (rows_view rows.items) (needs_view needs.old.items) (needs_view needs.new.items))
        (RefusesPart set.now.schema.now set.now.entities (part_views parts.items)) }
{
    let mut left = parts.into_iter();
    let mut rows = Vec::with_capacity(alloc, listed.len())?;
    for owner in listed {
        let Some(part) = left.next() else {
            unreachable!()
        };
        let mut params = part.params.into_items();
        let count = params.len();
        params.reverse();
        match fit_row(alloc, set, *owner, &mut params, needs, trail) {
            Ok(row) => rows.push(row)?,
            Err(fault) => {
                trail.note_parameter(rows.len(), count, params.len());
                return Err(fault);
            }
        }
    }
    Ok(rows)
}
