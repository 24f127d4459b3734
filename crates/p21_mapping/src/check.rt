//! A record is checked by value: `check_owned_record` takes it and moves its texts, numbers and names into the typed
//! record. Recursion follows the parameter alone; renamed types are passed in a separate step without recursion. So
//! whoever could build and drop a parameter can have it checked, and callers owe no bound on its depth.
//!
//! `check_record` copies the record and checks the copy. So the check has one walk and one proof. A number or a binary
//! is copied by its canonical spelling, a text character by character, so that the crates below need no copies; a
//! session uses `check_owned_record` and copies nothing.
ghost use Rattle.std.specs.Prelude.{◌≡◌, IfOk, MatchResult};
ghost use Rattle.p21_express_graph.specs.Orders.{numbers};
ghost use Rattle.p21_express_graph.specs.Resolved.{HoldsTogether};
ghost use Rattle.p21_grammar_tree.specs.View.{record_view};
ghost use Rattle.p21_mapping.specs.ArrangedRows.{HasRows};
ghost use Rattle.p21_mapping.specs.Outcome.{needs_view};
ghost use Rattle.p21_mapping.specs.Checked.{ChecksRecord};
ghost use Rattle.p21_mapping.specs.Shape.{HasShape, IsOwnClosure, Refuses, listed_in, own_of};
ghost use Rattle.p21_mapping_values.specs.TypedView.{rows_view};
ghost use Rattle.p21_spec_schema.specs.WellFormed.{IsWellFormed};

use crate::arranged_rows::arranged_rows;
use crate::fitted::{EntitySet, complex_rows, simple_rows};
use crate::positions::Positions;
use crate::refused_shape::note_refused_shape;
use crate::shape::{Shape, shape_of};
use crate::trail::Trail;
use p21_express_graph::EntityId;
use p21_grammar_tree::{CheckFault, Record};
use p21_mapping_values::{Need, Rows, Typed, Values};
use p21_schema::Schema;
use p21_values::NoMemory;
use std::alloc::Global;

/// Checks a record against a schema, and moves its texts, numbers and names into the typed record that it means (ISO
/// 10303-21, Mapping of EXPRESS entity data types: internal mapping, external mapping). It also answers what the record
/// needs of the instances that it refers to, in the order in which it names them. The trail then leads to the value that is
/// refused, if one is.
///
/// # Errors
///
/// In this order: `UnknownEntity`, `PartTwice`, `PartMissing`, `Abstract`, `OneOf`, `TwoRedeclarations`, `Count`; then the
/// fault of the first parameter that doesn't fit its place. `NoMemory`.
pub fn check_owned_record<'a>(
    alloc: Global,
    schema: &'a Schema,
    of: Record,
    trail: &mut Trail,
) -> Result<(Typed<'a>, Vec<Need>), CheckFault>
    ensures { ChecksRecord schema.now (record_view of) result }
{
    trail.clear();
    schema.well_formed();
    schema.holds_together();
    match shape_of(alloc, schema, &of) {
        Ok(shape) => check_with_shape(alloc, schema, shape, of, trail),
        Err(fault) => {
            note_refused_shape(alloc, schema, &of, fault, trail);
            Err(fault)
        }
    }
}

/// Checks a record whose entities are known.
fn check_with_shape<'a>(
    alloc: Global,
    schema: &'a Schema,
    shape: Shape<'a>,
    of: Record,
    trail: &mut Trail,
) -> Result<(Typed<'a>, Vec<Need>), CheckFault>
    requires formed { IsWellFormed schema.now }
    requires holds { HoldsTogether schema.now }
    requires own { IsOwnClosure schema.now (own_of shape.listed) (numbers shape.entities) }
    requires shape { HasShape schema.now (record_view of) (listed_in schema.now shape.listed) (numbers shape.entities) }
    ensures { ChecksRecord schema.now (record_view of) result }
{
    let Shape { listed, entities } = shape;
    let in_order = listed.entities(schema);
    let mut needs = Vec::new(alloc);
    let rows = {
        let own = listed.own();
        let positions = set_positions(alloc, own, entities.items())?;
        let set = EntitySet {
            schema,
            own,
            entities: positions,
        };
        match rows_of(alloc, &set, in_order, of, &mut needs, trail) {
            Ok(rows) => rows,
            Err(fault) => return Err(fault),
        }
    };
    let values = arranged_rows(alloc, entities.items(), in_order, rows)?;
    let typed = Typed {
        parts: entities,
        values: Rows::from_vec(values),
    };
    Ok((typed, needs))
}

/// The positions of the entities of a set. Those of a closure are looked for nowhere.
fn set_positions<'a>(
    alloc: Global,
    own: Option<EntityId>,
    entities: &'a [EntityId],
) -> Result<Positions<'a>, NoMemory>
    ensures { IfOk result (λ positions. positions ≡ numbers entities.now) }
{
    match own {
        Some(_) => Ok(Positions::unkept(entities)),
        None => Positions::of(alloc, entities),
    }
}

/// The values of the places of each entity, in the order of the record.
fn rows_of(
    alloc: Global,
    set: &EntitySet<'_>,
    listed: &[EntityId],
    of: Record,
    needs: &mut Vec<Need>,
    trail: &mut Trail,
) -> Result<Vec<Values>, CheckFault>
    requires holds { HoldsTogether set.now.schema.now }
    requires formed { IsWellFormed set.now.schema.now }
    requires own { IsOwnClosure set.now.schema.now set.now.own set.now.entities }
    requires shape { HasShape set.now.schema.now (record_view of) (numbers listed.now) set.now.entities }
    ensures { MatchResult result (λ rows. HasRows set.now.schema.now (record_view of) (numbers listed.now) set.now.entities
        (rows_view rows.items) (needs_view needs.old.items) (needs_view needs.new.items)) (Refuses set.now.schema.now (record_view of)) }
{
    match of {
        Record::Simple(part) => {
            let params = part.params.into_items();
            simple_rows(alloc, set, listed, params, needs, trail)
        }
        Record::Complex(parts) => {
            complex_rows(alloc, set, listed, parts.into_items(), needs, trail)
        }
    }
}
