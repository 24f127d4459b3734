ghost use Rattle.std.specs.Prelude.{◌≡◌, ◌↔◌, ◌++◌, ◌∷◌, [], IsTrue, MatchOption};
ghost use Rattle.p21_spec_file.specs.BrokenValue.{IsLeftOut};
ghost use Rattle.p21_schema.specs.Base.{HasBase};
ghost use Rattle.p21_express_graph.specs.Resolved.{IsTypeUse};
ghost use Rattle.p21_express_graph.specs.Meaning.{place_type, type_use};
ghost use Rattle.p21_grammar_tree.specs.View.{items_of, key_view, view, views};
ghost use Rattle.p21_spec_exchange.specs.Parameter as parameter;
ghost use Rattle.p21_mapping.specs.Choosing.{IsBaseIn};
ghost use Rattle.p21_mapping.specs.Outcome.{ElementOrBreaks, ElementsOrBreak, FitsFrom, FitsOrBreaks, FitsPlaceOrBreaks, IsStoredIn};

use crate::aggregate::{aggregate_of, allows_count, element};
use crate::distinct::{keeps_unique, note_equal};
use crate::instance::{chosen, fit_name};
use crate::scalar::{fit_bits, fit_item, fit_real, fit_text, fit_whole, other_kind};
use crate::trail::{Trail, noted};
use p21_express_graph::{PlaceType, TypeUse};
use p21_grammar_tree::{CheckFault, Key, Param, Params};
use p21_mapping_values::{Need, Value, Values};
use p21_schema::{Base, Schema};
use std::alloc::Global;

/// After how many parameters their room is given back.
const AT_ONCE: usize = 1024;

/// Checks a parameter at a place where it is decided what may stand there, and adds what it needs of other instances to the
/// needs, in the order in which they are named (ISO 10303-21, mapping of EXPRESS data types).
///
/// # Errors
///
/// `DerivedNotStar` at a derived place; elsewhere the first fault in the order of the parameter: `Missing`,
/// `StarNotDerived`, `WrongKind`, `NumberRange`, `Width`, `UnknownItem`, `SelectType`, `Bounds`, those of the elements,
/// `NotDistinct`. `NoMemory`.
pub(crate) fn fit_place(
    alloc: Global,
    schema: &Schema,
    at: PlaceType<'_>,
    param: Param,
    needs: &mut Vec<Need>,
    trail: &mut Trail,
) -> Result<Value, CheckFault>
    requires { IsStoredIn schema.now (place_type at) }
    ensures { FitsPlaceOrBreaks schema.now (place_type at.entry) (view param) needs.old.items result needs.new.items }
{
    match at {
        PlaceType::Derived => {
            if is_star(&param) {
                Ok(Value::Derived)
            } else {
                Err(CheckFault::DerivedNotStar)
            }
        }
        PlaceType::Stored(optional, of) => {
            fit_stored(alloc, schema, param, optional, of, needs, trail)
        }
        PlaceType::Two => Err(CheckFault::TwoRedeclarations),
    }
}

/// Whether the parameter is `*`.
fn is_star(param: &Param) -> bool
    ensures { IsTrue result ↔ (view param.now ≡ parameter.star) }
{
    matches!(param, Param::Star)
}

/// A value of the type, or none where there may be none.
#[cycle(fit)]
fn fit_stored(
    alloc: Global,
    schema: &Schema,
    param: Param,
    optional: bool,
    of: &TypeUse,
    needs: &mut Vec<Need>,
    trail: &mut Trail,
) -> Result<Value, CheckFault>
    requires { IsTypeUse schema.now (type_use of.now) }
    ensures { ElementOrBreaks schema.now optional (type_use of.now) (view param) needs.old.items result needs.new.items }
{
    if is_left_out(optional, &param) {
        return Ok(Value::Missing);
    }
    fit(alloc, schema, param, of, needs, trail)
}

/// Whether the parameter is `$`, where there may be no value.
fn is_left_out(optional: bool, param: &Param) -> bool
    ensures { IsTrue result ↔ IsLeftOut optional (view param.now) }
{
    match param {
        Param::Dollar => optional,
        _ => false,
    }
}

/// What a type of the schema comes down to.
fn base_of<'a>(schema: &'a Schema, of: &'a TypeUse) -> Base<'a>
    requires { IsTypeUse schema.now (type_use of.now) }
    ensures has { HasBase schema.now (type_use of.now) result }
    ensures known { IsBaseIn schema.now result }
{
    schema.holds_together();
    schema.base(of)
}

/// A value of the type.
#[cycle(fit)]
fn fit(
    alloc: Global,
    schema: &Schema,
    param: Param,
    of: &TypeUse,
    needs: &mut Vec<Need>,
    trail: &mut Trail,
) -> Result<Value, CheckFault>
    requires { IsTypeUse schema.now (type_use of.now) }
    ensures { FitsOrBreaks schema.now (type_use of.now) (view param) needs.old.items result needs.new.items }
{
    let base = base_of(schema, of);
    match param {
        Param::Dollar => Err(CheckFault::Missing),
        Param::Star => Err(CheckFault::StarNotDerived),
        Param::Whole(whole) => fit_whole(alloc, base, whole),
        Param::Real(real) => fit_real(base, real),
        Param::Text(text) => fit_text(base, text),
        Param::Bits(bits) => fit_bits(base, bits),
        Param::Item(word) => fit_item(base, word),
        Param::Name(name) => fit_name(schema, base, name, needs),
        Param::List(params) => fit_list(alloc, schema, params, base, needs, trail),
        Param::Tagged(key, inner) => fit_tagged(
            alloc,
            schema,
            Box::into_inner(inner),
            key,
            base,
            needs,
            trail,
        ),
    }
}

/// A list, at an aggregate.
#[cycle(fit)]
fn fit_list(
    alloc: Global,
    schema: &Schema,
    params: Params,
    base: Base<'_>,
    needs: &mut Vec<Need>,
    trail: &mut Trail,
) -> Result<Value, CheckFault>
    requires { IsBaseIn schema.now base }
    ensures { FitsFrom schema.now base.entry (parameter.list (views (items_of params))) needs.old.items result needs.new.items }
{
    let Base::Plain(of) = base else {
        return Err(other_kind(base));
    };
    let Some((optional, element)) = element(of) else {
        return Err(CheckFault::WrongKind);
    };
    if !allows_count(of, params.items().len()) {
        return Err(CheckFault::Bounds);
    }
    let params = params.into_items();
    let values = fit_each(alloc, schema, params, optional, element, needs, trail)?;
    if !keeps_unique(alloc, schema, of, &values)? {
        note_equal(alloc, schema, &values, trail);
        return Err(CheckFault::NotDistinct);
    }
    Ok(aggregate_of(of, Values::from_vec(values)))
}

/// The elements of a list.
#[cycle(fit)]
fn fit_each(
    alloc: Global,
    schema: &Schema,
    params: Vec<Param>,
    optional: bool,
    of: &TypeUse,
    needs: &mut Vec<Need>,
    trail: &mut Trail,
) -> Result<Vec<Value>, CheckFault>
    requires { IsTypeUse schema.now (type_use of.now) }
    ensures { ElementsOrBreak schema.now optional (type_use of.now) (views params.items) needs.old.items result needs.new.items }
{
    let mut values = Vec::with_capacity(alloc, params.len())?;
    let mut left = params;
    left.reverse();
    while let Some(param) = last_taken(&mut left) {
        let found = fit_stored(alloc, schema, param, optional, of, needs, trail);
        let value = noted(found, trail, values.len())?;
        values.push(value)?;
    }
    Ok(values)
}

/// The last parameter of a row, taken out of it. After each so many the row gives back the room of those that were taken, so
/// that a long row and its values don't stand whole at once.
fn last_taken(left: &mut Vec<Param>) -> Option<Param>
    ensures { MatchOption result (left.old.items ≡ []) (λ param. left.old.items ≡ left.new.items ++ param ∷ []) }
{
    if !left.is_empty() && left.len().is_multiple_of(AT_ONCE) {
        left.shrink_to_fit();
    }
    left.pop()
}

/// A typed parameter, at a select that offers the type of its keyword.
#[cycle(fit)]
fn fit_tagged(
    alloc: Global,
    schema: &Schema,
    inner: Param,
    key: Key,
    base: Base<'_>,
    needs: &mut Vec<Need>,
    trail: &mut Trail,
) -> Result<Value, CheckFault>
    requires { IsBaseIn schema.now base }
    ensures { FitsFrom schema.now base.entry (parameter.typed (key_view key) (view inner)) needs.old.items result needs.new.items }
{
    let Some(chosen) = chosen(schema, &base, &key) else {
        return Err(other_kind(base));
    };
    let found = fit(
        alloc,
        schema,
        inner,
        &TypeUse::Defined(chosen),
        needs,
        trail,
    );
    let value = noted(found, trail, 0)?;
    Ok(Value::Tagged(chosen, Box::new(alloc, value)?))
}
