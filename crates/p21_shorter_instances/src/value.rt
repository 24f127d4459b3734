//! A value, by what may stand at its attribute.
ghost use Rattle.std.specs.Prelude.{◌≡◌, ◌+◌, [], ◌∷◌, ◌++◌, length, false, true, IfNone, IfSome, IsTrue, IfOk};
ghost use Rattle.p21_spec_laws.specs.Needs.{FitsAtWithNeeds, FitsWithNeeds};
ghost use Rattle.p21_schema.specs.Base.{HasBase};
ghost use Rattle.p21_express_graph.specs.Resolved.{HoldsTogether, IsTypeUse};
ghost use Rattle.p21_express_graph.specs.Meaning.{place_type, type_use};
ghost use Rattle.p21_spec_schema.specs.Schema.{defined};
ghost use Rattle.p21_spec_schema.specs.Select.{IsSelect};
ghost use Rattle.p21_shorter_instances.specs.Leaving.{LeavesNeeds, LeavesText};
ghost use Rattle.p21_shorter_instances.specs.Steps.{IsStepForSome};
ghost use Rattle.p21_shorter_instances.specs.ArrangedElements.{compares_elements};
ghost use Rattle.p21_shorter_instances.specs.Elements.{AddsLength, IsAggregateOf, IsAtPlacesOf, TakesAggregate, TakesStoredEach};
ghost use Rattle.p21_shorter_instances.specs.Reals.{IsRealBase};
ghost use Rattle.p21_shorter_instances.specs.TakenParameters.{TakesStep};
ghost use Rattle.p21_shorter_instances.specs.TakenValues.{IsBaseInSchema, IsKnownAt, TakesBase, TakesEnclosedBase, TakesFront, TakesStored, TakesWithNeeds};

use crate::aggregate::{are_compared, element_of};
use crate::bare::append_plain;
use crate::choice::{append_chosen, append_offered};
use crate::delimiter::{append_delimiter, append_next_delimiter};
use crate::given_up::GivenUp;
use crate::length::add_length;
use crate::order::append_close;
use crate::reals::{append_all_reals, is_real};
use crate::scalar::append_listed;
use crate::step::Step;
use crate::taken::Taken;
use p21_express_graph::{PlaceType, TypeId, TypeUse};
use p21_mapping::allows_count;
use p21_schema::{Base, Schema};
use p21_shorter_tokens::{Draft, behind_separators};

/// How deep lists and typed parameters stand one in another at most, as in the grammar.
const NESTING: usize = 64;

/// What may stand at an attribute, or at a place of an aggregate: a value of a type that comes down to this, or `$` where it is
/// OPTIONAL. Lists and typed parameters stand at most so deep in it.
#[derive(Clone, Copy)]
struct Stored<'a> {
    schema: &'a Schema,
    optional: bool,
    base: &'a Base<'a>,
    most: usize,
}

/// An aggregate: its type, whether places may be empty, and the type of its elements.
#[derive(Clone, Copy)]
struct Aggregate<'a> {
    of: &'a TypeUse,
    optional: bool,
    element: &'a TypeUse,
}

/// Appends the canonical text of the value at the front, by what may stand at its attribute, and adds its references, in the
/// order in which they are named: what stands behind the value. Where it isn't taken this way, the text and the references
/// go on from those before.
#[inline(always)]
pub(crate) fn append_value<'a>(
    schema: &Schema,
    step: &Step,
    bytes: &'a [u8],
    taken: &mut Taken,
) -> Result<&'a [u8], GivenUp>
    requires { IsStepForSome schema.now step.now }
    ensures some { IfOk result (λ rest. TakesStep schema.now step.now bytes.now rest.now taken.old taken.new) }
    ensures draft { LeavesText result taken.old.draft taken.new.draft }
    ensures needs { LeavesNeeds result taken.old.needs.items taken.new.needs.items }
{
    schema.holds_together();
    match step {
        Step::Derived => append_delimiter(b'*', bytes, &mut taken.draft).ok_or(GivenUp::NotUsual),
        Step::Stored(optional, of) => {
            let base = base_of(schema, of);
            let at = Stored {
                schema,
                optional: *optional,
                base: &base,
                most: NESTING,
            };
            append_stored(&at, bytes, taken)
        }
        Step::Reals(of) => {
            schema.well_formed();
            let Some(count) = append_all_reals(of, bytes, &mut taken.draft) else {
                return Err(GivenUp::NotUsual);
            };
            Ok(&bytes[count..])
        }
        Step::Placed(entity, place) => {
            let at = schema.own_type(*entity, *place);
            let count = append_placed(schema, at, bytes, taken)?;
            Ok(&bytes[count..])
        }
    }
}

/// The same, by the type of the place: how many bytes the value has. Where redeclarations leave the type open, it isn't usual.
#[inline(never)]
pub(crate) fn append_placed(
    schema: &Schema,
    at: PlaceType<'_>,
    bytes: &[u8],
    taken: &mut Taken,
) -> Result<usize, GivenUp>
    requires { IsKnownAt schema.now (place_type at) }
    ensures some { IfOk result (λ count. TakesFront schema.now (FitsAtWithNeeds schema.now (place_type at.entry)) 64 bytes.now count
        taken.old taken.new) }
    ensures draft { LeavesText result taken.old.draft taken.new.draft }
    ensures needs { LeavesNeeds result taken.old.needs.items taken.new.needs.items }
{
    let rest = append_at(schema, at, bytes, taken)?;
    Ok(bytes.len() - rest.len())
}

/// The same: what stands behind the value.
#[inline(always)]
fn append_at<'a>(
    schema: &Schema,
    at: PlaceType<'_>,
    bytes: &'a [u8],
    taken: &mut Taken,
) -> Result<&'a [u8], GivenUp>
    requires { IsKnownAt schema.now (place_type at) }
    ensures some { IfOk result (λ rest. TakesWithNeeds schema.now (FitsAtWithNeeds schema.now (place_type at.entry)) 64 bytes.now rest.now
        taken.old taken.new) }
    ensures draft { LeavesText result taken.old.draft taken.new.draft }
    ensures needs { LeavesNeeds result taken.old.needs.items taken.new.needs.items }
{
    match at {
        PlaceType::Derived => {
            append_delimiter(b'*', bytes, &mut taken.draft).ok_or(GivenUp::NotUsual)
        }
        PlaceType::Stored(optional, of) => {
            let base = base_of(schema, of);
            let at = Stored {
                schema,
                optional,
                base: &base,
                most: NESTING,
            };
            append_stored(&at, bytes, taken)
        }
        PlaceType::Two => Err(GivenUp::NotUsual),
    }
}

/// A value, or `$` where there may be none.
#[inline(always)]
#[cycle(append)]
fn append_stored<'a>(
    at: &Stored<'_>,
    bytes: &'a [u8],
    taken: &mut Taken,
) -> Result<&'a [u8], GivenUp>
    requires { IsBaseInSchema at.now.schema.now at.now.base.now }
    ensures some { IfOk result (λ rest. TakesStored at.now bytes.now rest.now taken.old taken.new) }
    ensures draft { LeavesText result taken.old.draft taken.new.draft }
    ensures needs { LeavesNeeds result taken.old.needs.items taken.new.needs.items }
{
    match append_left_out(at.optional, bytes, &mut taken.draft) {
        Some(rest) => Ok(rest),
        None => append_present(at.schema, at.base, at.most, bytes, taken),
    }
}

/// `$` where there may be no value.
#[inline(always)]
fn append_left_out<'a>(optional: bool, bytes: &'a [u8], draft: &mut Draft) -> Option<&'a [u8]>
    ensures some { IfSome result (λ rest. (optional ≡ true) × (bytes.now ≡ 36 ∷ rest.now) × (draft.new ≡ draft.old ++ 36 ∷ [])) }
    ensures none { IfNone result (draft.new ≡ draft.old) }
{
    if !optional {
        return None;
    }
    append_delimiter(b'$', bytes, draft)
}

/// A value of a type that comes down to this.
#[inline(always)]
#[cycle(append)]
fn append_present<'a>(
    schema: &Schema,
    base: &Base<'_>,
    most: usize,
    bytes: &'a [u8],
    taken: &mut Taken,
) -> Result<&'a [u8], GivenUp>
    requires { IsBaseInSchema schema.now base.now }
    ensures some { IfOk result (λ rest. TakesBase schema.now base.now most bytes.now rest.now taken.old taken.new) }
    ensures draft { LeavesText result taken.old.draft taken.new.draft }
    ensures needs { LeavesNeeds result taken.old.needs.items taken.new.needs.items }
{
    match base {
        Base::Select(select) => {
            let count = append_choice(schema, *select, most, bytes, taken)?;
            Ok(&bytes[count..])
        }
        Base::Plain(of) => append_undeclared(schema, of, most, bytes, taken),
        Base::Items(words) => {
            let Some(count) = append_listed(words, bytes, &mut taken.draft) else {
                return Err(GivenUp::NotUsual);
            };
            Ok(&bytes[count..])
        }
    }
}

/// What a select offers, a reference or a typed parameter: how many bytes it has.
#[inline(never)]
#[cycle(append)]
fn append_choice(
    schema: &Schema,
    select: TypeId,
    most: usize,
    bytes: &[u8],
    taken: &mut Taken,
) -> Result<usize, GivenUp>
    requires { IsSelect schema.now select.0 }
    ensures some { IfOk result (λ count. TakesFront schema.now (FitsWithNeeds schema.now (defined select.0)) most bytes.now count taken.old
        taken.new) }
    ensures draft { LeavesText result taken.old.draft taken.new.draft }
    ensures needs { LeavesNeeds result taken.old.needs.items taken.new.needs.items }
{
    match bytes.first() {
        Some(b'#') => append_chosen(schema, select, bytes, taken),
        _ => {
            let rest = append_typed(schema, select, most, bytes, taken)?;
            Ok(bytes.len() - rest.len())
        }
    }
}

/// A typed parameter.
#[inline(always)]
#[cycle(append)]
fn append_typed<'a>(
    schema: &Schema,
    select: TypeId,
    most: usize,
    bytes: &'a [u8],
    taken: &mut Taken,
) -> Result<&'a [u8], GivenUp>
    requires { IsSelect schema.now select.0 }
    ensures some { IfOk result (λ rest. TakesWithNeeds schema.now (FitsWithNeeds schema.now (defined select.0)) most bytes.now rest.now
        taken.old taken.new) }
    ensures draft { LeavesText result taken.old.draft taken.new.draft }
    ensures needs { LeavesNeeds result taken.old.needs.items taken.new.needs.items }
{
    if most == 0 {
        return Err(GivenUp::NotUsual);
    }
    let Some((chosen, behind)) = append_offered(schema, select, bytes, &mut taken.draft) else {
        return Err(GivenUp::NotUsual);
    };
    let of = TypeUse::Defined(chosen);
    let base = base_of(schema, &of);
    append_enclosed(schema, &base, most - 1, behind, taken)
}

/// A value of a type that comes down to this, in parentheses.
#[inline(always)]
#[cycle(append)]
fn append_enclosed<'a>(
    schema: &Schema,
    base: &Base<'_>,
    most: usize,
    bytes: &'a [u8],
    taken: &mut Taken,
) -> Result<&'a [u8], GivenUp>
    requires { IsBaseInSchema schema.now base.now }
    ensures some { IfOk result (λ rest. TakesEnclosedBase schema.now base.now most bytes.now rest.now taken.old taken.new) }
    ensures draft { LeavesText result taken.old.draft taken.new.draft }
    ensures needs { LeavesNeeds result taken.old.needs.items taken.new.needs.items }
{
    let Some(opened) = append_next_delimiter(b'(', bytes, &mut taken.draft) else {
        return Err(GivenUp::NotUsual);
    };
    let inside = behind_separators(opened);
    let behind = append_present(schema, base, most, inside, taken)?;
    append_next_delimiter(b')', behind, &mut taken.draft).ok_or(GivenUp::NotUsual)
}

/// A value of a type that is no declared one.
#[inline(always)]
#[cycle(append)]
fn append_undeclared<'a>(
    schema: &Schema,
    of: &TypeUse,
    most: usize,
    bytes: &'a [u8],
    taken: &mut Taken,
) -> Result<&'a [u8], GivenUp>
    requires { HoldsTogether schema.now → IsTypeUse schema.now (type_use of.now) }
    ensures some { IfOk result (λ rest. TakesWithNeeds schema.now (FitsWithNeeds schema.now (type_use of.now)) most bytes.now rest.now
        taken.old taken.new) }
    ensures draft { LeavesText result taken.old.draft taken.new.draft }
    ensures needs { LeavesNeeds result taken.old.needs.items taken.new.needs.items }
{
    match element_of(of) {
        Some((optional, element)) => {
            let aggregate = Aggregate {
                of,
                optional,
                element,
            };
            let count = append_aggregate(schema, &aggregate, most, bytes, taken)?;
            Ok(&bytes[count..])
        }
        None => append_plain(of, bytes, taken),
    }
}

/// An aggregate: how many bytes it has.
#[inline(always)]
#[cycle(append)]
fn append_aggregate(
    schema: &Schema,
    aggregate: &Aggregate<'_>,
    most: usize,
    bytes: &[u8],
    taken: &mut Taken,
) -> Result<usize, GivenUp>
    requires known { HoldsTogether schema.now → IsTypeUse schema.now (type_use aggregate.now.of.now) }
    requires elements { IsAggregateOf (type_use aggregate.now.of.now) aggregate.now.optional (type_use aggregate.now.element.now) }
    ensures some { IfOk result (λ count. TakesFront schema.now (FitsWithNeeds schema.now (type_use aggregate.now.of.now)) most bytes.now
        count taken.old taken.new) }
    ensures draft { LeavesText result taken.old.draft taken.new.draft }
    ensures needs { LeavesNeeds result taken.old.needs.items taken.new.needs.items }
{
    if most == 0 {
        return Err(GivenUp::NotUsual);
    }
    schema.holds_together();
    schema.well_formed();
    let base = base_of(schema, aggregate.element);
    if are_reals(aggregate, &base) {
        return append_all_reals(aggregate.of, bytes, &mut taken.draft).ok_or(GivenUp::NotUsual);
    }
    let at = Stored {
        schema,
        optional: aggregate.optional,
        base: &base,
        most: most - 1,
    };
    append_any(&at, aggregate.of, bytes, taken)
}

/// Whether there stand reals alone, which aren't compared.
#[inline(always)]
fn are_reals(aggregate: &Aggregate<'_>, base: &Base<'_>) -> bool
    ensures { IsTrue result → (compares_elements (type_use aggregate.now.of.now) ≡ false) × (aggregate.now.optional ≡ false)
        × IsRealBase base.now }
{
    is_real(base) && !aggregate.optional && !are_compared(aggregate.of)
}

/// An aggregate with this at its places: how many bytes it has.
#[inline(never)]
#[cycle(append)]
fn append_any(
    at: &Stored<'_>,
    of: &TypeUse,
    bytes: &[u8],
    taken: &mut Taken,
) -> Result<usize, GivenUp>
    requires base { IsBaseInSchema at.now.schema.now at.now.base.now }
    requires places { IsAtPlacesOf (type_use of.now) at.now }
    ensures some { IfOk result (λ count. TakesFront at.now.schema.now (FitsWithNeeds at.now.schema.now (type_use of.now)) (at.now.most + 1)
        bytes.now count taken.old taken.new) }
    ensures draft { LeavesText result taken.old.draft taken.new.draft }
    ensures needs { LeavesNeeds result taken.old.needs.items taken.new.needs.items }
{
    let mut lengths = Vec::new(*taken.needs.allocator());
    let rest = append_counted(at, of, bytes, taken, &mut lengths)?;
    Ok(bytes.len() - rest.len())
}

/// An aggregate with this at its places, in parentheses. How long its elements are is kept where they are compared.
#[inline(always)]
#[cycle(append)]
fn append_counted<'a>(
    at: &Stored<'_>,
    of: &TypeUse,
    bytes: &'a [u8],
    taken: &mut Taken,
    lengths: &mut Vec<usize>,
) -> Result<&'a [u8], GivenUp>
    requires base { IsBaseInSchema at.now.schema.now at.now.base.now }
    requires empty { lengths.old.items ≡ [] }
    ensures some { IfOk result (λ rest. TakesAggregate at.now (type_use of.now) bytes.now rest.now taken.old taken.new) }
    ensures draft { LeavesText result taken.old.draft taken.new.draft }
    ensures needs { LeavesNeeds result taken.old.needs.items taken.new.needs.items }
{
    let start = taken.draft.len();
    let compared = are_compared(of);
    let Some(inside) = append_delimiter(b'(', bytes, &mut taken.draft) else {
        return Err(GivenUp::NotUsual);
    };
    let (count, behind) = append_each(at, compared, inside, taken, lengths)?;
    if !allows_count(of, count) {
        return Err(GivenUp::NotUsual);
    }
    at.schema.well_formed();
    append_close(of, start, lengths, behind, &mut taken.draft)
}

/// Elements with a comma between each two: how many, and what stands behind them. How long they are is added where they are
/// compared.
#[inline(always)]
#[cycle(append)]
fn append_each<'a>(
    at: &Stored<'_>,
    compared: bool,
    bytes: &'a [u8],
    taken: &mut Taken,
    lengths: &mut Vec<usize>,
) -> Result<(usize, &'a [u8]), GivenUp>
    requires { IsBaseInSchema at.now.schema.now at.now.base.now }
    ensures some { IfOk result (λ found. TakesStoredEach at.now compared found.0 bytes.now found.1.now lengths.old.items lengths.new.items
        taken.old taken.new) }
    ensures draft { LeavesText result taken.old.draft taken.new.draft }
    ensures needs { LeavesNeeds result taken.old.needs.items taken.new.needs.items }
{
    let first = behind_separators(bytes);
    if let Some(b')') = first.first() {
        return Ok((0, bytes));
    }
    let mut behind = append_element(at, compared, first, taken, lengths)?;
    let mut count = 1;
    while let Some(next) = append_next_delimiter(b',', behind, &mut taken.draft) {
        let inside = behind_separators(next);
        behind = append_element(at, compared, inside, taken, lengths)?;
        count += 1;
    }
    Ok((count, behind))
}

/// An element. How long it is is added where elements are compared.
#[inline(always)]
#[cycle(append)]
fn append_element<'a>(
    at: &Stored<'_>,
    compared: bool,
    bytes: &'a [u8],
    taken: &mut Taken,
    lengths: &mut Vec<usize>,
) -> Result<&'a [u8], GivenUp>
    requires { IsBaseInSchema at.now.schema.now at.now.base.now }
    ensures some { IfOk result (λ rest. TakesStored at.now bytes.now rest.now taken.old taken.new) }
    ensures lengths { IfOk result (λ rest. AddsLength compared (length taken.old.draft) (length taken.new.draft) lengths.old.items
        lengths.new.items) }
    ensures draft { LeavesText result taken.old.draft taken.new.draft }
    ensures needs { LeavesNeeds result taken.old.needs.items taken.new.needs.items }
{
    let before = taken.draft.len();
    let rest = append_stored(at, bytes, taken)?;
    if !add_length(compared, before, taken.draft.len(), lengths) {
        return Err(GivenUp::NoMemory);
    }
    Ok(rest)
}

/// What a type of the schema comes down to.
fn base_of<'a>(schema: &'a Schema, of: &'a TypeUse) -> Base<'a>
    requires { IsTypeUse schema.now (type_use of.now) }
    ensures has { HasBase schema.now (type_use of.now) result }
    ensures known { IsBaseInSchema schema.now result }
{
    schema.base(of)
}
