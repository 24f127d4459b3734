ghost use Rattle.p21_spec_exchange.specs.Parameter as parameter;
ghost use Rattle.p21_schema.specs.Base.{IsBase};
ghost use Rattle.p21_express_graph.specs.Resolved.{IsType};
ghost use Rattle.p21_grammar_tree.specs.View.{key_view};
ghost use Rattle.p21_mapping.specs.Choosing.{DecidesKey, DecidesName, IsBaseIn};
ghost use Rattle.p21_mapping.specs.Outcome.{FitsFrom};
ghost use Rattle.std.specs.Prelude.{IfSome};

use crate::scalar::other_kind;
use p21_express_graph::{Member, TypeId, TypeUse};
use p21_grammar_tree::{CheckFault, Key};
use p21_mapping_values::{Need, Value};
use p21_schema::{Base, Schema};
use p21_values::Name;

/// The name of an instance, at an entity or at a select that offers one. What the instance has to be is added to the needs.
pub(crate) fn fit_name(
    schema: &Schema,
    base: Base<'_>,
    name: Name,
    needs: &mut Vec<Need>,
) -> Result<Value, CheckFault>
    requires { IsBaseIn schema.now base }
    ensures { FitsFrom schema.now base.entry (parameter.name name) needs.old.items result needs.new.items }
{
    name.holds();
    let Some(wanted) = wanted(schema, &base) else {
        return Err(other_kind(base));
    };
    needs.push(Need {
        target: name,
        wanted,
    })?;
    Ok(Value::Reference(name))
}

/// What the instance has to be that is named at the type, if one may be named there.
fn wanted(schema: &Schema, base: &Base<'_>) -> Option<Member>
    requires { IsBaseIn schema.now base.now }
    ensures { DecidesName schema.now base.now result }
{
    match base {
        Base::Items(_) => None,
        Base::Select(select) => {
            if schema.offers_entity(*select) {
                Some(Member::Defined(*select))
            } else {
                None
            }
        }
        Base::Plain(of) => match of {
            TypeUse::Entity(entity) => Some(Member::Entity(*entity)),
            _ => None,
        },
    }
}

/// The type that the keyword of a typed parameter names, if the type is a select that offers it.
pub(crate) fn chosen(schema: &Schema, base: &Base<'_>, key: &Key) -> Option<TypeId>
    requires { IsBaseIn schema.now base.now }
    ensures decides { DecidesKey schema.now base.now (key_view key.now) result }
    ensures known { IfSome result (λ chosen. IsType schema.now chosen.0) }
{
    let Base::Select(select) = base else {
        return None;
    };
    key.word.holds();
    if key.user {
        return None;
    }
    schema.well_formed();
    let Some(chosen) = schema.type_named(key.word.bytes()) else {
        return None;
    };
    if schema.offers(*select, Member::Defined(chosen)) {
        Some(chosen)
    } else {
        None
    }
}
