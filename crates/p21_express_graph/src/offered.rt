ghost use Rattle.std.specs.Prelude.{◌≡◌, ◌↔◌, IfOk, IsTrue, map};
ghost use Rattle.p21_spec_schema.specs.Schema.{entity_member, type_member, kind_of};
ghost use Rattle.p21_spec_schema.specs.Select.{IsSelect};
ghost use Rattle.p21_express_graph.specs.Meaning.{member as member_of, kind as kind_meant};
ghost use Rattle.p21_express_graph.specs.Offered.{AreOffered, entity_numbers as entities_among, is_choice, members_of, plain_numbers as plain_among, type_numbers as types_among};
ghost use Rattle.p21_express_graph.specs.SchemaContents.{schema_of};
ghost use Rattle.p21_express_graph.specs.Resolved.{HoldsTogether, IsType, IsMember};
ghost use Rattle.p21_express_graph.specs.SettledOrder.{lists_of};

use crate::collected_lists::collected_lists;
use crate::kind::{Member, TypeKind};
use crate::schema_contents::{Defined, SchemaContents};
use p21_values::NoMemory;
use std::alloc::Global;

/// What the selects of a schema offer: for each type the entities, and the types that are no selects, in rising order.
#[derive(Drop)]
pub struct Offered {
    pub entities: Vec<Vec<u32>>,
    pub types: Vec<Vec<u32>>,
}

/// What the selects of the parts offer.
///
/// # Errors
///
/// `NoMemory`.
pub fn all_offered(alloc: Global, parts: &SchemaContents) -> Result<Offered, NoMemory>
    requires { HoldsTogether (schema_of parts.now) }
    ensures entities { IfOk result (λ offered. AreOffered (schema_of parts.now) entity_member (lists_of offered.entities.items)) }
    ensures types { IfOk result (λ offered. AreOffered (schema_of parts.now) type_member (lists_of offered.types.items)) }
{
    let nexts = type_lists(alloc, &parts.types)?;
    let entities = entity_lists(alloc, &parts.types)?;
    let types = plain_lists(alloc, parts)?;
    Ok(Offered {
        entities: collected_lists(alloc, &entities, &nexts)?,
        types: collected_lists(alloc, &types, &nexts)?,
    })
}

fn members(kind: &TypeKind) -> &[Member]
    ensures { map member_of result.now ≡ members_of (kind_meant kind.now) }
{
    match kind {
        TypeKind::Choice(members) => members.items(),
        _ => &[],
    }
}

/// The entities among the members of each select.
fn entity_lists(alloc: Global, types: &[Defined]) -> Result<Vec<Vec<u32>>, NoMemory>
    ensures { IfOk result (λ lists. lists_of lists.items ≡ map (λ x. entities_among (members_of (kind_meant x.kind))) types.now) }
{
    let mut lists = Vec::with_capacity(alloc, types.len())?;
    for defined in types {
        let defined: &Defined = defined;
        lists.push(entity_numbers(alloc, members(&defined.kind))?)?;
    }
    Ok(lists)
}

fn entity_numbers(alloc: Global, members: &[Member]) -> Result<Vec<u32>, NoMemory>
    ensures { IfOk result (λ found. found.items ≡ entities_among (map member_of members.now)) }
{
    let mut found = Vec::new(alloc);
    for member in members {
        match member {
            Member::Entity(entity) => found.push(entity.0)?,
            Member::Defined(_) => {}
        }
    }
    Ok(found)
}

/// For each type the types among its members, where it is a select (ISO 10303-11, Select data type).
///
/// # Errors
///
/// `NoMemory`.
pub fn type_lists(alloc: Global, types: &[Defined]) -> Result<Vec<Vec<u32>>, NoMemory>
    ensures { IfOk result (λ lists. lists_of lists.items ≡ map (λ x. types_among (members_of (kind_meant x.kind))) types.now) }
{
    let mut lists = Vec::with_capacity(alloc, types.len())?;
    for defined in types {
        let defined: &Defined = defined;
        lists.push(type_numbers(alloc, members(&defined.kind))?)?;
    }
    Ok(lists)
}

fn type_numbers(alloc: Global, members: &[Member]) -> Result<Vec<u32>, NoMemory>
    ensures { IfOk result (λ found. found.items ≡ types_among (map member_of members.now)) }
{
    let mut found = Vec::new(alloc);
    for member in members {
        match member {
            Member::Defined(of) => found.push(of.0)?,
            Member::Entity(_) => {}
        }
    }
    Ok(found)
}

/// The types that are no selects among the members of each select.
fn plain_lists(alloc: Global, parts: &SchemaContents) -> Result<Vec<Vec<u32>>, NoMemory>
    requires { HoldsTogether (schema_of parts.now) }
    ensures { IfOk result (λ lists. lists_of lists.items ≡ map (λ x. plain_among (schema_of parts.now) (members_of (kind_meant x.kind))) parts.now.types.items) }
{
    let mut lists = Vec::with_capacity(alloc, parts.types.len())?;
    for defined in &parts.types {
        let defined: &Defined = defined;
        lists.push(plain_numbers(alloc, parts, members(&defined.kind))?)?;
    }
    Ok(lists)
}

fn plain_numbers(
    alloc: Global,
    parts: &SchemaContents,
    members: &[Member],
) -> Result<Vec<u32>, NoMemory>
    ensures { IfOk result (λ found. found.items ≡ plain_among (schema_of parts.now) (map member_of members.now)) }
{
    let mut found = Vec::new(alloc);
    for member in members {
        match member {
            Member::Defined(of) => {
                if !is_select(parts, of.0) {
                    found.push(of.0)?;
                }
            }
            Member::Entity(_) => {}
        }
    }
    Ok(found)
}

fn is_select(parts: &SchemaContents, of: u32) -> bool
    ensures { result ≡ is_choice (kind_of (schema_of parts.now) of) }
{
    match parts.types.get(of as usize) {
        Some(defined) => matches!(defined.kind, TypeKind::Choice(_)),
        None => false,
    }
}
