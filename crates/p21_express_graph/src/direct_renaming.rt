ghost use Rattle.std.specs.Prelude.{◌≡◌, ℕ, length, map, slice_index_or, IfOk, MatchOption, Some};
ghost use Rattle.p21_spec_schema.specs.Declared.{Renames};
ghost use Rattle.p21_spec_schema.specs.Schema.{alias, defined, kind_of};
ghost use Rattle.p21_express_graph.specs.Meaning.{kind as kind_meant, type_use};
ghost use Rattle.p21_express_graph.specs.DirectRenaming.{IsPlain, AreEnds, IsEnd, RenamesNone, direct_renaming as renamed_in};
ghost use Rattle.p21_express_graph.specs.SchemaContents.{schema_of};
ghost use Rattle.p21_express_graph.specs.Resolved.{HoldsTogether, IsType};
ghost use Rattle.p21_express_graph.specs.SettledOrder.{IsSettledOrder, lists_of};

use crate::kind::TypeKind;
use crate::number::TypeId;
use crate::schema_contents::{Defined, SchemaContents};
use crate::settle::settled_order;
use crate::type_use::TypeUse;
use p21_values::NoMemory;
use std::alloc::Global;

/// For each type the last one of those that it renames, one behind the other.
///
/// # Errors
///
/// `NoMemory`.
pub fn all_ends(alloc: Global, parts: &SchemaContents) -> Result<Vec<u32>, NoMemory>
    requires { HoldsTogether (schema_of parts.now) }
    ensures { IfOk result (λ ends. AreEnds (schema_of parts.now) ends.items) }
{
    let lists = renamed_lists(alloc, &parts.types)?;
    match settled_order(alloc, &lists)? {
        Some(listed) => ends(alloc, parts, &listed),
        None => unreachable!(),
    }
}

/// The declared type that a type is just the name of.
pub fn declared(of: &TypeUse) -> Option<TypeId>
    ensures { MatchOption result (IsPlain (type_use of.now)) (λ t. type_use of.now ≡ defined t.0) }
{
    match of {
        TypeUse::Defined(t) => Some(*t),
        _ => None,
    }
}

/// The declared type that another one renames.
fn direct_renaming(kind: &TypeKind) -> Option<TypeId>
    ensures { MatchOption result (RenamesNone (kind_meant kind.now)) (λ t. kind_meant kind.now ≡ alias (defined t.0)) }
{
    match kind {
        TypeKind::Alias(of) => declared(of),
        TypeKind::Items(_) => None,
        TypeKind::Choice(_) => None,
    }
}

fn renamed_list(alloc: Global, kind: &TypeKind) -> Result<Vec<u32>, NoMemory>
    ensures { IfOk result (λ list. list.items ≡ renamed_in (kind_meant kind.now)) }
{
    let mut list = Vec::new(alloc);
    match direct_renaming(kind) {
        Some(next) => list.push(next.0)?,
        None => {}
    }
    Ok(list)
}

/// For each type the declared type that it renames.
fn renamed_lists(alloc: Global, types: &[Defined]) -> Result<Vec<Vec<u32>>, NoMemory>
    ensures { IfOk result (λ lists. lists_of lists.items ≡ map (λ x. renamed_in (kind_meant x.kind)) types.now) }
{
    let mut lists = Vec::with_capacity(alloc, types.len())?;
    for defined in types {
        let defined: &Defined = defined;
        lists.push(renamed_list(alloc, &defined.kind)?)?;
    }
    Ok(lists)
}

/// For each type the last one that it renames, where each type is listed behind the one that it renames.
fn ends(alloc: Global, parts: &SchemaContents, listed: &[u32]) -> Result<Vec<u32>, NoMemory>
    requires holds { HoldsTogether (schema_of parts.now) }
    requires settled_order { IsSettledOrder (map (λ x. renamed_in x.kind) (schema_of parts.now).types) listed.now }
    ensures { IfOk result (λ ends. AreEnds (schema_of parts.now) ends.items) }
{
    let mut ends = vec![in alloc; 0; parts.types.len()]?;
    for number in listed {
        let end = end_of(parts, *number, &ends);
        ends[*number as usize] = end;
    }
    Ok(ends)
}

/// The last type that one renames, where that of the next is known.
fn end_of(parts: &SchemaContents, of: u32, ends: &[u32]) -> u32
    requires holds { HoldsTogether (schema_of parts.now) }
    requires of { IsType (schema_of parts.now) of }
    requires size { length ends.now ≡ length (schema_of parts.now).types }
    requires next { (t : ℕ) → Renames (schema_of parts.now) of t → IsEnd (schema_of parts.now) t (slice_index_or ends.now t 0) }
    ensures { IsEnd (schema_of parts.now) of result }
{
    match direct_renaming(kind_in(parts, of)) {
        Some(next) => ends[next.0 as usize],
        None => of,
    }
}

fn kind_in(parts: &SchemaContents, of: u32) -> &TypeKind
    requires { IsType (schema_of parts.now) of }
    ensures { kind_of (schema_of parts.now) of ≡ Some (kind_meant result.now) }
{
    &parts.types[of as usize].kind
}
