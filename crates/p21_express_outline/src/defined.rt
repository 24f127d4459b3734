ghost use Rattle.std.specs.Prelude.{◌≡◌, IfOk, map};
ghost use Rattle.p21_express_outline.specs.Finding.{DecidesClaim, Finds, FindsEach};
ghost use Rattle.p21_express_outline.specs.Known.{AreDifferent, AreFew, names_of};
ghost use Rattle.p21_express_outline.specs.Outline.{IsNoEntity, DigestKindIs, TypeOutline};
ghost use Rattle.p21_express_syntax.specs.Views.{body_view, defined_view};
ghost use Rattle.p21_express_graph.specs.SchemaContents.{defined as defined_of};
ghost use Rattle.p21_express_graph.specs.Meaning.{kind, type_use};

use crate::fault::SchemaFault;
use crate::lists::{copied, members_named};
use crate::names::check_distinct;
use crate::types::resolve_type;
use p21_express_graph::{Defined, KnownNames, Members, TypeKind, TypeUse, Words};
use p21_express_syntax::{Body, DefinedType};
use p21_values::{NoMemory, Word};
use std::alloc::Global;

/// A type isn't just the name of an entity.
fn check_no_entity(found: &TypeUse) -> Result<(), SchemaFault>
    ensures { DecidesClaim (IsNoEntity (type_use found.now)) result }
{
    match found {
        TypeUse::Entity(_entity) => Err(SchemaFault::UnknownName),
        TypeUse::Whole => Ok(()),
        TypeUse::Real => Ok(()),
        TypeUse::Number => Ok(()),
        TypeUse::Boolean => Ok(()),
        TypeUse::Logical => Ok(()),
        TypeUse::Text(_width) => Ok(()),
        TypeUse::Bits(_width) => Ok(()),
        TypeUse::Defined(_defined) => Ok(()),
        TypeUse::Array { .. } => Ok(()),
        TypeUse::List { .. } => Ok(()),
        TypeUse::Set { .. } => Ok(()),
        TypeUse::Bag { .. } => Ok(()),
    }
}

/// Copies of words, in their order.
fn copied_all(alloc: Global, words: &[Word]) -> Result<Vec<Word>, NoMemory>
    ensures { IfOk result (λ copies. copies.items ≡ words.now) }
{
    let mut copies = Vec::with_capacity(alloc, words.len())?;
    for word in words {
        let word: &Word = word;
        copies.push(copied(alloc, word)?)?;
    }
    Ok(copies)
}

/// What a type is declared as.
fn resolve_kind(alloc: Global, known: &KnownNames, body: &Body) -> Result<TypeKind, SchemaFault>
    requires few { AreFew known.now }
    requires different { AreDifferent known.now }
    ensures { Finds kind (DigestKindIs (names_of known.now) (body_view body.now)) result }
{
    match body {
        Body::Enumeration(items) => {
            check_distinct(alloc, items)?;
            let words = Words::from_vec(alloc, copied_all(alloc, items)?)?;
            Ok(TypeKind::Items(words))
        }
        Body::Select(names) => {
            check_distinct(alloc, names)?;
            let members = members_named(alloc, known, names)?;
            Ok(TypeKind::Choice(Members::from_vec(members)))
        }
        Body::Underlying(data_type) => {
            let found = resolve_type(alloc, known, data_type)?;
            check_no_entity(&found)?;
            Ok(TypeKind::Alias(found))
        }
    }
}

/// A declared type.
fn resolve_defined(
    alloc: Global,
    known: &KnownNames,
    declared: &DefinedType,
) -> Result<Defined, SchemaFault>
    requires few { AreFew known.now }
    requires different { AreDifferent known.now }
    ensures { Finds defined_of (TypeOutline (names_of known.now) (defined_view declared.now)) result }
{
    let kind = resolve_kind(alloc, known, &declared.body)?;
    Ok(Defined {
        name: copied(alloc, &declared.name)?,
        kind,
    })
}

/// All declared types.
pub(crate) fn resolve_types(
    alloc: Global,
    known: &KnownNames,
    declared: &[DefinedType],
) -> Result<Vec<Defined>, SchemaFault>
    requires few { AreFew known.now }
    requires different { AreDifferent known.now }
    ensures { FindsEach defined_of (TypeOutline (names_of known.now)) (map defined_view declared.now) result }
{
    let mut found = Vec::new(alloc);
    for defined in declared {
        let defined: &DefinedType = defined;
        found.push(resolve_defined(alloc, known, defined)?)?;
    }
    Ok(found)
}
