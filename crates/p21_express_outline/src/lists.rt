ghost use Rattle.std.specs.Prelude.{◌≡◌, IfOk};
ghost use Rattle.p21_express_outline.specs.Finding.{Finds, FindsEach};
ghost use Rattle.p21_express_outline.specs.Known.{AreFew, names_of};
ghost use Rattle.p21_express_outline.specs.Outline.{IsNamed, MemberIs};
ghost use Rattle.p21_express_graph.specs.Meaning.{member};

use crate::fault::SchemaFault;
use p21_express_graph::{EntityId, KnownNames, Member, TypeId};
use p21_values::{NoMemory, Word};
use std::alloc::Global;

/// A copy of a word.
pub(crate) fn copied(alloc: Global, word: &Word) -> Result<Word, NoMemory>
    ensures { IfOk result (λ copy. copy ≡ word.now) }
{
    word.holds();
    let bytes = word.bytes();
    Word::of_prefix(alloc, bytes, bytes.len())
}

/// The entity of a name.
fn entity_named(known: &KnownNames, name: &[u8]) -> Result<EntityId, SchemaFault>
    requires { AreFew known.now }
    ensures { Finds (λ e. e.0) (λ e. IsNamed (names_of known.now).entities e name.now) result }
{
    match known.entities.position(name) {
        Some(entity) => Ok(EntityId(entity as u32)),
        None => Err(SchemaFault::UnknownName),
    }
}

/// The entities of names.
pub(crate) fn entities_named(
    alloc: Global,
    known: &KnownNames,
    names: &[Word],
) -> Result<Vec<EntityId>, SchemaFault>
    requires { AreFew known.now }
    ensures { FindsEach (λ e. e.0) (λ name e. IsNamed (names_of known.now).entities e name) names.now result }
{
    let mut found = Vec::new(alloc);
    for name in names {
        let name: &Word = name;
        found.push(entity_named(known, name.bytes())?)?;
    }
    Ok(found)
}

/// The entity or type of a name.
fn member_named(known: &KnownNames, name: &[u8]) -> Result<Member, SchemaFault>
    requires { AreFew known.now }
    ensures { Finds member (λ m. MemberIs (names_of known.now) m name.now) result }
{
    if let Some(entity) = known.entities.position(name) {
        return Ok(Member::Entity(EntityId(entity as u32)));
    }
    match known.types.position(name) {
        Some(defined) => Ok(Member::Defined(TypeId(defined as u32))),
        None => Err(SchemaFault::UnknownName),
    }
}

/// The entities and types of names.
pub(crate) fn members_named(
    alloc: Global,
    known: &KnownNames,
    names: &[Word],
) -> Result<Vec<Member>, SchemaFault>
    requires { AreFew known.now }
    ensures { FindsEach member (λ name m. MemberIs (names_of known.now) m name) names.now result }
{
    let mut found = Vec::new(alloc);
    for name in names {
        let name: &Word = name;
        found.push(member_named(known, name.bytes())?)?;
    }
    Ok(found)
}
