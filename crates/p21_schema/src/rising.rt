ghost use Rattle.std.specs.Prelude.{◌≡◌, ◌<◌, ℕ, length, map, slice_index_or, Contains, IfOk};
ghost use Rattle.p21_express_graph.specs.Lookups.{AreEntities};
ghost use Rattle.p21_express_graph.specs.Orders.{numbers};
ghost use Rattle.p21_express_graph.specs.Rising.{HaveSame};
ghost use Rattle.p21_schema.specs.RisingSets.{AreRanked, AreRisingSets, IsRisingSet, RanksEntities};
ghost use Rattle.p21_spec_schema.specs.Order.{order};
ghost use Rattle.p21_spec_schema.specs.Schema.{AreRisingByName, Schema as Meant};

use crate::hierarchy::Hierarchy;
use crate::schema::Schema;
use p21_express_graph::{EntityId, Ranking, rising_numbers};
use p21_values::NoMemory;
use std::alloc::Global;

impl Schema {
    /// The same entities, each once, rising by name.
    ///
    /// # Errors
    ///
    /// `NoMemory`.
    pub fn rising(&self, listed: &[EntityId]) -> Result<Vec<EntityId>, NoMemory>
        requires { AreEntities self.now (numbers listed.now) }
        ensures same { IfOk result (λ entities. HaveSame (numbers listed.now) (numbers entities.items)) }
        ensures rising { IfOk result (λ entities. AreRisingByName self.now (numbers entities.items)) }
    {
        rising_of(self.alloc, &self.tables.ranking, listed)
    }
}

/// So many entities of a set are few.
const MOST_OF_A_RISING_SET: usize = 64;

/// For each entity, it and its supertypes, rising by name, where they are few.
pub(crate) fn all_rising_sets(
    alloc: Global,
    hierarchy: &Hierarchy,
    ranking: &Ranking,
) -> Result<Vec<Option<Vec<EntityId>>>, NoMemory>
    requires { RanksEntities hierarchy.now ranking.now }
    ensures { IfOk result (λ sets. AreRisingSets hierarchy.now sets.items) }
{
    hierarchy.holds_together();
    let count = hierarchy.entities();
    let mut sets = Vec::with_capacity(alloc, count)?;
    for number in 0..count {
        let order = hierarchy.order_of(EntityId(number as u32));
        let set = few_rising(alloc, ranking, order)?;
        sets.push(set)?;
    }
    Ok(sets)
}

/// Entities, rising by name, where they are few.
fn few_rising(
    alloc: Global,
    ranking: &Ranking,
    listed: &[EntityId],
) -> Result<Option<Vec<EntityId>>, NoMemory>
    requires { AreRanked ranking.now (numbers listed.now) }
    ensures { IfOk result (λ set. (s : Meant) (e : ℕ) → RanksEntities s ranking.now → numbers listed.now ≡ order s e → IsRisingSet s e set) }
{
    if listed.len() > MOST_OF_A_RISING_SET {
        return Ok(None);
    }
    let rising = rising_of(alloc, ranking, listed)?;
    Ok(Some(rising))
}

/// Entities, rising by name.
fn rising_of(
    alloc: Global,
    ranking: &Ranking,
    listed: &[EntityId],
) -> Result<Vec<EntityId>, NoMemory>
    requires { AreRanked ranking.now (numbers listed.now) }
    ensures same { IfOk result (λ entities. HaveSame (numbers listed.now) (numbers entities.items)) }
    ensures rising { IfOk result (λ entities. (s : Meant) → RanksEntities s ranking.now → AreRisingByName s (numbers entities.items)) }
{
    let found = ranks_in(alloc, &ranking.ranks, listed)?;
    let ranks = rising_numbers(found);
    let entities = entities_at(alloc, &ranking.rising, &ranks)?;
    Ok(entities)
}

/// The ranks of entities.
fn ranks_in(alloc: Global, ranks: &[u32], entities: &[EntityId]) -> Result<Vec<u32>, NoMemory>
    requires { (e : ℕ) → Contains (numbers entities.now) e → e < length ranks.now }
    ensures { IfOk result (λ found. found.items ≡ map (λ e. slice_index_or ranks.now e 0) (numbers entities.now)) }
{
    let mut found = Vec::with_capacity(alloc, entities.len())?;
    for entity in entities {
        found.push(ranks[entity.0 as usize])?;
    }
    Ok(found)
}

/// The entities of ranks.
fn entities_at(alloc: Global, rising: &[EntityId], ranks: &[u32]) -> Result<Vec<EntityId>, NoMemory>
    requires { (rank : ℕ) → Contains ranks.now rank → rank < length rising.now }
    ensures { IfOk result (λ found. numbers found.items ≡ map (λ rank. slice_index_or (numbers rising.now) rank 0) ranks.now) }
{
    let mut found = Vec::with_capacity(alloc, ranks.len())?;
    for rank in ranks {
        found.push(rising[*rank as usize])?;
    }
    Ok(found)
}
