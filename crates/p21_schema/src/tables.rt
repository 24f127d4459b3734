//! Prepared tables are built behind the contract, when a schema is made. For each entity they have:
//!
//! its rank by name among all; its closure rising by name, where that has 64 entities at most; whether the closure has
//! two entities of one ONEOF list; and where in its lists each place stands that it redeclares. For each place that is
//! redeclared they have the entities that do so.
//!
//! For each type they have what it offers as a SELECT, and the last one of the types that it renames, one behind the
//! other.
//!
//! `type_at` and `clashes` of other sets look these up, with no memory: one walk along the lists of two entities finds
//! whether they clash, and a place that no other entity redeclares is as declared, whatever the set. For a set with
//! many entities no order is walked and no pair is looked at: it has all supertypes if it has the direct ones of each,
//! `leaves` finds each supertype once on the way up, and `find_clash` notes at each ONEOF list who stands in it.
ghost use Rattle.std.specs.Prelude.{IfOk};
ghost use Rattle.p21_express_graph.specs.DirectRenaming.{AreEnds};
ghost use Rattle.p21_express_graph.specs.Offered.{AreOffered};
ghost use Rattle.p21_express_graph.specs.Orders.{numbers};
ghost use Rattle.p21_express_graph.specs.Ranking.{IsRanking};
ghost use Rattle.p21_express_graph.specs.Resolved.{HoldsTogether};
ghost use Rattle.p21_express_graph.specs.SchemaContents.{schema_of};
ghost use Rattle.p21_express_graph.specs.SettledOrder.{lists_of};
ghost use Rattle.p21_schema.specs.OwnSets.{AreOwnClashes};
ghost use Rattle.p21_schema.specs.Prepared.{IsPrepared};
ghost use Rattle.p21_schema.specs.Redeclarers.{AreRedeclared};
ghost use Rattle.p21_schema.specs.RisingSets.{AreRisingSets};
ghost use Rattle.p21_spec_schema.specs.Schema.{entity_member, type_member};

use crate::hierarchy::Hierarchy;
use crate::redeclarers::{RedeclaredPlaces, all_redeclared};
use crate::rising::all_rising_sets;
use p21_express_graph::{
    EntityId, Offered, Ranking, SchemaContents, all_ends, all_offered, rank_entities,
};
use p21_values::NoMemory;
use std::alloc::Global;

/// The tables that are prepared for the look-ups of a schema, beside those of its hierarchy.
#[derive(Drop)]
pub(crate) struct Tables {
    pub(crate) offered: Offered,
    // For each type the last one of those that it renames, one behind the other.
    pub(crate) ends: Vec<u32>,
    pub(crate) redeclared: RedeclaredPlaces,
    // Whether the own set of each entity clashes.
    pub(crate) own_clashes: Vec<bool>,
    pub(crate) ranking: Ranking,
    // For each entity, it and its supertypes, rising by name, where they are 64 at most.
    pub(crate) rising_sets: Vec<Option<Vec<EntityId>>>,
}

/// What is looked up by the number of a type, of an entity or of a place.
#[derive(Drop)]
struct ListTables {
    offered: Offered,
    ends: Vec<u32>,
    redeclared: RedeclaredPlaces,
}

/// What is known of the own set of each entity, and the ranks of the entities by name.
#[derive(Drop)]
struct SetTables {
    own_clashes: Vec<bool>,
    ranking: Ranking,
    rising_sets: Vec<Option<Vec<EntityId>>>,
}

/// The tables of a schema.
// Made in parts: few tables are alive where memory runs out, so that the proof has few to give back.
pub(crate) fn tables_of(alloc: Global, hierarchy: &Hierarchy) -> Result<Tables, NoMemory>
    ensures { IfOk result (IsPrepared hierarchy.now) }
{
    hierarchy.holds_together();
    let listed = list_tables(alloc, hierarchy.contents())?;
    let sets = set_tables(alloc, hierarchy)?;
    Ok(Tables {
        offered: listed.offered,
        ends: listed.ends,
        redeclared: listed.redeclared,
        own_clashes: sets.own_clashes,
        ranking: sets.ranking,
        rising_sets: sets.rising_sets,
    })
}

fn list_tables(alloc: Global, parts: &SchemaContents) -> Result<ListTables, NoMemory>
    requires { HoldsTogether (schema_of parts.now) }
    ensures entities { IfOk result (λ tables. AreOffered (schema_of parts.now) entity_member (lists_of tables.offered.entities.items)) }
    ensures types { IfOk result (λ tables. AreOffered (schema_of parts.now) type_member (lists_of tables.offered.types.items)) }
    ensures ends { IfOk result (λ tables. AreEnds (schema_of parts.now) tables.ends.items) }
    ensures redeclared { IfOk result (λ tables. AreRedeclared (schema_of parts.now) tables.redeclared) }
{
    let offered = all_offered(alloc, parts)?;
    let ends = all_ends(alloc, parts)?;
    let redeclared = all_redeclared(alloc, parts)?;
    Ok(ListTables {
        offered,
        ends,
        redeclared,
    })
}

fn set_tables(alloc: Global, hierarchy: &Hierarchy) -> Result<SetTables, NoMemory>
    ensures clashes { IfOk result (λ tables. AreOwnClashes hierarchy.now tables.own_clashes.items) }
    ensures ranking { IfOk result (λ tables. IsRanking hierarchy.now (numbers tables.ranking.rising.items) tables.ranking.ranks.items) }
    ensures rising { IfOk result (λ tables. AreRisingSets hierarchy.now tables.rising_sets.items) }
{
    hierarchy.holds_together();
    let own_clashes = hierarchy.all_own_clashes(alloc)?;
    let ranking = rank_entities(alloc, hierarchy.contents())?;
    let rising_sets = all_rising_sets(alloc, hierarchy, &ranking)?;
    Ok(SetTables {
        own_clashes,
        ranking,
        rising_sets,
    })
}
