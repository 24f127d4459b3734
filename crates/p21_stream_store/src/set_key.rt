//! Sets of entities as keys of a tree.
//!
//! The number of a membership is guessed from the first, the last and the count of its entities, among 64 that were
//! asked for, and compared before it counts.
ghost use Rattle.std.specs.Prelude.{◌≡◌, refl, Some};
ghost use Rattle.std.specs.Cmp.{eq_by_cmp_equiv, on_equiv, on_per, on_po, on_total, partial_equiv_from_equiv, po};
ghost use Rattle.std.specs.Ordering.{eq_by_cmp};
ghost use Rattle.p21_stream_store.specs.SetOrder.{by_size, by_size_total};
ghost use Rattle.p21_stream_store.specs.EntitySets.{key_items};

use crate::same_front::same_front;
use p21_express_graph::EntityId;
use std::cmp::Ordering;
use std::sync::ArcSlice;

/// A set of entities as a key: one that is kept, or entities that are looked for. Of two sets the one of fewer entities comes
/// first, so that most are told apart by a look at their lengths; sets of as many are compared entity by entity.
#[derive(Drop)]
pub(crate) enum SetKey {
    Kept(ArcSlice<EntityId>),
    Sought(Vec<EntityId>),
}

impl SetKey {
    fn entities(&self) -> &[EntityId]
        ensures { result.now ≡ key_items self.now }
    {
        match self {
            SetKey::Kept(set) => set.as_slice(),
            SetKey::Sought(entities) => entities,
        }
    }
}

impl PartialEq for SetKey {
    ghost eq = { λ a b. eq_by_cmp by_size (key_items a) (key_items b) };

    ghost laws = { on_per key_items (partial_equiv_from_equiv (eq_by_cmp_equiv by_size_total)) };

    fn eq(&self, other: &Self) -> bool {
        self.cmp(other).is_eq()
    }
}

impl Eq for SetKey {
    ghost laws = { on_equiv key_items (eq_by_cmp_equiv by_size_total) };
}

impl PartialOrd for SetKey {
    ghost partial_cmp = { λ a b. Some (by_size (key_items a) (key_items b)) };

    ghost laws = { on_po key_items (po by_size_total (λ a b. refl)) };

    fn partial_cmp(&self, other: &Self) -> Option<Ordering> {
        Some(self.cmp(other))
    }
}

impl Ord for SetKey {
    ghost cmp = { λ a b. by_size (key_items a) (key_items b) };

    ghost total = { on_total key_items by_size_total };

    ghost matches_partial_cmp = { λ a b. refl };

    ghost matches_eq = { λ a b. refl };

    fn cmp(&self, other: &Self) -> Ordering {
        compare(self.entities(), other.entities())
    }
}

/// Which of two sets comes first.
fn compare(entities: &[EntityId], others: &[EntityId]) -> Ordering
    ensures { result ≡ by_size entities.now others.now }
{
    let sizes = entities.len().cmp(&others.len());
    if sizes.is_ne() {
        return sizes;
    }
    let same = same_front(entities, others);
    compare_in_turn(&entities[same..], &others[same..])
}

ghost use Rattle.p21_stream_store.specs.SetOrder.{by_entities};

/// Which of two lists has the lower entity at the first place where they differ.
fn compare_in_turn(entities: &[EntityId], others: &[EntityId]) -> Ordering
    ensures { result ≡ by_entities entities.now others.now }
{
    entities.cmp(&others)
}
