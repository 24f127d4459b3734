ghost use Rattle.std.specs.Prelude.{◌≡◌};

use p21_express_graph::EntityId;
use std::marker::Model;

/// Entities in a row: those that a schema keeps, or others.
#[derive(Debug, Drop)]
pub struct Ids<'a> {
    held: Held<'a>,
}

#[derive(Debug, Drop)]
enum Held<'a> {
    Kept(&'a [EntityId]),
    Own(Vec<EntityId>),
}

impl<'a> Model for Ids<'a> {
    ghost use Rattle.std.specs.Prelude.{List};
    ghost use Rattle.p21_express_graph.specs.declared.number.EntityId.{EntityId};
    ghost use Rattle.p21_schema.specs.Ids.{held_items};

    ghost Value = { List EntityId };

    ghost view = { λ ids. held_items ids.held };
}

impl<'a> Ids<'a> {
    /// These entities in this order, where they lie. It takes no memory.
    pub(crate) fn from_slice(ids: &'a [EntityId]) -> Ids<'a>
        ensures { result ≡ ids.now }
    {
        Ids {
            held: Held::Kept(ids),
        }
    }

    /// These entities in this order. It takes no memory.
    pub fn from_vec(ids: Vec<EntityId>) -> Ids<'a>
        ensures { result ≡ ids.items }
    {
        Ids {
            held: Held::Own(ids),
        }
    }

    /// The entities, first to last. It takes no memory.
    pub fn items(&self) -> &[EntityId]
        ensures { result.now ≡ self.now }
    {
        match &self.held {
            Held::Kept(ids) => ids,
            Held::Own(ids) => ids,
        }
    }
}
