//! An instance.
ghost use Rattle.p21_express_graph.specs.Meaning.{place as place_of};
ghost use Rattle.p21_spec_exchange.specs.Record.{Record};
ghost use Rattle.p21_spec_file.specs.CanonicalTexts.{IsInstanceText};
ghost use Rattle.std.specs.Prelude.{◌≡◌, ℕ, List};
ghost use Rattle.p21_model.specs.EntitiesLeft.{AreEntitiesOf, TellsEntities, TellsSet, set_schema};
ghost use Rattle.p21_model.specs.Left.{TellsRows, schema_of};
ghost use Rattle.p21_model.specs.Rows.{AreRowsOf, Row};
ghost use Rattle.p21_model.specs.Told.{TellsInstance, TellsValue};

use crate::attributes::Attributes;
use crate::entities::Entities;
use crate::record::record_of;
use p21_express_graph::Place;
use p21_model_values::Value;
use p21_schema::Schema;
use p21_values::Name;

/// An instance, by its name and its line in the canonical file.
#[derive(Clone, Copy)]
pub struct Instance<'a> {
    pub schema: &'a Schema,
    pub name: Name,
    pub line: &'a [u8],
}

impl<'a> Instance<'a> {
    /// The attributes with their values. It takes no memory.
    pub fn attributes(&self) -> Attributes<'a>
        ensures told { (record_ : Record) (stated : IsInstanceText self.now.schema.now self.now.name record_ self.now.line.now)
            → TellsInstance stated result }
        ensures any { (record_ : Record) (stated : IsInstanceText self.now.schema.now self.now.name record_ self.now.line.now)
            (rows : List Row) → AreRowsOf self.now.schema.now stated.canonical rows → TellsRows result rows }
        ensures schema { schema_of result ≡ self.now.schema.now }
    {
        Attributes::of_record(self.schema, record_of(self.line))
    }

    /// The entities of the instance's set: the entity of each keyword, and in internal mapping all above it. It takes no memory.
    pub fn entities(&self) -> Entities<'a>
        ensures told { (record_ : Record) (stated : IsInstanceText self.now.schema.now self.now.name record_ self.now.line.now)
            → TellsSet stated result }
        ensures any { (record_ : Record) (stated : IsInstanceText self.now.schema.now self.now.name record_ self.now.line.now)
            (entities : List ℕ) → AreEntitiesOf self.now.schema.now stated.canonical entities → TellsEntities result entities }
        ensures schema { set_schema result ≡ self.now.schema.now }
    {
        self.schema.holds_together();
        Entities::of_record(self.schema, record_of(self.line))
    }

    /// The value at an attribute, if the instance has it. It takes no memory.
    pub fn value(&self, place: Place) -> Option<Value<'a>>
        ensures { (record_ : Record) (stated : IsInstanceText self.now.schema.now self.now.name record_ self.now.line.now)
            → TellsValue stated (place_of place) result }
    {
        self.attributes().find(place)
    }
}
