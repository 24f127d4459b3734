ghost use Rattle.p21_spec_schema.specs.Schema.{EntityNamed, TypeNamed};
ghost use Rattle.p21_express_graph.specs.Resolved.{IsEntity, IsType};

use crate::schema::Schema;
use p21_express_graph::{EntityId, TypeId};
use p21_values::Word;

impl Schema {
    /// The name of an entity, as a word. It takes no memory.
    pub fn entity_word(&self, entity: EntityId) -> &Word
        requires { IsEntity self.now entity.0 }
        ensures { EntityNamed self.now entity.0 result.now }
    {
        &self.entity_at(entity).name
    }

    /// The name of a type, as a word. It takes no memory.
    pub fn type_word(&self, of: TypeId) -> &Word
        requires { IsType self.now of.0 }
        ensures { TypeNamed self.now of.0 result.now }
    {
        &self.defined_at(of).name
    }
}
