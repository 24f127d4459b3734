//! Two instances of one set of entities, attribute by attribute.
ghost use Rattle.std.specs.Prelude.{◌≡◌, ◌<◌, IfSome, List};
ghost use Rattle.p21_differences.specs.OtherValues.{HandsOutOther, TellsBoth, TellsDifferences, values_schema, values_size};
ghost use Rattle.p21_express_graph.specs.Meaning.{place as place_of};
ghost use Rattle.p21_express_graph.specs.Resolved.{IsPlace};
ghost use Rattle.p21_model.specs.Rows.{Row};
ghost use Rattle.p21_spec_exchange.specs.Record.{Record};
ghost use Rattle.p21_spec_file.specs.CanonicalTexts.{IsInstanceText};

use crate::texts::differ;
use p21_express_graph::Place;
use p21_model::{Attributes, Instance, Value};

/// An attribute at which two instances have different values, with both.
#[derive(Clone, Copy)]
pub struct OtherValue<'a> {
    pub place: Place,
    pub before: Value<'a>,
    pub after: Value<'a>,
}

/// The attributes of two instances side by side, of which some have been compared.
#[derive(Clone, Copy)]
pub struct OtherValues<'a> {
    first: Attributes<'a>,
    second: Attributes<'a>,
}

impl<'a> OtherValues<'a> {
    /// The attributes of two instances of one set of entities, both under the schema of the first.
    pub fn new(first: &Instance<'a>, second: &Instance<'a>) -> OtherValues<'a>
        ensures told { (record_ other : Record) (stated : IsInstanceText first.now.schema.now first.now.name record_ first.now.line.now)
            (others : IsInstanceText first.now.schema.now second.now.name other second.now.line.now) →
            stated.canonical_meaning.entities ≡ others.canonical_meaning.entities → TellsDifferences stated others result }
        ensures schema { values_schema result ≡ first.now.schema.now }
    {
        first.schema.well_formed();
        first.schema.holds_together();
        let other = Instance {
            schema: first.schema,
            name: second.name,
            line: second.line,
        };
        OtherValues {
            first: first.attributes(),
            second: other.attributes(),
        }
    }

    /// The next attribute at which the values differ. It takes no memory.
    pub fn next(&mut self) -> Option<OtherValue<'a>>
        ensures handed { (rows others : List Row) → TellsBoth self.old rows others → HandsOutOther rows others result self.new }
        ensures place { IfSome result (λ found. IsPlace (values_schema self.old) (place_of found.place)) }
        ensures schema { values_schema self.new ≡ values_schema self.old }
        ensures shorter { IfSome result (λ found. values_size self.new < values_size self.old) }
    {
        while let Some(before) = self.first.next() {
            let Some(after) = self.second.next() else {
                return None;
            };
            if differ(before.value.text, after.value.text) {
                return Some(OtherValue {
                    place: before.place,
                    before: before.value,
                    after: after.value,
                });
            }
        }
        None
    }
}
