//! The entity sets of two instances.
ghost use Rattle.std.specs.Prelude.{◌≡◌, ◌↔◌, IsTrue};
ghost use Rattle.p21_spec_exchange.specs.Record.{Record};
ghost use Rattle.p21_spec_file.specs.CanonicalTexts.{IsInstanceText};

use p21_model::Instance;
use p21_schema::Schema;
use p21_values::Name;

/// Whether two canonical lines of one name are of one set of entities. Canonical records have their keywords in one order.
pub(crate) fn have_one_set(schema: &Schema, name: u64, first: &[u8], second: &[u8]) -> bool
    ensures { (record_ other : Record) (stated : IsInstanceText schema.now name record_ first.now)
        (others : IsInstanceText schema.now name other second.now) →
        IsTrue result ↔ (stated.canonical_meaning.entities ≡ others.canonical_meaning.entities) }
{
    schema.well_formed();
    schema.holds_together();
    let before = Instance {
        schema,
        name: Name(name),
        line: first,
    };
    let after = Instance {
        schema,
        name: Name(name),
        line: second,
    };
    let mut left = before.entities();
    let mut others = after.entities();
    while let Some(entity) = left.next() {
        let Some(beside) = others.next() else {
            return false;
        };
        if entity.0 != beside.0 {
            return false;
        }
    }
    match others.next() {
        Some(_) => false,
        None => true,
    }
}
