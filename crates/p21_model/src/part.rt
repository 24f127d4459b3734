//! The beginning of a simple record.
ghost use Rattle.std.specs.Prelude.{◌≡◌, ◌<◌, ◌++◌, ◌∷◌, ℕ, List, length, IfSome, IsNone, MatchOption};
ghost use Rattle.p21_express_graph.specs.Resolved.{IsEntity};
ghost use Rattle.p21_spec_exchange.specs.Keyword.{IsKeyword};
ghost use Rattle.p21_spec_schema.specs.Schema.{EntityNamed};
ghost use Rattle.p21_model.specs.Left.{NoKeywordFirst};

use p21_express_graph::EntityId;
use p21_scan::scan_keyword;
use p21_schema::Schema;

/// The entity that the keyword at the front names, and what stands behind the byte that follows.
pub(crate) fn leading_part<'a>(schema: &Schema, bytes: &'a [u8]) -> Option<(EntityId, &'a [u8])>
    ensures entity { IfSome result (λ found. IsEntity schema.now found.0.0) }
    ensures shorter { IfSome result (λ found. length found.1.now < length bytes.now) }
    ensures some { (word rest : List ℕ) (e : ℕ) → IsKeyword word → EntityNamed schema.now e word → bytes.now ≡ word ++ (40 ∷ rest)
        → MatchOption result ⊥ (λ found. (found.0.0 ≡ e) × (found.1.now ≡ rest)) }
    ensures none { NoKeywordFirst bytes.now → IsNone result }
{
    let Some((word, behind)) = scan_keyword(bytes) else {
        return None;
    };
    let Some(entity) = schema.entity(word) else {
        return None;
    };
    let Some((_, rest)) = behind.split_first() else {
        return None;
    };
    schema.holds_together();
    Some((entity, rest))
}
