//! What is claimed of whole files.
ghost use Rattle.p21_spec_basics.specs.Limits.{AreLimits};
ghost use Rattle.p21_spec_schema.specs.WellFormed.{IsWellFormed};
ghost use Rattle.p21_stream.specs.Claim.{Claim};

use p21_schema::Schema;
use p21_values::Limits;

/// The claim, of every schema that was read and of all limits: two files that are accepted mean the same exactly if their
/// canonical files are equal byte for byte; each canonical file is itself accepted, means what its source means, and is its
/// own; a file is refused only where it means nothing, or memory, reader or writer failed. How the bytes were cut into
/// pieces makes no difference. It does nothing.
pub fn headline(schema: &Schema, limits: Limits)
    ensures claim { Claim schema.now limits }
    ensures formed { IsWellFormed schema.now }
    ensures limits { AreLimits limits }
{
    schema.well_formed();
    let _ = limits.record_canonical();
    let _ = limits.file_canonical();
}
