ghost use Rattle.p21_spec_basics.specs.Limits.{usual};
ghost use Rattle.std.specs.Prelude.{◌≡◌, ◌≤◌, ◌↔◌, IsSome, IfSome};

use std::marker::Model;

/// How many bytes a file and its statements may have, in the source and in canonical form. The canonical form never has
/// more than the source may have.
#[derive(Clone, Copy, Debug, PartialEq, Eq)]
pub struct Limits {
    record_source: u64,
    record_canonical: u64,
    file_source: u64,
    file_canonical: u64,
}

impl Model for Limits {
    ghost use Rattle.p21_spec_basics.specs.Limits.{Limits as LimitNumbers};
    ghost use Rattle.std.specs.Prelude.{◌≤◌};

    ghost Value = { LimitNumbers };

    ghost view = { λ a. record {
      record_source = a.record_source;
      record_canonical = a.record_canonical;
      file_source = a.file_source;
      file_canonical = a.file_canonical;
    } };

    ghost invariant = { λ a. (a.record_canonical ≤ a.record_source) × (a.file_canonical ≤ a.file_source) };

    ghost inverse = { λ v. record {
      record_source = v.record_source;
      record_canonical = v.record_canonical;
      file_source = v.file_source;
      file_canonical = v.file_canonical;
    } };
}

impl Limits {
    /// Limits in bytes: of the tokens of a statement, of a canonical statement, of a file, and of its canonical form.
    /// None if a canonical form may have more than the source may have. It takes no memory.
    pub fn new(
        record_source: u64,
        record_canonical: u64,
        file_source: u64,
        file_canonical: u64,
    ) -> Option<Limits>
        ensures some { IsSome result ↔ ((record_canonical ≤ record_source) × (file_canonical ≤ file_source)) }
        ensures record_source { IfSome result (λ limits. limits.record_source ≡ record_source) }
        ensures record_canonical { IfSome result (λ limits. limits.record_canonical ≡ record_canonical) }
        ensures file_source { IfSome result (λ limits. limits.file_source ≡ file_source) }
        ensures file_canonical { IfSome result (λ limits. limits.file_canonical ≡ file_canonical) }
    {
        if record_canonical > record_source || file_canonical > file_source {
            return None;
        }
        Some(Limits {
            record_source,
            record_canonical,
            file_source,
            file_canonical,
        })
    }

    /// 512 MiB for a statement and 256 MiB for its canonical form, 64 GiB for a file and 4 GiB for its canonical form.
    /// It takes no memory.
    pub fn usual() -> Limits
        ensures { result ≡ usual }
    {
        Limits {
            record_source: 536_870_912,
            record_canonical: 268_435_456,
            file_source: 68_719_476_736,
            file_canonical: 4_294_967_296,
        }
    }

    /// The most bytes of the tokens of a statement. It takes no memory.
    pub fn record_source(&self) -> u64
        ensures { result ≡ self.now.record_source }
    {
        self.record_source
    }

    /// The most bytes of a canonical statement. It takes no memory.
    pub fn record_canonical(&self) -> u64
        ensures value { result ≡ self.now.record_canonical }
        ensures within { self.now.record_canonical ≤ self.now.record_source }
    {
        self.record_canonical
    }

    /// The most bytes of a file. It takes no memory.
    pub fn file_source(&self) -> u64
        ensures { result ≡ self.now.file_source }
    {
        self.file_source
    }

    /// The most bytes of a canonical file. It takes no memory.
    pub fn file_canonical(&self) -> u64
        ensures value { result ≡ self.now.file_canonical }
        ensures within { self.now.file_canonical ≤ self.now.file_source }
    {
        self.file_canonical
    }
}
