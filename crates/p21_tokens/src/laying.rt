ghost use Rattle.std.specs.Prelude.{◌≡◌, ℕ, List};
ghost use Rattle.p21_spec_exchange.specs.Laying.{Laid};
ghost use Rattle.p21_spec_exchange.specs.Token as meaning;

/// One list of tokens at most is laid in bytes (ISO 10303-21, tokens). It does nothing.
pub fn one_laying()
    ensures { (bytes : List ℕ) (tokens others : List meaning.Token) → Laid bytes tokens → Laid bytes others → tokens ≡ others }
{}
