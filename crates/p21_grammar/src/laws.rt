ghost use Rattle.std.specs.Prelude.{◌≡◌};
ghost use Rattle.p21_spec_exchange.specs.Structure.{Structure, tokens_of};

/// One tree at most flattens to some tokens (ISO 10303-21, formal definition of the exchange structure). It does nothing.
pub fn one_tree()
    ensures { (structure other : Structure) → tokens_of structure ≡ tokens_of other → structure ≡ other }
{}
