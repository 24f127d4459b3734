ghost use Rattle.p21_express_outline.specs.DeclaredBy.{OneSchemaDeclared};

/// A text declares one schema at most (ISO 10303-11, Schema declaration). It does nothing.
pub fn one_schema()
    ensures { OneSchemaDeclared }
{}
