//! The laws of values and records, and of their canonical texts: what a parameter and a record mean is one, each value
//! and each instance has one canonical text, and these texts tell what is the same.
ghost use Rattle.p21_spec_laws.specs.HeaderLaws.{LinesTellHeaderRecords, TextsTellHeaderParameters};
ghost use Rattle.p21_spec_laws.specs.LineLaws.{LinesAreGraphic};
ghost use Rattle.p21_spec_laws.specs.NeedLaws.{NeedsAreReferences, NeedsCanBeServed, ServedNeedsDecideMeaning, RecordHasNeeds, ServedParamsFit};
ghost use Rattle.p21_spec_laws.specs.RecordLaws.{InstanceHasText, OneMeaningOfRecord, OneCanonicalSize, OneTextOfInstance, TextsTellInstances};
ghost use Rattle.p21_spec_laws.specs.SchemaLaws.{DeclaredIsWellFormed};
ghost use Rattle.p21_spec_laws.specs.ValueLaws.{CanonicalHasValueText, OneCanonicalParameter, OneValue, OneValueAtPlace, TextsTellValues};

/// Each schema that is declared is well formed, which the laws below and those of files ask for.
pub fn schema_laws()
    ensures well_formed { DeclaredIsWellFormed }
{}

/// A parameter stands for one value. A value has one canonical text, and values are the same exactly if their texts are
/// equal, at any nesting.
pub fn value_laws()
    ensures one { OneValue }
    ensures one_at_place { OneValueAtPlace }
    ensures texts_tell { TextsTellValues }
    ensures canonical_has_text { CanonicalHasValueText }
    ensures one_canonical { OneCanonicalParameter }
{}

/// Header records are the same exactly if their canonical lines are equal, and so are their parameters.
pub fn header_laws()
    ensures texts_tell { TextsTellHeaderParameters }
    ensures lines_tell { LinesTellHeaderRecords }
{}

/// A record has one meaning, whatever the other instances are. An instance has one canonical text, and instances have one
/// name and mean the same exactly if their texts are equal.
pub fn record_laws()
    ensures one_meaning { OneMeaningOfRecord }
    ensures has_text { InstanceHasText }
    ensures one_text { OneTextOfInstance }
    ensures texts_tell { TextsTellInstances }
    ensures one_canonical_size { OneCanonicalSize }
{}

/// What a record needs of the instances that it refers to decides among which of them it has its meaning.
pub fn need_laws()
    ensures decide { ServedNeedsDecideMeaning }
    ensures has_needs { RecordHasNeeds }
    ensures are_references { NeedsAreReferences }
    ensures can_be_served { NeedsCanBeServed }
    ensures served_fit { ServedParamsFit }
{}

/// A canonical line holds bytes 20 to 7E alone.
pub fn line_laws()
    ensures are_graphic { LinesAreGraphic }
{}
