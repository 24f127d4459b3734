//! The laws of files by themselves, from the definitions alone.
ghost use Rattle.p21_spec_syntax.specs.Laws.{EarlySectionIsIllFormed, IllFormedStays, MeaningfulIsWellFormed, MissingTargetIsIllFormed, NoFileBeginsIllFormed, NoFileIsDead, NoFileIsIllFormed, NoFileIsRefused, NoNameIsIllFormed, OneWellFormedFile, OtherNameIsIllFormed, OtherSectionIsIllFormed, RepeatedNameIsIllFormed, RepeatedSectionIsIllFormed};

/// Bytes are one well-formed file at most, which names one schema; and what a schema accepts is one.
pub fn reading_laws()
    ensures one_file { OneWellFormedFile }
    ensures of_schema { MeaningfulIsWellFormed }
{}

/// Bytes that are no tree, or begin none: they are no file that a schema accepts, and no well-formed one.
pub fn no_file_laws()
    ensures dead { NoFileIsDead }
    ensures refused { NoFileIsRefused }
    ensures begins_ill_formed { NoFileBeginsIllFormed }
    ensures ill_formed { NoFileIsIllFormed }
    ensures stays { IllFormedStays }
{}

/// Bytes that begin no well-formed file, for what stands in the statements that they end, and whole files that are none.
pub fn ill_formed_laws()
    ensures no_name { NoNameIsIllFormed }
    ensures other_name { OtherNameIsIllFormed }
    ensures other_section { OtherSectionIsIllFormed }
    ensures early_section { EarlySectionIsIllFormed }
    ensures section_again { RepeatedSectionIsIllFormed }
    ensures name_again { RepeatedNameIsIllFormed }
    ensures missing_target { MissingTargetIsIllFormed }
{}
