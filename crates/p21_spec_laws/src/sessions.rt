//! The laws by which a streaming session is right, from the definitions alone.
ghost use Rattle.p21_spec_laws.specs.FittingLaws.{FitsBySchemaText, FitsWithNoSchemaText, SchemaNameAtEnd, SchemaNameByCharacter, SchemaNameNoLonger, SchemaNameUpToOther};
ghost use Rattle.p21_spec_laws.specs.UnrefusedLaws.{FramingAdds, SectionCountOfUnrefused, UnrefusedAtStart, UnrefusedByHeader, UnrefusedByInstance, UnrefusedBySectionLine, InstanceInSection, InstancesBeforeAndInSections, CanonicalSizeAdds, CanonicalSizeOfUnrefused, NamesOfUnrefused, NumberedByEntry, NumberedBySectionLine, PartsOfTree, SectionsByHeader, SectionsByInstance, SectionsBySectionLine, SectionsOfTree, SizeByHeader, SizeByInstance, SizeBySectionLine, StatementsTellTree};
ghost use Rattle.p21_spec_laws.specs.KeepingLaws.{KeptHasCanonicalFile, KeptHasLines, KeepsAtStart, KeepsByHeader, KeepsByInstance, KeepsBySectionLine, KeepsFewReferences, KeptIsAccepted, KeptIsHeld, KeepsInstanceNames, KeepsSectionOfInstance, KeepsSectionNames, KeepsFileSize, KeptTextSize, KeptUnservedIsNotAccepted};
ghost use Rattle.p21_spec_laws.specs.Beside.{KeptTellSame};
ghost use Rattle.p21_spec_laws.specs.OffenderLaws.{GivenStatementsAreTaken, UnrefusedHaveFileSize, NoFilePrefixIsDead, OffendingStatementIsDead, UnlayableIsDead};
ghost use Rattle.p21_spec_laws.specs.OutputLaws.{BlocksBySections, StoredNamesDiffer, LinesBySection};
ghost use Rattle.p21_spec_laws.specs.StoredLaws.{BlocksOfSections, UnstoredNameIsOfNoInstance, UnstoredTargetIsUnknown, StoreAtStart, StoreByEntry, StoreBySectionLine, StoredIsEntry, StoredTargetIsUnfit, StoredLines, StoredTargetServes, StoredSize};
ghost use Rattle.p21_spec_laws.specs.WaitingLaws.{ServedWaitingServesAll, ServedByEntry, ServedStaysServed, WaitingAtStart, WaitingByInstance};
ghost use Rattle.p21_spec_laws.specs.WholeLaws.{UnrefusedHaveHeadings, UnrefusedAreAccepted, UnrefusedAreCompleteFile, UnrefusedAreHeld, UnrefusedTextSize, LastTokenIsOfNoFile, ReferencesAreFew, AsManyReferencesAsNeeds, TokensEndStatements, UnservedReferenceIsNotAccepted, StatementsWithinUpToTail};

/// The header records and the data sections among statements: those of a tree, and those of statements with one more.
pub fn among_laws()
    ensures parts { PartsOfTree }
    ensures sections { SectionsOfTree }
    ensures tree { StatementsTellTree }
    ensures instances { InstancesBeforeAndInSections }
    ensures in_section { InstanceInSection }
    ensures by_line { SectionsBySectionLine }
    ensures by_header { SectionsByHeader }
    ensures by_instance { SectionsByInstance }
{}

/// Sizes of canonical lines, and numbers of sections, with one statement more.
pub fn counting_laws()
    ensures kept { CanonicalSizeAdds }
    ensures framing { FramingAdds }
    ensures numbered_by_entry { NumberedByEntry }
    ensures numbered_by_line { NumberedBySectionLine }
    ensures size_by_line { SizeBySectionLine }
    ensures size_by_header { SizeByHeader }
    ensures size_by_instance { SizeByInstance }
{}

/// Header records that may stand by themselves, and schema texts character by character.
pub fn fitting_laws()
    ensures schema_text { FitsBySchemaText }
    ensures no_schema_text { FitsWithNoSchemaText }
    ensures at_end { SchemaNameAtEnd }
    ensures by_character { SchemaNameByCharacter }
    ensures no_more { SchemaNameNoLonger }
    ensures up_to_other { SchemaNameUpToOther }
{}

/// What is known of the statements taken, at the start and with each statement more, and what follows from it.
pub fn unrefused_laws()
    ensures at_start { UnrefusedAtStart }
    ensures by_line { UnrefusedBySectionLine }
    ensures by_header { UnrefusedByHeader }
    ensures by_instance { UnrefusedByInstance }
    ensures names { NamesOfUnrefused }
    ensures groups { SectionCountOfUnrefused }
    ensures kept { CanonicalSizeOfUnrefused }
{}

/// Bytes with which no accepted bytes begin: what the lexer refuses, what the parser refuses, and what a statement
/// refuses behind those taken.
pub fn offender_laws()
    ensures given { GivenStatementsAreTaken }
    ensures unlaid { UnlayableIsDead }
    ensures no_file { NoFilePrefixIsDead }
    ensures offender { OffendingStatementIsDead }
    ensures unrefused { UnrefusedHaveFileSize }
{}

/// The needs that wait for the end of a file, with each instance more, and that none is left where all of them are
/// served.
pub fn waiting_laws()
    ensures at_start { WaitingAtStart }
    ensures by_instance { WaitingByInstance }
    ensures further { ServedStaysServed }
    ensures by_entry { ServedByEntry }
    ensures none_waits { ServedWaitingServesAll }
{}

/// The instances that a store keeps, in whatever order: as they come, as they are found, and as they are written.
pub fn stored_laws()
    ensures at_start { StoreAtStart }
    ensures by_line { StoreBySectionLine }
    ensures by_entry { StoreByEntry }
    ensures is_entry { StoredIsEntry }
    ensures none { UnstoredNameIsOfNoInstance }
    ensures size { StoredSize }
    ensures serves { StoredTargetServes }
    ensures unfit { StoredTargetIsUnfit }
    ensures unknown { UnstoredTargetIsUnknown }
    ensures lines { StoredLines }
    ensures blocks { BlocksOfSections }
{}

/// The end of a file: its last token and the limit of its statements, that it is accepted, and that it isn't.
pub fn whole_laws()
    ensures last_token { LastTokenIsOfNoFile }
    ensures within { StatementsWithinUpToTail }
    ensures headings { UnrefusedHaveHeadings }
    ensures size { UnrefusedTextSize }
    ensures ended { UnrefusedAreCompleteFile }
    ensures accepted { UnrefusedAreAccepted }
    ensures unserved { UnservedReferenceIsNotAccepted }
{}

/// What is held of the bytes taken, before the end.
pub fn held_laws()
    ensures ended { TokensEndStatements }
    ensures held { UnrefusedAreHeld }
    ensures references { AsManyReferencesAsNeeds }
    ensures few { ReferencesAreFew }
{}

/// What a session keeps: at the start, with each statement more, for each refusal, before the end and at it.
pub fn keeping_laws()
    ensures at_start { KeepsAtStart }
    ensures by_line { KeepsBySectionLine }
    ensures by_header { KeepsByHeader }
    ensures by_instance { KeepsByInstance }
    ensures section { KeepsSectionOfInstance }
    ensures size { KeepsFileSize }
    ensures section_names { KeepsSectionNames }
    ensures names { KeepsInstanceNames }
    ensures unserved { KeptUnservedIsNotAccepted }
    ensures held { KeptIsHeld }
    ensures few { KeepsFewReferences }
    ensures accepted { KeptIsAccepted }
    ensures text_size { KeptTextSize }
    ensures has_file { KeptHasCanonicalFile }
    ensures has_lines { KeptHasLines }
    ensures tell_same { KeptTellSame }
{}

/// The lines that are written of each section, and blocks of them.
pub fn output_laws()
    ensures differ { StoredNamesDiffer }
    ensures lines { LinesBySection }
    ensures blocks { BlocksBySections }
{}
