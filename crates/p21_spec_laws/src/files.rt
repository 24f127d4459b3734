//! One canonical file for each meaning: the laws of files, from the definitions alone.
ghost use Rattle.p21_spec_laws.specs.CanonicalLaws.{CanonicalBytesAreGraphic, CanonicalBytesAreTheirOwn, CanonicalBytesExist, CanonicalBytesTellMeaning, CanonicalFileExists, CanonicalFileIsAccepted, CanonicalFileIsItsOwn, CanonicalFileMeansTheSame, CanonicalFilesTellMeaning, OneCanonicalFile, CanonicalWithinLimitsIsAccepted};
ghost use Rattle.p21_spec_laws.specs.DeadLaws.{BrokenRuleIsDead, EqualNamesAreDead, EqualSectionNamesAreDead, RepeatedNameIsDead, NoMeaningIsDead, OtherSchemaIsDead, RepeatedSectionNameIsDead, SectionOfOtherSchemaIsDead, UnfitReferenceIsDead};
ghost use Rattle.p21_spec_laws.specs.EndLaws.{AcceptedFileIsComplete, DeadIsRefused, CompleteFileIsAccepted, NoLayingIsRefused, NoTreeIsRefused, UnfitReferenceIsRefused, UnknownReferenceIsRefused, UnservedNeedIsRefused};
ghost use Rattle.p21_spec_laws.specs.Headline.{Headline};
ghost use Rattle.p21_spec_laws.specs.ReadingLaws.{LimitHoldsForEachReading, OneListOfLexemes, OneMeaningOfBytes, OneMeaningWithinLimits, OneTreeOfBytes};
ghost use Rattle.p21_spec_laws.specs.SizeLaws.{FullStatementIsDead, LongFileIsDead, LongHeaderIsDead, LongInstanceIsDead, LongLexemesAreDead, LongSectionLineIsDead, LongSourceIsDead, LongStatementIsDead, NarrowLineLimitIsDead};
ghost use Rattle.p21_spec_laws.specs.TakenLaws.{DeadStaysDead, PrefixIsTaken, NoTreePrefixIsDead, NoLayingIsDead, FirstStatementsAreEnded, TakenStaysTaken};

/// The claim: two accepted files mean the same exactly if their canonical files are equal, and a canonical file is
/// accepted, means what its source meant, and is its own.
pub fn headline()
    ensures claim { Headline }
{}

/// Bytes are read in one way: they have one list of tokens, one tree and one meaning.
pub fn reading_laws()
    ensures one_list_of_lexemes { OneListOfLexemes }
    ensures one_tree { OneTreeOfBytes }
    ensures one_meaning { OneMeaningOfBytes }
    ensures one_meaning_within { OneMeaningWithinLimits }
    ensures each_reading { LimitHoldsForEachReading }
{}

/// A meaning has one canonical file.
pub fn canonical_laws()
    ensures bytes_exist { CanonicalBytesExist }
    ensures bytes_tell { CanonicalBytesTellMeaning }
    ensures bytes_are_graphic { CanonicalBytesAreGraphic }
    ensures files_tell { CanonicalFilesTellMeaning }
    ensures one_meaning { OneMeaningWithinLimits }
    ensures file_exists { CanonicalFileExists }
    ensures one_file { OneCanonicalFile }
    ensures is_accepted { CanonicalFileIsAccepted }
    ensures means_the_same { CanonicalFileMeansTheSame }
    ensures is_its_own { CanonicalFileIsItsOwn }
    ensures bytes_are_their_own { CanonicalBytesAreTheirOwn }
    ensures short_is_accepted { CanonicalWithinLimitsIsAccepted }
{}

/// What all files that begin with some bytes begin with, and bytes with which none begins.
pub fn taken_laws()
    ensures front { PrefixIsTaken }
    ensures statements { FirstStatementsAreEnded }
    ensures further { TakenStaysTaken }
    ensures no_laying { NoLayingIsDead }
    ensures no_front { NoTreePrefixIsDead }
    ensures dead_further { DeadStaysDead }
{}

/// Bytes with which no accepted bytes begin, for what stands in the statements that they end: one law for each reason.
pub fn dead_laws()
    ensures other_schema { OtherSchemaIsDead }
    ensures section_of_other_schema { SectionOfOtherSchemaIsDead }
    ensures section_again { RepeatedSectionNameIsDead }
    ensures equal_section_names { EqualSectionNamesAreDead }
    ensures name_again { RepeatedNameIsDead }
    ensures equal_names { EqualNamesAreDead }
    ensures no_meaning { NoMeaningIsDead }
    ensures broken_rule { BrokenRuleIsDead }
    ensures unfit { UnfitReferenceIsDead }
{}

/// Bytes with which no accepted bytes begin since they, or their canonical lines, are too long.
pub fn size_laws()
    ensures long_source { LongSourceIsDead }
    ensures long_statement { LongStatementIsDead }
    ensures long_lexemes { LongLexemesAreDead }
    ensures full_statement { FullStatementIsDead }
    ensures long_section_line { LongSectionLineIsDead }
    ensures long_header { LongHeaderIsDead }
    ensures long_instance { LongInstanceIsDead }
    ensures narrow { NarrowLineLimitIsDead }
    ensures long_file { LongFileIsDead }
{}

/// At the end of the bytes: why they are refused, and that they are accepted where no reason holds.
pub fn end_laws()
    ensures no_laying { NoLayingIsRefused }
    ensures no_tree { NoTreeIsRefused }
    ensures unserved { UnservedNeedIsRefused }
    ensures unknown { UnknownReferenceIsRefused }
    ensures unfit { UnfitReferenceIsRefused }
    ensures dead { DeadIsRefused }
    ensures accepted { CompleteFileIsAccepted }
    ensures ended { AcceptedFileIsComplete }
{}
