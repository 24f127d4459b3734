//! The laws of signposts and of what is read of a file, from the definitions alone.
ghost use Rattle.p21_spec_survey.specs.Laws.{EachIsJudged, EndedIsNotAccepted, FirstSignpostAtOnePlace, FirstStatementIsApart, GivenAreTaken, GivenBeginFile, GoesByOnePlace, KeptAreWhole, ListedIsNotAccepted, NamesDiffer, ReadIsInFront, RightStatementsAreTaken, UnlistedIsTaken};
ghost use Rattle.p21_spec_survey.specs.Whole.{BeginsNoneAlike, BeginsNoneWithinAlike, BehindIsLaid, GapHoldsTheSame, GapIsNoToken, JoinedIsLaid, LaidAlike, NoFileAlike, NothingHoldsTheSame, StatementsHoldTheSame, WholeFrontGoesOn};

/// The first signpost in bytes stands at one place, and so does the one by which the reading goes on.
pub fn signpost_laws()
    ensures first { FirstSignpostAtOnePlace }
    ensures goes_by { GoesByOnePlace }
{}

/// Behind whole statements tokens are laid by themselves. So separators behind them change no token, and where no file begins with
/// statements that have separators between them, none begins with these statements alone.
pub fn whole_laws()
    ensures behind { BehindIsLaid }
    ensures joined { JoinedIsLaid }
    ensures gap { GapIsNoToken }
    ensures alike { LaidAlike }
    ensures no_file { NoFileAlike }
    ensures begins_none { BeginsNoneAlike }
    ensures within { BeginsNoneWithinAlike }
{}

/// How two byte lists come to hold the same statements: nothing, one statement more behind both, and separators behind one.
pub fn same_laws()
    ensures nothing { NothingHoldsTheSame }
    ensures statements { StatementsHoldTheSame }
    ensures gap { GapHoldsTheSame }
{}

/// What is read of a file stands at its front, and where nothing is listed it is all kept, and all its statements are taken.
pub fn reading_laws()
    ensures in_front { ReadIsInFront }
    ensures unlisted { UnlistedIsTaken }
{}

/// What is kept of a file are whole statements, with which each file begins that begins so. Each instance among them means something or is
/// listed, and the names of those that aren't listed differ.
pub fn kept_laws()
    ensures whole { KeptAreWhole }
    ensures begin { GivenBeginFile }
    ensures taken { GivenAreTaken }
    ensures judged { EachIsJudged }
    ensures names { NamesDiffer }
{}

/// A file of which something is listed isn't accepted, or by itself isn't well formed, nor is one whose reading is ended for want of anything
/// but memory and the reader.
pub fn list_laws()
    ensures listed { ListedIsNotAccepted }
    ensures ended { EndedIsNotAccepted }
{}

/// Of two fronts of the same bytes that are whole statements the second goes on behind the first. The bytes of whole statements are those
/// of the first one and of the others. So a reading takes statements that are right one behind the other.
pub fn taking_laws()
    ensures goes_on { WholeFrontGoesOn }
    ensures apart { FirstStatementIsApart }
    ensures taken { RightStatementsAreTaken }
{}
