//! A list of refusals that is told with where each of them stands.
use p21_schema::Schema;
use p21_stream::{
    Located, LocatedAlone, LocatedSurvey, PassedOver, Refusals, Surveyed, SurveyedAlone,
};

/// What a survey found, whose list is told.
#[derive(Clone, Copy)]
pub(crate) enum Listing<'f> {
    /// Of a file of a schema.
    OfSchema(&'f Schema, &'f LocatedSurvey),
    /// Of a file by itself.
    ByItself(&'f LocatedAlone),
}

impl<'f> Listing<'f> {
    /// The schema, where there is one.
    pub(crate) fn schema(self) -> Option<&'f Schema> {
        match self {
            Listing::OfSchema(schema, _) => Some(schema),
            Listing::ByItself(_) => None,
        }
    }

    /// The refusal of this number, and where it stands.
    pub(crate) fn located(self, number: usize) -> Option<Located> {
        match self {
            Listing::OfSchema(_, found) => found.located(number),
            Listing::ByItself(found) => found.located(number),
        }
    }

    /// The statement of this number, of those that were passed over.
    pub(crate) fn passed_over(self, number: usize) -> Option<PassedOver> {
        match self {
            Listing::OfSchema(_, found) => found.passed_over(number),
            Listing::ByItself(found) => found.passed_over(number),
        }
    }

    /// How many bytes stand in front of the statement that is refused by the refusal of this number.
    pub(crate) fn begins(self, number: usize) -> Option<u64> {
        self.refusals()?.begins.get(number).copied()
    }

    fn refusals(self) -> Option<&'f Refusals> {
        match self {
            Listing::OfSchema(_, found) => match &found.found {
                Surveyed::Refused(refusals) => Some(refusals),
                Surveyed::Accepted(_) => None,
            },
            Listing::ByItself(found) => match &found.found {
                SurveyedAlone::Refused(refusals) => Some(refusals),
                SurveyedAlone::WellFormed(_) => None,
            },
        }
    }
}
