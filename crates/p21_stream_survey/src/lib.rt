//! A survey of a file that goes on behind broken statements: what is read of it, what of that is kept, and what is refused, each with where
//! its statement begins. What its list says then is `IsSurvey` of `p21_spec_survey`.
//!
//! A log (p21_stream_log) stands for a reading of the file, and `HasRead` (`specs/Reading`) joins that to what is kept (`Sieve` of
//! p21_stream_sieve) and to what is listed (`Listing`): `Stands` in `specs/Following` is both. A statement that has ended is judged without
//! a trace where it is refused (`judging`), and then taken, left out (`following`) or, with a signpost in a string of it, passed over
//! (`wrong`). Where a step refused some bytes the statement is passed over (`breaking`, `going`), in one piece after the other (`seeking`),
//! or the list ends (`ending`). At the end of the file the references that no instance serves are told (`references`), but for what isn't
//! known of them. `proofs/Readings` has what each of these does to what is known of a reading. With each refusal that is listed its place
//! is noted (`noting`), where that is asked for: no clause speaks of it.
//!
//! `Survey` walks from statement to statement by these: `survey` has its loops, `reading` what is done where statements are read, `taking`
//! where whole instances are taken straight from their bytes (p21_shorter_instances), `refused` where a step refused some bytes,
//! `stretches` where a statement is passed over, `closing` how the list ends, and `unended` what is read of a file that ends in open
//! remarks. `Course` (`specs/Course`) says how far it is, in each file of which so much is known, and each call says what it makes of that
//! (`specs/Walking`). A round of the loops lists one more refusal, or fewer bytes come next (`proofs/Feeding`): a step takes no byte where
//! a token waited for the byte behind it, and then the next one takes some (`take_token`), and an instance that is taken has some.
#![tactic(auto)]

mod at_end;
mod breaking;
mod closing;
mod ending;
mod finishing;
mod following;
mod going;
mod judging;
mod keeper;
mod listed;
mod listing;
mod missing;
mod noting;
mod plain;
mod reading;
mod references;
mod refused;
mod seeking;
mod serving;
mod stage;
mod stretches;
mod survey;
mod taking;
mod token;
mod unended;
mod wrong;

pub use listed::{Extent, Found, Listed};
pub use survey::Survey;
