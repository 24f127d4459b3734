//! Whether two values differ by no more than a tolerance, as exact numbers of any length. It takes no memory.
//!
//! `AreWithin` of `specs/Within` says of three fractions that neither of two is greater than the other and the third together.
//! `are_within` answers this of the numbers of two values and a tolerance, `are_within_share` of a tolerance that is a part of one of
//! them, and `are_near` (`specs/NearValues`) goes into aggregates and values with a keyword, and takes both for their reals.
//! `Tolerance::of` reads a tolerance as somebody gives it (`specs/Spelled`).
//!
//! The three fractions have powers of ten as denominators. From the lowest place of all they are whole numbers (`proofs/Scaled`), so it
//! takes two comparisons of sums of numbers from 0 on, or one where the signs differ (`digits`). A sum is compared with another digit by
//! digit from the highest place down (`sums`): what one is ahead of the other grows tenfold from place to place, and where it is more
//! than all digits that are left can make up for, the answer is known (`proofs/SumsLeft`). Places at which no number has a digit are
//! passed at once where neither sum is ahead. So no number is too long, and the time grows with the digits, whatever the exponents are.
//! That the answer is the same for each way to write a number says `proofs/SameNumbers`.
#![tactic(auto)]

mod digits;
mod near;
mod places;
mod sums;
mod tolerance;
mod within;

pub use near::are_near;
pub use tolerance::Tolerance;
pub use within::{are_within, are_within_share};
