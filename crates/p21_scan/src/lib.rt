//! Tokens that stand whole at the front of bytes, by their parts (ISO 10303-21, clause 6: tokens). Nothing is copied: the
//! parts, and what stands behind the token, are borrowed from the bytes.
//!
//! `p21_scan` cuts a number at the front of bytes into its parts, and copies nothing (`scan_number`, over
//! `scan_integer` and `scan_exponent`). `specs/Number` says what the parts are of the bytes, in the words of the
//! definitions, and that no digit, point or exponent that would belong to the number stands behind them; where nothing
//! is answered, no number stands there. `proofs/Numbers` joins this to the spellings: a front with such parts spells an
//! integer (`spells_integer`) or has the form of a real (`real_form`), and bytes that have this form leave nothing
//! behind (`whole_integer`, `whole_real`). So each reader of a whole number (`Whole::read`, `Decimal::read` and
//! `read_number` of `p21_values`, `append_whole` and `append_far` of `p21_shorter_tokens`) is proved by one of these lemmas
//! and by what it makes of the digits. `exponent_value` has the limit on a written exponent; the range of the exponent
//! that is meant is `normalised_exponent`'s of `p21_values`. What counts of digits (`without_leading_zeros`,
//! `without_trailing_zeros`) and the number of a few of them (`number_of`) stand in `digits` of `p21_scan`.
//!
//! In the same manner it answers the word of a keyword (`scan_keyword`), of a user-defined one behind its `!`
//! (`scan_user_keyword`) and of an enumeration item between its points (`scan_item`), and the digits of an instance
//! name (`scan_name`), whose number `name_number` has where it is below 2^64. `IsTokenAt` of `specs/Word` says that the
//! canonical spelling of the token stands at the front and that what stands behind may follow it; `proofs/Words` and
//! `proofs/NamesAt` say that no other word or digits stand there, and that bytes which are such a token leave nothing
//! behind. `Word::read` and `Name::read` of `p21_values`, `leading_keyword`, `leading_name`, `read_user_keyword` and
//! `read_item` of `p21_tokens`, and `keyword`, `name` and `item` of `p21_shorter_tokens` stand on them. `class` and `wide`
//! of `p21_scan` count the bytes of a class at the front, by lanes where there are many. The automaton takes these
//! counts (`run_of`) and the tests of a byte from there; in what order a token's bytes may come it says itself, so that
//! a rule of a token stands in these two places.
#![tactic(auto)]

mod binary;
mod bytes;
mod class;
mod digits;
mod hex_digits;
mod name;
mod number;
mod row;
mod text;
mod wide;
mod word;

pub use binary::{Binary, scan_binary};
pub use bytes::{is_blank, is_digit, is_keyword_byte, is_upper};
pub use class::{Class, rare_prefix, short_prefix};
pub use digits::{
    behind, number_of, short_number, split_digits, split_sign, without_leading_zeros,
    without_trailing_zeros,
};
pub use hex_digits::{hex_value, is_hex_digit};
pub use name::{name_number, scan_name};
pub use number::{
    Decimals, Integer, Number, begins_exponent, exponent_value, scan_exponent, scan_integer,
    scan_number,
};
pub use text::{Directive, behind_extended, ends_text, scan_character, scan_directive};
pub use wide::long_prefix;
pub use word::{scan_item, scan_keyword, scan_user_keyword};
