//! The line of an instance under its number, or another new name.

/// The canonical line of an instance, with its `;` and without a line feed, under its new name, and with new names for its references:
/// the numbers that the model gives, or others.
#[derive(Debug, Drop)]
pub struct NumberedLine {
    pub number: u64,
    pub text: Vec<u8>,
}
