use p21_grammar_tree::{Part, Record};
use p21_values::Name;

/// A line that begins or ends the file or a section; its `;` is left out.
#[derive(Clone, Copy, Debug, PartialEq, Eq)]
pub enum Line {
    /// `ISO-10303-21`
    Begin,
    /// `HEADER`
    HeaderStart,
    /// `ENDSEC`
    SectionEnd,
    /// `DATA`, of a section without a name
    DataStart,
    /// `END-ISO-10303-21`
    Finish,
}

/// A statement (ISO 10303-21, formal definition of the exchange structure).
#[derive(Debug, Drop)]
pub enum Event {
    Section(Line),
    /// `DATA` of a section with a name: the keyword, with the name, and a list of the one schema text.
    Named(Part),
    /// A record of the header section.
    Header(Part),
    /// An instance with its name.
    Instance(Name, Record),
}
