//! What is told apart of tokens where one is refused: each keyword with which a section begins or ends is a kind of its own.
ghost use Rattle.std.specs.Prelude.{◌≡◌};
ghost use Rattle.p21_grammar.specs.Begins.{is_keyword};

/// A kind of token.
#[derive(Clone, Copy, Debug, PartialEq, Eq)]
pub enum Kind {
    /// `ISO-10303-21`
    Begin,
    /// The keyword `HEADER`
    HeaderStart,
    /// The keyword `DATA`
    DataStart,
    /// The keyword `ENDSEC`
    SectionEnd,
    /// `END-ISO-10303-21`
    Finish,
    /// Any other keyword.
    Keyword,
    UserKeyword,
    /// The name of an instance.
    Name,
    Whole,
    Real,
    Text,
    /// An enumeration item.
    Item,
    /// A binary.
    Bits,
    Dollar,
    Star,
    Left,
    Right,
    Comma,
    Equals,
    Semicolon,
}

/// Each kind once.
pub const KINDS: [Kind; 20] = [
    Kind::Begin,
    Kind::HeaderStart,
    Kind::DataStart,
    Kind::SectionEnd,
    Kind::Finish,
    Kind::Keyword,
    Kind::UserKeyword,
    Kind::Name,
    Kind::Whole,
    Kind::Real,
    Kind::Text,
    Kind::Item,
    Kind::Bits,
    Kind::Dollar,
    Kind::Star,
    Kind::Left,
    Kind::Right,
    Kind::Comma,
    Kind::Equals,
    Kind::Semicolon,
];

/// Whether a token of this kind is a keyword, and no user-defined one.
pub(crate) fn is_keyword(kind: Kind) -> bool
    ensures { result ≡ is_keyword kind }
{
    matches!(
        kind,
        Kind::HeaderStart | Kind::DataStart | Kind::SectionEnd | Kind::Keyword
    )
}
