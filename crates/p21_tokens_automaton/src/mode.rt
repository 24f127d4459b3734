/// Where a reader stands between two bytes.
#[derive(Clone, Copy, Debug, PartialEq, Eq)]
pub enum Mode {
    /// Between tokens.
    Between,
    /// Behind a `/` that may begin a comment.
    Slash,
    /// Inside a comment.
    Comment,
    /// Inside a comment, behind a `*`.
    Star,
    Number(NumberMode),
    Word(WordMode),
    Name(NameMode),
    Binary(BinaryMode),
    Text(TextMode),
}

/// Inside a whole number or a real.
#[derive(Clone, Copy, Debug, PartialEq, Eq)]
pub enum NumberMode {
    /// Behind the sign.
    Sign,
    /// Behind a digit with no point before it.
    Whole,
    /// Behind the point or a digit behind it.
    Fraction,
    /// Behind the `E`.
    Exponent,
    /// Behind the sign of the exponent.
    ExponentSign,
    /// Behind a digit of the exponent.
    ExponentDigits,
}

/// Inside a keyword, a user-defined keyword or an enumeration item.
#[derive(Clone, Copy, Debug, PartialEq, Eq)]
pub enum WordMode {
    Keyword,
    /// Inside the first or the last token of a file, with so many of its bytes taken.
    Marker(Marker, u8),
    /// Behind the last byte of one of these.
    Marked(Marker),
    /// Behind the `!` of a user-defined keyword.
    Exclamation,
    UserKeyword,
    /// Behind the point that begins an enumeration item.
    Point,
    Item,
}

/// The token that begins a file, and the one that ends it.
#[derive(Clone, Copy, Debug, PartialEq, Eq)]
pub enum Marker {
    Begin,
    Finish,
}

/// Inside an instance name.
#[derive(Clone, Copy, Debug, PartialEq, Eq)]
pub enum NameMode {
    /// Behind the `#`.
    Hash,
    /// Behind digits that stand for this number.
    Digits(u64),
}

/// Inside a binary.
#[derive(Clone, Copy, Debug, PartialEq, Eq)]
pub enum BinaryMode {
    /// Behind the opening quote.
    Quote,
    /// Behind the digit that counts the padding bits.
    Padding(u8),
    /// Behind a hex digit.
    Hex,
}

/// Inside a string.
#[derive(Clone, Copy, Debug, PartialEq, Eq)]
pub enum TextMode {
    /// Between two units.
    Inside,
    /// Behind an apostrophe, which ends the string or is the first of two.
    Apostrophe,
    /// Behind a backslash.
    Backslash,
    /// Behind `\S`.
    PageMark,
    /// Behind `\S\`.
    Page,
    /// Behind `\P`.
    AlphabetMark,
    /// Behind `\PA`.
    Alphabet,
    /// Behind `\X`.
    HexMark,
    /// Behind `\X\`.
    Arbitrary,
    /// Behind `\X\` and a digit of this value.
    ArbitrarySecond(u8),
    /// Behind `\X2`.
    Extended2Mark,
    /// Behind `\X2\`.
    Extended2First,
    /// Behind a group that ends a character.
    Extended2Next,
    /// Behind so many digits of a group, one to three, and their value.
    Extended2Digits(u8, u16),
    /// Behind this high surrogate.
    LowFirst(u16),
    /// Behind this high surrogate, and so many digits of the group behind it and their value.
    LowDigits(u16, u8, u16),
    /// Behind `\X4`.
    Extended4Mark,
    /// Behind `\X4\`.
    Extended4First,
    /// Behind a group.
    Extended4Next,
    /// Behind so many digits of a group, one to seven, and their value.
    Extended4Digits(u8, u32),
    /// Behind the backslash, the `X` and the `0` of the `\X0\` that ends the groups.
    EndBackslash,
    EndMark,
    EndZero,
    /// One byte before the end of a character in UTF-8, with the value of the bits so far.
    Utf8Last(u32),
    /// Two bytes before the end; the next byte lies between the first two numbers.
    Utf8Second(u8, u8, u32),
    /// Three bytes before the end.
    Utf8Third(u8, u8, u32),
}

/// A token of one byte.
#[derive(Clone, Copy, Debug, PartialEq, Eq)]
pub enum Single {
    Left,
    Right,
    Comma,
    Semicolon,
    Equals,
    Dollar,
    Star,
}

/// What is left out of ISO 10303-21, and refused: the first three by the tokens, the others by the grammar.
#[derive(Clone, Copy, Debug, PartialEq, Eq)]
pub enum Absent {
    /// `&SCOPE`
    Scope,
    /// `@` names
    ValueName,
    /// `#` and letters
    ConstantName,
    /// user-defined keywords in the data section
    UserKeyword,
    Anchor,
    Reference,
    Signature,
    SecondSection,
    NoDataSection,
}

/// What is wrong at a byte.
#[derive(Clone, Copy, Debug, PartialEq, Eq)]
pub enum Wrong {
    Byte,
    Directive,
    CodePoint,
    Utf8,
    Number,
    Binary,
    NameRange,
    Name,
    LeftOut(Absent),
}

/// What a byte does.
#[derive(Clone, Copy, Debug, PartialEq, Eq)]
pub enum Action {
    /// It stands between tokens.
    Pass(Mode),
    /// It belongs to the token, and nothing is kept of it.
    Skip(Mode),
    /// It belongs to the token, and is kept.
    Keep(Mode),
    /// With it a character of a string is known.
    Put(Mode, char),
    /// It is a token.
    Give(Single),
    /// It is kept, and ends the token.
    Close,
    /// It stands behind the token, and isn't taken.
    End,
    /// It is the `-` behind keyword characters, which only the first and the last token of a file have.
    Dash,
    /// It is refused.
    Refuse(Wrong),
}
