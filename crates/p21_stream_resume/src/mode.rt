use crate::signpost::{Numeral, Signpost};

/// A word that stands for itself in a signpost.
#[derive(Clone, Copy, Debug, PartialEq, Eq)]
pub(crate) enum Word {
    SectionEnd,
    FileBegin,
    FileEnd,
}

/// Where a seeker stands between two bytes.
#[derive(Clone, Copy, Debug, PartialEq, Eq)]
pub(crate) enum Mode {
    /// Where no signpost may begin.
    Closed,
    /// Where one may begin: behind a `;`, a `)` or the end of a line, and blanks.
    Opened,
    /// Behind the `#` of a name.
    Hash,
    /// Behind digits of a name.
    Digits(Numeral),
    /// Behind a name and so many blanks, one or more; and whether one of them ends a line.
    NameGap(Numeral, u64, bool),
    /// Behind so many bytes of a word, one or more and not all.
    Word(Word, u8),
    /// Behind `ENDSEC` and so many blanks; and whether one of them ends a line.
    SectionGap(u64, bool),
}

/// What a byte does.
#[derive(Clone, Copy, Debug, PartialEq, Eq)]
pub(crate) enum Step {
    /// It ends no signpost.
    Goes(Mode),
    /// It is the last byte of a signpost.
    Ends(Signpost),
}
