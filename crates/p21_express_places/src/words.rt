use crate::separators::behind_separators;
use p21_express_lexemes::{FirstLexeme, read_first_lexeme, upper};
use p21_values::NoMemory;
use std::alloc::Global;

/// A lexeme: how many bytes of the text stand in front of it, and its bytes in upper case.
#[derive(Clone, Copy)]
pub(crate) struct Word<'t> {
    pub(crate) start: usize,
    pub(crate) bytes: &'t [u8],
}

impl<'t> Word<'t> {
    /// How many bytes of the text stand in front of what follows it.
    pub(crate) fn end(self) -> usize {
        self.start.saturating_add(self.bytes.len())
    }

    /// Whether it is this word, in upper case, or this sign.
    pub(crate) fn is(self, word: &[u8]) -> bool {
        self.bytes == word
    }
}

/// The lexemes of a text.
#[derive(Drop)]
pub(crate) struct Words<'t> {
    pub(crate) list: Vec<Word<'t>>,
    /// So many bytes stand in front of the byte, the string or the remark that makes none, or in the whole text.
    pub(crate) end: usize,
}

/// A text in upper case.
pub(crate) fn upper_copy(alloc: Global, text: &[u8]) -> Result<Vec<u8>, NoMemory> {
    let mut copy = Vec::with_capacity(alloc, text.len())?;
    for byte in text {
        copy.push(upper(*byte))?;
    }
    Ok(copy)
}

/// The lexemes of a text in upper case, as far as to what makes none.
pub(crate) fn words_of(alloc: Global, text: &[u8]) -> Result<Words<'_>, NoMemory> {
    let mut list = Vec::new(alloc);
    let mut rest = behind_separators(text);
    for _ in 0..text.len() {
        let FirstLexeme::Found(_lexeme, behind) = read_first_lexeme(rest) else {
            return Ok(Words {
                list,
                end: offset_of(text, rest),
            });
        };
        list.push(Word {
            start: offset_of(text, rest),
            bytes: in_front_of(rest, behind),
        })?;
        rest = behind_separators(behind);
    }
    Ok(Words {
        list,
        end: offset_of(text, rest),
    })
}

/// How many bytes of a text stand in front of its rest.
fn offset_of(text: &[u8], rest: &[u8]) -> usize {
    text.len().saturating_sub(rest.len())
}

/// The bytes of a text in front of its rest.
fn in_front_of<'t>(text: &'t [u8], rest: &[u8]) -> &'t [u8] {
    text.get(..offset_of(text, rest)).unwrap_or(&[])
}

/// The words in front of the first one of these bytes; all where none is.
pub(crate) fn up_to<'w, 't>(words: &'w [Word<'t>], sign: &[u8]) -> &'w [Word<'t>] {
    split_at_first(words, sign).0
}

/// The words behind the first one of these bytes; none where none is.
pub(crate) fn behind<'w, 't>(words: &'w [Word<'t>], sign: &[u8]) -> &'w [Word<'t>] {
    split_at_first(words, sign).1
}

/// The words in front of the first one of these bytes, and those behind it.
fn split_at_first<'w, 't>(words: &'w [Word<'t>], sign: &[u8]) -> (&'w [Word<'t>], &'w [Word<'t>]) {
    for at in 0..words.len() {
        if words[at].is(sign) {
            return (&words[..at], &words[at + 1..]);
        }
    }
    (words, &[])
}

/// The words behind the first place at which these words stand one behind the other; none where they stand nowhere.
pub(crate) fn behind_run<'w, 't>(words: &'w [Word<'t>], run: &[&[u8]]) -> &'w [Word<'t>] {
    let start = end_of_run(words, run);
    &words[start.min(words.len())..]
}

/// How many words stand in front of what is behind the first place at which these words stand; all where they stand nowhere.
fn end_of_run(words: &[Word], run: &[&[u8]]) -> usize {
    for at in 0..words.len() {
        if stand_at(words, at, run) {
            return at.saturating_add(run.len());
        }
    }
    words.len()
}

/// Whether these words stand one behind the other at a place of a list.
pub(crate) fn stand_at(words: &[Word], start: usize, run: &[&[u8]]) -> bool {
    for at in 0..run.len() {
        match words.get(start.saturating_add(at)) {
            Some(word) if word.is(run[at]) => {}
            _ => return false,
        }
    }
    true
}
