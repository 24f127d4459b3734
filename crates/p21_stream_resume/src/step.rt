ghost use Rattle.std.specs.Prelude.{◌≡◌, slice_get};
ghost use Rattle.p21_stream_resume.specs.Step.{begun_word, class_of, due_step, hash_step, digits_step, name_gap_step, other_word_step, outside, section_gap_step, step, behind_word, word_bytes};

use crate::class::{Class, class_of};
use crate::mode::{Mode, Step, Word};
use crate::signpost::{Numeral, Signpost, one_more};

/// What a byte does behind the bytes that led to a mode.
pub(crate) fn step(mode: Mode, byte: u8) -> Step
    ensures { result ≡ step mode (class_of byte) byte }
{
    let class = class_of(byte);
    match mode {
        Mode::Closed => Step::Goes(outside(false, class, byte)),
        Mode::Opened => Step::Goes(outside(true, class, byte)),
        Mode::Hash => hash_step(class, byte),
        Mode::Digits(name) => digits_step(name, class, byte),
        Mode::NameGap(name, blanks, opened) => name_gap_step(name, blanks, opened, class, byte),
        Mode::Word(word, taken) => word_step(word, taken, class, byte),
        Mode::SectionGap(blanks, opened) => section_gap_step(blanks, opened, class, byte),
    }
}

/// A byte that belongs to no signpost that has begun: it may begin one where one may begin.
fn outside(opened: bool, class: Class, byte: u8) -> Mode
    ensures { result ≡ outside opened class byte }
{
    match class {
        Class::Semicolon => Mode::Opened,
        Class::Parenthesis => Mode::Opened,
        Class::LineEnd => Mode::Opened,
        Class::Blank => { if opened { Mode::Opened } else { Mode::Closed } }
        Class::Hash => { if opened { Mode::Hash } else { Mode::Closed } }
        Class::Other => {
            if opened {
                begun_word(byte)
            } else {
                Mode::Closed
            }
        }
        Class::Digit => Mode::Closed,
        Class::Equals => Mode::Closed,
    }
}

/// A byte that may be the first of a word.
fn begun_word(byte: u8) -> Mode
    ensures { result ≡ begun_word byte }
{
    if byte == b'E' {
        Mode::Word(Word::SectionEnd, 1)
    } else if byte == b'I' {
        Mode::Word(Word::FileBegin, 1)
    } else {
        Mode::Closed
    }
}

fn hash_step(class: Class, byte: u8) -> Step
    requires { class ≡ class_of byte }
    ensures { result ≡ hash_step class byte }
{
    match class {
        Class::Digit => Step::Goes(Mode::Digits(Numeral::NONE.with_digit(byte))),
        _ => Step::Goes(outside(false, class, byte)),
    }
}

fn digits_step(name: Numeral, class: Class, byte: u8) -> Step
    requires { class ≡ class_of byte }
    ensures { result ≡ digits_step name class byte }
{
    match class {
        Class::Digit => Step::Goes(Mode::Digits(name.with_digit(byte))),
        Class::Equals => Step::Ends(Signpost::Instance(name, 0)),
        Class::Blank => Step::Goes(Mode::NameGap(name, 1, false)),
        Class::LineEnd => Step::Goes(Mode::NameGap(name, 1, true)),
        _ => Step::Goes(outside(false, class, byte)),
    }
}

fn name_gap_step(name: Numeral, blanks: u64, opened: bool, class: Class, byte: u8) -> Step
    ensures { result ≡ name_gap_step name blanks opened class byte }
{
    match class {
        Class::Equals => Step::Ends(Signpost::Instance(name, blanks)),
        Class::Blank => Step::Goes(Mode::NameGap(name, one_more(blanks), opened)),
        Class::LineEnd => Step::Goes(Mode::NameGap(name, one_more(blanks), true)),
        _ => Step::Goes(outside(opened, class, byte)),
    }
}

fn section_gap_step(blanks: u64, opened: bool, class: Class, byte: u8) -> Step
    ensures { result ≡ section_gap_step blanks opened class byte }
{
    match class {
        Class::Semicolon => Step::Ends(Signpost::SectionEnd(blanks)),
        Class::Blank => Step::Goes(Mode::SectionGap(one_more(blanks), opened)),
        Class::LineEnd => Step::Goes(Mode::SectionGap(one_more(blanks), true)),
        _ => Step::Goes(outside(opened, class, byte)),
    }
}

/// The bytes of a word.
fn word_bytes(word: Word) -> &'static [u8]
    ensures { result.now ≡ word_bytes word }
{
    match word {
        Word::SectionEnd => b"ENDSEC",
        Word::FileBegin => b"ISO-10303-21",
        Word::FileEnd => b"END-ISO-10303-21",
    }
}

fn word_step(word: Word, taken: u8, class: Class, byte: u8) -> Step
    ensures { result ≡ due_step word taken class byte (slice_get (word_bytes word) taken) }
{
    let text = word_bytes(word);
    let taken = usize::from(taken);
    match text.get(taken) {
        None => Step::Goes(outside(false, class, byte)),
        Some(due) => {
            if byte != *due {
                other_word_step(word, taken, class, byte)
            } else if taken + 1 < text.len() {
                Step::Goes(Mode::Word(word, taken as u8 + 1))
            } else {
                behind_word(word)
            }
        }
    }
}

/// A byte that isn't due: `END` begins two words.
fn other_word_step(word: Word, taken: usize, class: Class, byte: u8) -> Step
    ensures { result ≡ other_word_step word taken class byte }
{
    match word {
        Word::SectionEnd => {
            if taken == 3 && byte == b'-' {
                Step::Goes(Mode::Word(Word::FileEnd, 4))
            } else {
                Step::Goes(outside(false, class, byte))
            }
        }
        _ => Step::Goes(outside(false, class, byte)),
    }
}

/// The last byte of a word.
fn behind_word(word: Word) -> Step
    ensures { result ≡ behind_word word }
{
    match word {
        Word::SectionEnd => Step::Goes(Mode::SectionGap(0, false)),
        Word::FileBegin => Step::Ends(Signpost::FileBegin),
        Word::FileEnd => Step::Ends(Signpost::FileEnd),
    }
}
