ghost use Rattle.std.specs.Prelude.{◌≡◌, ◌%◌, [], ◌∷◌, ◌++◌, length, OnOk, OnErr};
ghost use Rattle.std.specs.Char.{IsScalar};
ghost use Rattle.std.specs.List.{AllByRecursion, flat_map};
ghost use Rattle.std.specs.Str.{chars};
ghost use Rattle.p21_spec_basics.specs.Digits.{hex_digit, hex_digits};
ghost use Rattle.p21_spec_exchange.specs.Spelling.{character_spelling, text_spelling};
ghost use Rattle.p21_spec_exchange.specs.Text.{end_extended};
ghost use Rattle.p21_values.specs.Canonical.{Continues};

use crate::canonical::{Canonical, restore_on_failure};
use crate::fault::NoMemory;
use std::alloc::Global;
use std::marker::Model;

/// How many characters the first one takes room for: most texts have no more.
const ROOM_OF_A_TEXT: usize = 16;

/// The characters of a string (ISO 10303-21, tokens: string), each a Unicode scalar value.
#[derive(Debug, Drop)]
pub struct Text {
    characters: Vec<char>,
}

impl Model for Text {
    ghost use Rattle.std.specs.Char.{IsScalar};
    ghost use Rattle.std.specs.List.{AllByRecursion};
    ghost use Rattle.std.specs.Prelude.{ℕ, List};

    ghost Value = { List ℕ };

    ghost view = { λ text. text.characters.items };

    ghost invariant = { λ text. AllByRecursion IsScalar text.characters.items };
}

impl Text {
    /// An empty text, which takes no memory.
    pub fn new(alloc: Global) -> Text
        ensures { result ≡ [] }
    {
        Text {
            characters: Vec::new(alloc),
        }
    }

    /// Adds a character at the end. A refusal leaves the text as it was.
    pub fn push(&mut self, character: char) -> Result<(), NoMemory>
        ensures ok { OnOk result (self.new ≡ self.old ++ character ∷ []) }
        ensures err { OnErr result (self.new ≡ self.old) }
    {
        if self.characters.is_empty() {
            self.characters.reserve(ROOM_OF_A_TEXT)?;
        }
        self.characters.push(character)?;
        Ok(())
    }

    /// Adds a character for each byte, whose code the byte is: those of ISO 8859-1. A refusal leaves the text as it was.
    pub fn push_latin1(&mut self, bytes: &[u8]) -> Result<(), NoMemory>
        ensures ok { OnOk result (self.new ≡ self.old ++ bytes.now) }
        ensures err { OnErr result (self.new ≡ self.old) }
    {
        let before = self.characters.len();
        self.characters.reserve(bytes.len())?;
        let characters = bytes.iter().map(|byte| char::from(*byte));
        if self.characters.extend(characters).is_err() {
            self.characters.truncate(before);
            return Err(NoMemory);
        }
        Ok(())
    }

    /// Adds the characters of a text in UTF-8. A refusal leaves this one as it was.
    pub fn push_str(&mut self, text: &str) -> Result<(), NoMemory>
        ensures ok { OnOk result (self.new ≡ self.old ++ chars text.now) }
        ensures err { OnErr result (self.new ≡ self.old) }
    {
        let before = self.characters.len();
        self.characters.reserve(text.chars().count())?;
        if self.characters.extend(text.chars()).is_err() {
            self.characters.truncate(before);
            return Err(NoMemory);
        }
        Ok(())
    }

    /// How many characters the text has. It takes no memory.
    pub fn len(&self) -> usize
        ensures { result ≡ length self.now }
    {
        self.characters.len()
    }

    /// Each character is a Unicode scalar value. It does nothing.
    pub fn holds(&self)
        ensures { AllByRecursion IsScalar self.now }
    {
        let _characters = &self.characters;
    }

    /// The characters, first to last. It takes no memory.
    pub fn chars(&self) -> &[char]
        ensures { result.now ≡ self.now }
    {
        self.characters.as_slice()
    }
}

impl PartialEq for Text {
    ghost use Rattle.std.proofs.Common.{rules};
    ghost use Rattle.std.specs.Cmp.Rules.{comparing};
    ghost use Rattle.std.specs.Prelude.{◌≡◌, ◌↔◌, IsTrue};
    ghost use Rattle.std.specs.Str.{bytes_eq};

    ghost eq = { bytes_eq };

    ghost laws = { Prim.search (comparing, rules) };

    /// Whether both mean the same. It takes no memory.
    fn eq(&self, other: &Text) -> bool
        ensures eq { result ≡ bytes_eq self.now other.now }
        ensures same { IsTrue result ↔ (self.now ≡ other.now) }
    {
        self.characters == other.characters
    }
}

impl Canonical for Text {
    ghost use Rattle.std.specs.Char.{IsScalar};
    ghost use Rattle.std.specs.List.{AllByRecursion};
    ghost use Rattle.std.specs.Prelude.{◌≡◌};
    ghost use Rattle.p21_spec_exchange.specs.Spelling.{text_spelling};
    ghost use Rattle.p21_spec_exchange.specs.Text.{SpellsText};
    ghost use Rattle.p21_spec_exchange.proofs.Texts.{same_texts, text_spells};

    ghost is_value = { AllByRecursion IsScalar };

    ghost same = { λ a b. a ≡ b };

    ghost spells = { SpellsText };

    ghost spelling = { text_spelling };

    ghost same_spelling = { same_texts };

    ghost spells_value = { text_spells };

    fn write_canonical(&self, out: &mut Vec<u8>) -> Result<(), NoMemory> {
        let before = out.len();
        let written = append(&self.characters, out);
        restore_on_failure(out, before, written)
    }
}

/// Appends the spelling of a text of these characters.
fn append(characters: &[char], out: &mut Vec<u8>) -> Result<(), NoMemory>
    ensures ok { OnOk result (out.new.items ≡ out.old.items ++ text_spelling characters.now) }
    ensures err { OnErr result (Continues out.old.items out.new.items) }
{
    out.reserve(characters.len())?;
    out.push(b'\'')?;
    for character in characters {
        append_character(*character, out)?;
    }
    out.push(b'\'')?;
    Ok(())
}

fn append_character(character: char, out: &mut Vec<u8>) -> Result<(), NoMemory>
    ensures ok { OnOk result (out.new.items ≡ out.old.items ++ character_spelling character) }
    ensures err { OnErr result (Continues out.old.items out.new.items) }
{
    let code = u32::from(character);
    match character {
        '\'' | '\\' => out.extend_from_slice(&[code as u8, code as u8])?,
        ' '..='~' => out.push(code as u8)?,
        '\0'..='\u{FFFF}' => out.extend_from_slice(&short_directive(code))?,
        _ => out.extend_from_slice(&long_directive(code))?,
    }
    Ok(())
}

/// The directive of a character with four hex digits (ISO 10303-21, tokens: string). It takes no memory.
pub fn short_directive(code: u32) -> [u8; 12]
    ensures { result ≡ 92 ∷ 88 ∷ 50 ∷ 92 ∷ (hex_digits 4 code ++ end_extended) }
{
    [
        b'\\',
        b'X',
        b'2',
        b'\\',
        hex_digit(code / 0x1000),
        hex_digit(code / 0x100),
        hex_digit(code / 0x10),
        hex_digit(code),
        b'\\',
        b'X',
        b'0',
        b'\\',
    ]
}

/// The directive of a character with eight hex digits (ISO 10303-21, tokens: string). It takes no memory.
pub fn long_directive(code: u32) -> [u8; 16]
    ensures { result ≡ 92 ∷ 88 ∷ 52 ∷ 92 ∷ (hex_digits 8 code ++ end_extended) }
{
    [
        b'\\',
        b'X',
        b'4',
        b'\\',
        hex_digit(code / 0x1000_0000),
        hex_digit(code / 0x100_0000),
        hex_digit(code / 0x10_0000),
        hex_digit(code / 0x1_0000),
        hex_digit(code / 0x1000),
        hex_digit(code / 0x100),
        hex_digit(code / 0x10),
        hex_digit(code),
        b'\\',
        b'X',
        b'0',
        b'\\',
    ]
}

/// The last digit of a number in base sixteen.
fn hex_digit(number: u32) -> u8
    ensures { result ≡ hex_digit (number % 16) }
{
    let digit = (number % 16) as u8;
    if digit < 10 {
        b'0' + digit
    } else {
        b'A' + (digit - 10)
    }
}
