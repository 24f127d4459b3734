ghost use Rattle.std.specs.Prelude.{List, ℕ, ◌≡◌, ◌↔◌, ◌≤◌, ◌<◌, ◌^◌, [], length, map, IsTrue, IfSome, IfOk, if◌then◌else◌};
ghost use Rattle.p21_spec_basics.specs.Digits.{AllDigits};
ghost use Rattle.p21_spec_exchange.specs.Keyword.{IsKeyword};
ghost use Rattle.p21_spec_schema.specs.Express.{Lexeme as ExpressLexeme, upper};
ghost use Rattle.p21_spec_schema.specs.ExpressLaying.{LaidLexemes};
ghost use Rattle.p21_express_lexemes.specs.Fault.{refusal_of, shown_by, left_out_words, is_operator};
ghost use Rattle.p21_express_lexemes.specs.Lexemes.{lexemes_of};
ghost use Rattle.p21_express_lexemes.specs.Runs.{WasTaken as MarkedWasTaken, HasAdvanced, IsMarked, marks};
ghost use Rattle.p21_express_lexemes.specs.Taking.{put, WasTaken, OneWasTaken, TakesExpected, ReadBy, take_symbol, take_word, take_simple_string, take_digits, take_name, symbol_or, word_or, simple_string_or, digits_or, name_or, bytes_seen, upper_bytes_seen, upper_of};
ghost use Rattle.p21_express_lexemes.specs.Tests.{IsTest, IsContent, IsShown};
ghost use Rattle.p21_express_lexemes.specs.Words.{is_among};
ghost use Rattle.p21_express_lexemes.specs.declared.fault.SyntaxFault.TheVariants.{Syntax, LeftOut};
ghost use Rattle.p21_express_lexemes.specs.declared.lexeme.Lexeme.TheVariants.{Identifier, Digits};
ghost use Rattle.p21_express_lexemes.specs.declared.fault.Wanted.TheVariants.{Grammar, Width, BehindDigits};

use crate::fault::{SyntaxFault, Wanted};
use crate::lexeme::{FirstLexeme, Lexeme, read_first_lexeme};
use crate::reserved::{is_left_out, is_reserved, is_same_word};
use crate::runs::Mark;
use std::marker::Model;

/// The lexemes of a text that are left, read one by one.
#[derive(Drop)]
pub struct Lexemes<'a> {
    left: &'a [u8],
    front: FirstLexeme<'a>,
}

impl<'a> Model for Lexemes<'a> {
    ghost use Rattle.std.specs.Prelude.{List};
    ghost use Rattle.p21_express_lexemes.specs.Lexemes.{lexemes_of};
    ghost use Rattle.p21_express_lexemes.specs.Meaning.{IsFirstLexeme};
    ghost use Rattle.p21_express_lexemes.specs.FirstLexeme.{first_lexeme_of};
    ghost use Rattle.p21_express_lexemes.specs.Taking.{Items};

    ghost Value = { Items };

    ghost view = { λ a. lexemes_of a.left.now };

    ghost invariant = { λ a. IsFirstLexeme (first_lexeme_of a.left.now) a.front };
}

/// The lexemes of a text are those that are laid in it, where nothing in it is wrong.
#[tactic(auto, using(crate::proofs::Put::laid_put, crate::proofs::Put::put_laid))]
pub fn lexemes_are_laid()
    ensures laid { (text : List ℕ) (lexemes : List ExpressLexeme) → LaidLexemes lexemes text → lexemes_of text ≡ put lexemes [] }
    ensures are { (text : List ℕ) (lexemes : List ExpressLexeme) → lexemes_of text ≡ put lexemes [] → LaidLexemes lexemes text }
{}

impl<'a> Lexemes<'a> {
    /// The lexemes of a text, of which none is read.
    pub fn new(text: &'a [u8]) -> Lexemes<'a>
        ensures { result ≡ lexemes_of text.now }
    {
        Lexemes {
            left: text,
            front: read_first_lexeme(text),
        }
    }

    /// The same lexemes, to be read once more.
    pub fn again(&self) -> Lexemes<'a>
        ensures { result ≡ self.now }
    {
        Lexemes {
            left: self.left,
            front: self.front,
        }
    }

    /// Whether nothing is left.
    pub fn is_empty(&self) -> bool
        ensures { IsTrue result ↔ (self.now ≡ []) }
    {
        match self.front {
            FirstLexeme::Found(_lexeme, _rest) => false,
            FirstLexeme::Ended => true,
            FirstLexeme::Wrong => false,
        }
    }

    /// As many lexemes are left at most.
    pub fn most(&self) -> usize
        ensures few { length self.now ≤ result }
        ensures small { result < 2 ^ 63 }
    {
        self.left.len()
    }

    /// Takes the first lexeme, if there is one.
    pub fn advance(&mut self) -> bool
        ensures { HasAdvanced result self.old self.new }
    {
        match self.front {
            FirstLexeme::Found(_lexeme, rest) => {
                self.left = rest;
                self.front = read_first_lexeme(rest);
                true
            }
            FirstLexeme::Ended => false,
            FirstLexeme::Wrong => false,
        }
    }

    /// Takes the first lexeme, if it is marked.
    pub fn take(&mut self, mark: Mark) -> bool
        ensures { MarkedWasTaken result (marks mark.entry) self.old self.new }
    {
        match self.front {
            FirstLexeme::Found(lexeme, rest) => {
                if is_marked(lexeme, mark) {
                    self.left = rest;
                    self.front = read_first_lexeme(rest);
                    true
                } else {
                    false
                }
            }
            FirstLexeme::Ended => false,
            FirstLexeme::Wrong => false,
        }
    }

    /// Takes this symbol, if it stands first.
    pub fn take_symbol(&mut self, byte: u8) -> bool
        ensures { WasTaken result (take_symbol byte self.old) self.old self.new }
    {
        match self.front {
            FirstLexeme::Found(lexeme, rest) => {
                if is_symbol(lexeme, byte) {
                    self.left = rest;
                    self.front = read_first_lexeme(rest);
                    true
                } else {
                    false
                }
            }
            FirstLexeme::Ended => false,
            FirstLexeme::Wrong => false,
        }
    }

    /// Takes this word, which is in upper case, if it stands first.
    pub fn take_word(&mut self, word: &[u8]) -> bool
        ensures { WasTaken result (take_word word.now self.old) self.old self.new }
    {
        match self.front {
            FirstLexeme::Found(lexeme, rest) => {
                if is_word(lexeme, word) {
                    self.left = rest;
                    self.front = read_first_lexeme(rest);
                    true
                } else {
                    false
                }
            }
            FirstLexeme::Ended => false,
            FirstLexeme::Wrong => false,
        }
    }

    /// Takes a simple string, if one stands first.
    pub fn take_simple_string(&mut self) -> bool
        ensures { WasTaken result (take_simple_string self.old) self.old self.new }
    {
        match self.front {
            FirstLexeme::Found(lexeme, rest) => {
                if is_simple_string(lexeme) {
                    self.left = rest;
                    self.front = read_first_lexeme(rest);
                    true
                } else {
                    false
                }
            }
            FirstLexeme::Ended => false,
            FirstLexeme::Wrong => false,
        }
    }

    /// Takes digits, if they stand first.
    pub fn take_digits(&mut self) -> Option<&'a [u8]>
        ensures taken { OneWasTaken (bytes_seen result) (take_digits self.old) self.old self.new }
        ensures are_digits { IfSome result (λ digits. AllDigits digits.now) }
    {
        match self.front {
            FirstLexeme::Found(lexeme, rest) => match digits_of(lexeme) {
                Some(digits) => {
                    self.left = rest;
                    self.front = read_first_lexeme(rest);
                    Some(digits)
                }
                None => None,
            },
            FirstLexeme::Ended => None,
            FirstLexeme::Wrong => None,
        }
    }

    /// Takes a name, if it stands first.
    pub fn take_name(&mut self) -> Option<&'a [u8]>
        ensures taken { OneWasTaken (upper_bytes_seen result) (take_name self.old) self.old self.new }
        ensures keyword { IfSome result (λ name. IsKeyword (map upper name.now)) }
    {
        match self.front {
            FirstLexeme::Found(lexeme, rest) => match name_of(lexeme) {
                Some(name) => {
                    self.left = rest;
                    self.front = read_first_lexeme(rest);
                    Some(name)
                }
                None => None,
            },
            FirstLexeme::Ended => None,
            FirstLexeme::Wrong => None,
        }
    }

    /// Takes this symbol.
    ///
    /// # Errors
    ///
    /// Where another lexeme stands first, or none.
    pub fn expect_symbol(&mut self, byte: u8) -> Result<(), SyntaxFault>
        ensures { TakesExpected result (take_symbol byte self.old) self.new }
    {
        if self.take_symbol(byte) {
            Ok(())
        } else {
            Err(self.refusal(Wanted::Grammar))
        }
    }

    /// Takes this word.
    ///
    /// # Errors
    ///
    /// Where another lexeme stands first, or none.
    pub fn expect_word(&mut self, word: &[u8]) -> Result<(), SyntaxFault>
        ensures { TakesExpected result (take_word word.now self.old) self.new }
    {
        if self.take_word(word) {
            Ok(())
        } else {
            Err(self.refusal(Wanted::Grammar))
        }
    }

    /// Takes a name.
    ///
    /// # Errors
    ///
    /// Where another lexeme stands first, or none.
    pub fn expect_name(&mut self) -> Result<&'a [u8], SyntaxFault>
        ensures taken { ReadBy upper_of result (take_name self.old) self.new }
        ensures keyword { IfOk result (λ name. IsKeyword (map upper name.now)) }
    {
        match self.take_name() {
            Some(name) => Ok(name),
            None => Err(self.refusal(Wanted::Grammar)),
        }
    }

    /// Why what stands first is refused, where something else is wanted.
    pub fn refusal(&self, wanted: Wanted) -> SyntaxFault
        ensures { result ≡ refusal_of wanted self.now }
    {
        match self.front {
            FirstLexeme::Found(lexeme, _rest) => shown_by(lexeme, wanted),
            FirstLexeme::Ended => SyntaxFault::Syntax,
            FirstLexeme::Wrong => SyntaxFault::Token,
        }
    }
}

fn is_symbol(lexeme: Lexeme, byte: u8) -> bool
    ensures { IsTest result lexeme.entry (symbol_or byte) }
{
    match lexeme {
        Lexeme::Symbol(other) => other == byte,
        _ => false,
    }
}

fn is_simple_string(lexeme: Lexeme) -> bool
    ensures { IsTest result lexeme.entry simple_string_or }
{
    matches!(lexeme, Lexeme::SimpleString)
}

fn is_marked(lexeme: Lexeme, mark: Mark) -> bool
    ensures { IsMarked result lexeme.entry (marks mark.entry) }
{
    match mark {
        Mark::Word(word) => match lexeme {
            Lexeme::Identifier(name) => is_same_word(name, word),
            _ => false,
        },
        Mark::Symbol(byte) => match lexeme {
            Lexeme::Symbol(other) => other == byte,
            _ => false,
        },
        Mark::Nothing => false,
    }
}

fn is_word(lexeme: Lexeme, word: &[u8]) -> bool
    ensures { IsTest result lexeme.entry (word_or word.now) }
{
    match lexeme {
        Lexeme::Identifier(name) => is_same_word(name, word),
        _ => false,
    }
}

fn digits_of(lexeme: Lexeme) -> Option<&[u8]>
    ensures content { IsContent (bytes_seen result) lexeme.entry digits_or }
    ensures is { IfSome result (λ digits. lexeme.entry ≡ Digits digits) }
{
    match lexeme {
        Lexeme::Digits(digits) => Some(digits),
        _ => None,
    }
}

fn name_of(lexeme: Lexeme) -> Option<&[u8]>
    ensures content { IsContent (upper_bytes_seen result) lexeme.entry name_or }
    ensures is { IfSome result (λ name. lexeme.entry ≡ Identifier name) }
{
    match lexeme {
        Lexeme::Identifier(name) => { if is_reserved(name) { None } else { Some(name) } }
        _ => None,
    }
}

/// Why a lexeme is refused, where something else is wanted.
#[tactic(auto, unfolding(crate::specs::Fault::shown_by))]
fn shown_by(lexeme: Lexeme, wanted: Wanted) -> SyntaxFault
    ensures { IsShown result lexeme.entry (shown_by wanted) }
{
    match wanted {
        Wanted::Grammar => shown_by_grammar(lexeme),
        Wanted::Bound => SyntaxFault::LeftOut,
        Wanted::Width => shown_by_width(lexeme),
        Wanted::BehindDigits => shown_behind_digits(lexeme),
        Wanted::SelectList => SyntaxFault::LeftOut,
    }
}

#[tactic(auto, unfolding(crate::specs::Fault::shown_by))]
fn shown_by_grammar(lexeme: Lexeme) -> SyntaxFault
    ensures { IsShown result lexeme.entry (shown_by Grammar) }
{
    match lexeme {
        Lexeme::Identifier(name) => left_out_word(name),
        _ => SyntaxFault::Syntax,
    }
}

#[tactic(auto, unfolding(crate::specs::Fault::shown_by))]
fn shown_by_width(lexeme: Lexeme) -> SyntaxFault
    ensures { IsShown result lexeme.entry (shown_by Width) }
{
    match lexeme {
        Lexeme::Symbol(byte) => {
            if byte == b'?' {
                SyntaxFault::Syntax
            } else {
                SyntaxFault::LeftOut
            }
        }
        _ => SyntaxFault::LeftOut,
    }
}

#[tactic(auto, unfolding(crate::specs::Fault::shown_by))]
fn shown_behind_digits(lexeme: Lexeme) -> SyntaxFault
    ensures { IsShown result lexeme.entry (shown_by BehindDigits) }
{
    match lexeme {
        Lexeme::Identifier(name) => {
            if is_reserved(name) {
                left_out_word(name)
            } else {
                SyntaxFault::LeftOut
            }
        }
        Lexeme::Symbol(byte) => {
            if is_operator(byte) {
                SyntaxFault::LeftOut
            } else {
                SyntaxFault::Syntax
            }
        }
        _ => SyntaxFault::Syntax,
    }
}

fn left_out_word(name: &[u8]) -> SyntaxFault
    ensures { result ≡ (if is_among left_out_words (map upper name.now) then LeftOut else Syntax) }
{
    if is_left_out(name) {
        SyntaxFault::LeftOut
    } else {
        SyntaxFault::Syntax
    }
}

fn is_operator(byte: u8) -> bool
    ensures { result ≡ is_operator byte }
{
    byte == b'+'
        || byte == b'-'
        || byte == b'*'
        || byte == b'/'
        || byte == b'.'
        || byte == b'<'
        || byte == b'>'
        || byte == b'='
        || byte == b'|'
        || byte == b'\\'
}
