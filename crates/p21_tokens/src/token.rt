//! `Token::write_canonical` has four lines of its own for an item and a user-defined keyword, and doesn't call those of
//! `p21_mapping_values`: that crate stands on the laws of files, and the tokens don't.
ghost use Rattle.std.specs.Prelude.{◌≡◌, ◌++◌, ◌∷◌, [], OnOk, OnErr};
ghost use Rattle.p21_spec_exchange.specs.Spelling.{spelling};
ghost use Rattle.p21_tokens.specs.Token.{meant};
ghost use Rattle.p21_values.specs.Canonical.{Continues};

use p21_values::{Bits, Canonical, Decimal, Name, NoMemory, Text, Whole, Word, restore_on_failure};

/// A token of an exchange structure (ISO 10303-21, tokens).
#[derive(Debug, Drop)]
pub enum Token {
    /// `ISO-10303-21`
    Begin,
    /// `END-ISO-10303-21`
    Finish,
    Keyword(Word),
    /// A user-defined keyword, without its `!`.
    UserKeyword(Word),
    /// An instance name.
    Name(Name),
    Whole(Whole),
    Real(Decimal),
    Text(Text),
    /// An enumeration item, without its points.
    Item(Word),
    Bits(Bits),
    Left,
    Right,
    Comma,
    Semicolon,
    Equals,
    Dollar,
    Star,
}

impl Token {
    /// Appends the canonical spelling. A refusal leaves `out` as it was.
    pub fn write_canonical(&self, out: &mut Vec<u8>) -> Result<(), NoMemory>
        ensures ok { OnOk result (out.new.items ≡ out.old.items ++ spelling (meant self.now)) }
        ensures err { OnErr result (out.new.items ≡ out.old.items) }
    {
        let before = out.len();
        let written = append(self, out);
        restore_on_failure(out, before, written)
    }
}

/// Appends the canonical spelling, or a part of it where memory runs out.
fn append(token: &Token, out: &mut Vec<u8>) -> Result<(), NoMemory>
    ensures ok { OnOk result (out.new.items ≡ out.old.items ++ spelling (meant token.now)) }
    ensures err { OnErr result (Continues out.old.items out.new.items) }
{
    match token {
        Token::Keyword(word) => word.write_canonical(out),
        Token::UserKeyword(word) => append_user_keyword(word, out),
        Token::Name(name) => name.write_canonical(out),
        Token::Whole(number) => number.write_canonical(out),
        Token::Real(number) => number.write_canonical(out),
        Token::Text(text) => text.write_canonical(out),
        Token::Item(word) => append_item(word, out),
        Token::Bits(bits) => bits.write_canonical(out),
        Token::Begin => append_bytes(b"ISO-10303-21", out),
        Token::Finish => append_bytes(b"END-ISO-10303-21", out),
        Token::Left => append_bytes(b"(", out),
        Token::Right => append_bytes(b")", out),
        Token::Comma => append_bytes(b",", out),
        Token::Semicolon => append_bytes(b";", out),
        Token::Equals => append_bytes(b"=", out),
        Token::Dollar => append_bytes(b"$", out),
        Token::Star => append_bytes(b"*", out),
    }
}

fn append_bytes(bytes: &[u8], out: &mut Vec<u8>) -> Result<(), NoMemory>
    ensures ok { OnOk result (out.new.items ≡ out.old.items ++ bytes.now) }
    ensures err { OnErr result (Continues out.old.items out.new.items) }
{
    out.extend_from_slice(bytes)?;
    Ok(())
}

/// Appends a user-defined keyword behind its `!`.
fn append_user_keyword(word: &Word, out: &mut Vec<u8>) -> Result<(), NoMemory>
    ensures ok { OnOk result (out.new.items ≡ out.old.items ++ (33 ∷ word.now)) }
    ensures err { OnErr result (Continues out.old.items out.new.items) }
{
    out.push(b'!')?;
    word.write_canonical(out)
}

/// Appends an enumeration item between its points.
fn append_item(word: &Word, out: &mut Vec<u8>) -> Result<(), NoMemory>
    ensures ok { OnOk result (out.new.items ≡ out.old.items ++ (46 ∷ (word.now ++ (46 ∷ [])))) }
    ensures err { OnErr result (Continues out.old.items out.new.items) }
{
    out.push(b'.')?;
    word.write_canonical(out)?;
    out.push(b'.')?;
    Ok(())
}
