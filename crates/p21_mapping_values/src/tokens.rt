//! Small pieces of canonical text: one byte, a comma between two texts, an enumeration item.
ghost use Rattle.std.specs.Prelude.{◌≡◌, ◌++◌, ◌∷◌, [], OnErr, OnOk};
ghost use Rattle.p21_spec_exchange.specs.Keyword.{IsKeyword};
ghost use Rattle.p21_values.specs.Canonical.{Continues};
ghost use Rattle.p21_mapping_values.specs.Row.{separator};

use p21_values::{Canonical, NoMemory, Word};

/// Appends one byte.
///
/// # Errors
///
/// `NoMemory`.
pub fn append_byte(byte: u8, out: &mut Vec<u8>) -> Result<(), NoMemory>
    ensures ok { OnOk result (out.new.items ≡ out.old.items ++ byte ∷ []) }
    ensures err { OnErr result (out.new.items ≡ out.old.items) }
{
    out.push(byte)?;
    Ok(())
}

/// Appends a comma, unless what comes is the first.
///
/// # Errors
///
/// `NoMemory`.
pub fn append_separator(first: bool, out: &mut Vec<u8>) -> Result<(), NoMemory>
    ensures ok { OnOk result (out.new.items ≡ out.old.items ++ separator first) }
    ensures err { OnErr result (out.new.items ≡ out.old.items) }
{
    if first {
        return Ok(());
    }
    append_byte(b',', out)
}

/// Appends the text of an enumeration item (ISO 10303-21, tokens: enumeration), or a part of it where memory runs out.
///
/// # Errors
///
/// `NoMemory`.
pub fn append_item(word: &Word, out: &mut Vec<u8>) -> Result<(), NoMemory>
    ensures ok { OnOk result (out.new.items ≡ out.old.items ++ 46 ∷ (word.now ++ 46 ∷ [])) }
    ensures keyword { OnOk result (IsKeyword word.now) }
    ensures err { OnErr result (Continues out.old.items out.new.items) }
{
    out.push(b'.')?;
    word.write_canonical(out)?;
    out.push(b'.')?;
    Ok(())
}
