//! The canonical text of a header record, and of the record that begins a named data section.
ghost use Rattle.std.specs.Prelude.{◌≡◌, ◌++◌, OnErr, OnOk};
ghost use Rattle.p21_spec_laws.specs.Written.{IsWritten, IsWrittenStatement};
ghost use Rattle.p21_spec_exchange.specs.Token.{IsSpelled};
ghost use Rattle.p21_spec_exchange.specs.CanonicalText.{param_text, statement_text};
ghost use Rattle.p21_spec_exchange.specs.Laying.{Laid};
ghost use Rattle.p21_spec_exchange.specs.Parameter.{key_token, list, typed};
ghost use Rattle.p21_spec_exchange.specs.Spelling.{spelling};
ghost use Rattle.p21_spec_exchange.specs.Statement.{header, statement_tokens};
ghost use Rattle.p21_values.specs.Canonical.{Continues};
ghost use Rattle.p21_grammar_tree.specs.View.{key_view, part_view, view, views};

use p21_grammar_tree::{Key, Param, Part};
use p21_mapping_values::{append_byte, append_item, append_separator};
use p21_values::{Canonical, NoMemory};

/// Appends the canonical text of a header record, or of the `DATA` of a named section, with its `;` and without a line
/// feed: its tokens are laid in it. A refusal leaves `out` as it was.
///
/// # Errors
///
/// `NoMemory`.
pub fn write_header(part: &Part, out: &mut Vec<u8>) -> Result<(), NoMemory>
    ensures ok { OnOk result (out.new.items ≡ out.old.items ++ statement_text (header (part_view part.now))) }
    ensures laid { OnOk result (Laid (statement_text (header (part_view part.now))) (statement_tokens (header (part_view part.now)))) }
    ensures err { OnErr result (out.new.items ≡ out.old.items) }
{
    let before = out.len();
    let written = append_statement(part, out);
    if written.is_err() {
        out.truncate(before);
    }
    written
}

/// Appends the text of a record, or a part of it where memory runs out.
fn append_statement(part: &Part, out: &mut Vec<u8>) -> Result<(), NoMemory>
    ensures ok { OnOk result (out.new.items ≡ out.old.items ++ statement_text (header (part_view part.now))) }
    ensures written { OnOk result (IsWrittenStatement (header (part_view part.now))) }
    ensures err { OnErr result (Continues out.old.items out.new.items) }
{
    append_key(&part.key, out)?;
    append_list(part.params.items(), out)?;
    out.push(b';')?;
    Ok(())
}

/// Appends a keyword, or a part of it where memory runs out.
fn append_key(key: &Key, out: &mut Vec<u8>) -> Result<(), NoMemory>
    ensures ok { OnOk result (out.new.items ≡ out.old.items ++ spelling (key_token (key_view key.now))) }
    ensures written { OnOk result (IsSpelled (key_token (key_view key.now))) }
    ensures err { OnErr result (Continues out.old.items out.new.items) }
{
    if key.user {
        out.push(b'!')?;
    }
    key.word.write_canonical(out)
}

/// Appends the text of a parameter, or a part of it where memory runs out.
#[cycle(append)]
fn append_param(param: &Param, out: &mut Vec<u8>) -> Result<(), NoMemory>
    ensures ok { OnOk result (out.new.items ≡ out.old.items ++ param_text (view param.now)) }
    ensures written { OnOk result (IsWritten (view param.now)) }
    ensures err { OnErr result (Continues out.old.items out.new.items) }
{
    match param {
        Param::Dollar => append_byte(b'$', out),
        Param::Star => append_byte(b'*', out),
        Param::Whole(whole) => whole.write_canonical(out),
        Param::Real(real) => real.write_canonical(out),
        Param::Text(text) => text.write_canonical(out),
        Param::Name(name) => name.write_canonical(out),
        Param::Item(word) => append_item(word, out),
        Param::Bits(bits) => bits.write_canonical(out),
        Param::List(params) => append_list(params.items(), out),
        Param::Tagged(key, inner) => append_tagged(key, inner, out),
    }
}

/// Appends the text of a typed parameter, or a part of it where memory runs out.
#[cycle(append)]
fn append_tagged(key: &Key, inner: &Param, out: &mut Vec<u8>) -> Result<(), NoMemory>
    ensures ok { OnOk result (out.new.items ≡ out.old.items ++ param_text (typed (key_view key.now) (view inner.now))) }
    ensures written { OnOk result (IsWritten (typed (key_view key.now) (view inner.now))) }
    ensures err { OnErr result (Continues out.old.items out.new.items) }
{
    append_key(key, out)?;
    out.push(b'(')?;
    append_param(inner, out)?;
    out.push(b')')?;
    Ok(())
}

/// Appends parameters in parentheses, or a part of them where memory runs out.
#[cycle(append)]
fn append_list(params: &[Param], out: &mut Vec<u8>) -> Result<(), NoMemory>
    ensures ok { OnOk result (out.new.items ≡ out.old.items ++ param_text (list (views params.now))) }
    ensures written { OnOk result (IsWritten (list (views params.now))) }
    ensures err { OnErr result (Continues out.old.items out.new.items) }
{
    out.push(b'(')?;
    for i in 0..params.len() {
        if let Err(fault) = append_separator(i == 0, out) {
            return Err(fault);
        }
        if let Err(fault) = append_param(&params[i], out) {
            return Err(fault);
        }
    }
    append_byte(b')', out)
}
