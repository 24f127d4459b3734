ghost use Rattle.std.specs.Prelude.{◌≡◌, ◌++◌, OnOk};
ghost use Rattle.p21_grammar_tree.specs.View.{key_view};
ghost use Rattle.p21_syntax_words.specs.HeaderText.{key_text};

use p21_grammar_tree::Key;
use p21_values::NoMemory;

/// Appends a keyword as it is written.
pub(crate) fn push_key(out: &mut Vec<u8>, key: &Key) -> Result<(), NoMemory>
    ensures { OnOk result (out.new.items ≡ out.old.items ++ key_text (key_view key.now)) }
{
    if !key.user {
        out.extend_from_slice(key.word.bytes())?;
        return Ok(());
    }
    out.push(b'!')?;
    out.extend_from_slice(key.word.bytes())?;
    Ok(())
}
