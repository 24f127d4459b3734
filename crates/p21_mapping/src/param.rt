ghost use Rattle.std.specs.Prelude.{◌≡◌, IfOk};
ghost use Rattle.p21_grammar_tree.specs.View.{items_of, key_view, view, views};

use crate::scalar_copies::{copied_bits, copied_real, copied_text, copied_whole, copied_word};
use p21_grammar_tree::{Key, Param, Params};
use p21_values::NoMemory;
use std::alloc::Global;

/// A copy of a keyword.
pub(crate) fn copied_key(alloc: Global, key: &Key) -> Result<Key, NoMemory>
    ensures { IfOk result (λ copy. key_view copy ≡ key_view key.now) }
{
    Ok(Key {
        user: key.user,
        word: copied_word(alloc, &key.word)?,
    })
}

/// A copy of a parameter.
///
/// # Errors
///
/// `NoMemory`.
#[cycle(copy)]
pub fn copied_param(alloc: Global, param: &Param) -> Result<Param, NoMemory>
    ensures { IfOk result (λ copy. view copy ≡ view param.now) }
{
    match param {
        Param::Dollar => Ok(Param::Dollar),
        Param::Star => Ok(Param::Star),
        Param::Whole(whole) => Ok(Param::Whole(copied_whole(alloc, whole)?)),
        Param::Real(real) => Ok(Param::Real(copied_real(alloc, real)?)),
        Param::Text(text) => Ok(Param::Text(copied_text(alloc, text)?)),
        Param::Name(name) => Ok(Param::Name(*name)),
        Param::Item(word) => Ok(Param::Item(copied_word(alloc, word)?)),
        Param::Bits(bits) => Ok(Param::Bits(copied_bits(alloc, bits)?)),
        Param::List(params) => Ok(Param::List(copied_params(alloc, params.items())?)),
        Param::Tagged(key, inner) => {
            let key = copied_key(alloc, key)?;
            let inner = copied_param(alloc, inner)?;
            Ok(Param::Tagged(key, Box::new(alloc, inner)?))
        }
    }
}

/// Copies of parameters, in their order.
///
/// # Errors
///
/// `NoMemory`.
#[cycle(copy)]
pub(crate) fn copied_params(alloc: Global, params: &[Param]) -> Result<Params, NoMemory>
    ensures { IfOk result (λ copy. views (items_of copy) ≡ views params.now) }
{
    let mut all = Vec::with_capacity(alloc, params.len())?;
    for i in 0..params.len() {
        all.push(copied_param(alloc, &params[i])?)?;
    }
    Ok(Params::from_vec(all))
}
