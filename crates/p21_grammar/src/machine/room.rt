//! The room that parameters are kept in.
//!
//! A list gives back the room that it doesn't need where eight parameters or more stand in the rows around it. A vector
//! begins with room for four, so a list of one would hold four times what it needs; where few stand around it, the call
//! of the allocator would cost more than the room is worth.
ghost use Rattle.std.specs.Prelude.{◌≡◌, IfOk, IfErr};
ghost use Rattle.p21_grammar.specs.declared.fault.GrammarFault.TheVariants.{NoMemory};

use super::{Head, Opening, Row};
use crate::fault::GrammarFault;
use p21_grammar_tree::Param;
use std::alloc::Global;

/// Where fewer parameters stand in the rows around a list, it keeps its room for more.
const FEW_AROUND_A_LIST: usize = 8;

/// Deeper than this it keeps none.
const SHALLOW: usize = 4;

/// The same parameters, with room for so many more at most.
fn trimmed_params(alloc: Global, params: Vec<Param>, more: u8) -> Result<Vec<Param>, GrammarFault>
    ensures items { IfOk result (λ trimmed. trimmed.items ≡ params.items) }
    ensures err { IfErr result (λ why. why ≡ NoMemory) }
{
    let mut params = params;
    let count = params.len();
    if params.capacity() - count <= usize::from(more) {
        return Ok(params);
    }
    if count <= FEW_AROUND_A_LIST {
        return in_block_with_room(alloc, params, count + usize::from(more));
    }
    params.shrink_to_fit();
    if params.capacity() > count {
        return Err(GrammarFault::NoMemory);
    }
    Ok(params)
}

/// The same parameters in a block with this room. They leave a block that the next row can take whole; cut down where it
/// lies, it would leave a rest that is too small for a row.
fn in_block_with_room(
    alloc: Global,
    params: Vec<Param>,
    room: usize,
) -> Result<Vec<Param>, GrammarFault>
    ensures items { IfOk result (λ moved. moved.items ≡ params.items) }
    ensures err { IfErr result (λ why. why ≡ NoMemory) }
{
    let mut params = params;
    let mut fitting = Vec::with_capacity(alloc, room)?;
    fitting.append(&mut params)?;
    Ok(fitting)
}

/// The parameters of a list, trimmed where lists can be many. Two have room for a third: a block of two would be of a size
/// that is kept for blocks of the same size, and the values of two take a smaller one.
pub(crate) fn trimmed_list_params(
    alloc: Global,
    params: Vec<Param>,
    around: &[Row],
) -> Result<Vec<Param>, GrammarFault>
    ensures items { IfOk result (λ trimmed. trimmed.items ≡ params.items) }
    ensures err { IfErr result (λ why. why ≡ NoMemory) }
{
    if !are_many(around) {
        return Ok(params);
    }
    let more = if params.len() > 1 { 1 } else { 0 };
    trimmed_params(alloc, params, more)
}

/// The parameters of a simple record, trimmed where it is one of several.
pub(crate) fn trimmed_record_params(
    alloc: Global,
    params: Vec<Param>,
    head: &Head,
) -> Result<Vec<Param>, GrammarFault>
    ensures items { IfOk result (λ trimmed. trimmed.items ≡ params.items) }
    ensures err { IfErr result (λ why. why ≡ NoMemory) }
{
    match head {
        Head::Among(_, _) => trimmed_params(alloc, params, 0),
        _ => Ok(params),
    }
}

/// Whether lists can be many in these rows: where they stand deep, behind many parameters, or in one of several records.
fn are_many(around: &[Row]) -> bool {
    if around.len() > SHALLOW {
        return true;
    }
    let mut few = FEW_AROUND_A_LIST;
    for row in around {
        let row: &Row = row;
        let count = row.params.len();
        if count >= few || is_of_several(&row.opening) {
            return true;
        }
        few -= count;
    }
    false
}

/// Whether these parameters belong to one of several records.
fn is_of_several(opening: &Opening) -> bool {
    matches!(opening, Opening::Part(Head::Among(_, _), _))
}

/// Room for a first parameter that is a list or a typed one: it is often the only one.
pub(crate) fn make_room(params: &mut Vec<Param>) -> Result<(), GrammarFault>
    ensures items { params.new.items ≡ params.old.items }
    ensures err { IfErr result (λ why. why ≡ NoMemory) }
{
    if params.capacity() == 0 && params.reserve_exact(1).is_err() {
        return Err(GrammarFault::NoMemory);
    }
    Ok(())
}
