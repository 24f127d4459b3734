//! Texts as rows of numbers: the bytes or characters of each from 1 on, and a 0 behind them.
ghost use Rattle.std.specs.Prelude.{◌≡◌, ◌++◌, ◌∷◌, [], map, suc, IfOk};
ghost use Rattle.p21_numbering.specs.NodesOf.{row_of_texts};
ghost use Rattle.p21_numbering.specs.Rows.{lent_rows};

use std::alloc::AllocError;

/// The row, and behind it texts.
pub fn with_texts(row: Vec<u64>, texts: &[&[char]]) -> Result<Vec<u64>, AllocError>
    ensures { IfOk result (λ more. more.items ≡ row.items ++ row_of_texts (lent_rows texts.now)) }
{
    let mut more = row;
    for one in texts {
        more = with_characters(more, *one)?;
    }
    Ok(more)
}

/// The row, and behind it a text.
pub fn with_text(row: Vec<u64>, text: &[u8]) -> Result<Vec<u64>, AllocError>
    ensures { IfOk result (λ more. more.items ≡ row.items ++ (map suc text.now ++ (0 ∷ []))) }
{
    let mut more = row;
    for byte in text {
        more.push(u64::from(*byte) + 1)?;
    }
    more.push(0)?;
    Ok(more)
}

/// The row, and behind it the characters of a text.
fn with_characters(row: Vec<u64>, characters: &[char]) -> Result<Vec<u64>, AllocError>
    ensures { IfOk result (λ more. more.items ≡ row.items ++ (map suc characters.now ++ (0 ∷ []))) }
{
    let mut more = row;
    for character in characters {
        more.push(u64::from(*character) + 1)?;
    }
    more.push(0)?;
    Ok(more)
}
