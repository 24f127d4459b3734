//! Groups of hex digits of a directive, each of which is a character by itself (ISO 10303-21, clause 6: tokens, string).
ghost use Rattle.std.specs.Prelude.{◌<◌, ◌≤◌, IfNone, IfSome};
ghost use Rattle.p21_shorter_tokens.specs.Respelling.{AreExtended, AreGroups, Respells};
ghost use Rattle.p21_values.specs.Canonical.{Continues};

use crate::character::append_character;
use crate::draft::Draft;
use p21_scan::{behind_extended, scan_character};

/// Appends the characters of the groups of so many digits at the front, behind which their directive ends: how many bytes
/// there are up to its end, and how many characters.
#[tactic(auto, using(crate::proofs::Respelling::extended_groups))]
#[inline(always)]
pub(crate) fn append_extended(
    width: usize,
    groups: &[u8],
    draft: &mut Draft,
) -> Option<(usize, usize)>
    requires some_digits { 0 < width }
    requires few_digits { width ≤ 8 }
    ensures some { IfSome result (λ front. Respells (AreExtended width) groups.now front.0 front.1 draft.old draft.new) }
    ensures none { IfNone result (Continues draft.old draft.new) }
{
    let (count, characters) = append_groups(width, groups, draft)?;
    let rest = behind_extended(&groups[count..])?;
    if characters == 0 {
        return None;
    }
    Some((groups.len() - rest.len(), characters))
}

/// Appends the characters of the groups at the front: how many bytes they have, and how many they are.
#[inline(always)]
fn append_groups(width: usize, groups: &[u8], draft: &mut Draft) -> Option<(usize, usize)>
    requires some_digits { 0 < width }
    requires few_digits { width ≤ 8 }
    ensures some { IfSome result (λ front. Respells (AreGroups width) groups.now front.0 front.1 draft.old draft.new) }
    ensures none { IfNone result (Continues draft.old draft.new) }
{
    let mut count = 0;
    let mut characters = 0;
    while count < groups.len() {
        match scan_character(width, &groups[count..]) {
            Some((character, _behind)) => {
                if !append_character(character, draft) {
                    return None;
                }
                count += width;
                characters += 1;
            }
            None => break,
        }
    }
    Some((count, characters))
}
