//! Directives that stand whole at the front (ISO 10303-21, clause 6: tokens, string).
ghost use Rattle.std.specs.Prelude.{ℕ, IfNone, IfSome};
ghost use Rattle.p21_scan.specs.Text.{IsLatinAt};
ghost use Rattle.p21_spec_exchange.specs.Text.{Encodes};
ghost use Rattle.p21_shorter_tokens.specs.Respelling.{Respells};
ghost use Rattle.p21_values.specs.Canonical.{Continues};

use crate::character::append_character;
use crate::draft::Draft;
use crate::groups::append_extended;
use p21_scan::{Directive, scan_directive};

/// Appends what the directive at the front stands for: how many bytes it has, and how many characters.
#[tactic(auto, using(crate::proofs::Respelling::directive_shorter, crate::proofs::Respelling::extended2_respelled, crate::proofs::Respelling::extended4_respelled))]
pub(crate) fn append_directive(rest: &[u8], draft: &mut Draft) -> Option<(usize, usize)>
    ensures some { IfSome result (λ front. Respells Encodes rest.now front.0 front.1 draft.old draft.new) }
    ensures none { IfNone result (Continues draft.old draft.new) }
{
    let (directive, behind) = scan_directive(rest)?;
    let size = rest.len() - behind.len();
    match directive {
        Directive::Latin(code) => append_latin(rest, code, behind, draft),
        Directive::Alphabet => Some((size, 0)),
        Directive::Extended2 => {
            let (count, characters) = append_extended(4, behind, draft)?;
            Some((size + count, characters))
        }
        Directive::Extended4 => {
            let (count, characters) = append_extended(8, behind, draft)?;
            Some((size + count, characters))
        }
        Directive::Doubled(_byte) => None,
    }
}

/// Appends the character of this code, whose directive stands before the bytes behind it.
#[tactic(auto, using(crate::proofs::Respelling::latin_shorter))]
fn append_latin(rest: &[u8], code: u8, behind: &[u8], draft: &mut Draft) -> Option<(usize, usize)>
    requires { IsLatinAt rest.now code behind.now }
    ensures some { IfSome result (λ front. Respells Encodes rest.now front.0 front.1 draft.old draft.new) }
    ensures none { IfNone result (Continues draft.old draft.new) }
{
    if !append_character(char::from(code), draft) {
        return None;
    }
    Some((rest.len() - behind.len(), 1))
}
