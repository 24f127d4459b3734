//! Texts that are handed out.
ghost use Rattle.std.specs.Prelude.{◌≡◌, IfSome, None, Some};
ghost use Rattle.p21_c.specs.Answers.{ShowsText};
ghost use Rattle.p21_c.specs.Contents.{HoldsText, text_in, boxed_content};
ghost use Rattle.p21_stream_output.specs.Output.{output_text};

use crate::answers::{DONE, MISUSED};
use crate::components::Handle;
use crate::contents::{Content, Holding, boxed};
use crate::lent::Lent;
use p21_stream_io::Watched;
use p21_stream_output::Accepted;
use std::alloc::Global;

/// Where the bytes of a text lie, and how many they are. They stay there until the text is let go.
#[unsafe(no_mangle)]
pub extern "C" fn p21_text_bytes(text: &Lent, at: &mut *const u8, length: &mut usize) -> u8
    ensures { ShowsText (text_in text.now.value) result at.old at.new length.old length.new }
{
    let Some(text) = text.text() else {
        return MISUSED;
    };
    *at = text.as_ptr();
    *length = text.len();
    DONE
}

/// Lets go of a text.
#[unsafe(no_mangle)]
pub extern "C" fn p21_text_free(alloc: Global, text: &mut Handle)
    ensures { text.new.value ≡ None }
{
    text.put(alloc, None);
}

/// The canonical file of an accepted one.
pub(crate) fn text_of(alloc: Global, accepted: &Accepted) -> Option<Vec<u8>>
    ensures { IfSome result (λ text. text.items ≡ output_text accepted.now) }
{
    let mut writer = Watched::new(Vec::new(alloc));
    match accepted.write_to(&mut writer) {
        Ok(()) => Some(writer.into_inner()),
        Err(_) => None,
    }
}

/// The canonical file of an accepted one, to be held.
pub(crate) fn file_of(alloc: Global, accepted: &Accepted) -> Holding
    ensures { IfSome result (λ b. HoldsText (Some b.value) (output_text accepted.now)) }
{
    let Some(text) = text_of(alloc, accepted) else {
        return None;
    };
    boxed(alloc, Content::Text(text))
}

/// Bytes, to be held.
pub(crate) fn copy_of(alloc: Global, bytes: &[u8]) -> Holding
    ensures { IfSome result (λ b. HoldsText (Some b.value) bytes.now) }
{
    let mut text = Vec::new(alloc);
    match text.extend_from_slice(bytes) {
        Ok(()) => boxed(alloc, Content::Text(text)),
        Err(_) => None,
    }
}
