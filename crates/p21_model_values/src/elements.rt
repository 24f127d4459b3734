//! Values one by one.
ghost use Rattle.std.specs.Prelude.{◌≡◌, ◌<◌, ℕ, List, length, IfSome};
ghost use Rattle.p21_spec_exchange.specs.Parameter.{Params};
ghost use Rattle.p21_model_values.specs.Ends.{behind_comma, is_at_end};
ghost use Rattle.p21_model_values.specs.Written.{AreLeft, HandsOut};

use crate::size::value_size;
use crate::value::Value;

/// Values that stand one behind the other in parentheses, of which some have been handed out.
#[derive(Clone, Copy)]
pub struct Elements<'a> {
    /// The text from the next value on.
    pub rest: &'a [u8],
}

impl<'a> Elements<'a> {
    /// Whether no value is left. It takes no memory.
    pub fn is_empty(self) -> bool
        ensures { result ≡ is_at_end self.entry.rest.now }
    {
        match self.rest.first() {
            Some(byte) => *byte == b')',
            None => true,
        }
    }

    /// The next value. It takes no memory.
    pub fn next(&mut self) -> Option<Value<'a>>
        ensures handed { (ps : Params) (after : List ℕ) → AreLeft ps after self.old.rest.now → HandsOut ps after result self.new.rest.now }
        ensures shorter { IfSome result (λ value. length self.new.rest.now < length self.old.rest.now) }
    {
        if self.is_empty() {
            return None;
        }
        let size = value_size(self.rest);
        let text = &self.rest[..size];
        self.rest = behind_comma(&self.rest[size..]);
        Some(Value { text })
    }
}

/// What stands behind a comma, where one stands first; else all.
fn behind_comma(bytes: &[u8]) -> &[u8]
    ensures { result.now ≡ behind_comma bytes.now }
{
    match bytes.first() {
        Some(byte) if *byte == b',' => &bytes[1..],
        _ => bytes,
    }
}
