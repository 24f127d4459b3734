//! The handles of calls that only read. Any number of threads may read through one at once.
//!
//! Threads and the library for C. A call that only reads takes its handle as `const`, and any number of threads may be
//! in such calls with one handle at once. The toolchain refuses the plain form of this: whatever leads to memory of its
//! own behind the shared reference of an export, where its type says what a `&` to it holds (`cell-in-c`), since
//! through such a `&` memory may be written, as the count of an `Arc` is. The smallest such struct:
//!
//! ```rust
//! #[repr(C)]
//! pub struct Kept {
//!     bytes: Vec<u8>,
//! }
//!
//! #[unsafe(no_mangle)]
//! pub extern "C" fn count(kept: &Kept) -> usize {
//!     kept.bytes.len()
//! }
//! ```
//!
//! So these calls take a `&Lent`: a struct of one pointer, whose `Model` says what it owns (`also_owns`), and not what
//! a `&` to it holds. What it owns can be divided among readers: a share of the token of a lifetime, and the content as
//! it is lent for that lifetime. One function, `Lent::content`, has a proof by hand. It divides the share and gives a
//! part of it up, so that the content is lent for as long as the `&` lives; reads the pointer; and answers a `&` to the
//! content. The calls above it need no proof by hand. What C has to uphold is that the content is lent, which is what
//! the header says in words: nobody frees or changes a handle while another call has it. A part of a share that is
//! given up doesn't come back, so a caller that were proved too could not take the content back by these rules.
//!
//! Two other forms were tried. A lifetime as a parameter of `Lent` would say the same with no share of a token; in an
//! export the toolchain refuses a lifetime at a struct that has a `Model` (`exported-lasting-borrow`), and no clause
//! and no ghost field can name one. A raw pointer with a `requires*` could be proved, but each export would need a
//! proof by hand, and of what lies there the toolchain asks C to treat it as the caller's alone, also behind a `const`.
//!
//! A shared handle is a block of 2 kB and a count that is an atomic number: an `Arc`, of which the toolchain says that
//! C may pass it to other threads where what it holds may go there. That a schema, a session, an accepted file and a
//! text may (they are plain data, in memory of their own), and that several threads may read them at once, is trusted:
//! the prover's search gave up on the whole of them. In Python each call takes a handle of its own, under a lock for
//! that moment: any thread may close a schema while another one is in a call with it, and that must do no harm.
ghost use Rattle.std.specs.Prelude.{◌≡◌, Option, None, Some, MatchOption};
ghost use Rattle.p21_c.specs.Contents.{list_in, model_in, output_in, schema_in, session_in, text_in, users_in};
ghost use Rattle.p21_c.specs.Owned.{held_code};
ghost use Rattle.p21_c.specs.declared.contents.Content.{Content};
ghost use Rattle.p21_stream_output.specs.Output.{Output};

use crate::contents::Content;
use p21_model::{AcceptedModel, Users};
use p21_schema::Schema;
use p21_stream::{LocatedSurvey, SharedSession};
use p21_stream_output::Accepted;
use std::alloc::Global;
use std::marker::Model;
use std::ptr;
use std::sync::Arc;

/// A handle that C lends for a call, with what it holds: nothing where the pointer is null, else a content. Until the call
/// returns, nobody frees the content or puts another one there.
#[repr(C)]
pub struct Lent {
    at: *const u8,
    pub ghost value: { Option Content } by { held_code },
}

impl Model for Lent {
    ghost use Rattle.p21_c.specs.Owned.{lent_owns};

    ghost also_owns = { λ h. lent_owns h.at h.value };
}

impl Lent {
    /// What is held.
    fn content(&self) -> Option<&Content>
        ensures { MatchOption result (self.now.value ≡ None) (λ content. self.now.value ≡ Some content.now) }
    {
        let at = self.at;
        if at == ptr::null() {
            return None;
        }
        let content = unsafe { &*(at as *const Content) };
        Some(content)
    }

    /// The schema that is held.
    pub(crate) fn schema(&self) -> Option<&Arc<Schema, Global>>
        ensures { MatchOption result (schema_in self.now.value ≡ None) (λ shared. schema_in self.now.value ≡ Some shared.now.value) }
    {
        match self.content() {
            Some(Content::Schema(schema)) => Some(schema),
            _ => None,
        }
    }

    /// The schema that is held, for as long as it is lent.
    pub(crate) fn plain_schema(&self) -> Option<&Schema>
        ensures { MatchOption result (schema_in self.now.value ≡ None) (λ schema. schema_in self.now.value ≡ Some schema.now) }
    {
        match self.schema() {
            Some(shared) => {
                let schema: &Schema = shared;
                Some(schema)
            }
            None => None,
        }
    }

    /// The session that is held.
    pub(crate) fn session(&self) -> Option<&SharedSession>
        ensures { MatchOption result (session_in self.now.value ≡ None) (λ session. session_in self.now.value ≡ Some session.now) }
    {
        match self.content() {
            Some(Content::Session(session, _)) => Some(session),
            _ => None,
        }
    }

    /// The accepted file that is held.
    pub(crate) fn accepted(&self) -> Option<&Accepted>
        ensures { MatchOption result (output_in self.now.value ≡ None) (λ accepted. output_in self.now.value ≡ Some accepted.now) }
    {
        match self.content() {
            Some(Content::Accepted(accepted, _)) => Some(accepted),
            _ => None,
        }
    }

    /// The text that is held.
    pub(crate) fn text(&self) -> Option<&Vec<u8>>
        ensures { MatchOption result (text_in self.now.value ≡ None) (λ text. text_in self.now.value ≡ Some text.now) }
    {
        match self.content() {
            Some(Content::Text(text)) => Some(text),
            _ => None,
        }
    }

    /// The list that is held.
    pub(crate) fn list(&self) -> Option<&LocatedSurvey>
        ensures { MatchOption result (list_in self.now.value ≡ None) (λ list. list_in self.now.value ≡ Some list.now) }
    {
        match self.content() {
            Some(Content::List(list)) => Some(list),
            _ => None,
        }
    }

    /// The accepted file that is held, with its schema.
    pub(crate) fn model(&self) -> Option<AcceptedModel<'_>>
        ensures { MatchOption result (model_in self.now.value ≡ None)
            (λ model. model_in self.now.value ≡ Some (model.accepted.now, model.schema.now)) }
    {
        match self.content() {
            Some(Content::Accepted(accepted, shared)) => {
                let schema: &Schema = shared;
                Some(AcceptedModel { schema, accepted })
            }
            _ => None,
        }
    }

    /// The schema of the accepted file that is held.
    pub(crate) fn schema_of_file(&self) -> Option<&Arc<Schema, Global>>
        ensures { MatchOption result (model_in self.now.value ≡ None)
            (λ shared. (output : Output) × (model_in self.now.value ≡ Some (output, shared.now.value))) }
    {
        match self.content() {
            Some(Content::Accepted(_, schema)) => Some(schema),
            _ => None,
        }
    }

    /// The table of users that is held.
    pub(crate) fn users(&self) -> Option<&Users>
        ensures { MatchOption result (users_in self.now.value ≡ None) (λ users. users_in self.now.value ≡ Some users.now) }
    {
        match self.content() {
            Some(Content::Users(users)) => Some(users),
            _ => None,
        }
    }
}
