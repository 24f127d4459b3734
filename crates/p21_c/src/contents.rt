//! What a handle of C holds.
ghost use Rattle.std.specs.Prelude.{◌≡◌, IfSome, Some};
ghost use Rattle.p21_c.specs.Contents.{TakesSession, boxed_content};
ghost use Rattle.p21_c.specs.declared.contents.Content.TheVariants as content;

use p21_model::Users;
use p21_schema::Schema;
use p21_stream::{LocatedSurvey, SharedSession};
use p21_stream_output::Accepted;
use std::alloc::Global;
use std::sync::Arc;

/// What a handle holds: a session and an accepted file with their schema. While it is used, `Nothing` stands for it.
#[derive(Drop)]
pub enum Content {
    Schema(Arc<Schema, Global>),
    Session(SharedSession, Arc<Schema, Global>),
    Accepted(Accepted, Arc<Schema, Global>),
    Text(Vec<u8>),
    List(LocatedSurvey),
    Users(Users),
    Nothing,
}

/// What a handle held, if it held anything.
pub(crate) type Holding = Option<Box<Content, Global>>;

/// A content in memory of its own; none where there is no memory.
pub(crate) fn boxed(alloc: Global, content: Content) -> Holding
    ensures { IfSome result (λ b. b.value ≡ content) }
{
    match Box::new(alloc, content) {
        Ok(content) => Some(content),
        Err(_) => None,
    }
}

/// Puts a content where another one was.
fn replaced(mut held: Box<Content, Global>, content: Content) -> Box<Content, Global>
    ensures { result.value ≡ content }
{
    let _ = Box::replace(&mut held, content);
    held
}

/// A session with its schema, and the block that they leave; or what was held, where that is no session.
pub(crate) enum Taken {
    Session(SharedSession, Arc<Schema, Global>, Box<Content, Global>),
    Other(Holding),
}

/// Takes a session out of its block.
pub(crate) fn take_session(held: Holding) -> Taken
    ensures { TakesSession (boxed_content held) result }
{
    let Some(mut place) = held else {
        return Taken::Other(None);
    };
    match Box::replace(&mut place, Content::Nothing) {
        Content::Session(session, schema) => Taken::Session(session, schema, place),
        content => Taken::Other(Some(replaced(place, content))),
    }
}

/// Puts a session into a block.
pub(crate) fn put_session(
    place: Box<Content, Global>,
    session: SharedSession,
    schema: Arc<Schema, Global>,
) -> Holding
    ensures { boxed_content result ≡ Some (content.Session session schema) }
{
    Some(replaced(place, Content::Session(session, schema)))
}

/// Puts an accepted file into a block.
pub(crate) fn put_accepted(
    place: Box<Content, Global>,
    accepted: Accepted,
    schema: Arc<Schema, Global>,
) -> Holding
    ensures { boxed_content result ≡ Some (content.Accepted accepted schema) }
{
    Some(replaced(place, Content::Accepted(accepted, schema)))
}
