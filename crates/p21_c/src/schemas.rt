//! Schemas.
ghost use Rattle.std.specs.Prelude.{◌≡◌, None, Some};
ghost use Rattle.p21_c.specs.Answers.{HoldsMade, SharesSchema, StoresSchema, MakesSchema};
ghost use Rattle.p21_c.specs.Contents.{boxed_content, schema_in};

use crate::answers::{Answer, DONE, FAILED, MISUSED, Report, done, no_memory, schema_refused};
use crate::components::Handle;
use crate::contents::{Content, Holding, boxed};
use crate::lent::Lent;
use p21_express::read_schema;
use p21_schema::Schema;
use std::alloc::Global;
use std::sync::Arc;

/// Hands out the schema that a text declares.
#[unsafe(no_mangle)]
pub extern "C" fn p21_schema_new(
    alloc: Global,
    text: &[u8],
    schema: &mut Handle,
    report: &mut Report,
) -> u8
    ensures { HoldsMade (MakesSchema text.now (record { status = result; report = report.new })) schema.old.value schema.new.value }
{
    let (content, answer) = read(alloc, text);
    schema.hand(alloc, content);
    *report = answer.report;
    answer.status
}

/// Hands out another handle of a schema, which isn't copied. Either of the two may be freed first.
#[unsafe(no_mangle)]
pub extern "C" fn p21_schema_share(alloc: Global, schema: &Lent, shared: &mut Handle) -> u8
    ensures { HoldsMade (SharesSchema (schema_in schema.now.value) result) shared.old.value shared.new.value }
{
    let (made, status) = share(alloc, schema);
    shared.hand(alloc, made);
    status
}

/// Lets go of a schema. A session over it keeps it as long as it needs it.
#[unsafe(no_mangle)]
pub extern "C" fn p21_schema_free(alloc: Global, schema: &mut Handle)
    ensures { schema.new.value ≡ None }
{
    schema.put(alloc, None);
}

/// The schema that a text declares.
fn read(alloc: Global, text: &[u8]) -> (Holding, Answer)
    ensures { MakesSchema text.now result.1 (boxed_content result.0) }
{
    match read_schema(alloc, text) {
        Ok(schema) => store_schema(alloc, schema),
        Err(fault) => (None, schema_refused(fault)),
    }
}

/// A schema that sessions may share.
fn store_schema(alloc: Global, schema: Schema) -> (Holding, Answer)
    ensures { StoresSchema schema result.1 (boxed_content result.0) }
{
    let schema = match Arc::new(alloc, schema) {
        Ok(schema) => schema,
        Err(_) => return (None, no_memory()),
    };
    match boxed(alloc, Content::Schema(schema)) {
        Some(content) => (Some(content), done()),
        None => (None, no_memory()),
    }
}

/// The schema that is held, shared.
fn share(alloc: Global, schema: &Lent) -> (Holding, u8)
    ensures { SharesSchema (schema_in schema.now.value) result.1 (boxed_content result.0) }
{
    let Some(schema) = schema.schema() else {
        return (None, MISUSED);
    };
    let Ok(schema) = Arc::try_clone(schema) else {
        return (None, FAILED);
    };
    match boxed(alloc, Content::Schema(schema)) {
        Some(content) => (Some(content), DONE),
        None => (None, FAILED),
    }
}
