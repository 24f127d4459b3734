//! An accepted text, read once more.
ghost use Rattle.std.specs.Prelude.{◌≤◌, ℕ, length, IfOk, IfSome, OnOk};
ghost use Rattle.p21_spec_file.specs.Accepted.{IsAccepted};
ghost use Rattle.p21_numbered_file.specs.Reading.{Advances, IsReadOf, IsReadWhole, IsUnderWay};

use crate::read_file::ReadFile;
use p21_schema::Schema;
use p21_stream_statements::StatementReader;
use p21_values::{Limits, NoMemory};
use std::alloc::Global;

/// What stands in an accepted text. It can't be refused, so that only memory can be wanting.
pub(crate) fn read_text<'a>(
    alloc: Global,
    schema: &'a Schema,
    limits: Limits,
    text: &[u8],
) -> Result<ReadFile<'a>, NoMemory>
    requires { IsAccepted schema.now limits text.now }
    ensures { IfOk result (λ read. IsReadOf schema.now text.now read) }
{
    let mut reader = StatementReader::new(alloc, limits);
    let mut read = ReadFile::new(alloc);
    read_statements(alloc, schema, &mut reader, &mut read, text)?;
    let Ok(()) = reader.finish() else {
        return Err(NoMemory);
    };
    Ok(read)
}

/// Takes all tokens of a text of which nothing is taken.
fn read_statements<'a>(
    alloc: Global,
    schema: &'a Schema,
    reader: &mut StatementReader,
    read: &mut ReadFile<'a>,
    text: &[u8],
) -> Result<(), NoMemory>
    requires { IsUnderWay schema.now text.now reader.old read.old 0 0 }
    ensures { OnOk result (IsReadWhole schema.now text.now reader.new read.new) }
{
    let mut from: usize = 0;
    // Each round takes a token, and a text has no more tokens than bytes.
    let mut rounds: u64 = 0;
    loop {
        let Some(next) = advance(alloc, schema, reader, read, text, from)? else {
            return Ok(());
        };
        from = next;
        rounds += 1;
    }
}

/// Takes the bytes of one token from an index of a text on, and the statement that it ends, and says where the next one begins; none
/// where no whole token is left.
fn advance<'a>(
    alloc: Global,
    schema: &'a Schema,
    reader: &mut StatementReader,
    read: &mut ReadFile<'a>,
    text: &[u8],
    from: usize,
) -> Result<Option<usize>, NoMemory>
    requires from { from ≤ length text.now }
    requires way { (rounds : ℕ) × IsUnderWay schema.now text.now reader.old read.old from rounds }
    ensures within { IfOk result (λ next. IfSome next (λ place. place ≤ length text.now)) }
    ensures gives { Advances schema.now text.now reader.old read.old from result reader.new read.new }
{
    let Ok(answer) = reader.step(&text[from..]) else {
        return Err(NoMemory);
    };
    let Some((count, event)) = answer else {
        return Ok(None);
    };
    let Some(event) = event else {
        return Ok(Some(from + count));
    };
    read.take(alloc, schema, event)?;
    Ok(Some(from + count))
}
