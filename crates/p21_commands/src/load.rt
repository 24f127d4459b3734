//! A schema over a reader.
ghost use Rattle.std.specs.Prelude.{◌≡◌, [], ◌∷◌, IfErr, IfOk, MatchResult, OnOk, string_bytes};
ghost use Rattle.p21_commands.specs.Failures.{FailedBy, failures_of};
ghost use Rattle.p21_commands.specs.Transfer.{ConsumesAtMost};
ghost use Rattle.p21_commands.specs.Load.{DeclaresRead, IsRefusalLine, RefusesRead, refusal_line};
ghost use Rattle.p21_commands.specs.Refusing.{RefusesBy};
ghost use Rattle.p21_spec_schema.specs.Declared.{Declares};

use crate::fault::CommandFault;
use crate::lines::{LineStarts, Position};
use crate::transfer::read_text;
use p21_express::{SchemaFault, read_schema};
use p21_express_places::{SchemaPlace, schema_place};
use p21_schema::Schema;
use p21_stream_io::Watched;
use std::alloc::{AllocError, Global};
use std::io::Read;

/// The schema that the text of a reader declares, or the fault line that says why there is none.
pub(crate) fn load_schema<S: Read>(
    alloc: Global,
    reader: &mut Watched<S>,
) -> Result<Schema, CommandFault>
    ensures ok { IfOk result (λ schema. DeclaresRead (S.remaining reader.old.inner) schema) }
    ensures err { IfErr result (RefusesRead (S.remaining reader.old.inner)) }
    ensures consumed { ConsumesAtMost (S.remaining reader.old.inner) (S.remaining reader.new.inner) }

    ensures read { OnOk result (reader.new.failures ≡ reader.old.failures) }
    ensures failed { IfErr result (FailedBy (failures_of reader.old reader.new ∷ []) []) }
{
    let text = read_text(alloc, reader)?;
    declared_schema(alloc, &text)
}

/// Why there is no schema, and where its text is refused.
#[derive(Debug, Drop)]
pub struct Unloaded {
    /// What a command answers.
    pub fault: CommandFault,
    /// Why the text is refused, if it is.
    pub refused: Option<SchemaFault>,
    /// Where, by the bytes in front of it and by its line and column.
    pub place: Option<(SchemaPlace, Position)>,
}

/// As `load_schema`, with where the text is refused.
pub(crate) fn load_located<S: Read>(
    alloc: Global,
    reader: &mut Watched<S>,
) -> Result<Schema, Unloaded>
    ensures ok { IfOk result (λ schema. DeclaresRead (S.remaining reader.old.inner) schema) }
    ensures err { IfErr result (λ unloaded. RefusesRead (S.remaining reader.old.inner) unloaded.fault) }
    ensures consumed { ConsumesAtMost (S.remaining reader.old.inner) (S.remaining reader.new.inner) }

    ensures read { OnOk result (reader.new.failures ≡ reader.old.failures) }
    ensures failed { IfErr result (λ unloaded. FailedBy (failures_of reader.old reader.new ∷ []) [] unloaded.fault) }
{
    let text = match read_text(alloc, reader) {
        Ok(text) => text,
        Err(fault) => return Err(unplaced(fault)),
    };
    match declared_schema(alloc, text.as_slice()) {
        Ok(declared) => Ok(declared),
        Err(fault) => Err(placed(alloc, &text, fault)),
    }
}

/// Why there is no schema, where that has no place.
fn unplaced(fault: CommandFault) -> Unloaded
    ensures { result.fault ≡ fault }
{
    Unloaded {
        fault,
        refused: None,
        place: None,
    }
}

/// Why a text declares no schema, and where it is refused.
fn placed(alloc: Global, text: &[u8], fault: CommandFault) -> Unloaded
    ensures { result.fault ≡ fault }
{
    let mut unloaded = unplaced(fault);
    if let CommandFault::Refused(_) = &unloaded.fault {
        unloaded.refused = read_schema(alloc, text).err();
        unloaded.place = place_in(alloc, text, unloaded.refused);
    }
    unloaded
}

/// Where a text is refused.
fn place_in(
    alloc: Global,
    text: &[u8],
    refused: Option<SchemaFault>,
) -> Option<(SchemaPlace, Position)> {
    let place = schema_place(alloc, text, refused?)?;
    let mut lines = LineStarts::new(alloc, true);
    lines.take(text);
    Some((place, lines.position(place.byte)?))
}

/// The schema that a text declares, or the fault line that says why there is none.
fn declared_schema(alloc: Global, text: &[u8]) -> Result<Schema, CommandFault>
    ensures { MatchResult result (Declares text.now) (RefusesBy IsRefusalLine text.now) }
{
    match read_schema(alloc, text) {
        Ok(schema) => Ok(schema),
        Err(SchemaFault::NoMemory) => Err(CommandFault::NoMemory),
        Err(fault) => Err(CommandFault::Refused(refusal_text(alloc, fault)?)),
    }
}

/// The line that says why a text is refused.
fn refusal_text(alloc: Global, fault: SchemaFault) -> Result<String, AllocError>
    ensures { IfOk result (λ line. string_bytes line ≡ refusal_line fault) }
{
    let number = fault.number();
    let name = fault.name();
    format!(in alloc; "schema refused S{number} {name}\n")
}
