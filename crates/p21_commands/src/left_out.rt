//! Attributes that are to be left out of a list, and that the schema doesn't have.
ghost use Rattle.std.specs.Prelude.{IfErr, OnOk};
ghost use Rattle.p21_commands.specs.Unlisted.{IsRefusalOrMemory, MayAllBeMeant, RefusesAttribute};
ghost use Rattle.p21_difference_rows.specs.Asked.{left_out_of};

use crate::fault::CommandFault;
use p21_difference_rows::{AttributeName, LeftOut, first_unknown};
use p21_schema::Schema;
use std::alloc::{AllocError, Global};
use std::str;

/// Refuses the first attribute that is to be left out and that the schema doesn't have, if there is one.
pub(crate) fn check_left_out(
    alloc: Global,
    schema: &Schema,
    left_out: LeftOut<'_>,
) -> Result<(), CommandFault>
    ensures ok { OnOk result (MayAllBeMeant schema.now (left_out_of left_out.entry)) }
    ensures err { IfErr result (RefusesAttribute schema.now (left_out_of left_out.entry)) }
{
    match first_unknown(schema, left_out.attributes) {
        Some(name) => Err(unknown(alloc, schema, name)),
        None => Ok(()),
    }
}

/// The refusal of an attribute.
fn unknown(alloc: Global, schema: &Schema, name: AttributeName<'_>) -> CommandFault
    ensures { IsRefusalOrMemory result }
{
    match unknown_line(alloc, schema, name) {
        Ok(line) => CommandFault::Refused(line),
        Err(AllocError) => CommandFault::NoMemory,
    }
}

/// The line that says which entity or attribute isn't there. What it says is tested.
fn unknown_line(
    alloc: Global,
    schema: &Schema,
    name: AttributeName<'_>,
) -> Result<String, AllocError> {
    let entity = str::from_utf8(name.entity).unwrap_or_default();
    let attribute = str::from_utf8(name.attribute).unwrap_or_default();
    match schema.entity(name.entity) {
        Some(_) => format!(in alloc;
            "--ignore {entity}.{attribute}: {entity} has no attribute {attribute} of which files have values\n"
        ),
        None => format!(in alloc;
            "--ignore {entity}.{attribute}: the schema has no entity {entity}\n"
        ),
    }
}
