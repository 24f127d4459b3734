//! Two files by the names of their instances.
ghost use Rattle.std.specs.Prelude.{IfSome};
ghost use Rattle.p21_differences.specs.About.{FindsName, FindsNext, IsLesser, TellsAbout, TellsLines};
ghost use Rattle.p21_differences.specs.Changes.{FindsChange, IsOfFiles};
ghost use Rattle.p21_differences.specs.Lines.{AreLinesOf};
ghost use Rattle.p21_spec_file.specs.File.{FileMeaning};

use crate::change::Change;
use crate::entity_sets::have_one_set;
use p21_schema::Schema;
use p21_stream_output::Accepted;
use p21_values::Name;

/// Two files that were accepted under one schema.
#[derive(Clone, Copy)]
pub struct TwoFiles<'a> {
    pub schema: &'a Schema,
    pub first: &'a Accepted,
    pub second: &'a Accepted,
}

impl<'a> TwoFiles<'a> {
    /// What changed from the first file to the second about the first name, from this one on, about which something did. It takes no
    /// memory.
    pub fn first_change_from(self, least: Name) -> Option<Change<'a>>
        ensures found { (a b : FileMeaning) → AreLinesOf self.entry.schema.now a self.entry.first.now.kept →
            AreLinesOf self.entry.schema.now b self.entry.second.now.kept → FindsChange a b least result }
        ensures of_files { IfSome result (λ change. IsOfFiles self.entry.first.now.kept self.entry.second.now.kept change) }
    {
        let mut from = least.0;
        loop {
            let Some(name) = self.next_name(from) else {
                return None;
            };
            if let Some(change) = self.change_about(name) {
                return Some(change);
            }
            let Some(next) = name.checked_add(1) else {
                return None;
            };
            from = next;
        }
    }

    /// The first name from this one on that one of the files has.
    fn next_name(self, least: u64) -> Option<u64>
        ensures { FindsNext self.entry.first.now.kept self.entry.second.now.kept least result }
    {
        lesser(
            first_name(self.first, least),
            first_name(self.second, least),
        )
    }

    /// What changed about a name, if anything did.
    fn change_about(self, name: u64) -> Option<Change<'a>>
        ensures { TellsAbout self.entry.schema.now self.entry.first.now.kept self.entry.second.now.kept name result }
    {
        let Some(first) = self.first.line(Name(name)) else {
            return match self.second.line(Name(name)) {
                Some(second) => Some(Change::Came(Name(name), second)),
                None => None,
            };
        };
        let Some(second) = self.second.line(Name(name)) else {
            return Some(Change::Went(Name(name), first));
        };
        change_of(self.schema, name, first, second)
    }
}

/// The first name of a file that is this one or above it.
fn first_name(accepted: &Accepted, least: u64) -> Option<u64>
    ensures { FindsName accepted.now.kept least result }
{
    match accepted.first_from(Name(least)) {
        Some((name, _)) => Some(name.0),
        None => None,
    }
}

/// Of two names the lesser one.
fn lesser(first: Option<u64>, second: Option<u64>) -> Option<u64>
    ensures { IsLesser first second result }
{
    let Some(one) = first else {
        return match second {
            Some(other) => Some(other),
            None => None,
        };
    };
    let Some(other) = second else {
        return Some(one);
    };
    if one < other {
        return Some(one);
    }
    Some(other)
}

/// What changed from one line to another one of its name, if anything did.
fn change_of<'a>(
    schema: &'a Schema,
    name: u64,
    first: &'a [u8],
    second: &'a [u8],
) -> Option<Change<'a>>
    ensures { TellsLines schema.now name first.now second.now result }
{
    schema.well_formed();
    if first == second {
        return None;
    }
    if have_one_set(schema, name, first, second) {
        return Some(Change::Values(Name(name), first, second));
    }
    Some(Change::Set(Name(name), first, second))
}
