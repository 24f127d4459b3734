//! References that wait for the instances that they name.
ghost use Rattle.std.specs.Prelude.{◌≡◌, ◌↔◌, ℕ, [], ◌∷◌, Contains, IfSome, IsNone, IsTrue, OnOk};
ghost use Rattle.std.specs.List.{AllByRecursion as Each};
ghost use Rattle.p21_spec_file.specs.Reference.{param_references, record_references, references};
ghost use Rattle.p21_grammar_tree.specs.View.{part_view, record_view, view, views};
ghost use Rattle.p21_stream_store.specs.StoredInstance.{instance_names};
ghost use Rattle.p21_stream_syntax.specs.Waiting.{Adds, Drops, claims_in, claims_of, parts_references};

use p21_grammar_tree::{Param, Part, Record};
use p21_stream_store::NamedMemberships;
use p21_values::{Name, NoMemory};
use std::alloc::Global;

/// So many references may wait, in any file, before they are looked at again.
const PATIENCE: usize = 1024;

/// A reference to an instance that has not come, with the name of the instance that has it.
#[derive(Clone, Copy)]
pub struct Reference {
    pub holder: Name,
    pub target: Name,
}

/// The references that wait, in the order of the file.
#[derive(Drop)]
pub(crate) struct Waiting {
    pub(crate) references: Vec<Reference>,
    // So many may wait before they are looked at again.
    due: usize,
}

impl Waiting {
    /// None. It takes no memory.
    pub(crate) fn new(alloc: Global) -> Waiting
        ensures { claims_in result.references.items ≡ [] }
    {
        Waiting {
            references: Vec::new(alloc),
            due: PATIENCE,
        }
    }

    /// Adds the references of the record of an instance to names that have not come.
    ///
    /// # Errors
    ///
    /// `NoMemory`.
    pub(crate) fn add(
        &mut self,
        holder: Name,
        of: &Record,
        names: &NamedMemberships,
    ) -> Result<(), NoMemory>
        ensures { OnOk result (Adds (instance_names names.now) (claims_of holder (record_references (record_view of.now)))
            (claims_in self.old.references.items) (claims_in self.new.references.items)) }
    {
        match of {
            Record::Simple(part) => add_part(part, holder, names, &mut self.references),
            Record::Complex(parts) => add_parts(parts.items(), holder, names, &mut self.references),
        }
    }

    /// Drops the references to names that have come by now, where many wait. As many more may wait then as were left, and 1,024 at
    /// least, so that each is looked at a few times.
    pub(crate) fn look_again(&mut self, names: &NamedMemberships)
        ensures { Drops (instance_names names.now) (claims_in self.old.references.items) (claims_in self.new.references.items) }
    {
        if self.references.len() <= self.due {
            return;
        }
        drop_given(names, &mut self.references);
        self.due = next_due(self.references.len());
    }

    /// The instance that has the first reference in the file to a name that has not come. It takes no memory.
    pub(crate) fn first_missing(&self, names: &NamedMemberships) -> Option<Name>
        ensures some { IfSome result (λ holder. (target : ℕ) × Contains (claims_in self.now.references.items) (holder, target)
            × ¬ Contains (instance_names names.now) target) }
        ensures none { IsNone result → Each (λ claim. Contains (instance_names names.now) claim.1) (claims_in self.now.references.items) }
    {
        for index in 0..self.references.len() {
            let reference = self.references[index];
            if !has_come(&reference, names) {
                return Some(reference.holder);
            }
        }
        None
    }
}

/// How many references may wait, where so many are left.
fn next_due(left: usize) -> usize {
    left.saturating_add(left).max(PATIENCE)
}

/// Whether the instance that a reference names has come.
fn has_come(reference: &Reference, names: &NamedMemberships) -> bool
    ensures { IsTrue result ↔ Contains (instance_names names.now) reference.now.target }
{
    let target = reference.target;
    names.has_name(target.0)
}

/// Drops the references to names that have come. Those that are left stay in their order.
fn drop_given(names: &NamedMemberships, waiting: &mut Vec<Reference>)
    ensures { Drops (instance_names names.now) (claims_in waiting.old.items) (claims_in waiting.new.items) }
{
    let mut left = 0;
    for index in 0..waiting.len() {
        let reference = waiting[index];
        waiting[left] = reference;
        if !has_come(&reference, names) {
            left += 1;
        }
    }
    waiting.truncate(left);
}

/// Adds the references of simple records.
fn add_parts(
    parts: &[Part],
    holder: Name,
    names: &NamedMemberships,
    waiting: &mut Vec<Reference>,
) -> Result<(), NoMemory>
    ensures { OnOk result (Adds (instance_names names.now) (claims_of holder (parts_references parts.now)) (claims_in waiting.old.items)
        (claims_in waiting.new.items)) }
{
    for part in parts {
        if let Err(fault) = add_part(part, holder, names, waiting) {
            return Err(fault);
        }
    }
    Ok(())
}

/// Adds the references of a simple record.
fn add_part(
    part: &Part,
    holder: Name,
    names: &NamedMemberships,
    waiting: &mut Vec<Reference>,
) -> Result<(), NoMemory>
    ensures { OnOk result (Adds (instance_names names.now) (claims_of holder (references (part_view part.now).params)) (claims_in waiting.old.items)
        (claims_in waiting.new.items)) }
{
    add_listed(part.params.items(), holder, names, waiting)
}

/// Adds the references of a parameter.
#[cycle(add)]
fn add_param(
    param: &Param,
    holder: Name,
    names: &NamedMemberships,
    waiting: &mut Vec<Reference>,
) -> Result<(), NoMemory>
    ensures { OnOk result (Adds (instance_names names.now) (claims_of holder (param_references (view param.now))) (claims_in waiting.old.items)
        (claims_in waiting.new.items)) }
{
    match param {
        Param::Name(target) => add_name(*target, holder, names, waiting),
        Param::List(params) => add_listed(params.items(), holder, names, waiting),
        Param::Tagged(_, inner) => add_param(inner, holder, names, waiting),
        Param::Dollar
        | Param::Star
        | Param::Whole(_)
        | Param::Real(_)
        | Param::Text(_)
        | Param::Item(_)
        | Param::Bits(_) => Ok(()),
    }
}

/// Adds the references of parameters in a row.
#[cycle(add)]
fn add_listed(
    params: &[Param],
    holder: Name,
    names: &NamedMemberships,
    waiting: &mut Vec<Reference>,
) -> Result<(), NoMemory>
    ensures { OnOk result (Adds (instance_names names.now) (claims_of holder (references (views params.now))) (claims_in waiting.old.items)
        (claims_in waiting.new.items)) }
{
    for i in 0..params.len() {
        if let Err(fault) = add_param(&params[i], holder, names, waiting) {
            return Err(fault);
        }
    }
    Ok(())
}

/// Adds a reference to a name that has not come.
fn add_name(
    target: Name,
    holder: Name,
    names: &NamedMemberships,
    waiting: &mut Vec<Reference>,
) -> Result<(), NoMemory>
    ensures { OnOk result (Adds (instance_names names.now) ((holder, target) ∷ []) (claims_in waiting.old.items) (claims_in waiting.new.items)) }
{
    if names.has_name(target.0) {
        return Ok(());
    }
    let Ok(()) = waiting.push(Reference { holder, target }) else {
        return Err(NoMemory);
    };
    Ok(())
}
