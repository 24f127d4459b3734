//! The table: who refers to whom.
ghost use Rattle.std.specs.Prelude.{◌≡◌, ◌≤◌, ◌↔◌, ℕ, false, true, List, Contains, IfErr, IfOk, filter, length, ltb, nat_eq};
ghost use Rattle.std.specs.List.Sorted.{IsPartitionPoint, IsStrictlySortedBy};
ghost use Rattle.p21_model_uses.specs.Tables.{AreNamed, HandsOutRow, IsOfMany, IsOfUses, IsTable, between, by_name};
ghost use Rattle.p21_model_uses.specs.declared.groups.Used.{Used as MeantUsed};
ghost use Rattle.p21_model_uses.specs.UseRows.{AreInOrder, UseRow as MeantRow};

use crate::fault::UsersFault;
use crate::groups::{Used, groups_of};
use crate::references::{Reference, places_of, references_of, users_of};
use crate::rows::{UseRow, in_order};
use std::alloc::Global;
use std::marker::Model;

/// Who refers to whom, by the names that are used.
pub struct UseTable {
    users: Vec<u64>,
    places: Vec<(u32, u32)>,
    references: Vec<Reference>,
    used: Vec<Used>,
}

// Written out: crates above call it, where they would prove a derived one field by field.
impl Drop for UseTable {
    fn drop(self) {
        let UseTable {
            users: _,
            places: _,
            references: _,
            used: _,
        } = self;
    }
}

impl Model for UseTable {
    ghost use Rattle.std.specs.Prelude.{List};
    ghost use Rattle.p21_model_uses.specs.Tables.{IsTable, uses_in};
    ghost use Rattle.p21_model_uses.specs.UseRows.{UseRow};

    ghost Value = { List UseRow };

    ghost view = { λ a. uses_in a.users.items a.places.items a.references.items a.used.items };

    ghost invariant = { λ a. IsTable a.users.items a.places.items a.references.items a.used.items };
}

impl UseTable {
    /// The table of these uses, which have the name that is used, that of the instance that uses it, and the entity and the
    /// number of the attribute. They are sorted in place, and let go.
    ///
    /// # Errors
    ///
    /// `NoMemory`; `TooMany`, only where without repetitions they are more than a number of 32 bits counts.
    pub fn new(alloc: Global, rows: Vec<UseRow>) -> Result<UseTable, UsersFault>
        ensures order { IfOk result (λ table. AreInOrder table) }
        ensures members { IfOk result (λ table. (u : MeantRow) → Contains table u ↔ Contains rows.items u) }
        ensures fault { IfErr result (IsOfUses rows.items) }
    {
        let ordered = in_order(rows);
        UseTable::of_ordered(alloc, &ordered)
    }

    /// The table of uses that stand in order.
    fn of_ordered(alloc: Global, rows: &[UseRow]) -> Result<UseTable, UsersFault>
        requires { AreInOrder rows.now }
        ensures table { IfOk result (λ table. table ≡ rows.now) }
        ensures fault { IfErr result (IsOfMany (length rows.now)) }
    {
        let users = users_of(alloc, rows)?;
        let places = places_of(alloc, rows)?;
        let references = references_of(alloc, &users, &places, rows)?;
        let used = groups_of(alloc, rows)?;
        Ok(UseTable {
            users,
            places,
            references,
            used,
        })
    }

    /// The uses of a name, in their order. It takes no memory, and doesn't walk.
    pub fn of(&self, name: u64) -> UsesLeft<'_>
        ensures { result ≡ filter (λ (u : MeantRow). nat_eq u.0 name) self.now }
    {
        UsesLeft {
            name,
            users: &self.users,
            places: &self.places,
            rest: named(&self.used, &self.references, name),
        }
    }
}

/// The references to a name.
fn named<'a>(used: &[Used], references: &'a [Reference], name: u64) -> &'a [Reference]
    requires { IsStrictlySortedBy by_name used.now }
    ensures { (users : List ℕ) (places : List (ℕ × ℕ)) → IsTable users places references.now used.now →
        AreNamed users places references.now used.now name result.now }
{
    let at = first_from(used, name);
    let Some(group) = used.get(at) else {
        return &[];
    };
    if group.name != name {
        return &[];
    }
    range_of(references, group.start, group.end)
}

/// Where the first name stands that is this one or above it.
fn first_from(used: &[Used], name: u64) -> usize
    requires { IsStrictlySortedBy by_name used.now }
    ensures { IsPartitionPoint (λ (u : MeantUsed). ltb u.name name ≡ true) (λ (u : MeantUsed). ltb u.name name ≡ false) used.now result }
{
    used.partition_point(|group| group.name < name)
}

/// The references from here to there; none, where they don't reach so far.
fn range_of(references: &[Reference], start: u32, end: u32) -> &[Reference]
    ensures { start ≤ end → end ≤ length references.now → result.now ≡ between start end references.now }
{
    match references.get(start as usize..end as usize) {
        Some(range) => range,
        None => &[],
    }
}

/// The uses of a name that are left.
#[derive(Drop)]
pub struct UsesLeft<'a> {
    name: u64,
    users: &'a [u64],
    places: &'a [(u32, u32)],
    rest: &'a [Reference],
}

impl<'a> Model for UsesLeft<'a> {
    ghost use Rattle.std.specs.Prelude.{List, map};
    ghost use Rattle.std.specs.List.{AllByRecursion as Each};
    ghost use Rattle.p21_model_uses.specs.Tables.{IsWithin, use_of};
    ghost use Rattle.p21_model_uses.specs.UseRows.{UseRow};

    ghost Value = { List UseRow };

    ghost view = { λ a. map (use_of a.users.now a.places.now a.name) a.rest.now };

    ghost invariant = { λ a. Each (IsWithin a.users.now a.places.now) a.rest.now };
}

impl<'a> UsesLeft<'a> {
    /// How many are left. It takes no memory.
    pub fn len(&self) -> usize
        ensures { result ≡ length self.now }
    {
        self.rest.len()
    }

    /// The next user, with the entity and the number of the attribute. It takes no memory.
    pub fn next(&mut self) -> Option<(u64, u32, u32)>
        ensures { HandsOutRow self.old result self.new }
    {
        let Some((reference, rest)) = self.rest.split_first() else {
            return None;
        };
        let user = self.users[reference.user as usize];
        let (entity, index) = self.places[reference.place as usize];
        self.rest = rest;
        Some((user, entity, index))
    }
}
