//! The section of an instance is part of its membership, whose number is kept with it. An instance has that number and
//! the start of its text beside the text itself, and its position by its name (docs/PERFORMANCE.md has the bytes of
//! each). Where lines aren't kept, an instance whose name has a place in the table has the byte of its membership alone
//! (`NamedMemberships`); one whose name has no byte is stored as where lines are kept, with an empty text. There is no
//! hash table: whoever writes the file chooses the names, and with a fixed seed of the hash also the collisions.
ghost use Rattle.std.specs.Prelude.{◌≡◌, ◌+◌, ◌<◌, [], length, slice_get, Some, IfOk, IfSome, IsSome, IsTrue, OnErr};
ghost use Rattle.p21_mapping_values.specs.TypedView.{ids_view};
ghost use Rattle.p21_stream_store.specs.Memberships.{AreNumberedRows, HaveOneSet, HaveSets, membership_of};
ghost use Rattle.p21_stream_store.specs.Numbering.{Interns};

use crate::entity_sets::EntitySets;
use crate::same_front::are_same;
use p21_express_graph::EntityId;
use p21_values::NoMemory;
use std::alloc::Global;
use std::collections::BTreeMap;
use std::marker::Model;

/// So many memberships are remembered.
const GUESSES: usize = 64;

/// They stand in so many pairs.
const PAIRS: usize = 32;

/// Memberships by number, each once.
#[derive(Drop)]
pub struct Memberships {
    sets: EntitySets,
    // Of each the number of its section, and that of its set.
    rows: Vec<(usize, usize)>,
    // The number of each.
    numbers: BTreeMap<(usize, usize), usize>,
    // Memberships that were asked for, each in the pair from the index on that `guess_of` says, the later one first. What
    // stands there is compared before it counts.
    guesses: [usize; GUESSES],
}

impl Model for Memberships {
    ghost use Rattle.std.specs.Prelude.{List, length};
    ghost use Rattle.p21_stream_store.specs.Memberships.{AreNumberedRows, HaveSets, Membership, memberships_in};

    ghost Value = { List Membership };

    ghost view = { λ a. memberships_in a.sets a.rows.items };

    ghost invariant = { λ a. AreNumberedRows a.rows.items a.numbers × HaveSets (length a.sets) a.rows.items };
}

impl Memberships {
    /// A list without memberships. It takes no memory.
    pub fn new(alloc: Global) -> Memberships
        ensures { result ≡ [] }
    {
        Memberships {
            sets: EntitySets::new(alloc),
            rows: Vec::new(alloc),
            numbers: BTreeMap::new(alloc),
            guesses: [0; GUESSES],
        }
    }

    /// The section and the set of entities of a membership. It takes no memory.
    pub fn get(&self, number: usize) -> (usize, &[EntityId])
        requires { number < length self.now }
        ensures { slice_get self.now number ≡ Some (membership_of result.0 result.1.now) }
    {
        let (section, set) = self.rows[number];
        (section, self.sets.get(set))
    }

    /// The number of the set of a membership, which stays: those with the same set have the same. It takes no memory.
    pub fn set(&self, number: usize) -> usize
        requires { number < length self.now }
    {
        self.rows[number].1
    }

    /// Whether two memberships have one set, by its number. It takes no memory.
    pub fn have_one_set(&self, number: usize, other: usize) -> bool
        ensures { IsTrue result → HaveOneSet self.now number other }
    {
        let (Some(row), Some(its_row)) = (self.rows.get(number), self.rows.get(other)) else {
            return false;
        };
        row.1 == its_row.1
    }

    /// The number of a membership, which stays. A membership that isn't there yet is added behind the others.
    ///
    /// # Errors
    ///
    /// `NoMemory`, which changes nothing.
    #[inline(always)]
    pub fn add(
        &mut self,
        alloc: Global,
        section: usize,
        entities: &[EntityId],
    ) -> Result<usize, NoMemory>
        ensures ok { IfOk result (λ number. Interns self.old (membership_of section entities.now) number self.new) }
        ensures err { OnErr result (self.new ≡ self.old) }
    {
        let guess = guess_of(entities);
        let (guessed, row) = remembered(&self.sets, &self.rows, &self.guesses, guess, entities);
        if is_of(row, section) {
            return Ok(guessed);
        }
        self.add_other(alloc, section, entities)
    }

    /// The same where none is remembered.
    #[inline(never)]
    fn add_other(
        &mut self,
        alloc: Global,
        section: usize,
        entities: &[EntityId],
    ) -> Result<usize, NoMemory>
        ensures ok { IfOk result (λ number. Interns self.old (membership_of section entities.now) number self.new) }
        ensures err { OnErr result (self.new ≡ self.old) }
    {
        let guess = guess_of(entities);
        let (guessed, row) = remembered(&self.sets, &self.rows, &self.guesses, guess, entities);
        if is_of(row, section) {
            return Ok(guessed);
        }
        let set = match set_of(&mut self.sets, alloc, row, entities) {
            Ok(set) => set,
            Err(fault) => return Err(fault),
        };
        self.sets.are_once();
        let number = match intern(&mut self.rows, &mut self.numbers, section, set) {
            Ok(number) => number,
            Err(fault) => return Err(fault),
        };
        self.guesses[guess + 1] = self.guesses[guess];
        self.guesses[guess] = number;
        Ok(number)
    }
}

/// Where the pair begins in which a membership with these entities is remembered.
#[inline(always)]
fn guess_of(entities: &[EntityId]) -> usize
    ensures { result + 1 < 64 }
{
    let (Some(first), Some(last)) = (entities.first(), entities.last()) else {
        return 0;
    };
    (first.0 as usize * 3 + last.0 as usize * 5 + entities.len()) % PAIRS * 2
}

/// The number of the membership with these entities that is remembered in the pair from there on, with its section and its
/// set. Without a row there is none. Of two in turn each stays remembered.
#[inline(always)]
fn remembered(
    sets: &EntitySets,
    rows: &[(usize, usize)],
    guesses: &[usize; 64],
    guess: usize,
    entities: &[EntityId],
) -> (usize, Option<(usize, usize)>)
    requires sets { HaveSets (length sets.now) rows.now }
    requires guess { guess + 1 < 64 }
    ensures row { IfSome result.1 (λ row. slice_get rows.now result.0 ≡ Some row) }
    ensures set { IfSome result.1 (λ row. slice_get sets.now row.1 ≡ Some (ids_view entities.now)) }
{
    let first = guesses[guess];
    let row = row_of(sets, rows, first, entities);
    if row.is_some() {
        return (first, row);
    }
    let second = guesses[guess + 1];
    (second, row_of(sets, rows, second, entities))
}

/// The section and the set of the membership of this number, where its set has these entities.
#[inline(always)]
fn row_of(
    sets: &EntitySets,
    rows: &[(usize, usize)],
    number: usize,
    entities: &[EntityId],
) -> Option<(usize, usize)>
    requires { HaveSets (length sets.now) rows.now }
    ensures row { IfSome result (λ row. slice_get rows.now number ≡ Some row) }
    ensures set { IfSome result (λ row. slice_get sets.now row.1 ≡ Some (ids_view entities.now)) }
{
    let row = *rows.get(number)?;
    if !are_same(sets.get(row.1), entities) {
        return None;
    }
    Some(row)
}

/// Whether there is a row, and it is of this section.
#[inline(always)]
fn is_of(row: Option<(usize, usize)>, section: usize) -> bool
    ensures section { IsTrue result → IfSome row (λ row. row.0 ≡ section) }
    ensures some { IsTrue result → IsSome row }
{
    match row {
        Some((its_section, _)) => its_section == section,
        None => false,
    }
}

/// The number of the set of these entities. It is that of the row, where there is one; else it is added, where it isn't there
/// yet.
fn set_of(
    sets: &mut EntitySets,
    alloc: Global,
    row: Option<(usize, usize)>,
    entities: &[EntityId],
) -> Result<usize, NoMemory>
    requires { IfSome row (λ row. slice_get sets.old row.1 ≡ Some (ids_view entities.now)) }
    ensures ok { IfOk result (λ set. Interns sets.old (ids_view entities.now) set sets.new) }
    ensures err { OnErr result (sets.new ≡ sets.old) }
{
    match row {
        Some((_, set)) => Ok(set),
        None => sets.add(alloc, entities),
    }
}

/// The number of a section and a set, which are added where they aren't there yet. An `Err` changes nothing.
fn intern(
    rows: &mut Vec<(usize, usize)>,
    numbers: &mut BTreeMap<(usize, usize), usize>,
    section: usize,
    set: usize,
) -> Result<usize, NoMemory>
    requires { AreNumberedRows rows.old.items numbers.old }
    ensures numbered { AreNumberedRows rows.new.items numbers.new }
    ensures ok { IfOk result (λ number. Interns rows.old.items (section, set) number rows.new.items) }
    ensures err { OnErr result (rows.new.items ≡ rows.old.items) }
{
    let row = (section, set);
    if let Some(number) = numbers.get(&row).copied() {
        return Ok(number);
    }
    let number = rows.len();
    let Ok(()) = rows.push(row) else {
        return Err(NoMemory);
    };
    let Ok(_) = numbers.insert(row, number) else {
        rows.pop();
        return Err(NoMemory);
    };
    Ok(number)
}
