//! The instances of each data section, by rising names.
ghost use Rattle.std.specs.Prelude.{◌≡◌, [], ◌∷◌, length, OnOk};
ghost use Rattle.p21_stream_output.specs.Filing.{HaveMemberships, AreOfSections, IsFiling, filed_rows, heads_of, section_positions, section_at, with_position};
ghost use Rattle.p21_stream_output.specs.NamedSections.{AreEmpty};

use crate::named_sections::NamedSection;
use p21_stream_store::{Instances, Memberships, Numbers};
use p21_values::NoMemory;
use std::alloc::Global;

/// Puts the positions of all instances into their data sections, by rising names. Where there is one section, they are not
/// copied.
///
/// # Errors
///
/// `NoMemory`.
pub(crate) fn file_instances(
    alloc: Global,
    parts: &mut Vec<NamedSection>,
    memberships: &Memberships,
    instances: &Instances,
) -> Result<(), NoMemory>
    requires memberships { HaveMemberships memberships.now instances.now }
    requires sections { AreOfSections (length parts.old.items) memberships.now }
    requires empty { AreEmpty parts.old.items }
    ensures heads { heads_of parts.new.items ≡ heads_of parts.old.items }
    ensures rows { OnOk result (IsFiling memberships.now instances.now (section_positions parts.old.items)
        (section_positions parts.new.items)) }
{
    let order = instances.order(alloc)?;
    if parts.len() == 1 {
        hand_over(parts, order);
        return Ok(());
    }
    file(parts, memberships, instances, &order)
}

/// Gives all positions to the only section.
fn hand_over(parts: &mut Vec<NamedSection>, order: Numbers)
    requires { length parts.old.items ≡ 1 }
    ensures heads { heads_of parts.new.items ≡ heads_of parts.old.items }
    ensures rows { section_positions parts.new.items ≡ order ∷ [] }
{
    if let Some(part) = parts.get_mut(0) {
        part.instance_positions = order;
    }
}

/// Adds positions behind those of their sections.
fn file(
    parts: &mut Vec<NamedSection>,
    memberships: &Memberships,
    instances: &Instances,
    order: &Numbers,
) -> Result<(), NoMemory>
    requires { HaveMemberships memberships.now instances.now }
    ensures heads { heads_of parts.new.items ≡ heads_of parts.old.items }
    ensures rows { OnOk result (section_positions parts.new.items ≡ filed_rows (section_at memberships.now instances.now) order.now
        (section_positions parts.old.items)) }
{
    for index in 0..order.len() {
        let place = order.get(index);
        let section = section_of(memberships, instances, place);
        put(parts, section, place)?;
    }
    Ok(())
}

/// Adds a position to a section, if there is one of this number.
fn put(parts: &mut Vec<NamedSection>, section: usize, place: usize) -> Result<(), NoMemory>
    ensures heads { heads_of parts.new.items ≡ heads_of parts.old.items }
    ensures rows { OnOk result (section_positions parts.new.items ≡ with_position section place (section_positions parts.old.items)) }
{
    if let Some(part) = parts.get_mut(section) {
        part.instance_positions.push(place)?;
    }
    Ok(())
}

/// The number of the section of the instance at a position.
fn section_of(memberships: &Memberships, instances: &Instances, place: usize) -> usize
    requires { HaveMemberships memberships.now instances.now }
    ensures { result ≡ section_at memberships.now instances.now place }
{
    if place >= instances.len() {
        return 0;
    }
    let membership = instances.membership_at(place);
    let (section, _) = memberships.get(membership);
    section
}
