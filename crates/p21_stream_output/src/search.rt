//! The data section in which an instance stands.
//!
//! Each section has its instances by rising names, so an instance is looked for by halves in one section after the other. Names
//! are read from the lines, and nothing is kept for it.
ghost use Rattle.std.specs.List.Sorted.{IsNonDecreasingBy};
ghost use Rattle.std.specs.Prelude.{◌≡◌, ◌<◌, ◌^◌, ℕ, Contains, IfSome, IsNone, IsTrue, Some, false, length, slice_get};
ghost use Rattle.p21_stream_output.specs.Ending.{AreNamed};
ghost use Rattle.p21_stream_output.specs.Output.{IsNamed};
ghost use Rattle.p21_stream_output.specs.Stored.{AreFiled, ArePositions, HasNameAmong, HavePositions, HaveSmallNames};
ghost use Rattle.p21_stream_output.specs.declared.accepted.Section.{Section as Code};
ghost use Rattle.p21_stream_store.specs.StoredInstance.{instance_names, name_at};

use crate::accepted::Section;
use p21_scan::{name_number, scan_name};
use p21_stream_store::{Instances, Numbers};

/// The line of the section in which the instance of this name stands, if there is such an instance.
pub(crate) fn section_line<'a>(
    sections: &'a [Section],
    instances: &Instances,
    name: u64,
) -> Option<&'a [u8]>
    requires placed { HavePositions instances.now sections.now }
    requires named { AreNamed instances.now }
    requires filed { AreFiled instances.now sections.now }
    ensures some { IfSome result (λ line. (x : Code) × Contains sections.now x × (x.line.items ≡ line.now)
        × HasNameAmong instances.now x.instance_positions name) }
    ensures none { IsNone result → Contains (instance_names instances.now) name → ⊥ }
{
    let Some((found, _)) = instances.next_from(name) else {
        return None;
    };
    if found != name {
        return None;
    }
    line_of_section(sections, instances, name)
}

/// The line of a section that has an instance of this name, if one has it.
fn line_of_section<'a>(
    sections: &'a [Section],
    instances: &Instances,
    name: u64,
) -> Option<&'a [u8]>
    requires placed { HavePositions instances.now sections.now }
    requires named { AreNamed instances.now }
    requires small { HaveSmallNames instances.now }
    ensures some { IfSome result (λ line. (x : Code) × Contains sections.now x × (x.line.items ≡ line.now)
        × HasNameAmong instances.now x.instance_positions name) }
    ensures none { IsNone result → (x : Code) → Contains sections.now x → IsNonDecreasingBy (name_at instances.now) x.instance_positions
        → HasNameAmong instances.now x.instance_positions name → ⊥ }
{
    let mut left = sections;
    while let Some((section, behind)) = left.split_first() {
        if has_name(instances, &section.instance_positions, name) {
            return Some(&section.line);
        }
        left = behind;
    }
    None
}

/// Whether an instance of this name stands at one of the positions, if these rise by names.
fn has_name(instances: &Instances, instance_positions: &Numbers, name: u64) -> bool
    requires placed { ArePositions instances.now instance_positions.now }
    requires named { AreNamed instances.now }
    requires small { HaveSmallNames instances.now }
    ensures yes { IsTrue result → HasNameAmong instances.now instance_positions.now name }
    ensures no { result ≡ false → IsNonDecreasingBy (name_at instances.now) instance_positions.now
        → HasNameAmong instances.now instance_positions.now name → ⊥ }
{
    let mut low = 0;
    let mut high = instance_positions.len();
    while low < high {
        let middle = low + (high - low) / 2;
        let found = name_in(instances, instance_positions, middle);
        if found == name {
            return true;
        }
        if found < name {
            low = middle + 1;
        } else {
            high = middle;
        }
    }
    false
}

/// The name of the instance at the position of this number.
fn name_in(instances: &Instances, instance_positions: &Numbers, number: usize) -> u64
    requires number { number < length instance_positions.now }
    requires placed { ArePositions instances.now instance_positions.now }
    requires named { AreNamed instances.now }
    requires small { HaveSmallNames instances.now }
    ensures { (place : ℕ) × (slice_get instance_positions.now number ≡ Some place) × (name_at instances.now place ≡ result) }
{
    let place = instance_positions.get(number);
    leading_name(instances.text(place))
}

/// The name with which a line begins.
fn leading_name(line: &[u8]) -> u64
    ensures { (name : ℕ) → IsNamed name line.now → name < 2 ^ 64 → result ≡ name }
{
    let Some((digits, _)) = scan_name(line) else {
        return 0;
    };
    match name_number(digits) {
        Some(name) => name,
        None => 0,
    }
}
