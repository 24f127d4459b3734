//! The sections of instances of one name.
use p21_stream_output::Accepted;
use p21_values::Name;

/// An instance that stands in another data section, with the lines that begin both.
#[derive(Clone, Copy)]
pub struct MovedInstance<'a> {
    pub name: Name,
    pub before: &'a [u8],
    pub after: &'a [u8],
}

/// The first instance that both files have in different sections, by the names from this one on. It takes no memory.
pub fn first_moved_from<'a>(
    first: &'a Accepted,
    second: &'a Accepted,
    least: Name,
) -> Option<MovedInstance<'a>> {
    let mut from = least.0;
    for _ in 0..u64::MAX {
        let Some((name, _)) = first.first_from(Name(from)) else {
            return None;
        };
        if let Some(found) = moved(first, second, name) {
            return Some(found);
        }
        from = name.0.checked_add(1)?;
    }
    None
}

/// The instance of a name, where it stands in different sections.
fn moved<'a>(first: &'a Accepted, second: &'a Accepted, name: Name) -> Option<MovedInstance<'a>> {
    let before = first.section_line(name)?;
    let after = second.section_line(name)?;
    if before == after {
        return None;
    }
    Some(MovedInstance {
        name,
        before,
        after,
    })
}
