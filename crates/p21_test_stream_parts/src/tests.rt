mod counted;
mod faults;
mod front;
mod kinds;
mod refusals;
mod reopened;
mod schema_names;
mod stored;

use std::process::Abort;

/// Fails where a row is wrong, which this names.
fn passes(rt: &impl Abort, wrong: &str) {
    assert_eq!(*rt; wrong, "none");
}

/// Fails where the row at this place is wrong.
fn passes_at(rt: &impl Abort, wrong: Option<usize>) {
    assert_eq!(*rt; wrong, None);
}
