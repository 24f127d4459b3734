ghost use Rattle.std.specs.Prelude.{◌≡◌, IsTrue};
ghost use Rattle.p21_values.specs.p21_spec_exchange.Spelling.{name_spelling};

use super::{Refusals, passes};
use p21_values::{Canonical, Name, ValueFault};
use std::alloc::Global;

type Names = &'static [(&'static str, u64, &'static str)];

const NAMES: Names = &[
    ("#007", 7, "#7"),
    ("#0", 0, "#0"),
    ("#00", 0, "#0"),
    ("#120", 120, "#120"),
    (
        "#018446744073709551615",
        18_446_744_073_709_551_615,
        "#18446744073709551615",
    ),
];

/// Whether this is the canonical spelling of the name with this number.
fn is_spelling(alloc: Global, number: u64, text: &[u8]) -> bool
    ensures { IsTrue result → text.now ≡ name_spelling number }
{
    let mut out = Vec::new(alloc);
    Name(number).write_canonical(&mut out).is_ok() && out.as_slice() == text
}

fn first_wrong(alloc: Global, names: Names) -> &'static str {
    for (text, number, spelling) in names {
        if Name::read(text.as_bytes()) != Ok(Name(*number))
            || !is_spelling(alloc, *number, spelling.as_bytes())
        {
            return text;
        }
    }
    "none"
}

const REFUSED: Refusals = &[
    ("#18446744073709551616", ValueFault::NameRange),
    ("#99999999999999999999999999", ValueFault::NameRange),
    ("#18446744073709551616X", ValueFault::BadName),
    ("#", ValueFault::BadName),
    ("", ValueFault::BadName),
    ("7", ValueFault::BadName),
    ("#-7", ValueFault::BadName),
    ("#7 ", ValueFault::BadName),
];

fn first_taken(names: Refusals) -> &'static str {
    for (text, fault) in names {
        if Name::read(text.as_bytes()) != Err(*fault) {
            return text;
        }
    }
    "none"
}

#[test]
fn reads_spells_and_refuses(rt: HostRuntime) {
    passes(&rt, first_wrong(rt.alloc(), NAMES));
    passes(&rt, first_taken(REFUSED));
}
