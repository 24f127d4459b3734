//! Files with named data sections.
use crate::run::Command::{Check, Same};
use crate::run::Left::{Answer, Different};
use crate::run::Row::{Leaves, Refused, Rewritten};
use crate::run::{Rows, first_wrong};
use crate::schemas::EMPTY;
use crate::schemas::File::{self, Sections, Text};

const TWO: File = Sections(
    "DATA('b',('DEMO'));
#1=POINT($,1.,1.);
ENDSEC;
DATA('a',('demo'));
#2=POINT($,2.0,1.);
ENDSEC;
",
);

/// The same sections, sorted by their names.
const SORTED: File = Sections(
    "DATA('a',('demo'));
#2=POINT($,2.,1.);
ENDSEC;
DATA('b',('DEMO'));
#1=POINT($,1.,1.);
ENDSEC;
",
);

/// The instances of each in the other.
const EXCHANGED: File = Sections(
    "DATA('b',('DEMO'));
#2=POINT($,2.0,1.);
ENDSEC;
DATA('a',('demo'));
#1=POINT($,1.,1.);
ENDSEC;
",
);

const NAMED: File = Sections("DATA('',('DEMO'));\nENDSEC;\n");

/// Sections that refer to one another.
const ACROSS: File = Sections(
    "DATA('b',('DEMO'));\n#1=CLOUD((#2),(),(TALLY(1)));\nENDSEC;\nDATA('a',('DEMO'));\n#2=POINT($,1.,1.);\nENDSEC;\n",
);

const ROWS: Rows = &[
    // sorted by name
    Rewritten(TWO, SORTED),
    Rewritten(NAMED, NAMED),
    // counted and compared
    Leaves(
        Check,
        TWO,
        Answer("accepted, instances 2, canonical bytes 232\n"),
    ),
    Leaves(
        Check,
        ACROSS,
        Answer("accepted, instances 2, canonical bytes 243\n"),
    ),
    Leaves(Same(SORTED), TWO, Answer("same\n")),
    Leaves(Same(EXCHANGED), TWO, Different),
    Leaves(Same(NAMED), Text(EMPTY), Different),
    // refused
    Refused(
        Sections(
            "DATA('b',('DEMO'));\n#1=POINT($,1.,1.);\nENDSEC;\nDATA('a',('DEMO'));\n#1=POINT($,1.,1.);\nENDSEC;\n",
        ),
        "refused 40 DuplicateName in #1\n",
    ),
    Refused(
        Sections("DATA('a',('DEMO'));\nENDSEC;\nDATA('\\X\\61',('DEMO'));\nENDSEC;\n"),
        "refused 33 SectionTwice at statement 9\n",
    ),
    Refused(
        Sections("DATA('a',('OTHER'));\n"),
        "refused 31 SchemaName at statement 7\n",
    ),
    Refused(
        Sections("DATA('a');\n"),
        "refused 32 SectionShape at statement 7\n",
    ),
    Refused(
        Sections("DATA($,('DEMO'));\n"),
        "refused 32 SectionShape at statement 7\n",
    ),
    Refused(
        Sections("DATA('a',('DEMO','DEMO'));\n"),
        "refused 32 SectionShape at statement 7\n",
    ),
    Refused(
        Sections("DATA;\nENDSEC;\nDATA('a',('DEMO'));\n"),
        "refused 26 LeftOut(SecondSection) at statement 9\n",
    ),
    Refused(
        Sections("DATA('a',('DEMO'));\nENDSEC;\nDATA;\n"),
        "refused 26 LeftOut(SecondSection) at statement 9\n",
    ),
];

#[test]
fn takes_and_refuses_sections(rt: HostRuntime) {
    assert_eq!(rt; first_wrong(rt.alloc(), ROWS), "none");
}
