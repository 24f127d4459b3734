//! Data sections.
use super::answers::Answers;
use super::files::{SECTIONS, SHAPES};
use super::{Rows, check};

const ROWS: Answers = &[
    // with names
    (
        "DATA('b',('DEMO'));\n#1=POINT($,1.,1.);\nENDSEC;\nDATA('a',('demo'));\n#2=POINT($,2.0,1.);\nENDSEC;\n",
        "DATA('a',('demo'));\n#2=POINT($,2.,1.);\nENDSEC;\nDATA('b',('DEMO'));\n#1=POINT($,1.,1.);\nENDSEC;\n",
    ),
    ("DATA('',('DEMO'));ENDSEC;", "DATA('',('DEMO'));\nENDSEC;\n"),
    (
        "DATA('a''b',('DEMO'));ENDSEC;DATA('a',('DEMO'));ENDSEC;DATA('a!',('DEMO'));ENDSEC;",
        "DATA('a!',('DEMO'));\nENDSEC;\nDATA('a',('DEMO'));\nENDSEC;\nDATA('a''b',('DEMO'));\nENDSEC;\n",
    ),
    (
        "DATA('b',('DEMO'));#7=POINT($,7.,1.);#3=POINT($,3.,1.);ENDSEC;DATA('a',('DEMO'));#5=POINT($,5.,1.);#1=POINT($,1.,1.);ENDSEC;",
        "DATA('a',('DEMO'));\n#1=POINT($,1.,1.);\n#5=POINT($,5.,1.);\nENDSEC;\nDATA('b',('DEMO'));\n#3=POINT($,3.,1.);\n#7=POINT($,7.,1.);\nENDSEC;\n",
    ),
    (
        "DATA('b',('DEMO'));#1=CLOUD((#2),(),(TALLY(1)));ENDSEC;DATA('a',('DEMO'));#2=POINT($,2.,1.);ENDSEC;",
        "DATA('a',('DEMO'));\n#2=POINT($,2.,1.);\nENDSEC;\nDATA('b',('DEMO'));\n#1=CLOUD((#2),(),(TALLY(1)));\nENDSEC;\n",
    ),
    // one after another
    (
        "DATA('b',('DEMO'));#1=POINT($,1.,1.);ENDSEC;DATA('a',('DEMO'));#1=POINT($,1.,1.);ENDSEC;",
        "refused 40 DuplicateName in #1",
    ),
    (
        "DATA('a',('DEMO'));ENDSEC;DATA('\\X\\61',('DEMO'));",
        "refused 33 SectionTwice at statement 9",
    ),
    (
        "DATA;ENDSEC;DATA('a',('DEMO'));",
        "refused 26 LeftOut(SecondSection) at statement 9",
    ),
    (
        "DATA('a',('DEMO'));ENDSEC;DATA;",
        "refused 26 LeftOut(SecondSection) at statement 9",
    ),
    (
        "DATA;ENDSEC;DATA;",
        "refused 26 LeftOut(SecondSection) at statement 9",
    ),
    // refused
    (
        "DATA('a',('OTHER'));",
        "refused 31 SchemaName at statement 7",
    ),
    ("DATA('a');", "refused 32 SectionShape at statement 7"),
    (
        "DATA($,('DEMO'));",
        "refused 32 SectionShape at statement 7",
    ),
    (
        "DATA('a',('DEMO','DEMO'));",
        "refused 32 SectionShape at statement 7",
    ),
    (
        "DATA(!A());",
        "refused 26 LeftOut(UserKeyword) at statement 7",
    ),
    ("", "refused 26 LeftOut(NoDataSection) at statement 7"),
    ("ANCHOR;", "refused 26 LeftOut(Anchor) at statement 7"),
    ("REFERENCE;", "refused 26 LeftOut(Reference) at statement 7"),
    ("SIGNATURE;", "refused 26 LeftOut(Signature) at statement 7"),
];

#[test]
fn takes_and_refuses_sections(rt: HostRuntime) {
    check(&rt, rt.alloc(), SHAPES, Rows::Answers(SECTIONS, ROWS));
}
