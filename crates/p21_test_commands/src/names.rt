//! Files under the numbers of their models, and files compared but for the names of their instances.
use crate::run::Command::{CheckNumbered, Numbered, SameButForNames};
use crate::run::Left::{Answer, Different, Failure, Refusal};
use crate::run::Row::{Leaves, LeavesIn};
use crate::run::{AMPLE, Rows, first_wrong};
use crate::schemas::File::{self, Lines, Text};

/// A cloud of a point, under two pairs of names.
const CLOUD: File = Lines("#7=CLOUD((#3),(),(TALLY(1)));\n#3=POINT($,1.,1.);\n");

const OTHER_CLOUD: File = Lines("#4=POINT($,1.0,1.0);#9=CLOUD((#4),(),(TALLY(1)));");

/// Two clouds, each of the same two points, of which nothing tells one from the other.
const ALIKE: File = Lines(
    "#1=POINT($,1.,1.);#2=POINT($,1.,1.);#3=CLOUD((#1,#2),(),(TALLY(1)));#4=CLOUD((#1,#2),(),(TALLY(1)));",
);

const OTHER_ALIKE: File = Lines(
    "#5=POINT($,1.,1.);#6=POINT($,1.,1.);#7=CLOUD((#5,#6),(),(TALLY(1)));#8=CLOUD((#5,#6),(),(TALLY(1)));",
);

const DANGLING: File = Lines("#1=CLOUD((#2),(),(TALLY(1)));\n");

const ROWS: Rows = &[
    // the numbered file
    Leaves(
        Numbered,
        CLOUD,
        Answer(
            "ISO-10303-21;\nHEADER;\nFILE_DESCRIPTION((''),'2;1');\nFILE_NAME('','',(''),(''),'','','');\nFILE_SCHEMA(('DEMO'));\nENDSEC;\nDATA;\n\
#1=CLOUD((#2),(),(TALLY(1)));\n#2=POINT($,1.,1.);\nENDSEC;\nEND-ISO-10303-21;\n",
        ),
    ),
    Leaves(
        Numbered,
        OTHER_CLOUD,
        Answer(
            "ISO-10303-21;\nHEADER;\nFILE_DESCRIPTION((''),'2;1');\nFILE_NAME('','',(''),(''),'','','');\nFILE_SCHEMA(('DEMO'));\nENDSEC;\nDATA;\n\
#1=CLOUD((#2),(),(TALLY(1)));\n#2=POINT($,1.,1.);\nENDSEC;\nEND-ISO-10303-21;\n",
        ),
    ),
    Leaves(Numbered, ALIKE, Refusal("refused 59 Alike in #3\n")),
    Leaves(Numbered, DANGLING, Refusal("refused 56 Dangling in #1\n")),
    LeavesIn(
        "a numbered file in little space",
        Numbered,
        CLOUD,
        ((5, 20), AMPLE),
        Failure("ISO-10303-21;\nHEADER", "write fault\n"),
    ),
    // whether there is one
    Leaves(
        CheckNumbered,
        CLOUD,
        Answer("accepted, instances 2, canonical bytes 201\n"),
    ),
    Leaves(CheckNumbered, ALIKE, Refusal("refused 59 Alike in #3\n")),
    Leaves(
        CheckNumbered,
        Lines("#1=FOO();\n"),
        Refusal("refused 41 UnknownEntity in #1\n"),
    ),
    // two files
    Leaves(SameButForNames(OTHER_CLOUD), CLOUD, Answer("same\n")),
    Leaves(
        SameButForNames(Lines("#4=POINT($,1.,2.);#9=CLOUD((#4),(),(TALLY(1)));")),
        CLOUD,
        Different,
    ),
    Leaves(SameButForNames(ALIKE), ALIKE, Answer("same\n")),
    Leaves(
        SameButForNames(OTHER_ALIKE),
        ALIKE,
        Refusal("first: refused 59 Alike in #3\n"),
    ),
    Leaves(SameButForNames(CLOUD), ALIKE, Different),
    Leaves(
        SameButForNames(Text("")),
        DANGLING,
        Refusal("first: refused 56 Dangling in #1\n"),
    ),
    Leaves(
        SameButForNames(DANGLING),
        ALIKE,
        Refusal("second: refused 56 Dangling in #1\n"),
    ),
];

#[test]
fn tells_files_by_their_numbers(rt: HostRuntime) {
    assert_eq!(rt; first_wrong(rt.alloc(), ROWS), "none");
}
