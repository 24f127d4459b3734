//! Files with several refusals: what `check --all` leaves of each, and of files with one or none.
use crate::run::Command::CheckAll;
use crate::run::Left::{Answer, Failure, Refusal};
use crate::run::Row::{Leaves, LeavesIn};
use crate::run::{AMPLE, Rows, first_wrong};
use crate::schemas::File::{Lines, Replaced};

/// No bound.
const ALL: u64 = u64::MAX;

const ROWS: Rows = &[
    // accepted
    Leaves(
        CheckAll(ALL),
        Lines("#1=POINT($,1.,1.);\n"),
        Answer("accepted, instances 1, canonical bytes 171\n"),
    ),
    // records, each with its first refusal
    Leaves(
        CheckAll(ALL),
        Lines("#1=POINT($,1.);\n#2=FOO();\n#3=POINT($,1.,1.);\n#4=POINT($,1,$);\n"),
        Refusal(
            "refused 45 Count in #1\nrefused 41 UnknownEntity in #2\nrefused 49 WrongKind in #4\nrefusals 3\n",
        ),
    ),
    Leaves(
        CheckAll(ALL),
        Lines("#1=SHAPE($);\n#2=(SHAPE('a'));\n#3=MARKED($,.BLUE.);\n#4=CLOUD((),(),());\n"),
        Refusal(
            "refused 42 Abstract in #1\nrefused 42 Abstract in #2\nrefused 53 UnknownItem in #3\nrefused 51 Bounds in #4\nrefusals 4\n",
        ),
    ),
    // a name given twice: the later one, whatever the first was
    Leaves(
        CheckAll(ALL),
        Lines("#1=POINT($,1.,1.);\n#01=POINT($,1.);\n#1=FOO();\n"),
        Refusal("refused 40 DuplicateName in #1\nrefused 40 DuplicateName in #1\nrefusals 2\n"),
    ),
    Leaves(
        CheckAll(ALL),
        Lines("#1=POINT($,1.);\n#1=POINT($,1.,1.);\n"),
        Refusal("refused 45 Count in #1\nrefused 40 DuplicateName in #1\nrefusals 2\n"),
    ),
    // references, those in front of their targets too
    Leaves(
        CheckAll(ALL),
        Lines(
            "#1=CLOUD((#2,#9,#8),(),(TALLY(1)));\n#2=CLOUD((),(),(TALLY(1)));\n#3=CLOUD((#1),(),(TALLY(1)));\n",
        ),
        Refusal(
            "refused 57 WrongTarget in #1\nrefused 56 Dangling in #1\nrefused 56 Dangling in #1\nrefused 57 WrongTarget in #3\nrefusals 4\n",
        ),
    ),
    // none to an instance that is refused, before it and behind it, nor one of it
    Leaves(
        CheckAll(ALL),
        Lines(
            "#1=CLOUD((#2),(),(TALLY(1)));\n#2=POINT($,1.);\n#3=CLOUD((#2),(),(TALLY(1)));\n#4=CLOUD((#9),(),$);\n",
        ),
        Refusal("refused 45 Count in #2\nrefused 46 Missing in #4\nrefusals 2\n"),
    ),
    Leaves(
        CheckAll(ALL),
        Lines("#1=CLOUD((),(),(TALLY(1)));\n#1=POINT($,1.,1.);\n#3=CLOUD((#1),(),(TALLY(1)));\n"),
        Refusal("refused 40 DuplicateName in #1\nrefusals 1\n"),
    ),
    // broken statements, which are passed over: then no name is missing
    Leaves(
        CheckAll(ALL),
        Lines("#1=CLOUD((#9),(),(TALLY(1)));\n#2=POINT($,1.);\n#3=POINT(;\n#4=FOO();\n"),
        Refusal(
            "refused 45 Count in #2\nrefused 20 Unexpected at statement 10\nrefused 41 UnknownEntity in #4\nrefusals 3\n",
        ),
    ),
    Leaves(
        CheckAll(ALL),
        Lines("#1=point();\n"),
        Refusal("refused 1 BadByte at statement 8\nrefusals 1\n"),
    ),
    Leaves(
        CheckAll(2),
        Lines("#1=point();\n#2=POINT('a'\n#3=POINT(;\n"),
        Refusal(
            "refused 1 BadByte at statement 8\nrefused 20 Unexpected at statement 9\nrefusals 2, no more were looked for\n",
        ),
    ),
    // what ends the reading
    Leaves(
        CheckAll(ALL),
        Replaced("END-ISO-10303-21;\n", ""),
        Refusal("refused 24 EndsEarly at statement 9\nrefusals 1, read 134 bytes\n"),
    ),
    Leaves(
        CheckAll(ALL),
        Replaced(
            "ENDSEC;\nEND-ISO-10303-21;\n",
            "#1=point();\nEND-ISO-10303-21;\n",
        ),
        Refusal("refused 1 BadByte at statement 8\nrefusals 1, read 126 bytes\n"),
    ),
    // so many, of records and of references
    Leaves(
        CheckAll(1),
        Lines("#1=POINT($,1.);\n#2=FOO();\n"),
        Refusal("refused 45 Count in #1\nrefusals 1, no more were looked for\n"),
    ),
    Leaves(
        CheckAll(0),
        Lines("#1=POINT($,1.);\n#2=FOO();\n"),
        Refusal("refused 45 Count in #1\nrefusals 1, no more were looked for\n"),
    ),
    Leaves(
        CheckAll(2),
        Lines("#1=CLOUD((#7,#8,#9),(),(TALLY(1)));\n"),
        Refusal(
            "refused 56 Dangling in #1\nrefused 56 Dangling in #1\nrefusals 2, no more were looked for\n",
        ),
    ),
    Leaves(
        CheckAll(4),
        Lines("#1=CLOUD((#7,#8,#9),(),(TALLY(1)));\n"),
        Refusal(
            "refused 56 Dangling in #1\nrefused 56 Dangling in #1\nrefused 56 Dangling in #1\nrefusals 3\n",
        ),
    ),
    // too little room for the lines
    LeavesIn(
        "a list that is cut",
        CheckAll(ALL),
        Lines("#1=POINT($,1.);\n#2=FOO();\n"),
        (AMPLE, (3, 30)),
        Failure("", "refused 45 Count in #1\nrefused"),
    ),
    LeavesIn(
        "an answer that is cut",
        CheckAll(ALL),
        Lines("#1=POINT($,1.,1.);\n"),
        ((3, 10), AMPLE),
        Failure("accepted, ", "write fault\n"),
    ),
];

#[test]
fn lists_all_refusals(rt: HostRuntime) {
    assert_eq!(rt; first_wrong(rt.alloc(), ROWS), "none");
}
