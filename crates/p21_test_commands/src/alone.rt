//! Files by themselves: what `syntax` and `syntax --all` say of them.
use crate::run::Command::{self, Syntax, SyntaxAll};
use crate::run::Left::{Answer, Failure, Refusal};
use crate::run::Row::{Leaves, LeavesIn, SyntaxFails};
use crate::run::{ALL, AMPLE, Rows, first_wrong};
use crate::schemas::File::{self, Lines, Replaced, Text};
use p21_commands::Details;

const EMPTY_LINES: File = Lines("");

const LINE: Command = Syntax(Details {
    header: false,
    count: false,
});

const HEADER: Command = Syntax(Details {
    header: true,
    count: false,
});

const COUNT: Command = Syntax(Details {
    header: false,
    count: true,
});

const ROWS: Rows = &[
    // what no schema is asked about
    Leaves(
        LINE,
        EMPTY_LINES,
        Answer("well formed, instances 0, schema DEMO\n"),
    ),
    Leaves(
        LINE,
        Lines("#1=NO(#2,'x',(#1));\n#2=(B($)A(C(#1)));\n"),
        Answer("well formed, instances 2, schema DEMO\n"),
    ),
    Leaves(
        LINE,
        Replaced("'DEMO'", "'Ap203_2 {1 0}'"),
        Answer("well formed, instances 0, schema AP203_2\n"),
    ),
    // refusals
    Leaves(
        LINE,
        Text(""),
        Refusal("refused 24 EndsEarly at statement 1\n"),
    ),
    Leaves(
        LINE,
        Lines("#1=A(#2);\n"),
        Refusal("refused 56 Dangling in #1\n"),
    ),
    Leaves(
        LINE,
        Lines("#1=A();\n#1=A();\n"),
        Refusal("refused 40 DuplicateName in #1\n"),
    ),
    Leaves(
        LINE,
        Replaced("'DEMO'", "'4DEMO'"),
        Refusal("refused 31 SchemaName at statement 5\n"),
    ),
    // what is told behind the line
    Leaves(
        HEADER,
        Replaced(
            "FILE_NAME('','',(''),(''),'','','');",
            "FILE_NAME('a','b',('c','d\\X\\1B'),('e'),'f','g','h');",
        ),
        Answer(
            "well formed, instances 0, schema DEMO
description:
implementation level: 2;1
file name: a
time stamp: b
author: c
author: d\\X2\\001B\\X0\\
organization: e
preprocessor version: f
originating system: g
authorization: h
schema: DEMO
",
        ),
    ),
    Leaves(
        COUNT,
        Lines("#1=B(#2);\n#2=(B($)A(C(#1)));\n#3=B2();\n"),
        Answer("well formed, instances 3, schema DEMO\nA 1\nB 2\nB2 1\n"),
    ),
    Leaves(
        COUNT,
        EMPTY_LINES,
        Answer("well formed, instances 0, schema DEMO\n"),
    ),
    Leaves(
        Syntax(ALL),
        Lines("#1=B();\n"),
        Answer(
            "well formed, instances 1, schema DEMO
description:
implementation level: 2;1
file name:
time stamp:
author:
organization:
preprocessor version:
originating system:
authorization:
schema: DEMO
B 1
",
        ),
    ),
    Leaves(
        Syntax(ALL),
        Lines("#1=A(#2);\n"),
        Refusal("refused 56 Dangling in #1\n"),
    ),
    // readers and writers that fail
    LeavesIn(
        "what is told behind the line, cut off",
        COUNT,
        Lines("#1=B();\n"),
        ((1, 40), AMPLE),
        Failure("well formed, instances 1, schema DEMO\nB ", "write fault\n"),
    ),
    LeavesIn(
        "one byte at a time",
        LINE,
        EMPTY_LINES,
        ((1, 1000), AMPLE),
        Answer("well formed, instances 0, schema DEMO\n"),
    ),
    LeavesIn(
        "four bytes",
        LINE,
        EMPTY_LINES,
        ((1, 4), AMPLE),
        Failure("well", "write fault\n"),
    ),
    LeavesIn(
        "seven bytes of a refusal",
        LINE,
        Text(""),
        (AMPLE, (1000, 7)),
        Failure("", "refused"),
    ),
    SyntaxFails("a read that fails", "ISO-10303-21;"),
];

#[test]
fn tells_of_files_by_themselves(rt: HostRuntime) {
    assert_eq!(rt; first_wrong(rt.alloc(), ROWS), "none");
}

const TWO_MISSING: File = Lines("#1=A(#2);\n#1=B(#6);\n#3=C(#4,#1);\n");

const LISTS: Rows = &[
    Leaves(
        SyntaxAll(u64::MAX),
        Lines("#1=B();\n"),
        Answer(
            "well formed, instances 1, schema DEMO
description:
implementation level: 2;1
file name:
time stamp:
author:
organization:
preprocessor version:
originating system:
authorization:
schema: DEMO
B 1
",
        ),
    ),
    // names that are given twice, and references of what isn't left out
    Leaves(
        SyntaxAll(u64::MAX),
        TWO_MISSING,
        Refusal(
            "refused 40 DuplicateName in #1\nrefused 56 Dangling in #1\nrefused 56 Dangling in #3\nrefusals 3\n",
        ),
    ),
    Leaves(
        SyntaxAll(2),
        TWO_MISSING,
        Refusal(
            "refused 40 DuplicateName in #1\nrefused 56 Dangling in #1\nrefusals 2, no more were looked for\n",
        ),
    ),
    Leaves(
        SyntaxAll(0),
        TWO_MISSING,
        Refusal("refused 40 DuplicateName in #1\nrefusals 1, no more were looked for\n"),
    ),
    // statements that are passed over; references aren't told then
    Leaves(
        SyntaxAll(u64::MAX),
        Lines("#1=A(#2);\n#3=a();\n#4=B(,);\n#1=C();\n"),
        Refusal(
            "refused 1 BadByte at statement 9\nrefused 20 Unexpected at statement 10\nrefused 40 DuplicateName in #1\nrefusals 3\n",
        ),
    ),
    // what ends the reading
    Leaves(
        SyntaxAll(u64::MAX),
        Text("ISO-10303-21;"),
        Refusal("refused 24 EndsEarly at statement 2\nrefusals 1, read 13 bytes\n"),
    ),
    Leaves(
        SyntaxAll(u64::MAX),
        Replaced("'DEMO'", "'4DEMO'"),
        Refusal("refused 31 SchemaName at statement 5\nrefusals 1, read 89 bytes\n"),
    ),
    // writers that fail
    LeavesIn(
        "four bytes of what is told",
        SyntaxAll(u64::MAX),
        EMPTY_LINES,
        ((1, 4), AMPLE),
        Failure("well", "write fault\n"),
    ),
    LeavesIn(
        "nine bytes of a list",
        SyntaxAll(u64::MAX),
        TWO_MISSING,
        (AMPLE, (2, 9)),
        Failure("", "refused 4"),
    ),
];

#[test]
fn lists_what_is_refused_of_files_by_themselves(rt: HostRuntime) {
    assert_eq!(rt; first_wrong(rt.alloc(), LISTS), "none");
}
