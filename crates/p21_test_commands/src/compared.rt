//! Two files compared.
use crate::run::Command::{Diff, DiffByPairs, Same};
use crate::run::Left::{Answer, Differences, Different, Refusal};
use crate::run::Row::{Compared, Leaves};
use crate::run::{Rows, first_wrong};
use crate::schemas::EMPTY;
use crate::schemas::File::{self, Lines, Replaced, Text};
use p21_commands::PairRows;
use p21_commands::RowForm::{self, Json};

const WITHOUT_INSTANCES: File = Text(EMPTY);

const UNKNOWN: File = Lines("#1=FOO();\n");

const DANGLING: File = Lines("#1=CLOUD((#2),(),(TALLY(1)));\n");

const ROWS: Rows = &[
    Compared(Lines(""), Lines(""), Answer("same\n")),
    Compared(
        Lines("#2 = POINT($, 1.0, 10.E-1);\n"),
        Lines("#2=POINT($,1.,1.);\n"),
        Answer("same\n"),
    ),
    Compared(
        Lines("#1=POINT('a',1.,2.);\n"),
        Lines("/* one */#01=(POINT(+1.,20.E-1)SHAPE('\\X\\61'));"),
        Answer("same\n"),
    ),
    Compared(
        Lines("#1=POINT($,1.,1.);\n#2=POINT($,2.,2.);\n"),
        Lines("#2=POINT($,2.,2.);\n#1=POINT($,1.,1.);\n"),
        Answer("same\n"),
    ),
    Compared(
        Lines("#1=CLOUD((),((2.,1.),(3.)),(TALLY(1)));\n"),
        Lines("#1=CLOUD((),((3.0),(1.,2.0)),(TALLY(1)));\n"),
        Answer("same\n"),
    ),
    Compared(
        Lines("#1=CLOUD((#2,#3),(),(#3));#2=POINT($,1.,1.);#3=ORIGIN($,*,1.);"),
        Lines("#3=ORIGIN($,*,1.);#2=POINT($,1.,1.);#1=CLOUD((#03,#02),(),(#3));"),
        Answer("same\n"),
    ),
    // different
    Compared(Lines("#2=POINT($,1.,1.);\n"), Lines(""), Different),
    Compared(
        Lines("#2=POINT($,1.,1.);\n"),
        Lines("#3=POINT($,1.,1.);\n"),
        Different,
    ),
    Compared(
        Lines("#2=POINT($,1.,1.);\n"),
        Lines("#2=POINT($,1.,2.);\n"),
        Different,
    ),
    Compared(
        Lines("#2=POINT('a',1.,1.);\n"),
        Lines("#2=POINT('A',1.,1.);\n"),
        Different,
    ),
    Compared(
        Lines("#2=POINT('',1.,1.);\n"),
        Lines("#2=POINT($,1.,1.);\n"),
        Different,
    ),
    Compared(
        Lines("#2=POINT($,1.,1.);\n"),
        Lines("#2=(MARKED(.RED.)POINT(1.,1.)SHAPE($));\n"),
        Different,
    ),
    Compared(
        Lines("#2=(MARKED(.GREEN.)POINT(1.,1.)SHAPE($));\n"),
        Lines("#2=(MARKED(.RED.)POINT(1.,1.)SHAPE($));\n"),
        Different,
    ),
    // elements and references
    Compared(
        Lines("#1=CLOUD((),((2.,1.),(3.)),(TALLY(1)));\n"),
        Lines("#1=CLOUD((),((1.),(2.,3.)),(TALLY(1)));\n"),
        Different,
    ),
    Compared(
        Lines("#1=CLOUD((),((1.),(1.)),(TALLY(1)));\n"),
        Lines("#1=CLOUD((),((1.)),(TALLY(1)));\n"),
        Different,
    ),
    Compared(
        Lines("#1=CLOUD((),(),(TALLY(1),TALLY(2)));\n"),
        Lines("#1=CLOUD((),(),(TALLY(2),TALLY(1)));\n"),
        Different,
    ),
    Compared(
        Lines("#1=CLOUD((),(),(TALLY(1)));\n"),
        Lines("#1=CLOUD((),(),(DISTANCE(1.)));\n"),
        Different,
    ),
    Compared(
        Lines("#1=CLOUD((#2),(),(#2));#2=POINT($,1.,1.);#3=POINT($,1.,1.);"),
        Lines("#1=CLOUD((#3),(),(#2));#2=POINT($,1.,1.);#3=POINT($,1.,1.);"),
        Different,
    ),
    // headers, which are compared as they stand
    Compared(
        WITHOUT_INSTANCES,
        Replaced("('DEMO')", "('demo')"),
        Different,
    ),
    Compared(WITHOUT_INSTANCES, Replaced("'2;1'", "'2;2'"), Different),
    Compared(WITHOUT_INSTANCES, Replaced("('')", "()"), Different),
    Compared(
        WITHOUT_INSTANCES,
        Replaced("('DEMO'));", "('DEMO'));!A(1);"),
        Different,
    ),
    // the file that is refused, which is named
    Leaves(
        Same(WITHOUT_INSTANCES),
        UNKNOWN,
        Refusal("first: refused 41 UnknownEntity in #1\n"),
    ),
    Leaves(
        Same(Text("")),
        UNKNOWN,
        Refusal("first: refused 41 UnknownEntity in #1\n"),
    ),
    Leaves(
        Same(Text("")),
        WITHOUT_INSTANCES,
        Refusal("second: refused 24 EndsEarly at statement 1\n"),
    ),
    Leaves(
        Same(UNKNOWN),
        WITHOUT_INSTANCES,
        Refusal("second: refused 41 UnknownEntity in #1\n"),
    ),
    Leaves(
        Same(UNKNOWN),
        DANGLING,
        Refusal("first: refused 56 Dangling in #1\n"),
    ),
    Leaves(
        Same(DANGLING),
        WITHOUT_INSTANCES,
        Refusal("second: refused 56 Dangling in #1\n"),
    ),
    // what differs, row by row
    Leaves(
        Diff(RowForm::Text, Lines("#2=POINT($,1.,1.);\n")),
        Lines("#2 = POINT($, 1.0, 10.E-1);\n"),
        Answer("same\n"),
    ),
    Leaves(
        Diff(
            RowForm::Text,
            Lines("#1=POINT('b',1.,2.);#2=ORIGIN($,*,1.);#4=POINT($,1.,1.);"),
        ),
        Lines("#1=POINT('a',1.,3.);#2=POINT($,0.,1.);#3=POINT($,1.,1.);"),
        Differences(
            "changed #1 SHAPE.LABEL 'a' 'b'\nchanged #1 POINT.Y 3. 2.\nchanged #2 from POINT to ORIGIN\n\
went #3 POINT\ncame #4 POINT\ndifferent: 3 changed, 1 came, 1 went\n",
        ),
    ),
    Leaves(
        Diff(Json, Lines("#1=CLOUD((),((2.,1.),(3.)),(TALLY(1)));\n")),
        Lines("#1=CLOUD((),((2.,1.),(3.)),(TALLY(2)));\n"),
        Differences(
            "{\"kind\":\"changed\",\"what\":\"instance\",\"a\":1,\"b\":1,\"entity\":\"CLOUD\",\"attribute\":\"VALUES\",\"keywords\":\"CLOUD\",\"indices\":[1],\"before\":\"TALLY(2)\",\"after\":\"TALLY(1)\"}\n\
{\"kind\":\"verdict\",\"verdict\":\"different\",\"changed\":1,\"came\":0,\"went\":0}\n",
        ),
    ),
    Leaves(
        Diff(RowForm::Text, DANGLING),
        WITHOUT_INSTANCES,
        Refusal("second: refused 56 Dangling in #1\n"),
    ),
    // by pairs, with both names
    Leaves(
        DiffByPairs(
            RowForm::Text,
            PairRows::Shown,
            Lines("#5=POINT($,1.,1.);#7=CLOUD((#5),(),(TALLY(1)));"),
        ),
        Lines("#1=CLOUD((#2),(),(TALLY(1)));#2=POINT($,1.,1.);"),
        Answer("pair #2/#5\npair #1/#7\nsame\n"),
    ),
    Leaves(
        DiffByPairs(
            RowForm::Text,
            PairRows::Hidden,
            Lines("#5=POINT($,1.,3.);#7=CLOUD((#5),(),(TALLY(1)));#1=ORIGIN($,*,1.);"),
        ),
        Lines(
            "#1=CLOUD((#2,#3),(),(TALLY(1)));#2=POINT($,1.,2.);#3=(MARKED(.RED.)POINT(5.,5.)SHAPE($));",
        ),
        Differences(
            "came #1 ORIGIN\nwent #3 MARKED+POINT+SHAPE\nchanged #2/#5 POINT.Y 2. 3.\nchanged #1/#7 CLOUD.MEMBERS [1] A#3 -\n\
different: 2 changed, 1 came, 1 went\n",
        ),
    ),
    Leaves(
        DiffByPairs(RowForm::Text, PairRows::Hidden, DANGLING),
        WITHOUT_INSTANCES,
        Refusal("second: refused 56 Dangling in #1\n"),
    ),
];

#[test]
fn compares_files(rt: HostRuntime) {
    assert_eq!(rt; first_wrong(rt.alloc(), ROWS), "none");
}
