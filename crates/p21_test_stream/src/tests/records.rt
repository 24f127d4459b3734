//! Records of one entity and of sets of entities.
use super::answers::Answers;
use super::files::{DEMO, SHAPES};
use super::{Rows, check};

const ROWS: Answers = &[
    // one entity
    ("", ""),
    ("#2 = POINT($, 1.0, 10.E-1);\n", "#2=POINT($,1.,1.);\n"),
    (
        "#007=POINT('a',-0.0,0.00250);\n",
        "#7=POINT('a',0.,2.5E-3);\n",
    ),
    ("#1=ORIGIN($,*,2.);", "#1=ORIGIN($,*,2.);\n"),
    ("#1=ORIGIN($,0.,2.);", "refused 48 DerivedNotStar in #1"),
    ("#1=POINT($,*,2.);", "refused 47 StarNotDerived in #1"),
    ("#1=SHAPE($);", "refused 42 Abstract in #1"),
    ("#1=FOO();", "refused 41 UnknownEntity in #1"),
    ("#1=POINT($,1.);", "refused 45 Count in #1"),
    ("#1=POINT($,1,2.);", "refused 49 WrongKind in #1"),
    // sets of entities
    ("#1=(POINT(1.,2.)SHAPE('a'));\n", "#1=POINT('a',1.,2.);\n"),
    (
        "#1=(SHAPE($)POINT(1.,2.)MARKED(.RED.));\n",
        "#1=(MARKED(.RED.)POINT(1.,2.)SHAPE($));\n",
    ),
    (
        "#1=(POINT(1.,2.)MARKED(.RED.));\n",
        "refused 43 PartMissing in #1",
    ),
    (
        "#1=(SHAPE($)SHAPE($)POINT(1.,2.)MARKED(.RED.));\n",
        "refused 44 PartTwice in #1",
    ),
    ("#1=(SHAPE('a'));", "refused 42 Abstract in #1"),
    ("#1=(POINT(1.,2.));", "refused 43 PartMissing in #1"),
    ("#1=(POINT(1.,2.)FOO());", "refused 41 UnknownEntity in #1"),
    ("#1=(POINT(1.)SHAPE('a'));", "refused 45 Count in #1"),
    ("#1=(ORIGIN()POINT(*,2.)SHAPE($));", "#1=ORIGIN($,*,2.);\n"),
    (
        "#1=(CLOUD((),(),(TALLY(1)))POINT(1.,2.)SHAPE($));",
        "#1=(CLOUD((),(),(TALLY(1)))POINT(1.,2.)SHAPE($));\n",
    ),
];

#[test]
fn takes_and_refuses_records(rt: HostRuntime) {
    check(&rt, rt.alloc(), SHAPES, Rows::Answers(DEMO, ROWS));
}
