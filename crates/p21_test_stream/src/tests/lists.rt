//! Sets, bags, lists and selects.
use super::answers::Answers;
use super::files::{DEMO, SHAPES};
use super::{Rows, check};

const ROWS: Answers = &[
    // sets and bags
    (
        "#1=CLOUD((),((2.,1.),(),(1.0,2.)),(TALLY(1)));",
        "#1=CLOUD((),((),(1.,2.),(1.,2.)),(TALLY(1)));\n",
    ),
    (
        "#1=CLOUD((#2,#02),(),(TALLY(1)));",
        "refused 52 NotDistinct in #1",
    ),
    (
        "#1=CLOUD((#2,#10),(),(TALLY(1)));#2=POINT($,1.,1.);#10=POINT($,1.,1.);",
        "#1=CLOUD((#10,#2),(),(TALLY(1)));\n#2=POINT($,1.,1.);\n#10=POINT($,1.,1.);\n",
    ),
    ("#1=CLOUD(#2,(),(TALLY(1)));", "refused 49 WrongKind in #1"),
    (
        "#1=CLOUD((),((1)),(TALLY(1)));",
        "refused 49 WrongKind in #1",
    ),
    // selects
    (
        "#1=CLOUD((),(),(DISTANCE(1.0),TALLY(1),#2));#2=POINT($,1.,1.);",
        "#1=CLOUD((),(),(DISTANCE(1.),TALLY(1),#2));\n#2=POINT($,1.,1.);\n",
    ),
    ("#1=CLOUD((),(),(1.0));", "refused 54 SelectType in #1"),
    (
        "#1=CLOUD((),(),(MEASURE(TALLY(1))));",
        "refused 54 SelectType in #1",
    ),
    (
        "#1=CLOUD((),(),(TALLY(1),TALLY(01)));",
        "refused 52 NotDistinct in #1",
    ),
    ("#1=CLOUD((),(),());", "refused 51 Bounds in #1"),
    (
        "#1=CLOUD((),(),(TALLY(1),TALLY(2),TALLY(3),TALLY(4)));",
        "refused 51 Bounds in #1",
    ),
    ("#1=CLOUD((),(),(TALLY(1.)));", "refused 49 WrongKind in #1"),
    ("#1=CLOUD((),(),($));", "refused 46 Missing in #1"),
    ("#1=CLOUD((),(),(*));", "refused 47 StarNotDerived in #1"),
    // lists in one another
    (
        "#1=POINT($,(((((((((((((((((((((((((((((((((((((((((((((((((((((((((((((((()))))))))))))))))))))))))))))))))))))))))))))))))))))))))))))))),1.);",
        "refused 49 WrongKind in #1",
    ),
    (
        "#1=POINT($,(((((((((((((((((((((((((((((((((((((((((((((((((((((((((((((((((",
        "refused 21 TooDeep at statement 8",
    ),
];

#[test]
fn takes_and_refuses_lists(rt: HostRuntime) {
    check(&rt, rt.alloc(), SHAPES, Rows::Answers(DEMO, ROWS));
}
