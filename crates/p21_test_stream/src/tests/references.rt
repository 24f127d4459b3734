//! Names of instances, and references to them.
use super::answers::Answers;
use super::files::{DEMO, SHAPES};
use super::{Rows, check};

const ROWS: Answers = &[
    // names
    (
        "#1=POINT($,1.,1.);\n#01=POINT($,1.,1.);\n",
        "refused 40 DuplicateName in #1",
    ),
    (
        "#3=POINT($,3.,1.);#2=POINT($,2.,1.);#1=POINT($,1.,1.);",
        "#1=POINT($,1.,1.);\n#2=POINT($,2.,1.);\n#3=POINT($,3.,1.);\n",
    ),
    (
        "#30=POINT($,3.,1.);#4=POINT($,4.,1.);#5=POINT($,5.,1.);#100=POINT($,1.,1.);#2=POINT($,2.,1.);",
        "#2=POINT($,2.,1.);\n#4=POINT($,4.,1.);\n#5=POINT($,5.,1.);\n#30=POINT($,3.,1.);\n#100=POINT($,1.,1.);\n",
    ),
    (
        "#18446744073709551615=POINT($,1.,1.);#00=POINT($,0.,0.);",
        "#0=POINT($,0.,0.);\n#18446744073709551615=POINT($,1.,1.);\n",
    ),
    (
        "#4=POINT($,1.,1.);#9=POINT($,1.,1.);#2=POINT($,1.,1.);#9=FOO();",
        "refused 40 DuplicateName in #9",
    ),
    // targets
    (
        "#1=CLOUD((#2),(),(TALLY(1)));#2=ORIGIN($,*,2.);",
        "#1=CLOUD((#2),(),(TALLY(1)));\n#2=ORIGIN($,*,2.);\n",
    ),
    (
        "#2=ORIGIN($,*,2.);#1=CLOUD((#2),(),(TALLY(1)));",
        "#1=CLOUD((#2),(),(TALLY(1)));\n#2=ORIGIN($,*,2.);\n",
    ),
    (
        "#1=CLOUD((#2),(),(TALLY(1)));#2=CLOUD((),(),(TALLY(1)));",
        "refused 57 WrongTarget in #1",
    ),
    (
        "#2=CLOUD((),(),(TALLY(1)));#1=CLOUD((#2),(),(TALLY(1)));",
        "refused 57 WrongTarget in #1",
    ),
    ("#1=CLOUD((#2),(),(TALLY(1)));", "refused 56 Dangling in #1"),
    (
        "#1=CLOUD((#1),(),(TALLY(1)));",
        "refused 57 WrongTarget in #1",
    ),
    (
        "#1=CLOUD((#2),(),(#2));#2=(POINT(1.,2.)MARKED(.RED.)SHAPE($));",
        "#1=CLOUD((#2),(),(#2));\n#2=(MARKED(.RED.)POINT(1.,2.)SHAPE($));\n",
    ),
    (
        "#1=CLOUD((),(),(#2));#2=MARKED($,.RED.);",
        "refused 57 WrongTarget in #1",
    ),
    // the first of several in the order of the file
    (
        "#5=CLOUD((#6),(),(TALLY(1)));#1=CLOUD((#5),(),(TALLY(1)));",
        "refused 56 Dangling in #5",
    ),
    (
        "#5=CLOUD((#1),(),(TALLY(1)));#1=CLOUD((#6),(),(TALLY(1)));",
        "refused 57 WrongTarget in #5",
    ),
    (
        "#5=CLOUD((#2,#1),(),(#7));#1=POINT($,1.,1.);#2=CLOUD((),(),(TALLY(1)));",
        "refused 57 WrongTarget in #5",
    ),
    (
        "#5=CLOUD((#1),(),(#7));#1=POINT($,1.,1.);#2=CLOUD((#2),(),(TALLY(1)));",
        "refused 56 Dangling in #5",
    ),
    (
        "#5=CLOUD((#7),(),(TALLY(1)));#1=POINT($,1.);",
        "refused 45 Count in #1",
    ),
];

#[test]
fn takes_and_refuses_references(rt: HostRuntime) {
    check(&rt, rt.alloc(), SHAPES, Rows::Answers(DEMO, ROWS));
}
