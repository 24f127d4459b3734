use super::schemas::DEMO;
use super::*;

const INTERNAL: Rows = &[
    ("#007=POINT('a',-0.0,0.00250);", "#7=POINT('a',0.,2.5E-3);"),
    ("#2 = POINT($, 1.0, 10.E-1);", "#2=POINT($,1.,1.);"),
    ("#00=POINT($,1.,1.);", "#0=POINT($,1.,1.);"),
    (
        "#18446744073709551615=POINT($,1.,1.);",
        "#18446744073709551615=POINT($,1.,1.);",
    ),
    ("#1=ORIGIN($,*,2.);", "#1=ORIGIN($,*,2.);"),
    ("#1=MARKED('',.GREEN.);", "#1=MARKED('',.GREEN.);"),
];

#[test]
fn writes_internal_mapping(rt: HostRuntime) {
    check(&rt, rt.alloc(), DEMO, Table::Instances(INTERNAL));
}

const REFUSED: Rows = &[
    ("#1=ORIGIN($,0.,2.);", "48 DerivedNotStar"),
    ("#1=POINT($,*,2.);", "47 StarNotDerived"),
    ("#1=SHAPE($);", "42 Abstract"),
    ("#1=FOO();", "41 UnknownEntity"),
    ("#1=COLOUR(.RED.);", "41 UnknownEntity"),
    ("#1=POINT($,1.);", "45 Count"),
    ("#1=POINT($,1.,2.,3.);", "45 Count"),
    ("#1=POINT($,1,2.);", "49 WrongKind"),
    ("#1=POINT($,$,2.);", "46 Missing"),
    ("#1=MARKED($,.BLUE.);", "53 UnknownItem"),
];

#[test]
fn refuses_simple_records(rt: HostRuntime) {
    check(&rt, rt.alloc(), DEMO, Table::Instances(REFUSED));
}

const AGGREGATES: Rows = &[
    (
        "#1=CLOUD((),((2.,1.),(),(1.0,2.)),(TALLY(1)));",
        "#1=CLOUD((),((),(1.,2.),(1.,2.)),(TALLY(1)));",
    ),
    (
        "#1=CLOUD((#2,#10),(),(TALLY(1)));",
        "#1=CLOUD((#10,#2),(),(TALLY(1)));",
    ),
    ("#1=CLOUD((#2,#02),(),(TALLY(1)));", "52 NotDistinct"),
    ("#1=CLOUD((),(1.),(TALLY(1)));", "49 WrongKind"),
    ("#1=CLOUD(#2,(),(TALLY(1)));", "49 WrongKind"),
];

#[test]
fn reads_sets_bags_and_lists(rt: HostRuntime) {
    check(&rt, rt.alloc(), DEMO, Table::Instances(AGGREGATES));
}

const SELECTED: Rows = &[
    (
        "#1=CLOUD((),(),(DISTANCE(1.0),TALLY(1),#2));",
        "#1=CLOUD((),(),(DISTANCE(1.),TALLY(1),#2));",
    ),
    (
        "#1=CLOUD((),(),(TALLY(2),TALLY(1)));",
        "#1=CLOUD((),(),(TALLY(2),TALLY(1)));",
    ),
    ("#1=CLOUD((),(),(1.0));", "54 SelectType"),
    ("#1=CLOUD((),(),(MEASURE(TALLY(1))));", "54 SelectType"),
    ("#1=CLOUD((),(),(TALLY(1),TALLY(01)));", "52 NotDistinct"),
    ("#1=CLOUD((),(),());", "51 Bounds"),
    (
        "#1=CLOUD((),(),(TALLY(1),TALLY(2),TALLY(3),TALLY(4)));",
        "51 Bounds",
    ),
];

#[test]
fn reads_a_list_of_a_select(rt: HostRuntime) {
    check(&rt, rt.alloc(), DEMO, Table::Instances(SELECTED));
}

const EXTERNAL: Rows = &[
    ("#1=(POINT(1.,2.)SHAPE('a'));", "#1=POINT('a',1.,2.);"),
    (
        "#1=(SHAPE($)POINT(1.,2.)MARKED(.RED.));",
        "#1=(MARKED(.RED.)POINT(1.,2.)SHAPE($));",
    ),
    ("#1=(ORIGIN()POINT(*,2.)SHAPE($));", "#1=ORIGIN($,*,2.);"),
    (
        "#1=(CLOUD((),(),(TALLY(1)))POINT(1.,2.)SHAPE($));",
        "#1=(CLOUD((),(),(TALLY(1)))POINT(1.,2.)SHAPE($));",
    ),
    (
        "#1=(SHAPE('')ORIGIN()POINT(*,-1.)MARKED(.RED.));",
        "#1=(MARKED(.RED.)ORIGIN()POINT(*,-1.)SHAPE(''));",
    ),
    (
        "#1=(CLOUD((),(),(TALLY(1))));",
        "#1=CLOUD((),(),(TALLY(1)));",
    ),
];

#[test]
fn writes_external_mapping(rt: HostRuntime) {
    check(&rt, rt.alloc(), DEMO, Table::Instances(EXTERNAL));
}

const REFUSED_EXTERNAL: Rows = &[
    ("#1=(POINT(1.,2.)MARKED(.RED.));", "43 PartMissing"),
    ("#1=(POINT(1.,2.));", "43 PartMissing"),
    ("#1=(SHAPE($)POINT(1.,2.)SHAPE($));", "44 PartTwice"),
    ("#1=(SHAPE('a'));", "42 Abstract"),
    ("#1=(POINT(1.,2.)FOO());", "41 UnknownEntity"),
    ("#1=(POINT(1.)SHAPE('a'));", "45 Count"),
    ("#1=(POINT(1.,2.)SHAPE());", "45 Count"),
    ("#1=(ORIGIN()POINT(1.,2.)SHAPE($));", "48 DerivedNotStar"),
];

#[test]
fn refuses_external_mapping(rt: HostRuntime) {
    check(&rt, rt.alloc(), DEMO, Table::Instances(REFUSED_EXTERNAL));
}

const ORDERS: Rows = &[
    (
        "#1=(SHAPE($)POINT(1.,2.)MARKED(.RED.));",
        "#1=(MARKED(.RED.)POINT(1.,2.)SHAPE($));",
    ),
    (
        "#1=(SHAPE($)MARKED(.RED.)POINT(1.,2.));",
        "#1=(MARKED(.RED.)POINT(1.,2.)SHAPE($));",
    ),
    (
        "#1=(POINT(1.,2.)SHAPE($)MARKED(.RED.));",
        "#1=(MARKED(.RED.)POINT(1.,2.)SHAPE($));",
    ),
    (
        "#1=(POINT(1.,2.)MARKED(.RED.)SHAPE($));",
        "#1=(MARKED(.RED.)POINT(1.,2.)SHAPE($));",
    ),
    (
        "#1=(MARKED(.RED.)SHAPE($)POINT(1.,2.));",
        "#1=(MARKED(.RED.)POINT(1.,2.)SHAPE($));",
    ),
    (
        "#1=(MARKED(.RED.)POINT(1.,2.)SHAPE($));",
        "#1=(MARKED(.RED.)POINT(1.,2.)SHAPE($));",
    ),
];

#[test]
fn reads_two_leaves_in_every_order(rt: HostRuntime) {
    check(&rt, rt.alloc(), DEMO, Table::Instances(ORDERS));
}

/// Which comes of several refusals of values: the first as the values stand, and in a list the count before the elements and
/// these before equal ones.
const REFUSED_FIRST: Rows = &[
    ("#1=POINT(1,$,*);", "49 WrongKind"),
    ("#1=POINT('a',$,*);", "46 Missing"),
    ("#1=POINT('a',1.,*);", "47 StarNotDerived"),
    ("#1=(POINT(1,2.)MARKED(.BLUE.)SHAPE(1));", "49 WrongKind"),
    ("#1=(MARKED(.BLUE.)POINT(1,2.)SHAPE(1));", "53 UnknownItem"),
    ("#1=(SHAPE(1)POINT(1.));", "45 Count"),
    ("#1=CLOUD((#2,#2,$),(),(1,2,3,4));", "46 Missing"),
    ("#1=CLOUD((#2,#2),(*),(1,2,3,4));", "52 NotDistinct"),
    ("#1=CLOUD((#2),((*)),(1,2,3,4));", "47 StarNotDerived"),
    ("#1=CLOUD((#2),(),(1,2,3,4));", "51 Bounds"),
];

#[test]
fn refuses_the_first_value(rt: HostRuntime) {
    check(&rt, rt.alloc(), DEMO, Table::Instances(REFUSED_FIRST));
}
