use super::schemas::{CORNERS, CROWD, DIAMOND, RANK, REDECL, SOLE};
use super::*;

const OF_DIAMOND: Rows = &[
    ("#1=C(1,2,3,4);", "#1=C(1,2,3,4);"),
    ("#1=(R(1)A(2)B(3)C(4));", "#1=C(1,2,3,4);"),
    ("#1=(C(4)B(3)A(2)R(1));", "#1=C(1,2,3,4);"),
    ("#1=(B(3)R(1)A(2));", "#1=(A(2)B(3)R(1));"),
    ("#1=(A(2)R(1));", "#1=A(1,2);"),
    ("#1=(C(4)A(2)R(1));", "43 PartMissing"),
    ("#1=C(1,2,3);", "45 Count"),
    ("#1=C(1,2,3,4,5);", "45 Count"),
];

#[test]
fn reads_a_diamond(rt: HostRuntime) {
    check(&rt, rt.alloc(), DIAMOND, Table::Instances(OF_DIAMOND));
}

const OF_CROWD: Rows = &[
    (
        "#1=(R()Q()P()O()N()M()L()K()J()I()H()G()F()E()D()C()B()A(1));",
        "#1=(A(1)B()C()D()E()F()G()H()I()J()K()L()M()N()O()P()Q()R());",
    ),
    (
        "#1=(A(1)B()C()D()E()F()G()H()I()J()K()L()M()N()O()P()Q()R()B());",
        "44 PartTwice",
    ),
    (
        "#1=(B()C()D()E()F()G()H()I()J()K()L()M()N()O()P()Q()R());",
        "43 PartMissing",
    ),
];

#[test]
fn reads_many_parts(rt: HostRuntime) {
    check(&rt, rt.alloc(), CROWD, Table::Instances(OF_CROWD));
}

const OF_REDECL: Rows = &[
    ("#1=R(1);", "#1=R(1.);"),
    ("#1=R(1.0);", "#1=R(1.);"),
    ("#1=A(1);", "#1=A(1);"),
    ("#1=A(1.);", "49 WrongKind"),
    ("#1=B(1);", "49 WrongKind"),
    ("#1=(B()R(1.));", "#1=B(1.);"),
    ("#1=(R(1)A());", "#1=A(1);"),
    ("#1=(A()B()R(1));", "55 TwoRedeclarations"),
];

#[test]
fn reads_redeclared_places(rt: HostRuntime) {
    check(&rt, rt.alloc(), REDECL, Table::Instances(OF_REDECL));
}

const OF_CORNERS: Rows = &[
    ("#1=R($);", "#1=R($);"),
    ("#1=A($);", "46 Missing"),
    ("#1=A(1);", "#1=A(1.);"),
    ("#1=B($);", "#1=B($);"),
    ("#1=B(1.);", "49 WrongKind"),
    ("#1=C(1);", "#1=C(1);"),
    ("#1=C($);", "46 Missing"),
    ("#1=E($);", "#1=E($);"),
    ("#1=E(1.);", "49 WrongKind"),
];

#[test]
fn reads_redeclared_places_of_a_diamond(rt: HostRuntime) {
    check(&rt, rt.alloc(), CORNERS, Table::Instances(OF_CORNERS));
}

const REDECLARED_TWICE: Rows = &[
    ("#1=(A()B()R(1));", "55 TwoRedeclarations"),
    ("#1=(C()A()B()R(1));", "#1=C(1);"),
    ("#1=(C()E()A()B()R(1));", "55 TwoRedeclarations"),
    ("#1=D(*);", "#1=D(*);"),
    ("#1=D(1);", "48 DerivedNotStar"),
    ("#1=D($);", "48 DerivedNotStar"),
    ("#1=(D()C()A()B()R(*));", "#1=(A()B()C()D()R(*));"),
];

#[test]
fn decides_between_redeclarations(rt: HostRuntime) {
    check(&rt, rt.alloc(), CORNERS, Table::Instances(REDECLARED_TWICE));
}

const OF_SOLE: Rows = &[
    ("#1=(A()B()S(1));", "58 OneOf"),
    ("#1=(S(1)C()A());", "#1=(A()C()S(1));"),
    ("#1=A(1);", "#1=A(1);"),
    ("#1=S(1);", "#1=S(1);"),
    ("#1=(B()A()C()S(1));", "58 OneOf"),
];

#[test]
fn reads_one_of_several_subtypes(rt: HostRuntime) {
    check(&rt, rt.alloc(), SOLE, Table::Instances(OF_SOLE));
}

/// Which comes of several refusals of a set of entities.
const SETS: Rows = &[
    ("#1=(MID(1)FOO()MID(1));", "41 UnknownEntity"),
    ("#1=(MID(1)MID(1));", "44 PartTwice"),
    ("#1=(MID(1));", "43 PartMissing"),
    ("#1=(MID(1)BASE());", "42 Abstract"),
    ("#1=MID();", "42 Abstract"),
    ("#1=BOTH();", "42 Abstract"),
    ("#1=PAIR();", "58 OneOf"),
    ("#1=(BASE()MID()LEFT()RIGHT(1));", "58 OneOf"),
    ("#1=(BASE()MID(1)LEFT()LOW()RIGHT());", "58 OneOf"),
];

#[test]
fn refuses_sets_in_order(rt: HostRuntime) {
    check(&rt, rt.alloc(), RANK, Table::Instances(SETS));
}

const PLACES: Rows = &[
    ("#1=(BASE()MID()LEFT()THIRD(1));", "55 TwoRedeclarations"),
    ("#1=(BASE()MID()LEFT());", "45 Count"),
    ("#1=(BASE()MID('')LEFT(1));", "45 Count"),
    ("#1=(BASE()MID('')LEFT());", "49 WrongKind"),
    ("#1=(BASE()MID(1)LEFT());", "#1=LEFT(1);"),
    ("#1=(LOW()MID(1)LEFT()BASE());", "#1=LOW(1);"),
    ("#1=BASE();", "#1=BASE();"),
];

#[test]
fn refuses_places_in_order(rt: HostRuntime) {
    check(&rt, rt.alloc(), RANK, Table::Instances(PLACES));
}
