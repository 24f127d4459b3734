//! Files of other schemas.
use super::answers::Answers;
use super::files::{DEMO, Frame};
use super::{Rows, check};

/// An entity with two supertypes that have one in common.
const DIAMOND_SCHEMA: &str = "SCHEMA diamond;
ENTITY r; k : INTEGER; END_ENTITY;
ENTITY a SUBTYPE OF (r); p : INTEGER; END_ENTITY;
ENTITY b SUBTYPE OF (r); q : INTEGER; END_ENTITY;
ENTITY c SUBTYPE OF (a, b); z : INTEGER; END_ENTITY;
END_SCHEMA;
";

const DIAMOND: Frame = Frame {
    before: "ISO-10303-21;\nHEADER;\nFILE_DESCRIPTION((''),'2;1');\nFILE_NAME('','',(''),(''),'','','');\nFILE_SCHEMA(('DIAMOND'));\nENDSEC;\nDATA;\n",
    ..DEMO
};

const DIAMONDS: Answers = &[
    ("#1=C(1,2,3,4);", "#1=C(1,2,3,4);\n"),
    ("#1=(C(4)B(3)A(2)R(1));", "#1=C(1,2,3,4);\n"),
    ("#1=(R(1)B(3)A(2));", "#1=(A(2)B(3)R(1));\n"),
    ("#1=C(1,2,3);", "refused 45 Count in #1"),
    ("#1=(C(4)B(3)R(1));", "refused 43 PartMissing in #1"),
];

#[test]
fn joins_supertypes_in_common(rt: HostRuntime) {
    check(
        &rt,
        rt.alloc(),
        DIAMOND_SCHEMA,
        Rows::Answers(DIAMOND, DIAMONDS),
    );
}

/// An attribute that is redeclared in two ways.
const REDECL_SCHEMA: &str = "SCHEMA redecl;
ENTITY r; k : NUMBER; END_ENTITY;
ENTITY a SUBTYPE OF (r); SELF\\r.k : INTEGER; END_ENTITY;
ENTITY b SUBTYPE OF (r); SELF\\r.k : REAL; END_ENTITY;
END_SCHEMA;
";

const REDECL: Frame = Frame {
    before: "ISO-10303-21;\nHEADER;\nFILE_DESCRIPTION((''),'2;1');\nFILE_NAME('','',(''),(''),'','','');\nFILE_SCHEMA(('REDECL'));\nENDSEC;\nDATA;\n",
    ..DEMO
};

const REDECLARED: Answers = &[
    ("#1=R(1);", "#1=R(1.);\n"),
    ("#1=A(1);", "#1=A(1);\n"),
    ("#1=A(1.);", "refused 49 WrongKind in #1"),
    ("#1=(B()R(1.));", "#1=B(1.);\n"),
    ("#1=(A()B()R(1));", "refused 55 TwoRedeclarations in #1"),
];

#[test]
fn reads_redeclared_attributes(rt: HostRuntime) {
    check(
        &rt,
        rt.alloc(),
        REDECL_SCHEMA,
        Rows::Answers(REDECL, REDECLARED),
    );
}

/// Attributes with widths and bounds.
const WIDE_SCHEMA: &str = "SCHEMA wide;
ENTITY e; s : STRING(3); f : STRING(2) FIXED; b : BINARY(4);
o : ARRAY [1:2] OF OPTIONAL INTEGER; n : BOOLEAN; END_ENTITY;
END_SCHEMA;
";

const WIDE: Frame = Frame {
    before: "ISO-10303-21;\nHEADER;\nFILE_DESCRIPTION((''),'2;1');\nFILE_NAME('','',(''),(''),'','','');\nFILE_SCHEMA(('WIDE'));\nENDSEC;\nDATA;\n",
    ..DEMO
};

const WIDTHS: Answers = &[
    (
        "#1=E('abc','xy',\"0A\",($,1),.T.);",
        "#1=E('abc','xy',\"0A\",($,1),.T.);\n",
    ),
    (
        "#1=E('abcd','xy',\"0A\",($,1),.T.);",
        "refused 50 Width in #1",
    ),
    (
        "#1=E('abc','x',\"0A\",($,1),.T.);",
        "refused 50 Width in #1",
    ),
    (
        "#1=E('abc','xy',\"23B\",($,1),.T.);",
        "refused 50 Width in #1",
    ),
    (
        "#1=E('abc','xy',\"0A\",(1),.T.);",
        "refused 51 Bounds in #1",
    ),
    (
        "#1=E('abc','xy',\"0A\",($,1),.U.);",
        "refused 53 UnknownItem in #1",
    ),
    (
        "#1=E(5,'xy',\"0A\",($,1),.T.);",
        "refused 49 WrongKind in #1",
    ),
    (
        "#1=E('abc','xy',\"0A\",($,1),$);",
        "refused 46 Missing in #1",
    ),
    (
        "#1=E('ééé','xy',\"0A\",($,1),.F.);",
        "#1=E('\\X2\\00E9\\X0\\\\X2\\00E9\\X0\\\\X2\\00E9\\X0\\','xy',\"0A\",($,1),.F.);\n",
    ),
];

#[test]
fn keeps_to_widths(rt: HostRuntime) {
    check(&rt, rt.alloc(), WIDE_SCHEMA, Rows::Answers(WIDE, WIDTHS));
}

/// Two entities that exclude each other.
const SOLE_SCHEMA: &str = "SCHEMA sole;
ENTITY s SUPERTYPE OF (ONEOF (a, b)); k : INTEGER; END_ENTITY;
ENTITY a SUBTYPE OF (s); END_ENTITY;
ENTITY b SUBTYPE OF (s); END_ENTITY;
ENTITY c SUBTYPE OF (s); END_ENTITY;
END_SCHEMA;
";

const SOLE: Frame = Frame {
    before: "ISO-10303-21;\nHEADER;\nFILE_DESCRIPTION((''),'2;1');\nFILE_NAME('','',(''),(''),'','','');\nFILE_SCHEMA(('SOLE'));\nENDSEC;\nDATA;\n",
    ..DEMO
};

const ONE_OF: Answers = &[
    ("#1=(A()B()S(1));", "refused 58 OneOf in #1"),
    ("#1=(S(1)C()A());", "#1=(A()C()S(1));\n"),
    ("#1=A(1);", "#1=A(1);\n"),
    ("#1=S(1);", "#1=S(1);\n"),
];

#[test]
fn takes_one_of_two(rt: HostRuntime) {
    check(&rt, rt.alloc(), SOLE_SCHEMA, Rows::Answers(SOLE, ONE_OF));
}

/// Where more than a list stands behind the supertype, nothing is excluded.
const OTHER_SCHEMA: &str = "SCHEMA sole;
ENTITY s SUPERTYPE OF (ONEOF (a, b) ANDOR c); k : INTEGER; END_ENTITY;
ENTITY a SUBTYPE OF (s); END_ENTITY;
ENTITY b SUBTYPE OF (s); END_ENTITY;
ENTITY c SUBTYPE OF (s); END_ENTITY;
END_SCHEMA;
";

const ONE_OF_OR_ANOTHER: Answers = &[("#1=(A()B()S(1));", "#1=(A()B()S(1));\n")];

#[test]
fn takes_both_where_another_may_stand(rt: HostRuntime) {
    check(
        &rt,
        rt.alloc(),
        OTHER_SCHEMA,
        Rows::Answers(SOLE, ONE_OF_OR_ANOTHER),
    );
}
