//! Lists of what differs in two files from which something is left out.
use crate::run::Command::{DiffWithout, PairsWithout};
use crate::run::Left::{Answer, Differences, Refusal};
use crate::run::Row::Leaves;
use crate::run::{Rows, first_wrong};
use crate::schemas::File::{Lines, Replaced};
use p21_commands::RowForm::{Json, Text};
use p21_commands::{AttributeName, GivenTolerance, LeftOut, PairRows};
use p21_tolerance::Tolerance;

const HEADER: LeftOut<'static> = LeftOut {
    header: true,
    attributes: &[],
    tolerance: None,
};

const NAME: LeftOut<'static> = LeftOut {
    header: false,
    attributes: &[AttributeName {
        entity: b"FILE_NAME",
        attribute: b"NAME",
    }],
    tolerance: None,
};

const LABEL: LeftOut<'static> = LeftOut {
    header: false,
    attributes: &[AttributeName {
        entity: b"SHAPE",
        attribute: b"LABEL",
    }],
    tolerance: None,
};

/// An attribute that a supertype declares.
const LABEL_OF_ORIGIN: LeftOut<'static> = LeftOut {
    header: false,
    attributes: &[AttributeName {
        entity: b"ORIGIN",
        attribute: b"LABEL",
    }],
    tolerance: None,
};

const BOTH: LeftOut<'static> = LeftOut {
    header: true,
    attributes: &[
        AttributeName {
            entity: b"POINT",
            attribute: b"LABEL",
        },
        AttributeName {
            entity: b"POINT",
            attribute: b"Y",
        },
    ],
    tolerance: None,
};

const NO_ATTRIBUTE: LeftOut<'static> = LeftOut {
    header: true,
    attributes: &[AttributeName {
        entity: b"SHAPE",
        attribute: b"Y",
    }],
    tolerance: None,
};

const NO_ENTITY: LeftOut<'static> = LeftOut {
    header: false,
    attributes: &[AttributeName {
        entity: b"LINE",
        attribute: b"Y",
    }],
    tolerance: None,
};

/// A tenth, and what is within it.
const TENTH: GivenTolerance<'static> = GivenTolerance {
    tolerance: Tolerance {
        units: 1,
        power: -1,
    },
    text: b"0.1",
};

const NEAR: LeftOut<'static> = LeftOut {
    header: false,
    attributes: &[],
    tolerance: Some(TENTH),
};

const ALL: LeftOut<'static> = LeftOut {
    header: true,
    attributes: &[AttributeName {
        entity: b"SHAPE",
        attribute: b"LABEL",
    }],
    tolerance: Some(TENTH),
};

const ROWS: Rows = &[
    // the header
    Leaves(
        DiffWithout(HEADER, Json, Replaced("NAME('',", "NAME('b',")),
        Replaced("NAME('',", "NAME('a',"),
        Answer(
            "{\"kind\":\"left out\",\"header\":true}\n\
{\"kind\":\"verdict\",\"verdict\":\"different\",\"changed\":0,\"came\":0,\"went\":0,\"in_header\":1}\n",
        ),
    ),
    Leaves(
        DiffWithout(NAME, Text, Replaced("NAME('',''", "NAME('b','b'")),
        Replaced("NAME('',''", "NAME('a','a'"),
        Differences(
            "left out: FILE_NAME.NAME\nchanged header FILE_NAME.TIME_STAMP 'a' 'b'\n\
different: 1 changed, 0 came, 0 went; 1 difference at ignored attributes not listed\n",
        ),
    ),
    Leaves(
        DiffWithout(BOTH, Text, Lines("#1=POINT('a',1.,1.);")),
        Lines("#1=POINT('a',1.,10.E-1);"),
        Answer("left out: the header, POINT.LABEL, POINT.Y\nsame\n"),
    ),
    // an attribute
    Leaves(
        DiffWithout(
            LABEL,
            Text,
            Lines("#1=POINT('b',1.,2.);#2=ORIGIN($,*,1.);#4=POINT($,1.,1.);"),
        ),
        Lines("#1=POINT('a',1.,3.);#2=POINT($,0.,1.);#3=POINT($,1.,1.);"),
        Differences(
            "left out: SHAPE.LABEL\nchanged #1 POINT.Y 3. 2.\nchanged #2 from POINT to ORIGIN\nwent #3 POINT\n\
came #4 POINT\ndifferent: 2 changed, 1 came, 1 went; 1 difference at ignored attributes not listed\n",
        ),
    ),
    Leaves(
        DiffWithout(
            LABEL_OF_ORIGIN,
            Text,
            Lines("#1=POINT('b',1.,1.);#2=ORIGIN('b',*,1.);"),
        ),
        Lines("#1=POINT('a',1.,1.);#2=ORIGIN('a',*,1.);"),
        Differences(
            "left out: ORIGIN.LABEL\nchanged #1 SHAPE.LABEL 'a' 'b'\n\
different: 1 changed, 0 came, 0 went; 1 difference at ignored attributes not listed\n",
        ),
    ),
    Leaves(
        DiffWithout(
            BOTH,
            Text,
            Lines("#1=POINT('b',1.,1.);#2=ORIGIN('b',*,2.);"),
        ),
        Lines("#1=POINT('a',1.,1.);#2=ORIGIN('a',*,1.);"),
        Answer(
            "left out: the header, POINT.LABEL, POINT.Y\n\
different: 0 changed, 0 came, 0 went; 3 differences at ignored attributes not listed\n",
        ),
    ),
    // values within a tolerance, or within a share of the greater one
    Leaves(
        DiffWithout(
            NEAR,
            Text,
            Lines("#1=POINT('a',1.,1.1);#2=POINT('b',1.,105.);#3=POINT('a',1.,1.2);"),
        ),
        Lines("#1=POINT('a',1.,1.);#2=POINT('a',1.,100.);#3=POINT('a',1.,1.);"),
        Differences(
            "left out: reals within the tolerance 0.1\nchanged #2 SHAPE.LABEL 'a' 'b'\nchanged #3 POINT.Y 1. 1.2\n\
different: 2 changed, 0 came, 0 went; 2 values within the tolerance 0.1 not listed\n",
        ),
    ),
    Leaves(
        DiffWithout(NEAR, Text, Lines("#1=POINT('a',1.,1.05);")),
        Lines("#1=POINT('a',1.,1.);"),
        Answer(
            "left out: reals within the tolerance 0.1\n\
different: 0 changed, 0 came, 0 went; 1 value within the tolerance 0.1 not listed\n",
        ),
    ),
    Leaves(
        DiffWithout(NEAR, Text, Lines("#1=POINT('a',1.,1.);")),
        Lines("#1=POINT('a',1.,10.E-1);"),
        Answer("left out: reals within the tolerance 0.1\nsame\n"),
    ),
    Leaves(
        DiffWithout(ALL, Json, Lines("#1=POINT('b',1.,1.05);")),
        Lines("#1=POINT('a',1.,1.);"),
        Answer(
            "{\"kind\":\"left out\",\"header\":true,\"ignore\":[\"SHAPE.LABEL\"],\"tolerance\":\"0.1\"}\n\
{\"kind\":\"verdict\",\"verdict\":\"different\",\"changed\":0,\"came\":0,\"went\":0,\"in_header\":0,\"ignored\":1,\
\"ignored_in_header\":0,\"tolerance\":\"0.1\",\"near\":1}\n",
        ),
    ),
    Leaves(
        PairsWithout(
            NEAR,
            Json,
            PairRows::Hidden,
            Lines("#5=POINT($,1.,1.05);#7=CLOUD((#5),(),(TALLY(1)));"),
        ),
        Lines("#1=CLOUD((#2),(),(TALLY(1)));#2=POINT($,1.,1.);"),
        Answer(
            "{\"kind\":\"left out\",\"tolerance\":\"0.1\"}\n\
{\"kind\":\"verdict\",\"verdict\":\"different\",\"changed\":0,\"came\":0,\"went\":0,\"tolerance\":\"0.1\",\"near\":1}\n",
        ),
    ),
    // one that the schema doesn't have, and no file is read
    Leaves(
        DiffWithout(NO_ATTRIBUTE, Text, Lines("#1=FOO();\n")),
        Lines("#1=FOO();\n"),
        Refusal("--ignore SHAPE.Y: SHAPE has no attribute Y of which files have values\n"),
    ),
    Leaves(
        DiffWithout(NO_ENTITY, Text, Lines("")),
        Lines(""),
        Refusal("--ignore LINE.Y: the schema has no entity LINE\n"),
    ),
    // by pairs
    Leaves(
        PairsWithout(
            BOTH,
            Text,
            PairRows::Shown,
            Lines("#5=POINT($,1.,3.);#7=CLOUD((#5),(),(TALLY(1)));"),
        ),
        Lines("#1=CLOUD((#2),(),(TALLY(1)));#2=POINT($,1.,1.);"),
        Answer(
            "pair #2/#5\npair #1/#7\nleft out: the header, POINT.LABEL, POINT.Y\n\
different: 0 changed, 0 came, 0 went; 1 difference at ignored attributes not listed\n",
        ),
    ),
    Leaves(
        PairsWithout(
            LABEL,
            Json,
            PairRows::Hidden,
            Lines("#5=POINT('a',1.,3.);#7=CLOUD((#5),(),(TALLY(1)));"),
        ),
        Lines("#1=CLOUD((#2),(),(TALLY(1)));#2=POINT($,1.,1.);"),
        Differences(
            "{\"kind\":\"left out\",\"ignore\":[\"SHAPE.LABEL\"]}\n\
{\"kind\":\"changed\",\"what\":\"instance\",\"a\":2,\"b\":5,\"entity\":\"POINT\",\"attribute\":\"Y\",\"keywords\":\"POINT\",\
\"before\":\"1.\",\"after\":\"3.\"}\n\
{\"kind\":\"verdict\",\"verdict\":\"different\",\"changed\":1,\"came\":0,\"went\":0,\"ignored\":1,\"ignored_in_header\":0}\n",
        ),
    ),
    Leaves(
        PairsWithout(NO_ENTITY, Text, PairRows::Shown, Lines("#1=FOO();\n")),
        Lines("#1=FOO();\n"),
        Refusal("--ignore LINE.Y: the schema has no entity LINE\n"),
    ),
];

#[test]
fn leaves_out_what_is_to_be(rt: HostRuntime) {
    assert_eq!(rt; first_wrong(rt.alloc(), ROWS), "none");
}
