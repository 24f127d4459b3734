//! Files that are accepted: their canonical files, what is counted of them, and their statements.
use crate::run::Command::{Check, Show};
use crate::run::Left::{Answer, Refusal};
use crate::run::Row::{Leaves, Rewritten};
use crate::run::{Rows, first_wrong};
use crate::schemas::File::{self, Lines, LinesOf};
use crate::schemas::Subject::{Redecl, Sole, Wide};

const THREE: File = Lines(
    "#2 = POINT($, 1.0, 10.E-1);\n#18446744073709551615=ORIGIN('b',*,2.50);\n#0=(POINT(1.,2.)SHAPE('a'));\n",
);

const ONE: File = Lines("#2 = POINT($, 1.0, 10.E-1);\n");

const ROWS: Rows = &[
    // instances and bytes, which are counted
    Leaves(
        Check,
        Lines(""),
        Answer("accepted, instances 0, canonical bytes 152\n"),
    ),
    Leaves(
        Check,
        Lines("#2 = POINT($, 1.0, 10.E-1);\n"),
        Answer("accepted, instances 1, canonical bytes 171\n"),
    ),
    Leaves(
        Check,
        Lines("#2=POINT($,1.,1.);\n#10=POINT($,1.,1.);\n#1=POINT($,1.,1.);\n"),
        Answer("accepted, instances 3, canonical bytes 210\n"),
    ),
    // scalars
    Rewritten(Lines(""), Lines("")),
    Rewritten(
        Lines("#2 = POINT($, 1.0, 10.E-1);\n"),
        Lines("#2=POINT($,1.,1.);\n"),
    ),
    Rewritten(
        Lines("#007=POINT('a',-0.0,0.00250);\n"),
        Lines("#7=POINT('a',0.,2.5E-3);\n"),
    ),
    Rewritten(
        Lines("#00=POINT($,1.,1.);\n"),
        Lines("#0=POINT($,1.,1.);\n"),
    ),
    Rewritten(
        Lines("#18446744073709551615=POINT($,1.,1.);\n"),
        Lines("#18446744073709551615=POINT($,1.,1.);\n"),
    ),
    Rewritten(
        Lines("#1=POINT('caf\\X\\E9',1.,1.);\n"),
        Lines("#1=POINT('caf\\X2\\00E9\\X0\\',1.,1.);\n"),
    ),
    Rewritten(Lines("#1=ORIGIN($,*,2.);\n"), Lines("#1=ORIGIN($,*,2.);\n")),
    Rewritten(
        Lines("#1=POINT($,1.,1.);/* #9=NO(); */\n"),
        Lines("#1=POINT($,1.,1.);\n"),
    ),
    // instances and elements, which are sorted
    Rewritten(
        Lines("#1=CLOUD((),((2.,1.),(),(1.0,2.)),(TALLY(1)));\n"),
        Lines("#1=CLOUD((),((),(1.,2.),(1.,2.)),(TALLY(1)));\n"),
    ),
    Rewritten(
        Lines("#10=POINT($,1.,1.);\n#2=POINT($,2.,2.);\n"),
        Lines("#2=POINT($,2.,2.);\n#10=POINT($,1.,1.);\n"),
    ),
    Rewritten(
        Lines("#2=POINT($,1.,1.);\n#1=CLOUD((#2,#10),(),(TALLY(1)));\n#10=POINT($,1.,1.);\n"),
        Lines("#1=CLOUD((#10,#2),(),(TALLY(1)));\n#2=POINT($,1.,1.);\n#10=POINT($,1.,1.);\n"),
    ),
    Rewritten(
        Lines("#1=CLOUD((#2),(),(TALLY(1)));\n#2=ORIGIN($,*,2.);\n"),
        Lines("#1=CLOUD((#2),(),(TALLY(1)));\n#2=ORIGIN($,*,2.);\n"),
    ),
    Rewritten(
        Lines("#2=POINT($,1.,1.);\n#1=CLOUD((),(),(DISTANCE(1.0),TALLY(1),#2));\n"),
        Lines("#1=CLOUD((),(),(DISTANCE(1.),TALLY(1),#2));\n#2=POINT($,1.,1.);\n"),
    ),
    // both mappings
    Rewritten(
        Lines("#1=(POINT(1.,2.)SHAPE('a'));\n"),
        Lines("#1=POINT('a',1.,2.);\n"),
    ),
    Rewritten(
        Lines("#1=(SHAPE($)POINT(1.,2.)MARKED(.RED.));\n"),
        Lines("#1=(MARKED(.RED.)POINT(1.,2.)SHAPE($));\n"),
    ),
    Rewritten(
        Lines("#1=(ORIGIN()POINT(*,2.)SHAPE($));\n"),
        Lines("#1=ORIGIN($,*,2.);\n"),
    ),
    Rewritten(
        Lines("#1=(CLOUD((),(),(TALLY(1)))POINT(1.,2.)SHAPE($));\n"),
        Lines("#1=(CLOUD((),(),(TALLY(1)))POINT(1.,2.)SHAPE($));\n"),
    ),
    // values that are redeclared and bounded
    Rewritten(
        LinesOf(Redecl, "#1=R(1);\n"),
        LinesOf(Redecl, "#1=R(1.);\n"),
    ),
    Rewritten(LinesOf(Redecl, "#1=A(1);\n"), LinesOf(Redecl, "#1=A(1);\n")),
    Rewritten(
        LinesOf(Redecl, "#1=(B()R(1.));\n"),
        LinesOf(Redecl, "#1=B(1.);\n"),
    ),
    Rewritten(
        LinesOf(Wide, "#1=E('abc','xy',\"0A\",($,1),.T.);\n"),
        LinesOf(Wide, "#1=E('abc','xy',\"0A\",($,1),.T.);\n"),
    ),
    Rewritten(
        LinesOf(Sole, "#1=(S(1)C()A());\n"),
        LinesOf(Sole, "#1=(A()C()S(1));\n"),
    ),
    Rewritten(LinesOf(Sole, "#1=A(1);\n"), LinesOf(Sole, "#1=A(1);\n")),
    Rewritten(LinesOf(Sole, "#1=S(1);\n"), LinesOf(Sole, "#1=S(1);\n")),
    // one instance, which is shown
    Leaves(Show(0), THREE, Answer("#0=POINT('a',1.,2.);\n")),
    Leaves(Show(2), THREE, Answer("#2=POINT($,1.,1.);\n")),
    Leaves(
        Show(u64::MAX),
        THREE,
        Answer("#18446744073709551615=ORIGIN('b',*,2.5);\n"),
    ),
    // no instance has the name
    Leaves(Show(0), ONE, Refusal("no #0\n")),
    Leaves(Show(1), ONE, Refusal("no #1\n")),
    Leaves(Show(3), ONE, Refusal("no #3\n")),
    Leaves(Show(22), ONE, Refusal("no #22\n")),
    Leaves(Show(u64::MAX), ONE, Refusal("no #18446744073709551615\n")),
];

#[test]
fn rewrites_counts_and_shows_instances(rt: HostRuntime) {
    assert_eq!(rt; first_wrong(rt.alloc(), ROWS), "none");
}
