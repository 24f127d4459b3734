//! Files of which an instance is refused: the line of its fault, by each command that reads one file.
use crate::run::Row::Refused;
use crate::run::{Rows, first_wrong};
use crate::schemas::File::{Lines, LinesOf, Lists};
use crate::schemas::Subject::{Redecl, Sole, Wide};

const ROWS: Rows = &[
    // bytes and tokens
    Refused(Lines("#1=point();\n"), "refused 1 BadByte at statement 8\n"),
    Refused(
        Lines("\\N\\#1=POINT($,1.,1.);\n"),
        "refused 1 BadByte at statement 8\n",
    ),
    Refused(
        Lines("#1=POINT('\\q',1.,1.);\n"),
        "refused 4 BadDirective at statement 8\n",
    ),
    Refused(
        Lines("#1=POINT($,1.EX,1.);\n"),
        "refused 7 BadNumber at statement 8\n",
    ),
    Refused(
        Lines("#1=POINT($,10.E9999,1.);\n"),
        "refused 8 NumberRange at statement 8\n",
    ),
    Refused(
        Lines("#18446744073709551616=POINT($,1.,1.);\n"),
        "refused 10 NameRange at statement 8\n",
    ),
    Refused(Lines("#)"), "refused 11 BadName at statement 8\n"),
    // statements
    Refused(
        Lines("#1=POINT(;\n"),
        "refused 20 Unexpected at statement 8\n",
    ),
    Refused(Lines("X="), "refused 20 Unexpected at statement 8\n"),
    Refused(
        Lines("#1=POINT($,1.,1.);\n#2;\n"),
        "refused 20 Unexpected at statement 9\n",
    ),
    Refused(
        Lines("#1=&SCOPE"),
        "refused 26 LeftOut(Scope) at statement 8\n",
    ),
    Refused(
        Lines("#1=!A();\n"),
        "refused 26 LeftOut(UserKeyword) at statement 8\n",
    ),
    Refused(
        Lines("#1=@2;\n"),
        "refused 26 LeftOut(ValueName) at statement 8\n",
    ),
    Refused(
        Lines("#1=#A;\n"),
        "refused 26 LeftOut(ConstantName) at statement 8\n",
    ),
    // records
    Refused(Lines("#1=FOO();\n"), "refused 41 UnknownEntity in #1\n"),
    Refused(Lines("#1=SHAPE($);\n"), "refused 42 Abstract in #1\n"),
    Refused(Lines("#1=(SHAPE('a'));\n"), "refused 42 Abstract in #1\n"),
    Refused(
        Lines("#1=(POINT(1.,2.)MARKED(.RED.));\n"),
        "refused 43 PartMissing in #1\n",
    ),
    Refused(
        Lines("#1=(SHAPE($)POINT(1.,2.)SHAPE($));\n"),
        "refused 44 PartTwice in #1\n",
    ),
    Refused(
        Lines("#1=(POINT(1.,2.)FOO());\n"),
        "refused 41 UnknownEntity in #1\n",
    ),
    Refused(Lines("#1=POINT($,1.);\n"), "refused 45 Count in #1\n"),
    Refused(
        Lines("#1=(POINT(1.)SHAPE('a'));\n"),
        "refused 45 Count in #1\n",
    ),
    // values
    Refused(Lines("#1=POINT($,$,2.);\n"), "refused 46 Missing in #1\n"),
    Refused(
        Lines("#1=POINT($,*,2.);\n"),
        "refused 47 StarNotDerived in #1\n",
    ),
    Refused(
        Lines("#1=ORIGIN($,0.,2.);\n"),
        "refused 48 DerivedNotStar in #1\n",
    ),
    Refused(Lines("#1=POINT($,1,2.);\n"), "refused 49 WrongKind in #1\n"),
    Refused(Lines("#1=CLOUD((),(),());\n"), "refused 51 Bounds in #1\n"),
    Refused(
        Lines("#1=CLOUD((#2,#02),(),(TALLY(1)));\n"),
        "refused 52 NotDistinct in #1\n",
    ),
    Refused(
        Lines("#1=CLOUD((),(),(TALLY(1),TALLY(01)));\n"),
        "refused 52 NotDistinct in #1\n",
    ),
    Refused(
        Lines("#1=CLOUD((),(),(1.0));\n"),
        "refused 54 SelectType in #1\n",
    ),
    Refused(
        Lines("#1=CLOUD((),(),(MEASURE(TALLY(1))));\n"),
        "refused 54 SelectType in #1\n",
    ),
    // widths, items and redeclarations
    Refused(
        LinesOf(Wide, "#1=E('abcd','xy',\"0A\",($,1),.T.);\n"),
        "refused 50 Width in #1\n",
    ),
    Refused(
        LinesOf(Wide, "#1=E('abc','x',\"0A\",($,1),.T.);\n"),
        "refused 50 Width in #1\n",
    ),
    Refused(
        LinesOf(Wide, "#1=E('abc','xy',\"23B\",($,1),.T.);\n"),
        "refused 50 Width in #1\n",
    ),
    Refused(
        LinesOf(Wide, "#1=E('abc','xy',\"0A\",(1),.T.);\n"),
        "refused 51 Bounds in #1\n",
    ),
    Refused(
        LinesOf(Wide, "#1=E('abc','xy',\"0A\",($,1),.U.);\n"),
        "refused 53 UnknownItem in #1\n",
    ),
    Refused(
        LinesOf(Wide, "#1=E('abc','xy',\"0A\",($,1),$);\n"),
        "refused 46 Missing in #1\n",
    ),
    Refused(
        LinesOf(Redecl, "#1=A(1.);\n"),
        "refused 49 WrongKind in #1\n",
    ),
    Refused(
        LinesOf(Redecl, "#1=(A()B()R(1));\n"),
        "refused 55 TwoRedeclarations in #1\n",
    ),
    Refused(
        LinesOf(Sole, "#1=(A()B()S(1));\n"),
        "refused 58 OneOf in #1\n",
    ),
    // names and references
    Refused(
        Lines("#1=POINT($,1.,1.);\n#01=POINT($,1.,1.);\n"),
        "refused 40 DuplicateName in #1\n",
    ),
    Refused(
        Lines("#1=CLOUD((#2),(),(TALLY(1)));\n#2=CLOUD((),(),(TALLY(1)));\n"),
        "refused 57 WrongTarget in #1\n",
    ),
    Refused(
        Lines("#1=CLOUD((#2),(),(TALLY(1)));\n"),
        "refused 56 Dangling in #1\n",
    ),
    Refused(
        Lines("#5=CLOUD((#6),(),(TALLY(1)));\n#1=CLOUD((#5),(),(TALLY(1)));\n"),
        "refused 56 Dangling in #5\n",
    ),
    // the 65th list
    Refused(Lists("64 lists", 64), "refused 49 WrongKind in #1\n"),
    Refused(Lists("65 lists", 65), "refused 21 TooDeep at statement 8\n"),
];

#[test]
fn refuses_files(rt: HostRuntime) {
    assert_eq!(rt; first_wrong(rt.alloc(), ROWS), "none");
}
