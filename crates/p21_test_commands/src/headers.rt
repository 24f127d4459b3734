//! Headers, and what stands around the sections.
use crate::run::Row::{Refused, Rewritten};
use crate::run::{Rows, first_wrong};
use crate::schemas::File::{Replaced, Text};

/// A file as a converter writes it, with other line ends.
const CONVERTED: &str = "ISO-10303-21;\r
HEADER;\r
/* written by a converter */\r
FILE_DESCRIPTION (( 'ViewDefinition [CoordinationView]' ), '2;1' );\r
FILE_NAME('','',(''),(''),'','','');\r
FILE_SCHEMA(('DEMO { 1 0 10303 214 1 1 1 1 }'));\r
ENDSEC;\r
DATA;\r
#10 = ( SHAPE('') POINT(1.E-07,-2.5)\r
 MARKED(.GREEN.) );\r
#2= POINT('p',0.,10.);\r
ENDSEC;\r
END-ISO-10303-21;\r
";

/// Its canonical file.
const CANONICAL: &str = "ISO-10303-21;
HEADER;
FILE_DESCRIPTION(('ViewDefinition [CoordinationView]'),'2;1');
FILE_NAME('','',(''),(''),'','','');
FILE_SCHEMA(('DEMO { 1 0 10303 214 1 1 1 1 }'));
ENDSEC;
DATA;
#2=POINT('p',0.,1.E1);
#10=(MARKED(.GREEN.)POINT(1.E-7,-2.5)SHAPE(''));
ENDSEC;
END-ISO-10303-21;
";

const ROWS: Rows = &[
    // kept as they stand
    Rewritten(
        Replaced("FILE_SCHEMA(('DEMO'));", "FILE_SCHEMA(('demo'));"),
        Replaced("FILE_SCHEMA(('DEMO'));", "FILE_SCHEMA(('demo'));"),
    ),
    Rewritten(
        Replaced(
            "FILE_SCHEMA(('DEMO'));",
            "FILE_SCHEMA(('DEMO { 1 0 10303 214 1 1 1 1 }'));",
        ),
        Replaced(
            "FILE_SCHEMA(('DEMO'));",
            "FILE_SCHEMA(('DEMO { 1 0 10303 214 1 1 1 1 }'));",
        ),
    ),
    Rewritten(
        Replaced("FILE_DESCRIPTION((''),'2;1');", "FILE_DESCRIPTION($,$);"),
        Replaced("FILE_DESCRIPTION((''),'2;1');", "FILE_DESCRIPTION($,$);"),
    ),
    Rewritten(
        Replaced("(''),(''),'','',''", "$,(),$,$,$"),
        Replaced("(''),(''),'','',''", "$,(),$,$,$"),
    ),
    Rewritten(
        Replaced(
            "FILE_SCHEMA(('DEMO'));",
            "FILE_SCHEMA(('DEMO'));\n!MY_RECORD(1.,.A.);",
        ),
        Replaced(
            "FILE_SCHEMA(('DEMO'));",
            "FILE_SCHEMA(('DEMO'));\n!MY_RECORD(1.,.A.);",
        ),
    ),
    // written otherwise
    Rewritten(
        Replaced(
            "FILE_DESCRIPTION((''),'2;1');",
            "/* first */ FILE_DESCRIPTION ( ( '\\X\\E9' ) , '2;1' ) ;",
        ),
        Replaced(
            "FILE_DESCRIPTION((''),'2;1');",
            "FILE_DESCRIPTION(('\\X2\\00E9\\X0\\'),'2;1');",
        ),
    ),
    Rewritten(
        Replaced("FILE_SCHEMA(('DEMO'));", "FILE_SCHEMA(('\\X\\44EMO'));"),
        Replaced("FILE_SCHEMA(('DEMO'));", "FILE_SCHEMA(('DEMO'));"),
    ),
    Rewritten(
        Replaced(
            "FILE_SCHEMA(('DEMO'));",
            "FILE_SCHEMA(('DEMO')); !MY_RECORD(1.0,.A.);",
        ),
        Replaced(
            "FILE_SCHEMA(('DEMO'));",
            "FILE_SCHEMA(('DEMO'));\n!MY_RECORD(1.,.A.);",
        ),
    ),
    Rewritten(
        Replaced("ENDSEC;\nDATA;\n", "ENDSEC;DATA;"),
        Replaced("ENDSEC;\nDATA;\n", "ENDSEC;\nDATA;\n"),
    ),
    Rewritten(
        Replaced("END-ISO-10303-21;\n", "END-ISO-10303-21;"),
        Replaced("END-ISO-10303-21;\n", "END-ISO-10303-21;\n"),
    ),
    Rewritten(
        Replaced("END-ISO-10303-21;\n", "END-ISO-10303-21;/* end */\x1a"),
        Replaced("END-ISO-10303-21;\n", "END-ISO-10303-21;\n"),
    ),
    Rewritten(Text(CONVERTED), Text(CANONICAL)),
    // refused
    Refused(
        Replaced("('DEMO')", "('OTHER')"),
        "refused 31 SchemaName at statement 5\n",
    ),
    Refused(
        Replaced("('DEMO')", "('DEMO1')"),
        "refused 31 SchemaName at statement 5\n",
    ),
    Refused(
        Replaced("('DEMO')", "$"),
        "refused 30 HeaderShape at statement 5\n",
    ),
    Refused(
        Replaced("('DEMO')", "('DEMO','DEMO')"),
        "refused 30 HeaderShape at statement 5\n",
    ),
    Refused(
        Replaced("FILE_NAME('',", "FILE_NAME("),
        "refused 30 HeaderShape at statement 4\n",
    ),
    Refused(
        Replaced("FILE_SCHEMA(('DEMO'));\n", ""),
        "refused 30 HeaderShape at statement 5\n",
    ),
    Refused(
        Replaced("'2;1'", "#1"),
        "refused 20 Unexpected at statement 3\n",
    ),
    // what stands around the sections
    Refused(
        Replaced("ISO", "\u{feff}ISO"),
        "refused 1 BadByte at statement 1\n",
    ),
    Refused(
        Replaced("DATA;", "ANCHOR;"),
        "refused 26 LeftOut(Anchor) at statement 7\n",
    ),
    Refused(
        Replaced("DATA;\nENDSEC;\n", ""),
        "refused 26 LeftOut(NoDataSection) at statement 7\n",
    ),
    Refused(
        Replaced("END-ISO-10303-21;\n", "END-ISO-10303-21;\nX"),
        "refused 25 AfterEnd at statement 10\n",
    ),
    Refused(
        Replaced("END-ISO-10303-21;\n", "END-ISO-10303-21;\nSIGNATURE;"),
        "refused 26 LeftOut(Signature) at statement 10\n",
    ),
    Refused(
        Replaced("END-ISO-10303-21;\n", "END-ISO-10303-21;\n/*"),
        "refused 3 OpenComment at statement 10\n",
    ),
    Refused(
        Replaced("END-ISO-10303-21;\n", ""),
        "refused 24 EndsEarly at statement 9\n",
    ),
    Refused(Text(""), "refused 24 EndsEarly at statement 1\n"),
];

#[test]
fn rewrites_and_refuses_headers(rt: HostRuntime) {
    assert_eq!(rt; first_wrong(rt.alloc(), ROWS), "none");
}
