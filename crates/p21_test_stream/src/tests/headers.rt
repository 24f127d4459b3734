//! Headers.
use super::answers::Answers;
use super::files::{HEADER, SHAPES};
use super::{Rows, check};

const ROWS: Answers = &[
    (
        "FILE_DESCRIPTION($,$);\nFILE_NAME('','',(''),(''),'','','');\nFILE_SCHEMA(('demo'));\n",
        "FILE_DESCRIPTION($,$);\nFILE_NAME('','',(''),(''),'','','');\nFILE_SCHEMA(('demo'));\n",
    ),
    (
        "FILE_DESCRIPTION((),'');FILE_NAME($,$,(),('',$),$,$,$);FILE_SCHEMA(('Demo {1 0}'));",
        "FILE_DESCRIPTION((),'');\nFILE_NAME($,$,(),('',$),$,$,$);\nFILE_SCHEMA(('Demo {1 0}'));\n",
    ),
    (
        "FILE_DESCRIPTION(('\\X\\E9'),$);FILE_NAME('','',(''),(''),'','','');FILE_SCHEMA(('\\X\\44EMO'));!MY_RECORD(1.0,.A.);OTHER((02));",
        "FILE_DESCRIPTION(('\\X2\\00E9\\X0\\'),$);\nFILE_NAME('','',(''),(''),'','','');\nFILE_SCHEMA(('DEMO'));\n!MY_RECORD(1.,.A.);\nOTHER((2));\n",
    ),
    // refused
    (
        "FILE_DESCRIPTION((''),'2;1');\nFILE_NAME('','',(''),(''),'','','');\nFILE_SCHEMA(('OTHER'));\n",
        "refused 31 SchemaName at statement 5",
    ),
    (
        "FILE_DESCRIPTION((''),'2;1');\nFILE_NAME('','',(''),(''),'','','');\nFILE_SCHEMA(('DEMO_X'));\n",
        "refused 31 SchemaName at statement 5",
    ),
    (
        "FILE_DESCRIPTION((''),'2;1');\nFILE_NAME('','',(''),(''),'','','');\nFILE_SCHEMA($);\n",
        "refused 30 HeaderShape at statement 5",
    ),
    (
        "FILE_DESCRIPTION((''),'2;1');\nFILE_NAME('','',(''),(''),'','');\nFILE_SCHEMA(('DEMO'));\n",
        "refused 30 HeaderShape at statement 4",
    ),
    (
        "FILE_NAME('','',(''),(''),'','','');\nFILE_SCHEMA(('DEMO'));\n",
        "refused 30 HeaderShape at statement 3",
    ),
    ("", "refused 30 HeaderShape at statement 3"),
    (
        "FILE_DESCRIPTION((#1),'');",
        "refused 20 Unexpected at statement 3",
    ),
];

#[test]
fn takes_and_refuses_headers(rt: HostRuntime) {
    check(&rt, rt.alloc(), SHAPES, Rows::Answers(HEADER, ROWS));
}
