//! A schema, and files of it.
use std::alloc::{AllocError, Global};

/// A schema of shapes.
pub(super) const SHAPES: &str = "SCHEMA demo;
TYPE distance = REAL; END_TYPE;
TYPE tally = INTEGER; END_TYPE;
TYPE colour = ENUMERATION OF (red, green); END_TYPE;
TYPE measure = SELECT (distance, tally); END_TYPE;
TYPE item = SELECT (measure, point); END_TYPE;
ENTITY shape ABSTRACT SUPERTYPE; label : OPTIONAL STRING; END_ENTITY;
ENTITY point SUBTYPE OF (shape); x, y : distance; END_ENTITY;
ENTITY marked SUBTYPE OF (shape); mark : colour; END_ENTITY;
ENTITY origin SUBTYPE OF (point);
DERIVE SELF\\point.x : distance := 0.0; END_ENTITY;
ENTITY cloud; members : SET OF point; sizes : BAG OF BAG OF REAL;
values : LIST [1:3] OF UNIQUE item; END_ENTITY;
END_SCHEMA;
";

/// A file without instances, which is its own canonical file.
pub(super) const EMPTY: &str =
    "ISO-10303-21;\nHEADER;\nFILE_DESCRIPTION((''),'2;1');\nFILE_NAME('','',(''),(''),'','','');\nFILE_SCHEMA(('DEMO'));\nENDSEC;\nDATA;\nENDSEC;\nEND-ISO-10303-21;\n";

/// A file as a usual converter writes it.
pub(super) const CONVERTED: &str =
    "ISO-10303-21;\r\nHEADER;\r\n/* by a converter */\r\nFILE_DESCRIPTION (( 'ViewDefinition [CoordinationView]' ), '2;1' );\r\nFILE_NAME('','',(''),(''),'','','');\r\nFILE_SCHEMA(('DEMO { 1 0 10303 214 1 1 1 1 }'));\r\nENDSEC;\r\nDATA;\r\n#10 = ( SHAPE('') POINT(1.E-07,-2.5)\r\n MARKED(.GREEN.) );\r\n#2= POINT('p',0.,10.);\r\nENDSEC;\r\nEND-ISO-10303-21;\r\n";

/// Its canonical file.
pub(super) const CONVERTED_CANONICAL: &str =
    "ISO-10303-21;\nHEADER;\nFILE_DESCRIPTION(('ViewDefinition [CoordinationView]'),'2;1');\nFILE_NAME('','',(''),(''),'','','');\nFILE_SCHEMA(('DEMO { 1 0 10303 214 1 1 1 1 }'));\nENDSEC;\nDATA;\n#2=POINT('p',0.,1.E1);\n#10=(MARKED(.GREEN.)POINT(1.E-7,-2.5)SHAPE(''));\nENDSEC;\nEND-ISO-10303-21;\n";

/// The text of a file around a part of it.
#[derive(Clone, Copy)]
pub(super) struct Frame {
    pub before: &'static str,
    pub behind: &'static str,
}

/// The records of a header.
pub(super) const HEADER: Frame = Frame {
    before: "ISO-10303-21;\nHEADER;\n",
    behind: "ENDSEC;\nDATA;\nENDSEC;\nEND-ISO-10303-21;\n",
};

/// The sections behind a header.
pub(super) const SECTIONS: Frame = Frame {
    before: "ISO-10303-21;\nHEADER;\nFILE_DESCRIPTION((''),'2;1');\nFILE_NAME('','',(''),(''),'','','');\nFILE_SCHEMA(('DEMO'));\nENDSEC;\n",
    behind: "END-ISO-10303-21;\n",
};

/// The lines of a file up to its instances.
pub(super) const FRONT: &str =
    "ISO-10303-21;\nHEADER;\nFILE_DESCRIPTION((''),'2;1');\nFILE_NAME('','',(''),(''),'','','');\nFILE_SCHEMA(('DEMO'));\nENDSEC;\nDATA;\n";

/// The lines behind them.
pub(super) const BACK: &str = "ENDSEC;\nEND-ISO-10303-21;\n";

/// The instances of a section without a name.
pub(super) const DEMO: Frame = Frame {
    before: FRONT,
    behind: BACK,
};

/// What stands where instances may, and no more.
pub(super) const OPEN: Frame = Frame { behind: "", ..DEMO };

/// What stands behind a file without instances.
pub(super) const ENDED: Frame = Frame {
    before: EMPTY,
    behind: "",
};

/// No text around a whole file.
pub(super) const WHOLE: Frame = Frame {
    before: "",
    behind: "",
};

/// A text in a frame: none where memory runs out.
pub(super) fn framed(alloc: Global, frame: Frame, text: &[u8]) -> Option<Vec<u8>> {
    let mut file = Vec::new(alloc);
    match push_framed(&mut file, frame, text) {
        Ok(()) => Some(file),
        Err(_) => None,
    }
}

fn push_framed(file: &mut Vec<u8>, frame: Frame, text: &[u8]) -> Result<(), AllocError> {
    file.extend_from_slice(frame.before.as_bytes())?;
    file.extend_from_slice(text)?;
    file.extend_from_slice(frame.behind.as_bytes())
}
