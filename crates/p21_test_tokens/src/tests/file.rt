use super::*;

/// An exchange structure, with a comment, the line ends CR LF, and a record over two lines.
const FILE: &str = "ISO-10303-21;\r\nHEADER;\r\n/* one;* / two */\r\n\
FILE_DESCRIPTION (( 'ViewDefinition [CoordinationView]' ), '2;1' );\r\n\
FILE_NAME('it''s \\X2\\00E9\\X0\\','',(''),(''),'','','\u{E9}');\r\n\
FILE_SCHEMA(('DEMO { 1 0 10303 214 1 1 1 1 }'));\r\nENDSEC;\r\nDATA;\r\n\
#10 = ( SHAPE('') POINT(1.E-07,-2.5)\r\n MARKED(.GREEN.) );\r\n\
#2= POINT('p',0.,10.)/**/;#007=ORIGIN($,*,+2.50);\r\n\
#3=CLOUD((#2,#10),((1.0,20.E-1),()),(TALLY(+01)));\r\n\
ENDSEC;\r\nEND-ISO-10303-21;\r\n";

const TOKENS: &str = "ISO-10303-21 ; HEADER ; \
FILE_DESCRIPTION ( ( 'ViewDefinition [CoordinationView]' ) , '2;1' ) ; \
FILE_NAME ( 'it''s \\X2\\00E9\\X0\\' , '' , ( '' ) , ( '' ) , '' , '' , '\\X2\\00E9\\X0\\' ) ; \
FILE_SCHEMA ( ( 'DEMO { 1 0 10303 214 1 1 1 1 }' ) ) ; ENDSEC ; DATA ; \
#10 = ( SHAPE ( '' ) POINT ( 1.E-7 , -2.5 ) MARKED ( .GREEN. ) ) ; \
#2 = POINT ( 'p' , 0. , 1.E1 ) ; #7 = ORIGIN ( $ , * , 2.5 ) ; \
#3 = CLOUD ( ( #2 , #10 ) , ( ( 1. , 2. ) , ( ) ) , ( TALLY ( 1 ) ) ) ; \
ENDSEC ; END-ISO-10303-21 ;";

#[test]
fn reads_a_file_cut_anywhere(rt: HostRuntime) {
    assert!(rt; gives(rt.alloc(), Limits::usual(), FILE.as_bytes(), TOKENS));
}
