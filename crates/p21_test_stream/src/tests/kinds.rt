//! Values of each kind of type, spelled as they usually are and otherwise, and refused ones. A session takes the usual ones
//! straight from their bytes where it is given them whole, and none byte by byte.
use super::answers::Answers;
use super::files::{DEMO, Frame};
use super::{Rows, check};

/// A type of each kind, most of them at an entity of their own.
pub(super) const KINDS_SCHEMA: &str = "SCHEMA kinds;
TYPE len = REAL; END_TYPE;
TYPE colour = ENUMERATION OF (red, green, blue_2); END_TYPE;
TYPE row = LIST [1:2] OF len; END_TYPE;
TYPE nest = LIST OF item; END_TYPE;
TYPE item = SELECT (len, row, nest, colour, node); END_TYPE;
ENTITY of_integer; v : INTEGER; END_ENTITY;
ENTITY of_real; v : REAL; END_ENTITY;
ENTITY of_number; v : NUMBER; END_ENTITY;
ENTITY of_string; v : STRING; END_ENTITY;
ENTITY of_binary; v : BINARY; END_ENTITY;
ENTITY of_widths; s : STRING(3); f : STRING(2) FIXED; b : BINARY(5); c : BINARY(8) FIXED; END_ENTITY;
ENTITY of_items; c : OPTIONAL colour; b : BOOLEAN; l : LOGICAL; END_ENTITY;
ENTITY of_item; v : item; END_ENTITY;
ENTITY of_set; v : SET [0:3] OF REAL; END_ENTITY;
ENTITY of_bag; v : BAG OF BAG OF NUMBER; END_ENTITY;
ENTITY of_list; v : LIST [1:2] OF UNIQUE STRING; END_ENTITY;
ENTITY of_array; v : ARRAY [1:3] OF OPTIONAL INTEGER; u : ARRAY [0:1] OF UNIQUE INTEGER;
w : ARRAY [0:2] OF OPTIONAL UNIQUE INTEGER; END_ENTITY;
ENTITY of_nodes; s : SET OF node; l : LIST OF node; END_ENTITY;
ENTITY base ABSTRACT SUPERTYPE; n : OPTIONAL STRING; END_ENTITY;
ENTITY node SUBTYPE OF (base); next : OPTIONAL node; END_ENTITY;
ENTITY leaf SUBTYPE OF (base); c : colour; END_ENTITY;
ENTITY last_node SUBTYPE OF (node); DERIVE SELF\\node.next : node := ?; END_ENTITY;
END_SCHEMA;
";

/// The instances of a section without a name.
pub(super) const KINDS: Frame = Frame {
    before: "ISO-10303-21;\nHEADER;\nFILE_DESCRIPTION((''),'2;1');\nFILE_NAME('','',(''),(''),'','','');\nFILE_SCHEMA(('KINDS'));\nENDSEC;\nDATA;\n",
    ..DEMO
};

const WHOLES: Answers = &[
    (
        "#1=OF_INTEGER(0);#2=OF_INTEGER(-0);#3=OF_INTEGER(+7);#4=OF_INTEGER(007);#5=OF_INTEGER(-00120);",
        "#1=OF_INTEGER(0);\n#2=OF_INTEGER(0);\n#3=OF_INTEGER(7);\n#4=OF_INTEGER(7);\n#5=OF_INTEGER(-120);\n",
    ),
    (
        "#1=OF_INTEGER(9223372036854775807);#2=OF_INTEGER(-9223372036854775808);#3=OF_INTEGER(9223372036854775808);#4=OF_INTEGER(18446744073709551615);#5=OF_INTEGER(18446744073709551616);",
        "#1=OF_INTEGER(9223372036854775807);\n#2=OF_INTEGER(-9223372036854775808);\n#3=OF_INTEGER(9223372036854775808);\n#4=OF_INTEGER(18446744073709551615);\n#5=OF_INTEGER(18446744073709551616);\n",
    ),
    (
        "#1=OF_INTEGER(111111111111111);#2=OF_INTEGER(2222222222222222);#3=OF_INTEGER(-33333333333333333);#4=OF_INTEGER(444444444444444444444444);#5=OF_INTEGER(+05555555555555555555555555);#6=OF_INTEGER(666666666666666666666666666666666);",
        "#1=OF_INTEGER(111111111111111);\n#2=OF_INTEGER(2222222222222222);\n#3=OF_INTEGER(-33333333333333333);\n#4=OF_INTEGER(444444444444444444444444);\n#5=OF_INTEGER(5555555555555555555555555);\n#6=OF_INTEGER(666666666666666666666666666666666);\n",
    ),
    (
        "#1=OF_NUMBER(0);#2=OF_NUMBER(-0);#3=OF_NUMBER(100);#4=OF_NUMBER(007);#5=OF_NUMBER(-1);#6=OF_NUMBER(1200.0);#7=OF_NUMBER(999999999999999999999999);#8=OF_NUMBER(123456789012345678901234500);",
        "#1=OF_NUMBER(0.);\n#2=OF_NUMBER(0.);\n#3=OF_NUMBER(1.E2);\n#4=OF_NUMBER(7.);\n#5=OF_NUMBER(-1.);\n#6=OF_NUMBER(1.2E3);\n#7=OF_NUMBER(9.99999999999999999999999E23);\n#8=OF_NUMBER(1.234567890123456789012345E26);\n",
    ),
    ("#1=OF_INTEGER(1.);", "refused 49 WrongKind in #1"),
    (
        "#1=OF_INTEGER(1E5);",
        "refused 20 Unexpected at statement 8",
    ),
    ("#1=OF_INTEGER(+);", "refused 7 BadNumber at statement 8"),
    ("#1=OF_INTEGER(- 1);", "refused 7 BadNumber at statement 8"),
    (
        "#1=OF_INTEGER(1 2);",
        "refused 20 Unexpected at statement 8",
    ),
    ("#1=OF_INTEGER('1');", "refused 49 WrongKind in #1"),
    ("#1=OF_INTEGER($);", "refused 46 Missing in #1"),
    ("#1=OF_INTEGER(*);", "refused 47 StarNotDerived in #1"),
    ("#1=OF_INTEGER();", "refused 45 Count in #1"),
    ("#1=OF_INTEGER(1,2);", "refused 45 Count in #1"),
];

#[test]
fn takes_integers(rt: HostRuntime) {
    check(&rt, rt.alloc(), KINDS_SCHEMA, Rows::Answers(KINDS, WHOLES));
}

const REALS: Answers = &[
    (
        "#1=OF_REAL(0.);#2=OF_REAL(-0.0);#3=OF_REAL(00.00E7);#4=OF_REAL(1.);#5=OF_REAL(+1.50);#6=OF_REAL(-012.500E+03);#7=OF_REAL(0.00250);",
        "#1=OF_REAL(0.);\n#2=OF_REAL(0.);\n#3=OF_REAL(0.);\n#4=OF_REAL(1.);\n#5=OF_REAL(1.5);\n#6=OF_REAL(-1.25E4);\n#7=OF_REAL(2.5E-3);\n",
    ),
    (
        "#1=OF_REAL(1.E99);#2=OF_REAL(10.E98);#3=OF_REAL(9.99E-99);#4=OF_REAL(0.1E-98);#5=OF_REAL(100.E-101);",
        "#1=OF_REAL(1.E99);\n#2=OF_REAL(1.E99);\n#3=OF_REAL(9.99E-99);\n#4=OF_REAL(1.E-99);\n#5=OF_REAL(1.E-99);\n",
    ),
    (
        "#1=OF_REAL(1.E100);#2=OF_REAL(10.E99);#3=OF_REAL(0.1E-99);#4=OF_REAL(1.E-100);#5=OF_REAL(1.E9999);#6=OF_REAL(10.E-10000);",
        "#1=OF_REAL(1.E100);\n#2=OF_REAL(1.E100);\n#3=OF_REAL(1.E-100);\n#4=OF_REAL(1.E-100);\n#5=OF_REAL(1.E9999);\n#6=OF_REAL(1.E-9999);\n",
    ),
    (
        "#1=OF_REAL(1.E000005);#2=OF_REAL(1.E0000005);#3=OF_REAL(1.E-000005);#4=OF_REAL(1.E+0000005);#5=OF_REAL(0.E999999);#6=OF_REAL(0.E9999999);#7=OF_REAL(0.E-999999999);",
        "#1=OF_REAL(1.E5);\n#2=OF_REAL(1.E5);\n#3=OF_REAL(1.E-5);\n#4=OF_REAL(1.E5);\n#5=OF_REAL(0.);\n#6=OF_REAL(0.);\n#7=OF_REAL(0.);\n",
    ),
    (
        "#1=OF_REAL(111111111111111.);#2=OF_REAL(2222222222222222.5);#3=OF_REAL(33333333333333333.7777777777777777);#4=OF_REAL(444444444444444444444444.);#5=OF_REAL(5.5555555555555555555555555);#6=OF_REAL(1.0000000000000000000000000000000000000000);#7=OF_REAL(10000000000000000000000000000000000000000.);",
        "#1=OF_REAL(1.11111111111111E14);\n#2=OF_REAL(2.2222222222222225E15);\n#3=OF_REAL(3.33333333333333337777777777777777E16);\n#4=OF_REAL(4.44444444444444444444444E23);\n#5=OF_REAL(5.5555555555555555555555555);\n#6=OF_REAL(1.);\n#7=OF_REAL(1.E40);\n",
    ),
    (
        "#1=OF_REAL(1.22222222222222222222222222222);#2=OF_REAL(1.222222222222222222222222222222);#3=OF_REAL(1.2222222222222222222222222222222);#4=OF_REAL(-11111111111111111111111111111111.2);",
        "#1=OF_REAL(1.22222222222222222222222222222);\n#2=OF_REAL(1.222222222222222222222222222222);\n#3=OF_REAL(1.2222222222222222222222222222222);\n#4=OF_REAL(-1.11111111111111111111111111111112E31);\n",
    ),
    ("#1=OF_REAL(1);", "refused 49 WrongKind in #1"),
    (
        "#1=OF_REAL(1.E10000);",
        "refused 8 NumberRange at statement 8",
    ),
    (
        "#1=OF_REAL(0.1E10001);",
        "refused 8 NumberRange at statement 8",
    ),
    ("#1=OF_REAL(1.E);", "refused 7 BadNumber at statement 8"),
    ("#1=OF_REAL(1.E5E);", "refused 20 Unexpected at statement 8"),
    ("#1=OF_REAL(1.E5.);", "refused 1 BadByte at statement 8"),
    ("#1=OF_REAL(1..);", "refused 1 BadByte at statement 8"),
    ("#1=OF_REAL(1.5');", "refused 2 OpenString at statement 8"),
    ("#1=OF_REAL(-.5);", "refused 7 BadNumber at statement 8"),
    ("#1=OF_REAL(.5);", "refused 1 BadByte at statement 8"),
    ("#1=OF_REAL(1.e5);", "refused 1 BadByte at statement 8"),
];

#[test]
fn takes_reals(rt: HostRuntime) {
    check(&rt, rt.alloc(), KINDS_SCHEMA, Rows::Answers(KINDS, REALS));
}

const TEXTS: Answers = &[
    (
        "#1=OF_STRING('');#2=OF_STRING('a');#3=OF_STRING('it''s');#4=OF_STRING('\\\\');#5=OF_STRING('''');#6=OF_STRING(' ~');",
        "#1=OF_STRING('');\n#2=OF_STRING('a');\n#3=OF_STRING('it''s');\n#4=OF_STRING('\\\\');\n#5=OF_STRING('''');\n#6=OF_STRING(' ~');\n",
    ),
    (
        "#1=OF_STRING('\\X2\\00E9\\X0\\');#2=OF_STRING('\\X2\\0041\\X0\\');#3=OF_STRING('\\X2\\00E903B1\\X0\\');#4=OF_STRING('\\X2\\007F\\X0\\');#5=OF_STRING('\\X2\\0000\\X0\\');#6=OF_STRING('\\X2\\D7FF\\X0\\');#7=OF_STRING('\\X2\\E000\\X0\\');#8=OF_STRING('\\X2\\FFFF\\X0\\');#9=OF_STRING('\\X2\\0027\\X0\\');",
        "#1=OF_STRING('\\X2\\00E9\\X0\\');\n#2=OF_STRING('A');\n#3=OF_STRING('\\X2\\00E9\\X0\\\\X2\\03B1\\X0\\');\n#4=OF_STRING('\\X2\\007F\\X0\\');\n#5=OF_STRING('\\X2\\0000\\X0\\');\n#6=OF_STRING('\\X2\\D7FF\\X0\\');\n#7=OF_STRING('\\X2\\E000\\X0\\');\n#8=OF_STRING('\\X2\\FFFF\\X0\\');\n#9=OF_STRING('''');\n",
    ),
    (
        "#1=OF_STRING('\\X4\\0001F600\\X0\\');#2=OF_STRING('\\X4\\000000E9\\X0\\');#3=OF_STRING('\\X2\\D83DDE00\\X0\\');#4=OF_STRING('\\X\\E9');#5=OF_STRING('\\X\\41');#6=OF_STRING('\\S\\i');#7=OF_STRING('\\PA\\\\S\\i');#8=OF_STRING('a\\PA\\b');",
        "#1=OF_STRING('\\X4\\0001F600\\X0\\');\n#2=OF_STRING('\\X2\\00E9\\X0\\');\n#3=OF_STRING('\\X4\\0001F600\\X0\\');\n#4=OF_STRING('\\X2\\00E9\\X0\\');\n#5=OF_STRING('A');\n#6=OF_STRING('\\X2\\00E9\\X0\\');\n#7=OF_STRING('\\X2\\00E9\\X0\\');\n#8=OF_STRING('ab');\n",
    ),
    (
        "#1=OF_STRING('\u{e9}');#2=OF_STRING('a\nb');#3=OF_STRING('\u{1f600}');#4=OF_STRING('\u{80}');",
        "#1=OF_STRING('\\X2\\00E9\\X0\\');\n#2=OF_STRING('ab');\n#3=OF_STRING('\\X4\\0001F600\\X0\\');\n#4=OF_STRING('\\X2\\0080\\X0\\');\n",
    ),
    (
        "#1=OF_STRING('aaaaaaaaaaaaaaaaaaaaaaaaaaaaa');#2=OF_STRING('aaaaaaaaaaaaaaaaaaaaaaaaaaaaaa');#3=OF_STRING('aaaaaaaaaaaaaaaaaaaaaaaaaaaaaaa');#4=OF_STRING('aaaaaaaaaaaaaaaaaaaaaaaaaaaaaaaa');#5=OF_STRING('aaaaaaaaaaaaaaaaaaaaaaaaaaaaaaa\\X2\\00E9\\X0\\''''''''''''''''''''''''''''''''''''''''');",
        "#1=OF_STRING('aaaaaaaaaaaaaaaaaaaaaaaaaaaaa');\n#2=OF_STRING('aaaaaaaaaaaaaaaaaaaaaaaaaaaaaa');\n#3=OF_STRING('aaaaaaaaaaaaaaaaaaaaaaaaaaaaaaa');\n#4=OF_STRING('aaaaaaaaaaaaaaaaaaaaaaaaaaaaaaaa');\n#5=OF_STRING('aaaaaaaaaaaaaaaaaaaaaaaaaaaaaaa\\X2\\00E9\\X0\\''''''''''''''''''''''''''''''''''''''''');\n",
    ),
    (
        "#1=OF_STRING('\\X2\\00e9\\X0\\');",
        "refused 4 BadDirective at statement 8",
    ),
    (
        "#1=OF_STRING('\\X2\\00E\\X0\\');",
        "refused 4 BadDirective at statement 8",
    ),
    (
        "#1=OF_STRING('\\X2\\D800\\X0\\');",
        "refused 5 BadCodePoint at statement 8",
    ),
    (
        "#1=OF_STRING('\\X2\\DC00\\X0\\');",
        "refused 5 BadCodePoint at statement 8",
    ),
    (
        "#1=OF_STRING('\\X2\\00E9\\X1\\');",
        "refused 4 BadDirective at statement 8",
    ),
    (
        "#1=OF_STRING('\\X4\\00110000\\X0\\');",
        "refused 5 BadCodePoint at statement 8",
    ),
    (
        "#1=OF_STRING('\\PJ\\');",
        "refused 4 BadDirective at statement 8",
    ),
    (
        "#1=OF_STRING('a\\PB\\b');",
        "refused 4 BadDirective at statement 8",
    ),
    (
        "#1=OF_STRING('\\N\\');",
        "refused 4 BadDirective at statement 8",
    ),
    (
        "#1=OF_STRING('\\a');",
        "refused 4 BadDirective at statement 8",
    ),
    (
        "#1=OF_STRING('a' 'b');",
        "refused 20 Unexpected at statement 8",
    ),
    ("#1=OF_STRING(\"0\");", "refused 49 WrongKind in #1"),
];

#[test]
fn takes_strings(rt: HostRuntime) {
    check(&rt, rt.alloc(), KINDS_SCHEMA, Rows::Answers(KINDS, TEXTS));
}

const WIDTHS: Answers = &[
    (
        "#1=OF_BINARY(\"0\");#2=OF_BINARY(\"00\");#3=OF_BINARY(\"0F\");#4=OF_BINARY(\"17\");#5=OF_BINARY(\"23\");#6=OF_BINARY(\"31\");#7=OF_BINARY(\"00123456789ABCDEF0123456789ABCDEF\");",
        "#1=OF_BINARY(\"0\");\n#2=OF_BINARY(\"00\");\n#3=OF_BINARY(\"0F\");\n#4=OF_BINARY(\"17\");\n#5=OF_BINARY(\"23\");\n#6=OF_BINARY(\"31\");\n#7=OF_BINARY(\"00123456789ABCDEF0123456789ABCDEF\");\n",
    ),
    (
        "#1=OF_BINARY(\"0FFFFFFFFFFFFFFFFFFFFFF\");#2=OF_BINARY(\"0FFFFFFFFFFFFFFFFFFFFFFF\");#3=OF_BINARY(\"0FFFFFFFFFFFFFFFFFFFFFFFF\");#4=OF_BINARY(\"311111111111111111111111111111111111111111111111111111111111111\");",
        "#1=OF_BINARY(\"0FFFFFFFFFFFFFFFFFFFFFF\");\n#2=OF_BINARY(\"0FFFFFFFFFFFFFFFFFFFFFFF\");\n#3=OF_BINARY(\"0FFFFFFFFFFFFFFFFFFFFFFFF\");\n#4=OF_BINARY(\"311111111111111111111111111111111111111111111111111111111111111\");\n",
    ),
    ("#1=OF_BINARY(\"1\");", "refused 9 BadBinary at statement 8"),
    (
        "#1=OF_BINARY(\"18\");",
        "refused 9 BadBinary at statement 8",
    ),
    (
        "#1=OF_BINARY(\"24\");",
        "refused 9 BadBinary at statement 8",
    ),
    (
        "#1=OF_BINARY(\"32\");",
        "refused 9 BadBinary at statement 8",
    ),
    (
        "#1=OF_BINARY(\"4F\");",
        "refused 9 BadBinary at statement 8",
    ),
    (
        "#1=OF_BINARY(\"0f\");",
        "refused 9 BadBinary at statement 8",
    ),
    ("#1=OF_BINARY(\"0F);", "refused 9 BadBinary at statement 8"),
    ("#1=OF_BINARY(\"\");", "refused 9 BadBinary at statement 8"),
    (
        "#1=OF_BINARY(\"0 F\");",
        "refused 9 BadBinary at statement 8",
    ),
    (
        "#1=OF_WIDTHS('','ab',\"0\",\"000\");#2=OF_WIDTHS('abc','''''',\"31F\",\"0FF\");#3=OF_WIDTHS('\\X2\\00E9\\X0\\\\X2\\00E9\\X0\\''','\\X2\\00E9\\X0\\~',\"23\",\"0A0\");#4=OF_WIDTHS('\u{e9}\u{e9}\u{e9}','\\X\\E9b',\"0F\",\"012\");",
        "#1=OF_WIDTHS('','ab',\"0\",\"000\");\n#2=OF_WIDTHS('abc','''''',\"31F\",\"0FF\");\n#3=OF_WIDTHS('\\X2\\00E9\\X0\\\\X2\\00E9\\X0\\''','\\X2\\00E9\\X0\\~',\"23\",\"0A0\");\n#4=OF_WIDTHS('\\X2\\00E9\\X0\\\\X2\\00E9\\X0\\\\X2\\00E9\\X0\\','\\X2\\00E9\\X0\\b',\"0F\",\"012\");\n",
    ),
    (
        "#1=OF_WIDTHS('abcd','ab',\"0\",\"000\");",
        "refused 50 Width in #1",
    ),
    (
        "#1=OF_WIDTHS('\\X2\\00E9\\X0\\\\X2\\00E9\\X0\\\\X2\\00E9\\X0\\\\X2\\00E9\\X0\\','ab',\"0\",\"000\");",
        "refused 50 Width in #1",
    ),
    (
        "#1=OF_WIDTHS('abc','a',\"0\",\"000\");",
        "refused 50 Width in #1",
    ),
    (
        "#1=OF_WIDTHS('abc','abc',\"0\",\"000\");",
        "refused 50 Width in #1",
    ),
    (
        "#1=OF_WIDTHS('abc','ab',\"23F\",\"000\");",
        "refused 50 Width in #1",
    ),
    (
        "#1=OF_WIDTHS('abc','ab',\"0\",\"0F\");",
        "refused 50 Width in #1",
    ),
    (
        "#1=OF_WIDTHS('abc','ab',\"0\",\"17F\");",
        "refused 50 Width in #1",
    ),
    (
        "#1=OF_WIDTHS('abc','ab',\"0\",\"0FFF\");",
        "refused 50 Width in #1",
    ),
];

#[test]
fn takes_binaries_and_keeps_to_widths(rt: HostRuntime) {
    check(&rt, rt.alloc(), KINDS_SCHEMA, Rows::Answers(KINDS, WIDTHS));
}

const ITEMS: Answers = &[
    (
        "#1=OF_ITEMS(.RED.,.T.,.U.);#2=OF_ITEMS(.BLUE_2.,.F.,.T.);#3=OF_ITEMS($,.T.,.F.);",
        "#1=OF_ITEMS(.RED.,.T.,.U.);\n#2=OF_ITEMS(.BLUE_2.,.F.,.T.);\n#3=OF_ITEMS($,.T.,.F.);\n",
    ),
    (
        "#1=OF_ITEMS(.PINK.,.T.,.U.);",
        "refused 53 UnknownItem in #1",
    ),
    (
        "#1=OF_ITEMS(.BLUE_.,.T.,.U.);",
        "refused 53 UnknownItem in #1",
    ),
    ("#1=OF_ITEMS(.T.,.T.,.U.);", "refused 53 UnknownItem in #1"),
    (
        "#1=OF_ITEMS(.RED.,.U.,.U.);",
        "refused 53 UnknownItem in #1",
    ),
    ("#1=OF_ITEMS(.RED.,$,.U.);", "refused 46 Missing in #1"),
    (
        "#1=OF_ITEMS(.RED.,.T.,.X.);",
        "refused 53 UnknownItem in #1",
    ),
    (
        "#1=OF_ITEMS(.RED.,.TRUE.,.U.);",
        "refused 53 UnknownItem in #1",
    ),
    (
        "#1=OF_ITEMS(.red.,.T.,.U.);",
        "refused 1 BadByte at statement 8",
    ),
    (
        "#1=OF_ITEMS(.RED,.T.,.U.);",
        "refused 1 BadByte at statement 8",
    ),
    (
        "#1=OF_ITEMS(..,.T.,.U.);",
        "refused 1 BadByte at statement 8",
    ),
    (
        "#1=OF_ITEMS(.RED.,.T.,*);",
        "refused 47 StarNotDerived in #1",
    ),
    (
        "#1=OF_ITEMS(RED,.T.,.U.);",
        "refused 20 Unexpected at statement 8",
    ),
];

#[test]
fn takes_items(rt: HostRuntime) {
    check(&rt, rt.alloc(), KINDS_SCHEMA, Rows::Answers(KINDS, ITEMS));
}

const LISTS: Answers = &[
    (
        "#1=OF_SET(());#2=OF_SET((2.));#3=OF_SET((10.,9.,1.));#4=OF_SET((1.0,-1.));#5=OF_SET((2.,1.5,1.25));",
        "#1=OF_SET(());\n#2=OF_SET((2.));\n#3=OF_SET((1.,1.E1,9.));\n#4=OF_SET((-1.,1.));\n#5=OF_SET((1.25,1.5,2.));\n",
    ),
    ("#1=OF_SET((1.,2.,3.,4.));", "refused 51 Bounds in #1"),
    ("#1=OF_SET((1.,1.));", "refused 52 NotDistinct in #1"),
    ("#1=OF_SET((1.,2.,1.0));", "refused 52 NotDistinct in #1"),
    ("#1=OF_SET((1.E0,2.,1.));", "refused 52 NotDistinct in #1"),
    ("#1=OF_SET((1));", "refused 49 WrongKind in #1"),
    ("#1=OF_SET(($));", "refused 46 Missing in #1"),
    ("#1=OF_SET((*));", "refused 47 StarNotDerived in #1"),
    ("#1=OF_SET(1.);", "refused 49 WrongKind in #1"),
    ("#1=OF_SET((1.,));", "refused 20 Unexpected at statement 8"),
    ("#1=OF_SET((,1.));", "refused 20 Unexpected at statement 8"),
    (
        "#1=OF_SET((1. 2.));",
        "refused 20 Unexpected at statement 8",
    ),
    ("#1=OF_SET(((1.)));", "refused 49 WrongKind in #1"),
    (
        "#1=OF_BAG(());#2=OF_BAG(((),()));#3=OF_BAG(((2.,1),(1,2.0),()));#4=OF_BAG(((10,9),(9,10),(1)));#5=OF_BAG(((1,1,1.0)));",
        "#1=OF_BAG(());\n#2=OF_BAG(((),()));\n#3=OF_BAG(((),(1.,2.),(1.,2.)));\n#4=OF_BAG(((1.),(1.E1,9.),(1.E1,9.)));\n#5=OF_BAG(((1.,1.,1.)));\n",
    ),
    ("#1=OF_BAG((1));", "refused 49 WrongKind in #1"),
    ("#1=OF_BAG(((1),'a'));", "refused 49 WrongKind in #1"),
    ("#1=OF_BAG(((1),((1))));", "refused 49 WrongKind in #1"),
    (
        "#1=OF_LIST(('b','a'));#2=OF_LIST(('a'));#3=OF_LIST(('a','A'));#4=OF_LIST(('',''''));",
        "#1=OF_LIST(('b','a'));\n#2=OF_LIST(('a'));\n#3=OF_LIST(('a','A'));\n#4=OF_LIST(('',''''));\n",
    ),
    ("#1=OF_LIST(());", "refused 51 Bounds in #1"),
    ("#1=OF_LIST(('a','b','c'));", "refused 51 Bounds in #1"),
    ("#1=OF_LIST(('a','a'));", "refused 52 NotDistinct in #1"),
    (
        "#1=OF_LIST(('a','\\X\\61'));",
        "refused 52 NotDistinct in #1",
    ),
    ("#1=OF_LIST(('',''));", "refused 52 NotDistinct in #1"),
    ("#1=OF_LIST(('a',1));", "refused 49 WrongKind in #1"),
    (
        "#1=OF_ARRAY((1,$,3),(1,2),(1,2,3));#2=OF_ARRAY(($,$,$),(2,1),($,$,$));#3=OF_ARRAY((1,1,1),(0,1),(1,$,2));",
        "#1=OF_ARRAY((1,$,3),(1,2),(1,2,3));\n#2=OF_ARRAY(($,$,$),(2,1),($,$,$));\n#3=OF_ARRAY((1,1,1),(0,1),(1,$,2));\n",
    ),
    (
        "#1=OF_ARRAY((1,2),(1,2),(1,2,3));",
        "refused 51 Bounds in #1",
    ),
    (
        "#1=OF_ARRAY((1,2,3,4),(1,2),(1,2,3));",
        "refused 51 Bounds in #1",
    ),
    (
        "#1=OF_ARRAY((1,2,3),(1),(1,2,3));",
        "refused 51 Bounds in #1",
    ),
    (
        "#1=OF_ARRAY((1,2,3),(1,1),(1,2,3));",
        "refused 52 NotDistinct in #1",
    ),
    (
        "#1=OF_ARRAY((1,2,3),(1,+01),(1,2,3));",
        "refused 52 NotDistinct in #1",
    ),
    (
        "#1=OF_ARRAY((1,2,3),($,1),(1,2,3));",
        "refused 46 Missing in #1",
    ),
    (
        "#1=OF_ARRAY((1,2,3),(1,2),(1,$,01));",
        "refused 52 NotDistinct in #1",
    ),
    ("#1=OF_ARRAY((1,2,3),(1,2),());", "refused 51 Bounds in #1"),
];

#[test]
fn takes_aggregates(rt: HostRuntime) {
    check(&rt, rt.alloc(), KINDS_SCHEMA, Rows::Answers(KINDS, LISTS));
}

const SELECTS: Answers = &[
    (
        "#1=OF_ITEM(LEN(1.0));#2=OF_ITEM(ROW((1.,2.5)));#3=OF_ITEM(NEST(()));#4=OF_ITEM(NEST((LEN(1.),ROW((1.)),NEST((COLOUR(.RED.),#7)),#7)));#5=OF_ITEM(COLOUR(.GREEN.));#6=OF_ITEM(#7);#7=NODE($,$);",
        "#1=OF_ITEM(LEN(1.));\n#2=OF_ITEM(ROW((1.,2.5)));\n#3=OF_ITEM(NEST(()));\n#4=OF_ITEM(NEST((LEN(1.),ROW((1.)),NEST((COLOUR(.RED.),#7)),#7)));\n#5=OF_ITEM(COLOUR(.GREEN.));\n#6=OF_ITEM(#7);\n#7=NODE($,$);\n",
    ),
    (
        "#1=OF_ITEM(LEN ( 1. ));#2=OF_ITEM(ROW/* a */((1.\n,2.)));#3=OF_ITEM(NEST( ( ) ));#4=OF_ITEM(NEST(( LEN(01.) , COLOUR( .RED. ) )));",
        "#1=OF_ITEM(LEN(1.));\n#2=OF_ITEM(ROW((1.,2.)));\n#3=OF_ITEM(NEST(()));\n#4=OF_ITEM(NEST((LEN(1.),COLOUR(.RED.))));\n",
    ),
    ("#1=OF_ITEM(1.);", "refused 54 SelectType in #1"),
    ("#1=OF_ITEM((1.));", "refused 54 SelectType in #1"),
    ("#1=OF_ITEM(LEN(1));", "refused 49 WrongKind in #1"),
    ("#1=OF_ITEM(LEN($));", "refused 46 Missing in #1"),
    ("#1=OF_ITEM(LEN(LEN(1.)));", "refused 49 WrongKind in #1"),
    ("#1=OF_ITEM(ROW(()));", "refused 51 Bounds in #1"),
    ("#1=OF_ITEM(ROW((1.,2.,3.)));", "refused 51 Bounds in #1"),
    (
        "#1=OF_ITEM(COLOUR(.PINK.));",
        "refused 53 UnknownItem in #1",
    ),
    ("#1=OF_ITEM(ITEM(LEN(1.)));", "refused 54 SelectType in #1"),
    ("#1=OF_ITEM(NODE(1.));", "refused 54 SelectType in #1"),
    ("#1=OF_ITEM(FOO(1.));", "refused 54 SelectType in #1"),
    ("#1=OF_ITEM($);", "refused 46 Missing in #1"),
    ("#1=OF_ITEM(.RED.);", "refused 54 SelectType in #1"),
    ("#1=OF_ITEM(LEN);", "refused 20 Unexpected at statement 8"),
    ("#1=OF_ITEM(LEN());", "refused 20 Unexpected at statement 8"),
    (
        "#1=OF_ITEM(LEN(1.,2.));",
        "refused 20 Unexpected at statement 8",
    ),
    ("#1=OF_ITEM(len(1.));", "refused 1 BadByte at statement 8"),
    ("#1=OF_ITEM(NEST((1.)));", "refused 54 SelectType in #1"),
    ("#1=OF_ITEM(NEST((LEN(1.),$)));", "refused 46 Missing in #1"),
    (
        "#1=OF_ITEM(NEST((NEST((NEST((NEST((NEST((NEST((NEST((NEST((NEST((NEST((NEST((NEST((NEST((NEST((NEST((NEST((NEST((NEST((NEST((NEST((NEST((NEST((NEST((NEST((NEST((NEST((NEST((NEST((NEST((NEST((NEST((NEST(()))))))))))))))))))))))))))))))))))))))))))))))))))))))))))))))));",
        "#1=OF_ITEM(NEST((NEST((NEST((NEST((NEST((NEST((NEST((NEST((NEST((NEST((NEST((NEST((NEST((NEST((NEST((NEST((NEST((NEST((NEST((NEST((NEST((NEST((NEST((NEST((NEST((NEST((NEST((NEST((NEST((NEST((NEST((NEST(()))))))))))))))))))))))))))))))))))))))))))))))))))))))))))))))));\n",
    ),
    (
        "#1=OF_ITEM(NEST((NEST((NEST((NEST((NEST((NEST((NEST((NEST((NEST((NEST((NEST((NEST((NEST((NEST((NEST((NEST((NEST((NEST((NEST((NEST((NEST((NEST((NEST((NEST((NEST((NEST((NEST((NEST((NEST((NEST((NEST((NEST((NEST(()))))))))))))))))))))))))))))))))))))))))))))))))))))))))))))))))));",
        "refused 21 TooDeep at statement 8",
    ),
];

#[test]
fn takes_what_selects_offer(rt: HostRuntime) {
    check(&rt, rt.alloc(), KINDS_SCHEMA, Rows::Answers(KINDS, SELECTS));
}
