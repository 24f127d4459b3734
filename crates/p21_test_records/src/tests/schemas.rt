pub(super) const DEMO: &str = "SCHEMA demo;
TYPE distance = REAL; END_TYPE;
TYPE tally = INTEGER; END_TYPE;
TYPE colour = ENUMERATION OF (red, green); END_TYPE;
TYPE measure = SELECT (distance, tally); END_TYPE;
TYPE item = SELECT (measure, point); END_TYPE;
ENTITY shape ABSTRACT SUPERTYPE; label : OPTIONAL STRING; END_ENTITY;
ENTITY point SUBTYPE OF (shape); x, y : distance; END_ENTITY;
ENTITY marked SUBTYPE OF (shape); mark : colour; END_ENTITY;
ENTITY origin SUBTYPE OF (point);
DERIVE SELF\\point.x : distance := 0.0; END_ENTITY;
ENTITY cloud; members : SET OF point; sizes : BAG OF BAG OF REAL;
values : LIST [1:3] OF UNIQUE item; END_ENTITY;
END_SCHEMA;
";

/// An entity with two ways to its supertype.
pub(super) const DIAMOND: &str = "SCHEMA diamond;
ENTITY r; k : INTEGER; END_ENTITY;
ENTITY a SUBTYPE OF (r); p : INTEGER; END_ENTITY;
ENTITY b SUBTYPE OF (r); q : INTEGER; END_ENTITY;
ENTITY c SUBTYPE OF (a, b); z : INTEGER; END_ENTITY;
END_SCHEMA;
";

/// A place that two subtypes redeclare.
pub(super) const REDECL: &str = "SCHEMA redecl;
ENTITY r; k : NUMBER; END_ENTITY;
ENTITY a SUBTYPE OF (r); SELF\\r.k : INTEGER; END_ENTITY;
ENTITY b SUBTYPE OF (r); SELF\\r.k : REAL; END_ENTITY;
END_SCHEMA;
";

/// Widths.
pub(super) const WIDE: &str = "SCHEMA wide;
ENTITY e; s : STRING(3); f : STRING(2) FIXED; b : BINARY(4);
o : ARRAY [1:2] OF OPTIONAL INTEGER; n : BOOLEAN; END_ENTITY;
END_SCHEMA;
";

/// Subtypes of which an instance has one at most.
pub(super) const SOLE: &str = "SCHEMA sole;
ENTITY s SUPERTYPE OF (ONEOF (a, b)); k : INTEGER; END_ENTITY;
ENTITY a SUBTYPE OF (s); END_ENTITY;
ENTITY b SUBTYPE OF (s); END_ENTITY;
ENTITY c SUBTYPE OF (s); END_ENTITY;
END_SCHEMA;
";

/// So many subtypes that the places of their parts are looked up.
pub(super) const CROWD: &str = "SCHEMA crowd;
ENTITY a; x : INTEGER; END_ENTITY;
ENTITY b SUBTYPE OF (a); END_ENTITY;
ENTITY c SUBTYPE OF (a); END_ENTITY;
ENTITY d SUBTYPE OF (a); END_ENTITY;
ENTITY e SUBTYPE OF (a); END_ENTITY;
ENTITY f SUBTYPE OF (a); END_ENTITY;
ENTITY g SUBTYPE OF (a); END_ENTITY;
ENTITY h SUBTYPE OF (a); END_ENTITY;
ENTITY i SUBTYPE OF (a); END_ENTITY;
ENTITY j SUBTYPE OF (a); END_ENTITY;
ENTITY k SUBTYPE OF (a); END_ENTITY;
ENTITY l SUBTYPE OF (a); END_ENTITY;
ENTITY m SUBTYPE OF (a); END_ENTITY;
ENTITY n SUBTYPE OF (a); END_ENTITY;
ENTITY o SUBTYPE OF (a); END_ENTITY;
ENTITY p SUBTYPE OF (a); END_ENTITY;
ENTITY q SUBTYPE OF (a); END_ENTITY;
ENTITY r SUBTYPE OF (a); END_ENTITY;
END_SCHEMA;
";

/// A redeclared place in a diamond, and OPTIONAL turned off and on.
pub(super) const CORNERS: &str = "SCHEMA corners;
ENTITY r; k : OPTIONAL NUMBER; END_ENTITY;
ENTITY a SUBTYPE OF (r); SELF\\r.k : NUMBER; END_ENTITY;
ENTITY b SUBTYPE OF (r); SELF\\r.k : OPTIONAL INTEGER; END_ENTITY;
ENTITY c SUBTYPE OF (a, b); SELF\\r.k : INTEGER; END_ENTITY;
ENTITY d SUBTYPE OF (a, b); DERIVE SELF\\r.k : INTEGER := 1; END_ENTITY;
ENTITY e SUBTYPE OF (a); SELF\\a.k : OPTIONAL INTEGER; END_ENTITY;
END_SCHEMA;
";

/// What can be wrong with a set of entities, several at once.
pub(super) const RANK: &str = "SCHEMA rank;
ENTITY base; END_ENTITY;
ENTITY mid ABSTRACT SUPERTYPE OF (ONEOF (left, right)) SUBTYPE OF (base);
k : NUMBER; END_ENTITY;
ENTITY left SUBTYPE OF (mid); SELF\\mid.k : INTEGER; END_ENTITY;
ENTITY low SUBTYPE OF (left); END_ENTITY;
ENTITY right SUBTYPE OF (mid); SELF\\mid.k : REAL; END_ENTITY;
ENTITY third SUBTYPE OF (mid); SELF\\mid.k : INTEGER; END_ENTITY;
ENTITY both ABSTRACT SUPERTYPE SUBTYPE OF (left, right); END_ENTITY;
ENTITY pair SUBTYPE OF (low, right); END_ENTITY;
END_SCHEMA;
";

/// Aggregates in aggregates.
pub(super) const NESTED: &str = "SCHEMA nested;
TYPE words = SET OF STRING; END_TYPE;
ENTITY w; v : SET OF words; END_ENTITY;
ENTITY i; v : SET OF INTEGER; END_ENTITY;
ENTITY b; v : BAG OF BAG OF INTEGER; END_ENTITY;
ENTITY n; v : SET OF BAG OF INTEGER; END_ENTITY;
ENTITY m; v : BAG OF SET OF INTEGER; END_ENTITY;
ENTITY u; v : ARRAY [1:3] OF OPTIONAL UNIQUE INTEGER; END_ENTITY;
ENTITY a; v : ARRAY [0:1] OF LIST OF INTEGER; END_ENTITY;
ENTITY l; v : LIST OF UNIQUE SET OF NUMBER; END_ENTITY;
ENTITY r; v : BAG OF BAG OF REAL; END_ENTITY;
END_SCHEMA;
";

/// A type of each kind.
pub(super) const KINDS: &str = "SCHEMA kinds;
TYPE length = REAL; END_TYPE;
TYPE breadth = REAL; END_TYPE;
TYPE depth = length; END_TYPE;
TYPE colour = ENUMERATION OF (red, green); END_TYPE;
TYPE paint = colour; END_TYPE;
TYPE row = LIST [1:2] OF INTEGER; END_TYPE;
TYPE line = row; END_TYPE;
TYPE size = SELECT (length, breadth); END_TYPE;
TYPE plain = SELECT (length, colour); END_TYPE;
TYPE choice = SELECT (plain, row, node); END_TYPE;
ENTITY node; END_ENTITY;
ENTITY of_integer; v : INTEGER; END_ENTITY;
ENTITY of_real; v : REAL; END_ENTITY;
ENTITY of_number; v : NUMBER; END_ENTITY;
ENTITY of_string; v : STRING; END_ENTITY;
ENTITY of_binary; v : BINARY; END_ENTITY;
ENTITY of_boolean; v : BOOLEAN; END_ENTITY;
ENTITY of_logical; v : LOGICAL; END_ENTITY;
ENTITY of_colour; v : colour; END_ENTITY;
ENTITY of_paint; v : paint; END_ENTITY;
ENTITY of_depth; v : depth; END_ENTITY;
ENTITY of_node; v : node; END_ENTITY;
ENTITY of_row; v : row; END_ENTITY;
ENTITY of_line; v : line; END_ENTITY;
ENTITY of_set; v : SET OF REAL; END_ENTITY;
ENTITY of_array; v : ARRAY [1:1] OF OPTIONAL INTEGER; END_ENTITY;
ENTITY of_size; v : size; END_ENTITY;
ENTITY of_plain; v : plain; END_ENTITY;
ENTITY of_choice; v : choice; END_ENTITY;
ENTITY derived SUBTYPE OF (of_integer);
DERIVE SELF\\of_integer.v : INTEGER := 1; END_ENTITY;
ENTITY optional_integer; v : OPTIONAL INTEGER; END_ENTITY;
ENTITY optional_choice; v : OPTIONAL choice; END_ENTITY;
END_SCHEMA;
";

/// A place of each kind that can hold a reference.
pub(super) const LINKS: &str = "SCHEMA links;
TYPE ends = LIST [1:2] OF node; END_TYPE;
TYPE target = SELECT (node, ends, edge); END_TYPE;
TYPE other = SELECT (target); END_TYPE;
ENTITY node; END_ENTITY;
ENTITY edge; start : node; stop : OPTIONAL target; END_ENTITY;
ENTITY web SUBTYPE OF (edge); all : ARRAY [1:2] OF OPTIONAL node;
some : SET OF BAG OF other; END_ENTITY;
ENTITY loose; END_ENTITY;
END_SCHEMA;
";
