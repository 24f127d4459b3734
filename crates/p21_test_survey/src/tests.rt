//! Files with broken statements, what is listed of each, and where: by a schema, and by itself.
ghost use Rattle.std.specs.Prelude.{◌<◌, ◌^◌, length};
ghost use Rattle.p21_stream_log.specs.Log.{Known};
ghost use Rattle.p21_stream_survey.specs.Course.{Course};

use p21_express::{Schema, read_schema};
use p21_stream_statements::At;
use p21_stream_survey::{Extent, Found, Survey};
use p21_values::{Limits, NoMemory};
use std::alloc::Global;
use std::process::Abort;

const SCHEMA: &str = "SCHEMA demo;
ENTITY point; label : STRING; x : REAL; END_ENTITY;
ENTITY link; to : point; END_ENTITY;
ENTITY grid; rows : LIST OF LIST OF REAL; END_ENTITY;
END_SCHEMA;
";

/// What stands in front of the instances of each file here: seven statements.
const FRONT: &str =
    "ISO-10303-21;HEADER;FILE_DESCRIPTION((''),'2;1');FILE_NAME('','',(''),(''),'','','');FILE_SCHEMA(('DEMO'));ENDSEC;DATA;\n";

/// What stands behind them.
const BACK: &str = "ENDSEC;\nEND-ISO-10303-21;\n";

/// Instances, and the refusals that are listed of their file: the number of each, and the statement or the instance that it names.
type Rows = &'static [(&'static str, &'static [(u8, u64)])];

const ROWS: Rows = &[
    ("#1=POINT('a',1.);\n#2=LINK(#1);\n", &[]),
    // A semicolon is missing, a parenthesis, or both; or one stands there too many.
    (
        "#1=POINT('a',1.)\n#2=POINT('b',2.);\n#3=LINK(#1);\n#4=LINK(#2);\n",
        &[(20, 8)],
    ),
    (
        "#1=POINT('a',1.)#2=POINT('b',2.)#3=POINT('c',3.);#4=LINK(#3);",
        &[(20, 8), (20, 9)],
    ),
    (
        "#1=POINT('a',1.;\n#2=POINT('b',2.);\n#3=POINT('c',(3.);\n#4=LINK(#2);\n",
        &[(20, 8), (20, 10)],
    ),
    (
        "#1=POINT('a',1.#2=POINT('b',2.);#3=LINK(#2);#4=LINK(#9);#5=LINK(#3);",
        &[(20, 8), (57, 5)],
    ),
    ("#1=POINT('a',1.);;\n#2=LINK(#1);;\n", &[(20, 9), (20, 11)]),
    // Bytes and tokens.
    (
        "#1=point('a',1.);\n#2=POINT('b',2.);\n#3=link(#2);\n",
        &[(1, 8), (1, 10)],
    ),
    (
        "#1=POINT('a',nan);\n#2=POINT('b',inf);\n#3=POINT('c',-inf);\n#4=POINT('d',NAN);\n",
        &[(1, 8), (1, 9), (7, 10), (20, 11)],
    ),
    ("#1=POINT('a',1.E10000);\n#2=POINT('b',2.);\n", &[(8, 8)]),
    ("#1=!POINT('a',1.);\n#2=POINT('b',2.);\n", &[(26, 8)]),
    // Records, names and references are judged beside them.
    (
        "#1=POINT(1.);\n#2=nan;\n#3=LINK(#1);\n#3=LINK(#4);\n#4=POINT('d',4.);\n#5=LINK(#3);\n",
        &[(45, 1), (1, 9), (40, 3)],
    ),
    // A file that ends in a string or in a remark.
    ("#3=POINT('c,3.);\n#4=POINT(,4.);\n", &[(2, 8), (20, 9)]),
    (
        "#1=POINT('a',1.);\n/* #2=POINT('b',2.);\n#3=LINK(#1);\n",
        &[(3, 9)],
    ), // Several remarks that nothing ends.
    (
        "#1=POINT('a' /* b\n#2=POINT('b',2.); /* c\n /* #3=POINT('c',3.);\n#4=POINT('/*',4.);\n#5=LINK(#4); /* d\n#6=LINK(#2);\n",
        &[(3, 8), (3, 10), (3, 13)],
    ),
];

/// What is listed by itself of a file of such instances: of records and of what serves a reference nothing is said.
const ROWS_ALONE: Rows = &[
    (
        "#1=POINT(1.);\n#2=ANYTHING('b',(#1),LINK(#3));\n#3=(B(1)A());\n#4=LINK(#2);\n",
        &[],
    ),
    // Names that are given twice, and references without a target.
    (
        "#1=A();\n#1=B(#9);\n#2=C(#1,#5,(#7));\n#3=D('#8');\n",
        &[(40, 1), (56, 2), (56, 2)],
    ),
    ("#1=A(#2);\n#3=B(#01,#003);\n#02=C();\n", &[]),
    // Statements that are broken, behind which no reference is said to have no target.
    (
        "#1=A(1.;\n#2=B(#9);\n#3=c();\n#4=D(#2);\n",
        &[(20, 8), (1, 10)],
    ),
    (
        "#1=A(1.E10000);\n#2=B(\"4\");\n#3=C();\n#3=D(#1);\n",
        &[(8, 8), (9, 9), (40, 3)],
    ),
    ("#3=A('c,3.);\n#4=B(,4.);\n", &[(2, 8), (20, 9)]),
    ("#1=A();\n/* #2=B();\n#3=C(#1);\n", &[(3, 9)]),
];

/// A survey of which nothing is read, by a schema or of a file by itself.
fn begun(alloc: Global, schema: Option<&Schema>, limits: Limits) -> Survey<'_>
    ensures { (known : Known) → length known.bytes < 2 ^ 64 → Course known result known.bytes }
{
    match schema {
        Some(schema) => Survey::new(alloc, schema, limits, 1_000, true),
        None => Survey::by_itself(alloc, limits, 1_000, true),
    }
}

/// What is found of a file that is read in two pieces, the first of so many bytes; or of these bytes, where a read failed behind them. Without
/// a schema it is what is found of the file by itself.
fn survey_of(
    alloc: Global,
    schema: Option<&Schema>,
    limits: Limits,
    file: &[u8],
    cut: usize,
    has_failed: bool,
) -> Result<Found, NoMemory> {
    let mut survey = begun(alloc, schema, limits);
    let cut = cut.min(file.len());
    match survey.feed(&file[..cut]) {
        Ok(()) => {}
        Err(NoMemory) => return Err(NoMemory),
    }
    match survey.feed(&file[cut..]) {
        Ok(()) => survey.finish(has_failed),
        Err(NoMemory) => Err(NoMemory),
    }
}

/// The number of each refusal that is listed, and what it names.
fn told(alloc: Global, found: &Found) -> Result<Vec<(u8, u64)>, NoMemory> {
    let mut all = Vec::new(alloc);
    for listed in &found.list {
        all.push((listed.fault.number(), number_of(listed.at)))?;
    }
    for refusal in &found.references {
        all.push((refusal.fault.number(), number_of(refusal.at)))?;
    }
    Ok(all)
}

/// The number of a statement, or of an instance.
fn number_of(at: At) -> u64 {
    match at {
        At::Statement(number) => number,
        At::Instance(name) => name.0,
    }
}

/// Whether this is listed of a file of these instances, and the file is right exactly where nothing is.
fn is_listed(
    alloc: Global,
    schema: Option<&Schema>,
    instances: &str,
    wanted: &[(u8, u64)],
) -> Result<bool, NoMemory> {
    let mut file = String::new(alloc);
    file.push_str(FRONT)?;
    file.push_str(instances)?;
    file.push_str(BACK)?;
    let limits = Limits::usual();
    let found = survey_of(alloc, schema, limits, file.as_bytes(), file.len(), false)?;
    let all = told(alloc, &found)?;
    let is_right = match schema {
        Some(_) => found.accepted.is_some(),
        None => found.well_formed.is_some(),
    };
    Ok(all.as_slice() == wanted && is_right == wanted.is_empty())
}

/// The first instances of whose file something else is listed.
fn first_wrong(alloc: Global, schema: Option<&Schema>, rows: Rows) -> &'static str {
    for (instances, wanted) in rows {
        if is_listed(alloc, schema, instances, wanted) != Ok(true) {
            return instances;
        }
    }
    "none"
}

/// The first instances of whose file something else is listed by the schema.
fn first_wrong_by_schema(alloc: Global, rows: Rows) -> &'static str {
    let Ok(schema) = read_schema(alloc, SCHEMA.as_bytes()) else {
        return "the schema";
    };
    first_wrong(alloc, Some(&schema), rows)
}

#[test]
fn lists_what_is_refused(rt: HostRuntime) {
    assert_eq!(rt; first_wrong_by_schema(rt.alloc(), ROWS), "none");
}

#[test]
fn lists_what_is_refused_of_a_file_by_itself(rt: HostRuntime) {
    assert_eq!(rt; first_wrong(rt.alloc(), None, ROWS_ALONE), "none");
}

/// How a file ends behind its instances.
#[derive(Clone, Copy, PartialEq, Eq)]
enum End {
    /// As it should.
    Whole,
    /// There.
    Early,
    /// A read fails there.
    Failed,
}

/// Instances; the byte of them at which each refusal of a statement stands, in the order of the list; and from which to which one a statement is
/// passed over.
type Places = &'static [(&'static str, &'static [u64], &'static [(u64, u64)])];

/// Of a refusal that has no place.
const NOWHERE: u64 = u64::MAX;

const WHOLE: Places = &[
    // Bytes and tokens.
    ("#1=point('a',1.);\n#2=POINT('b',2.);\n", &[3], &[(0, 18)]),
    ("#1=POINT('a',1.;\n#2=POINT('b',2.);\n", &[15], &[(0, 17)]),
    (
        "#1=POINT('a',1.)\n/* b */ #2=POINT('b',2.);\n#3=LINK(#1);\n",
        &[25],
        &[(0, 43)],
    ),
    (
        "#1=POINT('a',1.);;\n#2=LINK(#1);;\n",
        &[17, 31],
        &[(17, 19), (31, 33)],
    ),
    // Strings and remarks that nothing ends.
    (
        "#3=POINT('c,3.);\n#4=POINT(,4.);\n",
        &[9, 26],
        &[(0, 17), (17, 32)],
    ),
    (
        "#1=POINT('a',1.);\n/* #2=POINT('b',2.);\n#3=LINK(#1);\n",
        &[18],
        &[(18, 39)],
    ),
    (
        "#1=POINT('a',1.); /* a\n#2=POINT(1.); /* b\n#3=POINT('c',3.);\n#4=LINK(#3, /* 'd'\n#5=LINK(#2);\n#6=LINK(#3);\n",
        &[18, 34, 37, 72],
        &[(18, 23), (37, 42), (60, 79)],
    ),
    // Records and names, one record with a statement in a string.
    ("#1=POINT('a',2);\n #2=POINT(1.);\n", &[13, 29], &[]),
    (
        "#1=GRID(((1.),(2.,3)));\n/* a */ #1=GRID(());\n",
        &[18, 32],
        &[],
    ),
    (
        "#1=POINT('a;\n#9=',2.,3.);\n#1=POINT('b',2.);\n",
        &[21, 16],
        &[(0, 13), (13, 26)],
    ),
];

const WHOLE_ALONE: Places = &[
    ("#1=point('a',1.);\n#2=POINT(2.);\n", &[3], &[(0, 18)]),
    ("#1=A();\n/* a */ #1=B(1);\n", &[16], &[]),
    (
        "#1=A(1.;\n#2=B();\n#2=C(\"4\");\n#3=D();\n",
        &[7, 23],
        &[(0, 9), (17, 28)],
    ),
    ("#3=A('c,3.);\n#4=B(,4.);\n", &[5, 18], &[(0, 13), (13, 24)]),
];

const EARLY: Places = &[
    ("#1=POINT('a',1.);\n#2=POINT('b',2.", &[33], &[]),
    (
        "#1=POINT('a'1.);\n#2=POINT('b',2.);\n",
        &[12, 35],
        &[(0, 17)],
    ),
];

const FAILED: Places = &[
    ("#1=POINT('a',2);\n#2=POINT('b',2.", &[13, NOWHERE], &[]),
    ("#1=POINT('a'1.);\n", &[12, NOWHERE], &[]),
];

/// The file of these instances that ends so.
fn file_of(alloc: Global, instances: &str, end: End) -> Result<String, NoMemory> {
    let mut file = String::new(alloc);
    file.push_str(FRONT)?;
    file.push_str(instances)?;
    if end == End::Whole {
        file.push_str(BACK)?;
    }
    Ok(file)
}

/// How many bytes stand behind `DATA;` in front of the refusal of this number.
fn place_of(found: &Found, number: usize) -> u64 {
    match found.spots.place(number) {
        Some(place) => place.byte.saturating_sub(FRONT.len() as u64),
        None => NOWHERE,
    }
}

/// Whether the refusals of statements stand at these bytes.
fn stand_at(found: &Found, places: &[u64]) -> bool {
    for number in 0..places.len() {
        if place_of(found, number) != places[number] {
            return false;
        }
    }
    found.list.len() == places.len() && found.references.is_empty()
}

/// Whether statements are passed over from the one of these bytes to the other.
fn are_passed_over(found: &Found, stretches: &[(u64, u64)]) -> bool {
    let front = FRONT.len() as u64;
    for number in 0..stretches.len() {
        let Some(statement) = found.spots.passed_over(number) else {
            return false;
        };
        let (begins, ends) = stretches[number];
        if statement.begins != front.saturating_add(begins)
            || statement.ends != front.saturating_add(ends)
        {
            return false;
        }
    }
    found.spots.passed_over(stretches.len()).is_none()
}

/// The first instances of whose file the refusals stand elsewhere, wherever it is cut in two.
fn first_elsewhere(alloc: Global, schema: Option<&Schema>, rows: Places, end: End) -> &'static str {
    for (instances, places, stretches) in rows {
        let Ok(file) = file_of(alloc, instances, end) else {
            return "no memory";
        };
        for cut in 0..file.len() {
            let has_failed = end == End::Failed;
            let bytes = file.as_bytes();
            let found = match survey_of(alloc, schema, Limits::usual(), bytes, cut, has_failed) {
                Ok(found) => found,
                Err(NoMemory) => return "no memory",
            };
            if !stand_at(&found, places) || !are_passed_over(&found, stretches) {
                return instances;
            }
        }
    }
    "none"
}

/// The same by the schema.
fn first_elsewhere_by_schema(alloc: Global, rows: Places, end: End) -> &'static str {
    let Ok(schema) = read_schema(alloc, SCHEMA.as_bytes()) else {
        return "the schema";
    };
    first_elsewhere(alloc, Some(&schema), rows, end)
}

#[test]
fn tells_where_statements_are_refused(rt: HostRuntime) {
    assert_eq!(rt;
        first_elsewhere_by_schema(rt.alloc(), WHOLE, End::Whole),
        "none"
    );
    assert_eq!(rt;
        first_elsewhere_by_schema(rt.alloc(), EARLY, End::Early),
        "none"
    );
    assert_eq!(rt;
        first_elsewhere_by_schema(rt.alloc(), FAILED, End::Failed),
        "none"
    );
}

#[test]
fn tells_where_statements_of_a_file_by_itself_are_refused(rt: HostRuntime) {
    assert_eq!(rt;
        first_elsewhere(rt.alloc(), None, WHOLE_ALONE, End::Whole),
        "none"
    );
}

/// Whether this alone is listed of a file with more bytes than it may have, in which a remark is open; and where that stands.
fn is_listed_of_remark(
    alloc: Global,
    schema: &Schema,
    has_failed: bool,
    wanted: (u8, u64),
    place: u64,
) -> Result<bool, NoMemory> {
    let file = file_of(alloc, "/* more bytes than there may be", End::Early)?;
    let most = FRONT.len() as u64;
    let Some(limits) = Limits::new(most + 20, most + 20, most + 20, most + 20) else {
        return Ok(false);
    };
    let found = survey_of(
        alloc,
        Some(schema),
        limits,
        file.as_bytes(),
        file.len(),
        has_failed,
    )?;
    let all = told(alloc, &found)?;
    Ok(
        all.as_slice() == [wanted].as_slice()
            && place_of(&found, 0) == place
            && found.extent == Extent::ReadTo(most),
    )
}

/// What is wrong with the list of a file in which a remark is open where it is refused, before the statement begins.
fn wrong_of_remark(alloc: Global) -> &'static str {
    let Ok(schema) = read_schema(alloc, SCHEMA.as_bytes()) else {
        return "the schema";
    };
    if is_listed_of_remark(alloc, &schema, false, (23, 8), 0) != Ok(true) {
        return "it is too long";
    }
    if is_listed_of_remark(alloc, &schema, true, (91, 8), NOWHERE) != Ok(true) {
        return "a read failed";
    }
    "none"
}

#[test]
fn lists_a_failed_read_in_place_of_a_refusal_that_waits(rt: HostRuntime) {
    assert_eq!(rt; wrong_of_remark(rt.alloc()), "none");
}
