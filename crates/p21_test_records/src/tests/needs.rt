use super::schemas::{DEMO, LINKS};
use super::*;
use p21_express_graph::Member;
use p21_grammar::Canonical;
use p21_mapping::{Need, Trail, check_owned_record, serves};

/// What may be wanted in the tables here.
const WANTED: [&str; 5] = ["POINT", "ITEM", "NODE", "TARGET", "OTHER"];

fn is_named(schema: &Schema, name: &str, member: Member) -> bool {
    match member {
        Member::Entity(entity) => schema.entity(name.as_bytes()) == Some(entity),
        Member::Defined(of) => schema.type_named(name.as_bytes()) == Some(of),
    }
}

fn name_of(schema: &Schema, member: Member) -> &'static str {
    for name in WANTED {
        if is_named(schema, name, member) {
            return name;
        }
    }
    "another"
}

/// Appends each need with what is wanted there.
fn append_needs(schema: &Schema, needs: &[Need], out: &mut Vec<u8>) -> Result<(), CheckFault> {
    for need in needs {
        need.target.write_canonical(out)?;
        out.push(b' ')?;
        out.extend_from_slice(name_of(schema, need.wanted).as_bytes())?;
        out.push(b';')?;
    }
    Ok(())
}

fn are_needs(alloc: Global, schema: &Schema, needs: &[Need], wanted: &str) -> bool {
    let mut out = Vec::new(alloc);
    append_needs(schema, needs, &mut out).is_ok() && out.as_slice() == wanted.as_bytes()
}

/// Whether this is what a record needs.
fn needs(alloc: Global, schema: &Schema, record: &Record, wanted: &str) -> bool {
    match check_record(alloc, schema, record) {
        Ok((_typed, needs)) => are_needs(alloc, schema, &needs, wanted),
        Err(_) => false,
    }
}

/// The same by the check that takes the record.
fn needs_moved(alloc: Global, schema: &Schema, record: Record, wanted: &str) -> bool {
    match check_owned_record(alloc, schema, record, &mut Trail::new()) {
        Ok((_typed, needs)) => are_needs(alloc, schema, &needs, wanted),
        Err(_) => false,
    }
}

/// Whether this is what the instance that a text is needs, by both checks.
fn has_needs(alloc: Global, schema: &Schema, text: &str, wanted: &str) -> bool {
    match read_instance(alloc, text.as_bytes()) {
        Some(instance) => {
            needs(alloc, schema, &instance.record, wanted)
                && needs_moved(alloc, schema, instance.record, wanted)
        }
        None => false,
    }
}

/// The first instance that needs something else.
pub(super) fn first_otherwise(alloc: Global, schema: &Schema, rows: Rows) -> &'static str {
    for (text, wanted) in rows {
        if !has_needs(alloc, schema, text, wanted) {
            return text;
        }
    }
    "none"
}

const IN_ORDER: Rows = &[
    ("#1=CLOUD((#2),(),(TALLY(1)));", "#2 POINT;"),
    (
        "#1=CLOUD((#10,#2,#3),(),(#3,TALLY(1),#2));",
        "#10 POINT;#2 POINT;#3 POINT;#3 ITEM;#2 ITEM;",
    ),
    (
        "#1=(SHAPE($)POINT(1.,2.)CLOUD((#9,#008),(),(#7)));",
        "#9 POINT;#8 POINT;#7 ITEM;",
    ),
    ("#1=POINT($,1.,2.);", ""),
];

#[test]
fn needs_stand_in_the_order_of_the_parameters(rt: HostRuntime) {
    check(&rt, rt.alloc(), DEMO, Table::Needs(IN_ORDER));
}

const AT_EACH_KIND: Rows = &[
    ("#1=NODE();", ""),
    ("#1=EDGE(#2,$);", "#2 NODE;"),
    ("#1=EDGE(#1,#3);", "#1 NODE;#3 TARGET;"),
    ("#1=EDGE(#2,ENDS((#4,#4)));", "#2 NODE;#4 NODE;#4 NODE;"),
    (
        "#1=WEB(#2,#2,($,#9),((#5,#4,#5),(ENDS((#1)))));",
        "#2 NODE;#2 TARGET;#9 NODE;#5 OTHER;#4 OTHER;#5 OTHER;#1 NODE;",
    ),
    ("#1=(WEB((#9,$),())EDGE(#2,$));", "#9 NODE;#2 NODE;"),
];

#[test]
fn each_kind_of_place_needs(rt: HostRuntime) {
    check(&rt, rt.alloc(), LINKS, Table::Needs(AT_EACH_KIND));
}

/// The last that the instance needs that a text is.
fn last_need(alloc: Global, schema: &Schema, text: &str) -> Option<Need> {
    match read_instance(alloc, text.as_bytes()) {
        Some(instance) => last_need_of(alloc, schema, &instance.record),
        None => None,
    }
}

fn last_need_of(alloc: Global, schema: &Schema, record: &Record) -> Option<Need> {
    match check_record(alloc, schema, record) {
        Ok((_typed, needs)) => needs.last().copied(),
        Err(_) => None,
    }
}

/// Whether the instance that a text is serves a need: none where there is no such instance.
fn is_served(alloc: Global, schema: &Schema, need: &Need, text: &str) -> Option<bool> {
    match read_instance(alloc, text.as_bytes()) {
        Some(instance) => is_served_by(alloc, schema, need, &instance.record),
        None => None,
    }
}

fn is_served_by(alloc: Global, schema: &Schema, need: &Need, record: &Record) -> Option<bool> {
    match check_record(alloc, schema, record) {
        Ok((typed, _needs)) => Some(serves(schema, need, typed.parts.items())),
        Err(_) => None,
    }
}

/// Instances, and whether each serves.
pub(super) type Servants = &'static [(&'static str, bool)];

fn first_serving_otherwise(
    alloc: Global,
    schema: &Schema,
    need: &Need,
    rows: Servants,
) -> &'static str {
    for (text, serving) in rows {
        if is_served(alloc, schema, need, text) != Some(*serving) {
            return text;
        }
    }
    "none"
}

/// The first instance that serves the last need of another one, or not, otherwise than its row says.
pub(super) fn first_wrong_servant(
    alloc: Global,
    schema: &Schema,
    holder: &'static str,
    rows: Servants,
) -> &'static str {
    match last_need(alloc, schema, holder) {
        Some(need) => first_serving_otherwise(alloc, schema, &need, rows),
        None => holder,
    }
}

const POINTS: Servants = &[
    ("#2=POINT($,1.,1.);", true),
    ("#2=ORIGIN($,*,2.);", true),
    ("#2=(MARKED(.RED.)POINT(1.,2.)SHAPE($));", true),
    ("#2=MARKED($,.RED.);", false),
    ("#2=CLOUD((),(),(TALLY(1)));", false),
];

#[test]
fn entities_serve(rt: HostRuntime) {
    for holder in ["#1=CLOUD((#2),(),(TALLY(1)));", "#1=CLOUD((),(),(#2));"] {
        check(&rt, rt.alloc(), DEMO, Table::Servants(holder, POINTS));
    }
}

const TARGETS: Servants = &[
    ("#2=NODE();", true),
    ("#2=EDGE(#2,$);", true),
    ("#2=WEB(#2,$,($,$),());", true),
    ("#2=(LOOSE()NODE());", true),
    ("#2=LOOSE();", false),
];

#[test]
fn members_of_a_select_serve(rt: HostRuntime) {
    for holder in ["#1=EDGE(#2,#2);", "#1=WEB(#2,$,($,$),((#2)));"] {
        check(&rt, rt.alloc(), LINKS, Table::Servants(holder, TARGETS));
    }
}
