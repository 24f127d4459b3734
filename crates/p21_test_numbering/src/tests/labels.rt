use p21_express::read_schema;
use p21_mapping_values::{Ids, Rows, Typed};
use p21_numbering::node;
use p21_schema::Schema;
use std::alloc::Global;
use std::rt::HostRuntime;

/// The texts of a heading, and the label of a record without entities in its section.
const HEADING: &[&[char]] = &[&['A', '\u{141}'], &[]];

const LABEL: &[u64] = &[66, 322, 0, 0, 0];

fn has_label(alloc: Global, schema: &Schema) -> bool {
    let typed = Typed {
        parts: Ids::from_vec(Vec::new(alloc)),
        values: Rows::from_vec(Vec::new(alloc)),
    };
    match node(alloc, schema, 5, HEADING, &typed) {
        Ok(node) => node.name == 5 && node.label.as_slice() == LABEL && node.uses.is_empty(),
        Err(_) => false,
    }
}

fn has_label_under_schema(alloc: Global) -> bool {
    match read_schema(alloc, b"SCHEMA s; END_SCHEMA;") {
        Ok(schema) => has_label(alloc, &schema),
        Err(_) => false,
    }
}

#[test]
fn labels_a_record(rt: HostRuntime) {
    assert!(rt; has_label_under_schema(rt.alloc()));
}
