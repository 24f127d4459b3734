//! What a session stores of the instances that it has taken: their names, their canonical texts, and their memberships, each
//! of which is the data section that an instance stands in and its set of entities.
#![tactic(auto)]

mod entity_sets;
mod instances;
mod lines;
mod memberships;
mod name_table;
mod named_lines;
mod named_memberships;
mod noted;
mod numbers;
mod order;
mod pages;
mod room;
mod rows;
mod runs;
mod same_front;
mod seen;
mod set_key;
mod stored_texts;
mod texts;
mod widths;

pub use entity_sets::EntitySets;
pub use instances::Instances;
pub use lines::Lines;
pub use memberships::Memberships;
pub use named_memberships::NamedMemberships;
pub use numbers::Numbers;
