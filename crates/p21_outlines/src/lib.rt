//! Two accepted files side by side, but for what their instances mean: whether their canonical texts are one, the records of their
//! header sections, the data sections that there are, and the section of each instance.
//!
//! An accepted file hands out its canonical text, and `Outline` keeps of it the lines that are of no instance. `RecordChanges`,
//! `OtherParameters` and `SectionChanges` compare these, and `first_moved_from` walks both files by the names of their instances. What
//! these four answer is tested, and no clause says it. `have_one_text` is proved.
#![tactic(auto)]

mod headers;
mod lines;
mod moved;
mod one_text;
mod outline;
mod sections;
mod taking;

pub use headers::{OtherParameter, OtherParameters, RecordChange, RecordChanges};
pub use lines::Lines;
pub use moved::{MovedInstance, first_moved_from};
pub use one_text::have_one_text;
pub use outline::Outline;
pub use sections::{SectionChange, SectionChanges};
