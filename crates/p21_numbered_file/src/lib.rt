//! The numbered file of a text that holds a file: its canonical file with the numbers that its model gives for names; and a file under
//! the names of another one.
//!
//! `numbered_text` reads an accepted text once more (`src/reading`): by a `StatementReader` token by token, and each record by
//! `check_owned_record`. What it keeps of the statements is said by `IsReadTo` (`specs/Reading`), and `proofs/SecondReading` has why each
//! statement stands in the tree that the text has: so no refusal can come but want of memory. `p21_numbered` writes the lines of
//! the instances under their numbers, and `src/assembly` puts these together with the header and the data sections, as a session
//! does with what it keeps: `accepted_file` of `p21_stream_output` sorts sections and lines. `proofs/PutTogether` shows that what is put
//! together is what `numbered_laws` speaks of (`IsKeptUnder`), and `proofs/FileSizes` that its size is the one that was counted.
//!
//! `paired_file` does the same of the first of two files with other names: those of the partners that `p21_pairing` finds in the second
//! (`src/pairing`). Its text is that of the second exactly if nothing differs by these pairs (`proofs/PairedTexts`).
#![tactic(auto)]

mod assembly;
mod comparing;
mod headings;
mod memberships;
mod numbering;
mod pairing;
mod read_file;
mod reading;
mod sizes;

pub use comparing::{are_same_but_for_names, text_of};
pub use numbering::{Unnumbered, numbered_text};
pub use p21_pairing::MOST_CHOICES;
pub use p21_schema::Schema;
pub use p21_stream_output::Accepted;
pub use p21_values::Limits;
pub use pairing::{Paired, Unpaired, paired_file};
