//! The numbers that a model gives its instances: ranks of the nodes of a graph, round by round, and an order by rank.
//!
//! `file_order` takes the instances of a file (`src/instances`; `specs/Instances` says which are those of a file) and
//! answers their names in the order of their numbers, or `Alike` with two names where the model isn't decided. It makes
//! the nodes, ranks them, makes each instance by its rank, and puts these in order (`src/file_orders`).
//!
//! `node` makes the node of an instance from its typed record. A node has a name, a label as a row of numbers, and its
//! references with the ways to them (`uses_in`). The label is the text of the record with other names, each of them 0
//! (`src/labels`, `src/renamed_text`: an empty map of new names gives 0); `specs/Nodes` says of which graph such nodes are
//! (`IsGraph`), and `specs/NodesOf` of which file (`AreNodesOf`). Labels and ways are ranked by sorting (`src/rows`), so
//! that numbers stand for them (`proofs/PlaceNumbers`). `src/edges` has each use once, by the numbers of both nodes and
//! of the way, and `src/adjacency` those of each node side by side; `Represents` (`specs/Arrays`) is what ties these
//! arrays to a graph, and `proofs/Graphs` shows it.
//!
//! A round (`src/rounds`) makes the key of each node that it may tell from others as a row of numbers: of those that share their
//! rank, and have uses of fresh nodes or by them (`src/key_rows`). Every other node keeps its rank, so the ranks behind the round
//! are reckoned by these keys alone (`src/told_ranks`; `proofs/ToldRanks` has why). By two passes over all nodes it finds which are
//! fresh. `proofs/RoundKeys` shows that such rows compare as the keys of the definition, `proofs/NextRanks` joins the two, and
//! `proofs/Telling` shows that rounds over arrays are those of the definition. All rounds together sort n log n keys at most, but each
//! looks at all nodes, and a path of n equal instances has n / 2 rounds.
//!
//! By its rank an instance is made from what is known of all by their names (`src/standings`): the rank of each, and how
//! many have it. One that shares its rank says what its record says with ranks for names (`src/said`), and hangs together
//! with those that it refers to and that share theirs (`src/ranked`). Of another the values are looked through for
//! references that keep the file from being decided (`src/loose`; `proofs/LooseNames` has why these decide it): those to
//! instances that share their ranks, but for the plain elements of a set that has all of a rank, which are counted by
//! rank. `proofs/RankedOf` shows that these are the instances by their ranks (`AreRanked`).
//!
//! `order` puts instances by their ranks in an order that counts copies in one sequence. Instances that refer to one
//! another and share their ranks are joined into parts, the smaller into the larger (`src/joining`). Sorted by rank and
//! part, neighbours of one rank have to be in two parts and to say the same (`src/orders`), which `proofs/SaidTexts` shows
//! to be told by the texts of `specs/Said`. `proofs/Decisions` has why this decides it.
#![tactic(auto)]

mod adjacency;
mod edges;
mod ending;
mod file_orders;
mod graph;
mod instances;
mod joining;
mod key_rows;
mod labels;
mod loose;
mod numbers;
mod orders;
mod parts;
mod ranked;
mod renamed_text;
mod renaming;
mod rounds;
mod rows;
mod said;
mod standings;
mod text_rows;
mod told_ranks;
mod uses;

pub use file_orders::file_order;
pub use graph::{Node, ranks};
pub use instances::Instance;
pub use labels::node;
pub use numbers::numbers_in;
pub use orders::{Unordered, order};
pub use ranked::RankedInstance;
pub use renaming::renamed_record;
pub use rows::ranks_of_rows;
pub use uses::{PlacedUse, uses_in};
