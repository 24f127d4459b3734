ghost use Rattle.std.specs.Prelude.{◌≡◌};
ghost use Rattle.p21_grammar_tree.specs.View.{items_of};

use p21_values::{Bits, Decimal, Name, Text, Whole, Word};

/// A keyword; a user-defined one is kept without its `!`.
#[derive(Debug, Drop)]
pub struct Key {
    pub user: bool,
    pub word: Word,
}

/// A parameter (ISO 10303-21, formal definition of the exchange structure: parameter).
#[derive(Debug, Drop)]
#[cycle(param)]
pub enum Param {
    /// `$`, no value.
    Dollar,
    /// `*`, a value that is derived.
    Star,
    Whole(Whole),
    Real(Decimal),
    Text(Text),
    /// The name of another instance.
    Name(Name),
    /// An enumeration item, without its points.
    Item(Word),
    Bits(Bits),
    List(Params),
    /// A typed parameter: a keyword, and one parameter in parentheses.
    Tagged(Key, Box<Param>),
}

/// Parameters in a row, which contracts see as the list `items_of`.
#[derive(Debug, Drop)]
#[cycle(param)]
pub struct Params {
    all: Vec<Param>,
}

impl Params {
    /// These parameters, in this order. It takes no memory.
    pub fn from_vec(all: Vec<Param>) -> Params
        ensures { items_of result ≡ all.items }
    {
        Params { all }
    }

    /// The parameters, first to last. It takes no memory.
    pub fn items(&self) -> &[Param]
        ensures { result.now ≡ items_of self.now }
    {
        &self.all
    }

    /// The parameters, moved out. It takes no memory.
    pub fn into_items(self) -> Vec<Param>
        ensures { result.items ≡ items_of self }
    {
        self.all
    }
}
