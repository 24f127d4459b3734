//! List types of a recursion have no Model (the toolchain gives none to types that contain one another): contracts see
//! `Values` by `list_of`. `Ids` and `Rows` are outside the recursion, so their Model is the list itself.
ghost use Rattle.std.specs.Prelude.{◌≡◌};

use p21_express_graph::TypeId;
use p21_values::{Bits, Decimal, Name, Text, Whole, Word};

/// A value of an attribute: `Number` at a NUMBER, `Item` at an enumeration, BOOLEAN or LOGICAL, `Derived` at a derived
/// attribute, `Missing` where there is none. A tagged value keeps the type that its keyword names.
#[derive(Debug, Drop)]
#[cycle(value)]
pub enum Value {
    Whole(Whole),
    Real(Decimal),
    Number(Decimal),
    Text(Text),
    Bits(Bits),
    Item(Word),
    Reference(Name),
    Derived,
    Missing,
    List(Values),
    Array(Values),
    Set(Values),
    Bag(Values),
    Tagged(TypeId, Box<Value>),
}

/// Values in a row.
#[derive(Debug, Drop)]
#[cycle(value)]
pub struct Values {
    all: Vec<Value>,
}

impl Values {
    ghost use Rattle.p21_mapping_values.specs.View.{list_of};

    /// These values, in this order. It takes no memory.
    pub fn from_vec(values: Vec<Value>) -> Values
        ensures { list_of result ≡ values.items }
    {
        Values { all: values }
    }

    /// The values, first to last. It takes no memory.
    pub fn items(&self) -> &[Value]
        ensures { result.now ≡ list_of self.now }
    {
        &self.all
    }

    /// The values, moved out. It takes no memory.
    pub fn into_items(self) -> Vec<Value>
        ensures { result.items ≡ list_of self }
    {
        self.all
    }
}
