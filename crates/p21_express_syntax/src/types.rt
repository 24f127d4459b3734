ghost use Rattle.std.specs.Prelude.{◌≡◌};
ghost use Rattle.p21_express_lexemes.specs.Taking.{ReadBy};
ghost use Rattle.p21_express_syntax.specs.DataTypes.{identity, low_of, high_of, top_of, range_of, array_of, width_of, most_of, precision_of, kind_of, aggregate_at, simple_of, type_of, KindRead, Passed, NumberRead};
ghost use Rattle.p21_express_syntax.specs.Views.{type_view};

use crate::names::read_name;
use crate::numbers::number_of;
use p21_express_lexemes::{Lexemes, SyntaxFault, Wanted};
use p21_values::Word;
use std::alloc::Global;

/// A width in characters or bits: the most there are, or where it is fixed, as many as there are.
#[derive(Clone, Copy, Debug)]
pub struct Width {
    pub most: u32,
    pub fixed: bool,
}

/// How many elements an aggregate has, as far as there is a most.
#[derive(Clone, Copy, Debug)]
pub struct Range {
    pub low: u32,
    pub high: Option<u32>,
}

/// An aggregate type without the type of its elements.
#[derive(Clone, Copy, Debug)]
pub enum Aggregate {
    /// Its elements stand at the indices from low to high.
    Array {
        low: u32,
        high: u32,
        optional: bool,
        unique: bool,
    },
    List {
        range: Range,
        unique: bool,
    },
    Set {
        range: Range,
    },
    Bag {
        range: Range,
    },
}

/// A type that is no aggregate.
#[derive(Debug, Drop)]
pub enum SimpleType {
    Integer,
    Real,
    Number,
    Boolean,
    Logical,
    String(Option<Width>),
    Binary(Option<Width>),
    /// The name of an entity or a type, in upper case.
    Named(Word),
}

/// A data type as it is written: the aggregates, the outermost first, and what they are of.
#[derive(Debug, Drop)]
pub struct DataType {
    pub aggregates: Vec<Aggregate>,
    pub element: SimpleType,
}

/// The words with which aggregate types begin.
#[derive(Clone, Copy)]
enum Kind {
    Array,
    List,
    Set,
    Bag,
}

/// How many aggregate types may stand one in another.
const DEEPEST: usize = 32;

/// A lower bound. `?` is none.
#[tactic(auto, unfolding(crate::specs::DataTypes::low_of))]
fn read_low(lexemes: &mut Lexemes) -> Result<u32, SyntaxFault>
    ensures { ReadBy identity result (low_of lexemes.old) lexemes.new }
{
    let Some(digits) = lexemes.take_digits() else {
        return Err(no_bound(lexemes));
    };
    match number_of(digits) {
        Some(low) => Ok(low),
        None => Err(SyntaxFault::Bounds),
    }
}

/// Why no bound stands first where one must in digits.
fn no_bound(lexemes: &mut Lexemes) -> SyntaxFault {
    if lexemes.take_symbol(b'?') {
        SyntaxFault::Bounds
    } else {
        lexemes.refusal(Wanted::Bound)
    }
}

/// An upper bound in digits.
#[tactic(auto, unfolding(crate::specs::DataTypes::top_of))]
fn read_top(lexemes: &mut Lexemes, low: u32) -> Result<u32, SyntaxFault>
    ensures { ReadBy identity result (top_of low lexemes.old) lexemes.new }
{
    let Some(digits) = lexemes.take_digits() else {
        return Err(no_bound(lexemes));
    };
    match number_of(digits) {
        Some(high) => {
            if low <= high {
                Ok(high)
            } else {
                Err(SyntaxFault::Bounds)
            }
        }
        None => Err(SyntaxFault::Bounds),
    }
}

/// An upper bound, or `?`.
#[tactic(auto, unfolding(crate::specs::DataTypes::high_of))]
fn read_high(lexemes: &mut Lexemes, low: u32) -> Result<Option<u32>, SyntaxFault>
    ensures { ReadBy identity result (high_of low lexemes.old) lexemes.new }
{
    if lexemes.take_symbol(b'?') {
        return Ok(None);
    }
    Ok(Some(read_top(lexemes, low)?))
}

/// What must stand behind the digits of a bound or width.
fn pass(lexemes: &mut Lexemes, byte: u8) -> Result<(), SyntaxFault>
    ensures { Passed byte result lexemes.old lexemes.new }
{
    if lexemes.take_symbol(byte) {
        Ok(())
    } else {
        Err(lexemes.refusal(Wanted::BehindDigits))
    }
}

/// `[` low `:` high `]`, or nothing, which is `[0:?]`.
#[tactic(auto, unfolding(crate::specs::DataTypes::range_of))]
fn read_range(lexemes: &mut Lexemes) -> Result<Range, SyntaxFault>
    ensures { ReadBy identity result (range_of lexemes.old) lexemes.new }
{
    if !lexemes.take_symbol(b'[') {
        return Ok(Range { low: 0, high: None });
    }
    let low = read_low(lexemes)?;
    pass(lexemes, b':')?;
    let high = read_high(lexemes, low)?;
    pass(lexemes, b']')?;
    Ok(Range { low, high })
}

/// Behind ARRAY.
#[tactic(auto, unfolding(crate::specs::DataTypes::array_of))]
fn read_array(lexemes: &mut Lexemes) -> Result<Aggregate, SyntaxFault>
    ensures { ReadBy identity result (array_of lexemes.old) lexemes.new }
{
    lexemes.expect_symbol(b'[')?;
    let low = read_low(lexemes)?;
    pass(lexemes, b':')?;
    let high = read_top(lexemes, low)?;
    pass(lexemes, b']')?;
    lexemes.expect_word(b"OF")?;
    let optional = lexemes.take_word(b"OPTIONAL");
    let unique = lexemes.take_word(b"UNIQUE");
    Ok(Aggregate::Array {
        low,
        high,
        optional,
        unique,
    })
}

/// A width in digits, which is not 0.
#[tactic(auto, unfolding(crate::specs::DataTypes::most_of))]
fn read_most(lexemes: &mut Lexemes) -> Result<u32, SyntaxFault>
    ensures { ReadBy identity result (most_of lexemes.old) lexemes.new }
{
    let Some(digits) = lexemes.take_digits() else {
        return Err(lexemes.refusal(Wanted::Width));
    };
    match number_of(digits) {
        Some(most) => {
            if most == 0 {
                Err(SyntaxFault::Bounds)
            } else {
                Ok(most)
            }
        }
        None => Err(SyntaxFault::Bounds),
    }
}

/// `(` digits `)` and FIXED or not, or nothing.
#[tactic(auto, unfolding(crate::specs::DataTypes::width_of))]
fn read_width(lexemes: &mut Lexemes) -> Result<Option<Width>, SyntaxFault>
    ensures { ReadBy identity result (width_of lexemes.old) lexemes.new }
{
    if !lexemes.take_symbol(b'(') {
        return Ok(None);
    }
    let most = read_most(lexemes)?;
    pass(lexemes, b')')?;
    let fixed = lexemes.take_word(b"FIXED");
    Ok(Some(Width { most, fixed }))
}

/// `(` digits `)`, or nothing: the precision of a REAL isn't used.
#[tactic(auto, unfolding(crate::specs::DataTypes::precision_of))]
fn pass_precision(lexemes: &mut Lexemes) -> Result<(), SyntaxFault>
    ensures { NumberRead result (precision_of lexemes.old) lexemes.new }
{
    if !lexemes.take_symbol(b'(') {
        return Ok(());
    }
    if lexemes.take_digits().is_none() {
        return Err(lexemes.refusal(Wanted::Grammar));
    }
    lexemes.expect_symbol(b')')
}

/// The word of an aggregate type, if it stands first.
#[tactic(auto, unfolding(crate::specs::DataTypes::kind_of))]
fn take_kind(lexemes: &mut Lexemes) -> Option<Kind>
    ensures { KindRead result (kind_of lexemes.old) lexemes.old lexemes.new }
{
    if lexemes.take_word(b"LIST") {
        return Some(Kind::List);
    }
    if lexemes.take_word(b"SET") {
        return Some(Kind::Set);
    }
    if lexemes.take_word(b"ARRAY") {
        return Some(Kind::Array);
    }
    if lexemes.take_word(b"BAG") {
        return Some(Kind::Bag);
    }
    None
}

/// An aggregate type behind its word.
#[tactic(auto, unfolding(crate::specs::DataTypes::aggregate_at))]
fn read_aggregate(lexemes: &mut Lexemes, kind: Kind) -> Result<Aggregate, SyntaxFault>
    ensures { ReadBy identity result (aggregate_at kind lexemes.old) lexemes.new }
{
    match kind {
        Kind::Array => read_array(lexemes),
        Kind::List => {
            let range = read_range(lexemes)?;
            lexemes.expect_word(b"OF")?;
            let unique = lexemes.take_word(b"UNIQUE");
            Ok(Aggregate::List { range, unique })
        }
        Kind::Set => {
            let range = read_range(lexemes)?;
            lexemes.expect_word(b"OF")?;
            Ok(Aggregate::Set { range })
        }
        Kind::Bag => {
            let range = read_range(lexemes)?;
            lexemes.expect_word(b"OF")?;
            Ok(Aggregate::Bag { range })
        }
    }
}

/// A type that is no aggregate.
#[tactic(auto, unfolding(crate::specs::DataTypes::simple_of))]
fn read_simple(alloc: Global, lexemes: &mut Lexemes) -> Result<SimpleType, SyntaxFault>
    ensures { ReadBy identity result (simple_of lexemes.old) lexemes.new }
{
    if lexemes.take_word(b"REAL") {
        pass_precision(lexemes)?;
        return Ok(SimpleType::Real);
    }
    if lexemes.take_word(b"INTEGER") {
        return Ok(SimpleType::Integer);
    }
    if lexemes.take_word(b"NUMBER") {
        return Ok(SimpleType::Number);
    }
    if lexemes.take_word(b"BOOLEAN") {
        return Ok(SimpleType::Boolean);
    }
    if lexemes.take_word(b"LOGICAL") {
        return Ok(SimpleType::Logical);
    }
    if lexemes.take_word(b"STRING") {
        return Ok(SimpleType::String(read_width(lexemes)?));
    }
    if lexemes.take_word(b"BINARY") {
        return Ok(SimpleType::Binary(read_width(lexemes)?));
    }
    Ok(SimpleType::Named(read_name(alloc, lexemes)?))
}

/// Reads a data type.
///
/// # Errors
///
/// As a schema text is refused, `TooLarge` at the 33rd aggregate type, one in another.
#[tactic(auto, using(crate::proofs::Nesting::more_layers, crate::proofs::Nesting::no_more, crate::proofs::Nesting::too_deep, crate::proofs::Nesting::base_wrong, crate::proofs::Nesting::base_right))]
pub(crate) fn read_type(alloc: Global, lexemes: &mut Lexemes) -> Result<DataType, SyntaxFault>
    ensures { ReadBy type_view result (type_of 32 lexemes.old) lexemes.new }
{
    let mut aggregates = Vec::new(alloc);
    while let Some(kind) = take_kind(lexemes) {
        if aggregates.len() == DEEPEST {
            return Err(SyntaxFault::TooLarge);
        }
        aggregates.push(read_aggregate(lexemes, kind)?)?;
    }
    let element = read_simple(alloc, lexemes)?;
    Ok(DataType {
        aggregates,
        element,
    })
}
