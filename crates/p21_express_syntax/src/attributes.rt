ghost use Rattle.std.specs.Prelude.{◌≡◌, codes, map};
ghost use Rattle.p21_express_lexemes.specs.Taking.{ReadBy};
ghost use Rattle.p21_express_syntax.specs.Declaring.{redeclared_at, attribute_of, comma_attribute_of, attributes_from, attributes_behind, explicit_of, derived_behind, derived_of, flat};
ghost use Rattle.p21_express_syntax.specs.Many.{many_of, StepRead};
ghost use Rattle.p21_express_syntax.specs.DataTypes.{identity};
ghost use Rattle.p21_express_syntax.specs.Views.{list_view, attributes_view, attributes_views};

use crate::names::{read_name, word_of};
use crate::types::{DataType, read_type};
use p21_express_lexemes::{Lexemes, Mark, SyntaxFault, Wanted, read_over};
use p21_values::Word;
use std::alloc::Global;

/// The name of an attribute, in upper case.
#[derive(Debug, Drop)]
pub enum AttributeName {
    /// A new attribute.
    Own(Word),
    /// `SELF\entity.name`, which redeclares one of a supertype.
    Redeclared { entity: Word, name: Word },
}

/// Explicit attributes of one type.
#[derive(Debug, Drop)]
pub struct ExplicitAttributes {
    pub names: Vec<AttributeName>,
    pub optional: bool,
    pub data_type: DataType,
}

/// An attribute, if one begins there.
#[tactic(auto, unfolding(crate::specs::Declaring::attribute_of))]
fn read_attribute(
    alloc: Global,
    lexemes: &mut Lexemes,
) -> Result<Option<AttributeName>, SyntaxFault>
    ensures { StepRead identity result (attribute_of lexemes.old) lexemes.old lexemes.new }
{
    if lexemes.take_word(b"SELF") {
        return Ok(Some(read_redeclared(alloc, lexemes)?));
    }
    match lexemes.take_name() {
        Some(name) => Ok(Some(AttributeName::Own(word_of(alloc, name)?))),
        None => Ok(None),
    }
}

/// Behind SELF: `\` entity `.` name.
#[tactic(auto, unfolding(crate::specs::Declaring::redeclared_at))]
fn read_redeclared(alloc: Global, lexemes: &mut Lexemes) -> Result<AttributeName, SyntaxFault>
    ensures { ReadBy identity result (redeclared_at lexemes.old) lexemes.new }
{
    lexemes.expect_symbol(b'\\')?;
    let entity = read_name(alloc, lexemes)?;
    lexemes.expect_symbol(b'.')?;
    let name = read_name(alloc, lexemes)?;
    Ok(AttributeName::Redeclared { entity, name })
}

/// An attribute where one must stand.
fn expect_attribute(alloc: Global, lexemes: &mut Lexemes) -> Result<AttributeName, SyntaxFault>
    ensures { ReadBy identity result (flat (attribute_of lexemes.old)) lexemes.new }
{
    match read_attribute(alloc, lexemes)? {
        Some(attribute) => Ok(attribute),
        None => Err(lexemes.refusal(Wanted::Grammar)),
    }
}

/// A comma and an attribute, if the comma stands there.
#[tactic(auto, unfolding(crate::specs::Declaring::comma_attribute_of))]
fn read_comma_attribute(
    alloc: Global,
    lexemes: &mut Lexemes,
) -> Result<Option<AttributeName>, SyntaxFault>
    ensures { StepRead identity result (comma_attribute_of lexemes.old) lexemes.old lexemes.new }
{
    if !lexemes.take_symbol(b',') {
        return Ok(None);
    }
    Ok(Some(expect_attribute(alloc, lexemes)?))
}

/// The first attribute, and those behind commas.
#[tactic(auto, unfolding(crate::specs::Declaring::attributes_from))]
fn read_attributes_from(
    alloc: Global,
    lexemes: &mut Lexemes,
    first: AttributeName,
) -> Result<Vec<AttributeName>, SyntaxFault>
    ensures { ReadBy list_view result (attributes_from first lexemes.old) lexemes.new }
{
    let mut attributes = Vec::new(alloc);
    attributes.push(first)?;
    loop {
        match read_comma_attribute(alloc, lexemes) {
            Ok(Some(attribute)) => attributes.push(attribute)?,
            Ok(None) => return Ok(attributes),
            Err(fault) => return Err(fault),
        }
    }
}

/// Explicit attributes behind the first name: {`,` attribute} `:` [OPTIONAL] type `;`.
#[tactic(auto, unfolding(crate::specs::Declaring::attributes_behind))]
fn read_attributes_behind(
    alloc: Global,
    lexemes: &mut Lexemes,
    first: AttributeName,
) -> Result<ExplicitAttributes, SyntaxFault>
    ensures { ReadBy attributes_view result (attributes_behind first lexemes.old) lexemes.new }
{
    let names = read_attributes_from(alloc, lexemes, first)?;
    lexemes.expect_symbol(b':')?;
    let optional = lexemes.take_word(b"OPTIONAL");
    let data_type = read_type(alloc, lexemes)?;
    lexemes.expect_symbol(b';')?;
    Ok(ExplicitAttributes {
        names,
        optional,
        data_type,
    })
}

/// Explicit attributes of one type, if they begin there.
#[tactic(auto, unfolding(crate::specs::Declaring::explicit_of))]
fn read_explicit(
    alloc: Global,
    lexemes: &mut Lexemes,
) -> Result<Option<ExplicitAttributes>, SyntaxFault>
    ensures { StepRead attributes_view result (explicit_of lexemes.old) lexemes.old lexemes.new }
{
    match read_attribute(alloc, lexemes)? {
        Some(first) => Ok(Some(read_attributes_behind(alloc, lexemes, first)?)),
        None => Ok(None),
    }
}

/// All explicit attributes of an entity.
pub(crate) fn read_all_explicit(
    alloc: Global,
    lexemes: &mut Lexemes,
) -> Result<Vec<ExplicitAttributes>, SyntaxFault>
    ensures { ReadBy attributes_views result (many_of explicit_of lexemes.old) lexemes.new }
{
    let mut explicit = Vec::new(alloc);
    loop {
        match read_explicit(alloc, lexemes) {
            Ok(Some(attributes)) => explicit.push(attributes)?,
            Ok(None) => return Ok(explicit),
            Err(fault) => return Err(fault),
        }
    }
}

/// A derived attribute, if one begins there: attribute `:` run `;`.
#[tactic(auto, unfolding(crate::specs::Declaring::derived_of, crate::specs::Declaring::derived_behind))]
fn read_derived(alloc: Global, lexemes: &mut Lexemes) -> Result<Option<AttributeName>, SyntaxFault>
    ensures { StepRead identity result (derived_of lexemes.old) lexemes.old lexemes.new }
{
    match read_attribute(alloc, lexemes)? {
        Some(attribute) => {
            lexemes.expect_symbol(b':')?;
            read_over(lexemes, Mark::Nothing, Mark::Symbol(b';'))?;
            Ok(Some(attribute))
        }
        None => Ok(None),
    }
}

/// All derived attributes behind DERIVE.
pub(crate) fn read_all_derived(
    alloc: Global,
    lexemes: &mut Lexemes,
) -> Result<Vec<AttributeName>, SyntaxFault>
    ensures { ReadBy list_view result (many_of derived_of lexemes.old) lexemes.new }
{
    let mut derived = Vec::new(alloc);
    loop {
        match read_derived(alloc, lexemes) {
            Ok(Some(attribute)) => derived.push(attribute)?,
            Ok(None) => return Ok(derived),
            Err(fault) => return Err(fault),
        }
    }
}
