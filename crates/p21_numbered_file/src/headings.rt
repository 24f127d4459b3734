//! How data sections begin (ISO 10303-21, data sections).
ghost use Rattle.std.specs.List.{AllZip};
ghost use Rattle.std.specs.Option.{option_copied};
ghost use Rattle.std.specs.Prelude.{◌≡◌, [], IfOk, IfSome, IsNone, List};
ghost use Rattle.p21_spec_exchange.specs.CanonicalText.{statement_text};
ghost use Rattle.p21_spec_exchange.specs.DataSection.{heading_of, named, unnamed};
ghost use Rattle.p21_spec_exchange.specs.Statement.{data_start, section};
ghost use Rattle.p21_grammar_tree.specs.View.{items_of, view, views};
ghost use Rattle.p21_numbering.specs.Rows.{lent_rows};
ghost use Rattle.p21_stream_output.specs.NamedSections.{AreEmpty, HasHeading};
ghost use Rattle.p21_numbered_file.specs.Headings.{AreTextsOf, heading_in, headings_in, label_in};
ghost use Rattle.p21_numbered_file.specs.Shape.{listed_text, only_listed_text, only_text, text_of};

use p21_grammar_tree::{Param, Part};
use p21_stream_output::NamedSection;
use p21_stream_store::Numbers;
use p21_values::{Canonical, NoMemory, Text};
use std::alloc::Global;

/// The name and the schema text with which a data section begins, where it has a name.
fn heading(part: &Part) -> Option<(&Text, &Text)>
    ensures some { IfSome result (λ found. heading_of (views (items_of part.now.params)) ≡ named found.0.now found.1.now) }
    ensures none { IsNone result → heading_of (views (items_of part.now.params)) ≡ unnamed }
{
    let Some((first, rest)) = part.params.items().split_first() else {
        return None;
    };
    let Some(name) = text_of(first) else {
        return None;
    };
    let Some(schema) = only_listed_text(rest) else {
        return None;
    };
    Some((name, schema))
}

fn text_of(param: &Param) -> Option<&Text>
    ensures { option_copied result ≡ text_of (view param.now) }
{
    match param {
        Param::Text(text) => Some(text),
        _ => None,
    }
}

#[tactic(auto, using(crate::proofs::Lengths::lengths))]
fn only_text(params: &[Param]) -> Option<&Text>
    ensures { option_copied result ≡ only_text (views params.now) }
{
    match params {
        [only] => text_of(only),
        _ => None,
    }
}

fn listed_text(param: &Param) -> Option<&Text>
    ensures { option_copied result ≡ listed_text (view param.now) }
{
    match param {
        Param::List(params) => only_text(params.items()),
        _ => None,
    }
}

#[tactic(auto, using(crate::proofs::Lengths::lengths))]
fn only_listed_text(params: &[Param]) -> Option<&Text>
    ensures { option_copied result ≡ only_listed_text (views params.now) }
{
    match params {
        [only] => listed_text(only),
        _ => None,
    }
}

/// The characters of the name and of the schema text of each section, none where it has no name.
pub(crate) fn heading_texts(
    alloc: Global,
    sections: &[Option<Part>],
) -> Result<Vec<Vec<&[char]>>, NoMemory>
    ensures { IfOk result (λ all. AreTextsOf sections.now all.items) }
{
    let mut all = Vec::with_capacity(alloc, sections.len())?;
    for k in 0..sections.len() {
        let texts = texts_of(alloc, &sections[k])?;
        all.push(texts)?;
    }
    Ok(all)
}

/// The characters of the name and of the schema text of a section, none where it has no name.
fn texts_of(alloc: Global, section: &Option<Part>) -> Result<Vec<&[char]>, NoMemory>
    ensures { IfOk result (λ texts. lent_rows texts.items ≡ label_in section.now) }
{
    let mut texts = Vec::new(alloc);
    let Some(part) = section else {
        return Ok(texts);
    };
    let Some((name, schema)) = heading(part) else {
        return Ok(texts);
    };
    texts.push(name.chars())?;
    texts.push(schema.chars())?;
    Ok(texts)
}

/// The data sections as they begin, in the same order.
pub(crate) fn named_sections(
    alloc: Global,
    sections: &[Option<Part>],
) -> Result<Vec<NamedSection>, NoMemory>
    ensures begin { IfOk result (λ parts. AllZip HasHeading (headings_in sections.now) parts.items) }
    ensures empty { IfOk result (λ parts. AreEmpty parts.items) }
{
    let mut parts = Vec::with_capacity(alloc, sections.len())?;
    for k in 0..sections.len() {
        let part = named_section(alloc, &sections[k])?;
        parts.push(part)?;
    }
    Ok(parts)
}

/// A data section as it begins.
fn named_section(alloc: Global, section: &Option<Part>) -> Result<NamedSection, NoMemory>
    ensures begins { IfOk result (λ part. HasHeading (heading_in section.now) part) }
    ensures empty { IfOk result (λ part. part.instance_positions ≡ []) }
{
    let Some(part) = section else {
        return section_without_name(alloc);
    };
    match heading(part) {
        Some((name, schema)) => section_with_name(alloc, name, schema),
        None => section_without_name(alloc),
    }
}

/// A data section with a name as it begins.
fn section_with_name(alloc: Global, name: &Text, schema: &Text) -> Result<NamedSection, NoMemory>
    ensures begins { IfOk result (λ part. HasHeading (named name.now schema.now) part) }
    ensures empty { IfOk result (λ part. part.instance_positions ≡ []) }
{
    name.holds();
    let line = heading_line(alloc, name, schema)?;
    let mut spelled = Vec::new(alloc);
    name.write_canonical(&mut spelled)?;
    Ok(NamedSection {
        name: spelled,
        line,
        instance_positions: Numbers::new(alloc),
    })
}

/// A data section without a name as it begins.
fn section_without_name(alloc: Global) -> Result<NamedSection, NoMemory>
    ensures begins { IfOk result (λ part. HasHeading unnamed part) }
    ensures empty { IfOk result (λ part. part.instance_positions ≡ []) }
{
    Ok(NamedSection {
        name: Vec::new(alloc),
        line: Vec::from_slice(alloc, b"DATA;")?,
        instance_positions: Numbers::new(alloc),
    })
}

/// The canonical line that begins a data section with a name, its line feed apart.
fn heading_line(alloc: Global, name: &Text, schema: &Text) -> Result<Vec<u8>, NoMemory>
    ensures { IfOk result (λ line. line.items ≡ statement_text (section (data_start (named name.now schema.now)))) }
{
    let mut line = Vec::from_slice(alloc, b"DATA(")?;
    name.write_canonical(&mut line)?;
    line.extend_from_slice(b",(")?;
    schema.write_canonical(&mut line)?;
    line.extend_from_slice(b"));")?;
    Ok(line)
}
