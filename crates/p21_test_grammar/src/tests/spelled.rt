use super::*;

pub(super) fn put(out: &mut Vec<u8>, text: &str) -> Result<(), NoMemory> {
    out.extend_from_slice(text.as_bytes())?;
    Ok(())
}

/// Appends a statement without its `;`, and a space.
pub(super) fn spell_event(event: &Event, out: &mut Vec<u8>) -> Result<(), NoMemory> {
    match event {
        Event::Section(line) => put(out, line_text(*line))?,
        Event::Named(part) => {
            put(out, "named ")?;
            spell_part(part, out)?;
        }
        Event::Header(part) => spell_part(part, out)?,
        Event::Instance(name, record) => {
            name.write_canonical(out)?;
            put(out, "=")?;
            spell_record(record, out)?;
        }
    }
    put(out, " ")
}

fn line_text(line: Line) -> &'static str {
    match line {
        Line::Begin => "begin",
        Line::HeaderStart => "header",
        Line::SectionEnd => "end",
        Line::DataStart => "data",
        Line::Finish => "finish",
    }
}

fn spell_record(record: &Record, out: &mut Vec<u8>) -> Result<(), NoMemory> {
    match record {
        Record::Simple(part) => spell_part(part, out),
        Record::Complex(parts) => {
            for part in parts.items() {
                put(out, "/")?;
                spell_part(part, out)?;
            }
            Ok(())
        }
    }
}

fn spell_part(part: &Part, out: &mut Vec<u8>) -> Result<(), NoMemory> {
    spell_key(&part.key, out)?;
    spell_params(&part.params, out)
}

fn spell_key(key: &Key, out: &mut Vec<u8>) -> Result<(), NoMemory> {
    if key.user {
        put(out, "!")?;
    }
    key.word.write_canonical(out)
}

#[cycle(spell)]
fn spell_params(params: &Params, out: &mut Vec<u8>) -> Result<(), NoMemory> {
    put(out, "(")?;
    for param in params.items() {
        spell_param(param, out)?;
        put(out, " ")?;
    }
    put(out, ")")
}

#[cycle(spell)]
fn spell_param(param: &Param, out: &mut Vec<u8>) -> Result<(), NoMemory> {
    match param {
        Param::Dollar => put(out, "$"),
        Param::Star => put(out, "*"),
        Param::Whole(number) => number.write_canonical(out),
        Param::Real(number) => number.write_canonical(out),
        Param::Text(text) => text.write_canonical(out),
        Param::Name(name) => name.write_canonical(out),
        Param::Item(word) => spell_item(word, out),
        Param::Bits(bits) => bits.write_canonical(out),
        Param::List(params) => spell_params(params, out),
        Param::Tagged(key, inner) => {
            spell_key(key, out)?;
            put(out, ":")?;
            spell_param(inner, out)
        }
    }
}

fn spell_item(word: &Word, out: &mut Vec<u8>) -> Result<(), NoMemory> {
    put(out, ".")?;
    word.write_canonical(out)?;
    put(out, ".")
}
