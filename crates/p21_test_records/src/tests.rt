mod copies;
mod demo;
mod headers;
mod known;
mod long;
mod names;
mod needs;
mod places;
mod same_values;
mod sameness;
mod schemas;
mod shorter_way;
mod texts;
mod trees;
mod typed;
mod values;

use p21_canon::write_record;
use p21_express::read_schema;
use p21_grammar::{Event, Lexer, Limits, Name, Parser, Record, Token};
use p21_mapping::{CheckFault, Trail, check_owned_record, check_record};
use p21_schema::Schema;
use std::alloc::Global;
use std::process::Abort;

/// The statements in front of the instances of a file.
const HEAD: &str =
    "ISO-10303-21;HEADER;FILE_DESCRIPTION($,$);FILE_NAME($,$,$,$,$,$,$);FILE_SCHEMA(('S'));ENDSEC;DATA;";

/// A lexer and a parser, and what they gave for the last token.
#[derive(Drop)]
struct Reader {
    lexer: Lexer,
    parser: Parser,
    last: Option<Event>,
    // Whether a text was refused, or memory ran out.
    is_lost: bool,
}

impl Reader {
    /// A reader that has taken a text.
    fn behind(alloc: Global, text: &str) -> Reader {
        let mut reader = Reader {
            lexer: Lexer::new(alloc, Limits::usual()),
            parser: Parser::new(alloc),
            last: None,
            is_lost: false,
        };
        reader.feed(text.as_bytes());
        reader
    }

    /// Takes a text up to its end or to a refusal.
    fn feed(&mut self, text: &[u8]) {
        let mut rest = text;
        for _ in 0..u64::MAX {
            if rest.is_empty() || self.is_lost {
                break;
            }
            rest = self.take_front(rest);
        }
    }

    /// Takes the next token, and answers what is left behind it.
    fn take_front<'a>(&mut self, text: &'a [u8]) -> &'a [u8] {
        match self.lexer.next(text) {
            Ok((taken, token)) => {
                if let Some(token) = token {
                    self.take(token);
                }
                &text[taken..]
            }
            Err(_) => {
                self.is_lost = true;
                text
            }
        }
    }

    fn take(&mut self, token: Token) {
        match self.parser.take(token) {
            Ok(event) => self.last = event,
            Err(_) => self.is_lost = true,
        }
    }

    /// The statement that ended with the last token.
    fn statement(&self) -> Option<&Event> {
        if self.is_lost {
            None
        } else {
            self.last.as_ref()
        }
    }

    /// The instance that ended with the last token, taken out.
    fn take_instance(&mut self) -> Option<Instance> {
        if self.is_lost {
            return None;
        }
        match self.last.take() {
            Some(statement) => instance_of(statement),
            None => None,
        }
    }
}

/// An instance.
#[derive(Drop)]
struct Instance {
    name: Name,
    record: Record,
}

fn instance_of(statement: Event) -> Option<Instance> {
    match statement {
        Event::Instance(name, record) => Some(Instance { name, record }),
        Event::Section(_line) => None,
        Event::Named(_part) => None,
        Event::Header(_part) => None,
    }
}

/// The instance that a text is.
fn read_instance(alloc: Global, text: &[u8]) -> Option<Instance> {
    let mut reader = Reader::behind(alloc, HEAD);
    reader.feed(text);
    reader.take_instance()
}

/// Appends the canonical statement of an instance.
fn append_statement(
    alloc: Global,
    schema: &Schema,
    instance: &Instance,
    out: &mut Vec<u8>,
) -> Result<(), CheckFault> {
    let (typed, _needs) = check_record(alloc, schema, &instance.record)?;
    write_record(schema, instance.name, &typed, out)?;
    Ok(())
}

/// The same by the check that takes the record.
fn append_moved(
    alloc: Global,
    schema: &Schema,
    name: Name,
    record: Record,
    out: &mut Vec<u8>,
) -> Result<(), CheckFault> {
    let (typed, _needs) = check_owned_record(alloc, schema, record, &mut Trail::new())?;
    write_record(schema, name, &typed, out)?;
    Ok(())
}

/// Whether a canonical statement, or the number and the name of a refusal, is this.
fn is_answer(alloc: Global, found: Result<(), CheckFault>, out: &[u8], wanted: &[u8]) -> bool {
    match found {
        Ok(()) => out == wanted,
        Err(fault) => is_refusal(alloc, fault, wanted),
    }
}

fn is_refusal(alloc: Global, fault: CheckFault, wanted: &[u8]) -> bool {
    match format!(in alloc; "{} {}", fault.number(), fault.name()) {
        Ok(line) => line.as_bytes() == wanted,
        Err(_) => false,
    }
}

/// Whether this comes of an instance: its canonical statement, or the refusal of its record.
fn comes_to(alloc: Global, schema: &Schema, instance: &Instance, wanted: &[u8]) -> bool {
    let mut out = Vec::new(alloc);
    let found = append_statement(alloc, schema, instance, &mut out);
    is_answer(alloc, found, &out, wanted)
}

/// The same where the record is moved.
fn comes_moved_to(
    alloc: Global,
    schema: &Schema,
    name: Name,
    record: Record,
    wanted: &[u8],
) -> bool {
    let mut out = Vec::new(alloc);
    let found = append_moved(alloc, schema, name, record, &mut out);
    is_answer(alloc, found, &out, wanted)
}

/// Whether this comes of the instance that a text is, by both checks.
fn answers(alloc: Global, schema: &Schema, text: &[u8], wanted: &[u8]) -> bool {
    match read_instance(alloc, text) {
        Some(instance) => {
            comes_to(alloc, schema, &instance, wanted)
                && comes_moved_to(alloc, schema, instance.name, instance.record, wanted)
        }
        None => false,
    }
}

/// Whether this comes of a text, and of a canonical statement itself.
fn holds(alloc: Global, schema: &Schema, text: &[u8], wanted: &[u8]) -> bool {
    answers(alloc, schema, text, wanted)
        && (!wanted.starts_with(b"#") || answers(alloc, schema, wanted, wanted))
}

/// Instances, with the canonical statement of each, or the refusal of its record.
type Rows = &'static [(&'static str, &'static str)];

/// The first instance of which something else comes.
fn first_wrong_of(alloc: Global, schema: &Schema, rows: Rows) -> &'static str {
    for (text, wanted) in rows {
        if !holds(alloc, schema, text.as_bytes(), wanted.as_bytes()) {
            return text;
        }
    }
    "none"
}

/// A table of rows of one kind.
#[derive(Clone, Copy)]
enum Table {
    // What comes of instances, and of long ones by their names.
    Instances(Rows),
    Long(long::LongRows),
    // How many members are written that come in an order, and that one more is refused.
    Members(&'static str),
    OneMore(&'static str),
    // What instances need, and whether they serve the last need of this one.
    Needs(Rows),
    Servants(&'static str, needs::Servants),
    // Which parameters are taken at the one place of an entity.
    Letters(values::Letters),
    // Whether two instances mean the same.
    Pairs(sameness::Pairs),
}

/// What a row is called that doesn't hold: `"none"` where each row holds.
fn first_wrong_in(alloc: Global, schema: &Schema, table: Table) -> &'static str {
    match table {
        Table::Instances(rows) => first_wrong_of(alloc, schema, rows),
        Table::Long(rows) => long::first_wrong_long(alloc, schema, rows),
        Table::Members(front) => long::unsorted(alloc, schema, front),
        Table::OneMore(last) => long::taken(alloc, schema, last),
        Table::Needs(rows) => needs::first_otherwise(alloc, schema, rows),
        Table::Servants(holder, rows) => needs::first_wrong_servant(alloc, schema, holder, rows),
        Table::Letters(rows) => values::first_otherwise(alloc, schema, rows),
        Table::Pairs(rows) => sameness::first_unlike(alloc, schema, rows),
    }
}

/// The same under the schema of a text.
fn first_wrong(alloc: Global, schema: &str, table: Table) -> &'static str {
    match read_schema(alloc, schema.as_bytes()) {
        Ok(schema) => first_wrong_in(alloc, &schema, table),
        Err(_) => "the schema",
    }
}

/// Fails where a row doesn't hold under the schema of a text.
fn check(rt: &impl Abort, alloc: Global, schema: &str, table: Table) {
    passes(rt, first_wrong(alloc, schema, table));
}

/// Fails where a row is wrong.
fn passes(rt: &impl Abort, wrong: &str) {
    assert_eq!(*rt; wrong, "none");
}
