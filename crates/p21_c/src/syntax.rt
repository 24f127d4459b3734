//! Files read by themselves, without a schema.
ghost use Rattle.std.specs.Prelude.{◌≡◌, IfSome, None};
ghost use Rattle.p21_c.specs.Answers.{HoldsTold, TellsFile, TellsSyntax};
ghost use Rattle.p21_c.specs.Contents.{boxed_content};

use crate::answers::{FILE, Report, counted, no_memory, refused};
use crate::components::Handle;
use crate::contents::{Content, Holding, boxed};
use crate::places::{Place, Placed, at_byte, nowhere};
use crate::texts::copy_of;
use p21_stream_syntax::{WellFormed, syntax_of_located};
use p21_syntax_words::header_words;
use p21_values::Limits;
use std::alloc::Global;

/// What a well-formed file says of itself: the name of its schema, its header in words, and how many records of its instances have
/// which keyword; or nothing.
struct Texts {
    schema: Holding,
    header: Holding,
    keywords: Holding,
}

/// Whether a file is well formed by itself. Hands out what it says of itself. It isn't copied.
#[unsafe(no_mangle)]
pub extern "C" fn p21_syntax(
    alloc: Global,
    file: &[u8],
    schema: &mut Handle,
    header: &mut Handle,
    keywords: &mut Handle,
    report: &mut Report,
    place: &mut Place,
) -> u8
    ensures { HoldsTold (TellsSyntax file.now (record { status = result; report = report.new })) schema.old.value schema.new.value
        header.old.value header.new.value keywords.old.value keywords.new.value }
{
    let (texts, placed) = tell(alloc, file);
    let Texts {
        schema: name,
        header: words,
        keywords: counts,
    } = texts;
    schema.hand(alloc, name);
    header.hand(alloc, words);
    keywords.hand(alloc, counts);
    let Placed {
        answer,
        place: found,
    } = placed;
    *report = answer.report;
    *place = found;
    answer.status
}

/// What a file says of itself, or why and where it isn't well formed.
fn tell(alloc: Global, file: &[u8]) -> (Texts, Placed)
    ensures { TellsSyntax file.now result.1.answer (boxed_content result.0.schema) (boxed_content result.0.header)
        (boxed_content result.0.keywords) }
{
    let found = match syntax_of_located(alloc, Limits::usual(), file) {
        Ok(found) => found,
        Err(ill_formed) => {
            let placed = Placed {
                answer: refused(FILE, ill_formed.refusal),
                place: at_byte(ill_formed.place),
            };
            return (nothing(), placed);
        }
    };
    match texts_of(alloc, &found) {
        Some(texts) => {
            let placed = Placed {
                answer: counted(found.instances),
                place: nowhere(),
            };
            (texts, placed)
        }
        None => {
            let placed = Placed {
                answer: no_memory(),
                place: nowhere(),
            };
            (nothing(), placed)
        }
    }
}

/// No texts.
fn nothing() -> Texts
    ensures schema { boxed_content result.schema ≡ None }
    ensures header { boxed_content result.header ≡ None }
    ensures keywords { boxed_content result.keywords ≡ None }
{
    Texts {
        schema: None,
        header: None,
        keywords: None,
    }
}

/// What is found of a file, as texts to be held; none where there is no memory.
fn texts_of(alloc: Global, found: &WellFormed) -> Option<Texts>
    ensures { IfSome result (λ texts. TellsFile found.now (boxed_content texts.schema) (boxed_content texts.header)
        (boxed_content texts.keywords)) }
{
    let Ok(header) = header_words(alloc, &found.header) else {
        return None;
    };
    let Ok(keywords) = found.keywords.text(alloc) else {
        return None;
    };
    let schema = copy_of(alloc, &found.schema)?;
    let header = boxed(alloc, Content::Text(header))?;
    let keywords = boxed(alloc, Content::Text(keywords))?;
    Some(Texts {
        schema: Some(schema),
        header: Some(header),
        keywords: Some(keywords),
    })
}
