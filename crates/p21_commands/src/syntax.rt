//! The command `syntax`.
//!
//! What is told of a file is put together in memory before any of it is written, as the line of a refusal is.
ghost use Rattle.std.specs.Prelude.{◌≡◌, ◌+◌, [], ◌∷◌, IfErr, IfOk, OnOk};
ghost use Rattle.p21_spec_basics.specs.Limits.{usual};
ghost use Rattle.p21_commands.specs.Failures.{FailedBy, failures_of};
ghost use Rattle.p21_commands.specs.Refusing.{RefusesWith};
ghost use Rattle.p21_commands.specs.Streams.{stream_of};
ghost use Rattle.p21_commands.specs.Syntax.{EndsReading, IsIllFormedLine, IsTold, behind, syntax_answer_line, syntax_text};
ghost use Rattle.p21_grammar_tree.specs.View.{part_views};
ghost use Rattle.p21_stream_syntax.specs.Reading.{TakesAtMost};
ghost use Rattle.p21_syntax_words.specs.HeaderText.{header_text};
ghost use Rattle.p21_syntax_words.specs.KeywordCounts.{counts_text};

use crate::answer::answer;
use crate::fault::{CommandFault, report};
use crate::file_fault::fault_of;
use p21_grammar_tree::Part;
use p21_stream::Watched;
use p21_stream_syntax::{IllFormed, KeywordCounts, WellFormed, syntax_located};
use p21_syntax_words::header_words;
use p21_values::{Limits, NoMemory};
use std::alloc::Global;
use std::io::{Read, Write};

/// What is told of a file that is well formed, behind the line that says so.
#[derive(Clone, Copy, Debug)]
pub struct Details {
    /// Whether its header is told in words.
    pub header: bool,
    /// Whether it is told how many records of its instances have which keyword.
    pub count: bool,
}

/// Reads a file by itself, without a schema, and writes to `output` how many instances the file has and which schema it
/// names, and behind that line the details that are asked for: the header, then the keywords; or to `faults` one line that
/// says why it isn't well formed. Answers the exit status.
pub fn syntax_command<R: Read, W: Write, F: Write>(
    alloc: Global,
    file: &mut Watched<R>,
    details: Details,
    output: &mut Watched<W>,
    faults: &mut Watched<F>,
) -> u8
    ensures consumed { TakesAtMost (usual.file_source + 1) (R.remaining file.old.inner) (R.remaining file.new.inner) }
    ensures ends { EndsReading (IsTold details) IsIllFormedLine (record {
      input = stream_of R.remaining file.old file.new;
      output = stream_of W.contents output.old output.new;
      faults = stream_of F.contents faults.old faults.new;
    }) result }
{
    syntax_located_command(alloc, file, details, output, faults).status
}

/// How the reading of a file by itself ends.
#[derive(Debug, Drop)]
pub struct ToldAlone {
    /// The exit status.
    pub status: u8,
    /// Why and where the file isn't well formed. A reference has its place by a second reading of the file alone.
    pub ill_formed: Option<IllFormed>,
}

/// As `syntax_command`, with where the file is refused.
pub fn syntax_located_command<R: Read, W: Write, F: Write>(
    alloc: Global,
    file: &mut Watched<R>,
    details: Details,
    output: &mut Watched<W>,
    faults: &mut Watched<F>,
) -> ToldAlone
    ensures consumed { TakesAtMost (usual.file_source + 1) (R.remaining file.old.inner) (R.remaining file.new.inner) }
    ensures ends { EndsReading (IsTold details) IsIllFormedLine (record {
      input = stream_of R.remaining file.old file.new;
      output = stream_of W.contents output.old output.new;
      faults = stream_of F.contents faults.old faults.new;
    }) result.status }
{
    let mut ill_formed = None;
    match read_alone(alloc, file, details, &mut ill_formed) {
        Ok(text) => ToldAlone {
            status: answer(&text, output, faults),
            ill_formed,
        },
        Err(fault) => ToldAlone {
            status: report(&fault, faults),
            ill_formed,
        },
    }
}

/// What is told of a file that is well formed. Of another one it notes why and where it isn't.
fn read_alone<R: Read>(
    alloc: Global,
    file: &mut Watched<R>,
    details: Details,
    noted: &mut Option<IllFormed>,
) -> Result<Vec<u8>, CommandFault>
    ensures ok { IfOk result (λ text. IsTold details (R.remaining file.old.inner) (R.remaining file.new.inner) text.items) }
    ensures err { IfErr result (RefusesWith (IsIllFormedLine (R.remaining file.old.inner) (R.remaining file.new.inner))) }
    ensures consumed { TakesAtMost (usual.file_source + 1) (R.remaining file.old.inner) (R.remaining file.new.inner) }

    ensures read { OnOk result (file.new.failures ≡ file.old.failures) }
    ensures failed { IfErr result (FailedBy (failures_of file.old file.new ∷ []) []) }
{
    let found = match syntax_located(alloc, Limits::usual(), file) {
        Ok(found) => found,
        Err(ill_formed) => {
            let refusal = ill_formed.refusal;
            *noted = Some(ill_formed);
            return Err(fault_of(alloc, "", refusal));
        }
    };
    match told_text(alloc, &found, details) {
        Ok(text) => Ok(text),
        Err(NoMemory) => Err(CommandFault::NoMemory),
    }
}

/// What is told of a file by what was found of it.
pub(crate) fn told_text(
    alloc: Global,
    found: &WellFormed,
    details: Details,
) -> Result<Vec<u8>, NoMemory>
    ensures { IfOk result (λ text. text.items ≡ syntax_text details found.now) }
{
    let mut text = answer_line_of(alloc, found)?;
    push_header(alloc, &mut text, &found.header, details.header)?;
    push_counts(alloc, &mut text, &found.keywords, details.count)?;
    Ok(text)
}

/// The line that says that a file is well formed.
fn answer_line_of(alloc: Global, found: &WellFormed) -> Result<Vec<u8>, NoMemory>
    ensures { IfOk result (λ line. line.items ≡ syntax_answer_line found.now.instances found.now.schema.items) }
{
    let instances = found.instances;
    let mut line = format!(in alloc; "well formed, instances {instances}, schema ")?.into_bytes();
    line.extend_from_slice(&found.schema)?;
    line.push(b'\n')?;
    Ok(line)
}

/// Appends a header in words, if that is asked for.
fn push_header(
    alloc: Global,
    text: &mut Vec<u8>,
    header: &[Part],
    is_asked: bool,
) -> Result<(), NoMemory>
    ensures { OnOk result (text.new.items ≡ behind text.old.items is_asked (header_text (part_views header.now))) }
{
    if !is_asked {
        return Ok(());
    }
    text.extend_from_slice(&header_words(alloc, header)?)?;
    Ok(())
}

/// Appends the lines of keywords, if they are asked for.
fn push_counts(
    alloc: Global,
    text: &mut Vec<u8>,
    keywords: &KeywordCounts,
    is_asked: bool,
) -> Result<(), NoMemory>
    ensures { OnOk result (text.new.items ≡ behind text.old.items is_asked (counts_text keywords.now)) }
{
    if !is_asked {
        return Ok(());
    }
    text.extend_from_slice(&keywords.text(alloc)?)?;
    Ok(())
}
