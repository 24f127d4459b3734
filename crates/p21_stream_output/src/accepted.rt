//! An accepted file keeps the number of the statement that was open at the end of its bytes, which `finish` gives it,
//! so that `Accepted::write_to` answers the refusal 92 as `rewrite` does. That is eight bytes a file. `Refusal` stands
//! with `Fault`, below all that refuses files. `NoMemory`, `ReadFault` and `WriteFault` are one case each; their
//! numbers and names are those of the fault that a caller makes of them: 90, 91 and 92.
ghost use Rattle.std.specs.Prelude.{◌≡◌, ◌≤◌, ◌<◌, ◌↔◌, ℕ, length, Contains, IfErr, IfSome, IsNone, IsTrue, OnErr, OnOk};
ghost use Rattle.std.specs.Io.KnownBytes.{Appends};
ghost use Rattle.p21_stream_output.specs.Output.{HasLines, IsLineOf, IsSectionLine, output_text};
ghost use Rattle.p21_stream_output.specs.Reading.{Takes, rest_at, start};
ghost use Rattle.p21_stream_output.specs.Stored.{AreFiled, HavePositions, output_of};
ghost use Rattle.p21_stream_io.specs.Transfer.{AppendsPartOf};
ghost use Rattle.p21_stream_io.specs.Watch.{one_call_more};
ghost use Rattle.p21_stream_statements.specs.declared.fault.Fault.TheVariants as fault;
ghost use Rattle.p21_stream_statements.specs.declared.refusal.At.TheVariants as at;
ghost use Rattle.p21_stream_store.specs.StoredInstance.{StoredInstance, instance_names};

use crate::compare::is_file;
use crate::cursor::{Cursor, Parts};
use crate::output::write_file;
use crate::search::section_line;
use p21_stream_io::Watched;
use p21_stream_statements::{At, Fault, Refusal};
use p21_stream_store::{Instances, Numbers};
use p21_values::Name;
use std::fmt;
use std::io::Write;
use std::marker::Model;

/// A data section: its canonical `DATA` with its `;`, and the positions of its instances in the order in which they are
/// written.
#[derive(Drop)]
pub struct Section {
    pub line: Vec<u8>,
    pub instance_positions: Numbers,
}

/// An accepted file in its canonical form.
pub struct Accepted {
    header: Vec<u8>,
    sections: Vec<Section>,
    instances: Instances,
    len: u64,
    // The number of the statement that was open at the end of the bytes, which a refusal of a write names.
    statement: u64,
}

// Written out: crates above call it, where they would prove a derived one field by field.
impl Drop for Accepted {
    fn drop(self) {
        let Accepted {
            header: _,
            sections: _,
            instances: _,
            len: _,
            statement: _,
        } = self;
    }
}

impl fmt::Debug for Accepted {
    fn fmt<W: fmt::Write>(&self, f: &mut fmt::Formatter<W>) -> fmt::Result {
        let count = self.count();
        let len = self.len();
        write!(f, "Accepted {{ count: {count}, len: {len} }}")
    }
}

impl Model for Accepted {
    ghost use Rattle.std.specs.Prelude.{◌≡◌, length};
    ghost use Rattle.p21_stream_output.specs.Output.{HasLines, Output, output_text};
    ghost use Rattle.p21_stream_output.specs.Stored.{AreFiled, HavePositions, output_of};

    ghost Value = { Output };

    ghost view = { λ a. output_of a.header.items a.sections.items a.instances a.statement };

    ghost invariant = { λ a. HavePositions a.instances a.sections.items × (a.len ≡ length (output_text (output_of a.header.items a.sections.items a.instances a.statement))) × HasLines (output_of a.header.items a.sections.items a.instances a.statement) × AreFiled a.instances a.sections.items };
}

impl Accepted {
    /// The canonical lines of the header records, each with its line feed; the data sections in the order in which they
    /// are written; the instances; the bytes of the canonical file; and the number of the statement that was open at the end
    /// of the bytes. It takes no memory.
    pub fn new(
        header: Vec<u8>,
        sections: Vec<Section>,
        instances: Instances,
        len: u64,
        statement: u64,
    ) -> Accepted
        requires placed { HavePositions instances sections.items }
        requires len { len ≡ length (output_text (output_of header.items sections.items instances statement)) }
        requires lines { HasLines (output_of header.items sections.items instances statement) }
        requires filed { AreFiled instances sections.items }
        ensures { result ≡ output_of header.items sections.items instances statement }
    {
        Accepted {
            header,
            sections,
            instances,
            len,
            statement,
        }
    }

    /// How many instances the file has. It takes no memory.
    pub fn count(&self) -> u64
        ensures { result ≡ length self.now.kept }
    {
        self.instances.len() as u64
    }

    /// The bytes of the canonical file. It takes no memory.
    pub fn len(&self) -> u64
        ensures { result ≡ length (output_text self.now) }
    {
        self.len
    }

    /// The line of an instance in the canonical file, without its line feed, if there is one of this name. It takes no memory.
    pub fn line(&self, name: Name) -> Option<&[u8]>
        ensures some { IfSome result (λ text. (membership : ℕ)
            × Contains self.now.kept (record { name = name; membership = membership; text = text.now })) }
        ensures line { IfSome result (λ text. IsLineOf name text.now (output_text self.now)) }
        ensures none { IsNone result → Contains (instance_names self.now.kept) name → ⊥ }
    {
        match self.instances.find(name.0) {
            Some((_, text)) => Some(text),
            None => None,
        }
    }

    /// The name and the line of the first instance whose name is this one or above it, if there is one. It takes no memory.
    pub fn first_from(&self, least: Name) -> Option<(Name, &[u8])>
        ensures some { IfSome result (λ found. (membership : ℕ)
            × Contains self.now.kept (record { name = found.0; membership = membership; text = found.1.now })) }
        ensures line { IfSome result (λ found. IsLineOf found.0 found.1.now (output_text self.now)) }
        ensures from { IfSome result (λ found. least ≤ found.0) }
        ensures between { IfSome result (λ found. (other : ℕ) → least ≤ other → other < found.0
            → Contains (instance_names self.now.kept) other → ⊥) }
        ensures none { IsNone result → (other : ℕ) → least ≤ other → Contains (instance_names self.now.kept) other → ⊥ }
    {
        let Some((name, _)) = self.instances.next_from(least.0) else {
            return None;
        };
        let Some(line) = self.line(Name(name)) else {
            return None;
        };
        Some((Name(name), line))
    }

    /// The line in the canonical file with which the data section begins that the instance of this name stands in, without its
    /// line feed, if there is such an instance. It takes no memory, and a search by halves in each section.
    pub fn section_line(&self, name: Name) -> Option<&[u8]>
        ensures some { IfSome result (λ line. IsSectionLine self.now name line.now) }
        ensures none { IsNone result → Contains (instance_names self.now.kept) name → ⊥ }
    {
        section_line(&self.sections, &self.instances, name.0)
    }

    /// Writes the canonical file, and nothing else. What was written is the beginning of it, also where a write fails; no
    /// byte stands in a buffer afterwards. It takes no memory.
    ///
    /// # Errors
    ///
    /// `Write`, at the statement that was open at the end of the bytes, where a write answers an error, whatever its kind, or
    /// takes none of some bytes.
    pub fn write_to<W: Write>(&self, writer: &mut Watched<W>) -> Result<(), Refusal>
        ensures ok { OnOk result (Appends (W.contents writer.old.inner) (W.contents writer.new.inner) (output_text self.now)) }
        ensures err { OnErr result (AppendsPartOf (W.contents writer.old.inner) (W.contents writer.new.inner) (output_text self.now)) }

        ensures written { OnOk result (writer.new.failures ≡ writer.old.failures) }
        ensures failed { OnErr result (writer.new.failures ≡ one_call_more writer.old.failures) }

        ensures refusal { IfErr result (λ refusal. refusal ≡ record { fault = fault.Write; at = at.Statement self.now.statement }) }
    {
        match write_file(writer, &self.header, &self.sections, &self.instances) {
            Ok(()) => Ok(()),
            Err(_) => Err(Refusal {
                fault: Fault::Write,
                at: At::Statement(self.statement),
            }),
        }
    }

    /// Reads on in the canonical file from where a cursor stands: fills a buffer as far as the file goes, moves the cursor behind
    /// what it put there, and says how many bytes that are. There are none only where the file is at its end or the buffer has no
    /// room. `Cursor::start` stands at the beginning, and each reading has a cursor of its own. It takes no memory.
    pub fn read(&self, cursor: &mut Cursor, buffer: &mut [u8]) -> usize
        ensures takes { Takes (rest_at self.now cursor.old) (rest_at self.now cursor.new) buffer.old buffer.new result }
        ensures whole { rest_at self.now start ≡ output_text self.now }
    {
        let parts = Parts {
            header: &self.header,
            sections: &self.sections,
            instances: &self.instances,
        };
        parts.fill(cursor, buffer)
    }

    /// Whether a text is the canonical file. It takes no memory.
    pub fn is_text(&self, text: &[u8]) -> bool
        ensures { IsTrue result ↔ (text.now ≡ output_text self.now) }
    {
        is_file(text, &self.header, &self.sections, &self.instances)
    }
}
