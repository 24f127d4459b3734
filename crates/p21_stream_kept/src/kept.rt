//! A header line is appended before it is measured; if it is too long, the session refuses and never writes it.
ghost use Rattle.std.specs.Prelude.{◌≡◌, ◌≢◌, ◌≤◌, ◌↔◌, ◌+◌, [], Contains, IfErr, IsTrue, OnErr, OnOk, length, map, nat_eq, true, vec_capacity};
ghost use Rattle.std.specs.List.{AllZip, IsDistinct};
ghost use Rattle.p21_spec_basics.specs.Limits.{Limits as MeantLimits};
ghost use Rattle.p21_spec_laws.specs.Beside.{IsSameAs, earlier_of};
ghost use Rattle.p21_spec_laws.specs.Keeping.{Keeps, nothing_counted, nothing_kept, nothing_with};
ghost use Rattle.p21_spec_laws.specs.Stored.{Earlier as MeantEarlier, StoredEntry, beside, with_lines};
ghost use Rattle.p21_spec_exchange.specs.Statement.{Statement, data_start, header, instance, section};
ghost use Rattle.p21_grammar.specs.Statements.{line_of};
ghost use Rattle.p21_grammar_tree.specs.View.{items_of, part_view, record_view, views};
ghost use Rattle.p21_mapping.specs.Checked.{needs_view};
ghost use Rattle.p21_mapping_values.specs.TypedView.{ids_view};
ghost use Rattle.p21_spec_schema.specs.Schema.{Schema as MeantSchema};
ghost use Rattle.p21_stream_output.specs.Ending.{IsFileOfKept};
ghost use Rattle.p21_stream_statements.specs.Source.{IsOfStatement};
ghost use Rattle.p21_stream_kept.specs.Inside.{references_of};
ghost use Rattle.p21_stream_kept.specs.KeptInstances.{are_equal, instances_of, lines_kept};
ghost use Rattle.p21_stream_kept.specs.Judgements.{AnswersNeedOf};
ghost use Rattle.p21_stream_kept.specs.Served.{AnswersUnserved};
ghost use Rattle.p21_stream_kept.specs.Steps.{FoundGives, StepGives, StepKeepsBound, TakesLine};
ghost use Rattle.p21_stream_kept.specs.Taking.{Follows, FollowsFound, IsKeptOfFile};

use crate::beside::Beside;
use crate::canonical_limits::fits_limits;
use crate::earlier::Earlier;
use crate::end::named_sections_of;
use crate::found::{FoundInstance, find_instance};
use crate::judgements::refusals_of;
use crate::kept_instances::KeptInstances;
use crate::schema_name::names_schema;
use crate::sections::Sections;
use crate::served::{first_unserved, learn_waiting};
use crate::servers::Servers;
use crate::shape::{heading, line_size, schema_text};
use crate::stored::Stored;
use crate::waiting::Waiting;
use crate::workspace::Workspace;
use p21_canon::write_header;
use p21_grammar::Line;
use p21_grammar_tree::{Part, Record};
use p21_mapping_values::Need;
use p21_schema::Schema;
use p21_stream_output::{Accepted, accepted_file};
use p21_stream_statements::Fault;
use p21_stream_store::{Instances, NamedMemberships};
use p21_values::{Canonical, Limits, Name, NoMemory, Text};
use std::alloc::Global;
use std::marker::Model;

/// The canonical lines of header records and instances, the data sections, and the references that wait for the end of
/// the file.
pub struct Kept {
    pub(crate) alloc: Global,
    // The canonical lines of the header records, each with its line feed.
    pub(crate) header: Vec<u8>,
    pub(crate) sections: Sections,
    // With their lines, where these are kept.
    pub(crate) stored: Stored,
    pub(crate) waiting: Waiting,
    pub(crate) servers: Servers,
    // All references, those that don't wait among them.
    pub(crate) references: u64,
    // The bytes of the canonical lines of header records and instances, without line feeds.
    pub(crate) bytes: u64,
    // Those of section lines, and the line feeds of the others.
    pub(crate) framing: u64,
}

// Written out: crates above call it, where they would prove a derived one field by field.
impl Drop for Kept {
    fn drop(self) {
        let Kept {
            alloc: _,
            header: _,
            sections: _,
            stored: _,
            waiting: _,
            servers: _,
            references: _,
            bytes: _,
            framing: _,
        } = self;
    }
}

/// A reference to an instance that has not come, or that doesn't serve.
#[derive(Clone, Copy)]
pub struct Reference {
    pub holder: Name,
    pub need: Need,
}

impl Model for Kept {
    ghost use Rattle.p21_spec_laws.specs.Keeping.{Kept as Meant};
    ghost use Rattle.p21_stream_kept.specs.Inside.{IsWhole, kept_of};

    ghost Value = { Meant };

    ghost view = { kept_of };

    ghost invariant = { IsWhole };
}

impl Kept {
    /// What is kept where nothing was taken. It takes no memory.
    pub fn new(alloc: Global) -> Kept
        ensures { result ≡ nothing_kept }
    {
        Kept::nothing(alloc, KeptInstances::WithLines(Instances::new(alloc)))
    }

    /// The same where the lines of instances won't be kept, but counted. It takes no memory.
    pub fn counting(alloc: Global) -> Kept
        ensures { result ≡ nothing_counted }
    {
        Kept::nothing(alloc, KeptInstances::Counted(NamedMemberships::new(alloc)))
    }

    /// The same where the lines of instances won't be kept, but held against those of an earlier file, by what is kept of it.
    pub fn beside(alloc: Global, earlier: Kept) -> Kept
        requires keeps { (s : MeantSchema) × (limits : MeantLimits) × (given : List Statement) × Keeps s limits given earlier }
        requires lines { earlier.lines ≡ with_lines }
        ensures { result ≡ nothing_with (beside (earlier_of earlier)) }
    {
        let Kept {
            alloc: _,
            header,
            sections,
            stored,
            waiting: _,
            servers: _,
            references: _,
            bytes: _,
            framing: _,
        } = earlier;
        let Stored {
            memberships,
            instances,
        } = stored;
        let earlier = Earlier::new(header, sections, memberships, instances.into_lines());
        Kept::nothing(alloc, KeptInstances::Beside(Beside::new(alloc, earlier)))
    }

    /// What is kept where nothing was taken, with what will keep the instances.
    fn nothing(alloc: Global, instances: KeptInstances) -> Kept
        requires none { instances_of instances ≡ [] }
        requires equal { are_equal instances ≡ true }
        ensures { result ≡ nothing_with (lines_kept instances) }
    {
        Kept {
            alloc,
            header: Vec::new(alloc),
            sections: Sections::new(alloc),
            stored: Stored::new(alloc, instances),
            waiting: Waiting::new(alloc),
            servers: Servers::new(alloc),
            references: 0,
            bytes: 0,
            framing: 0,
        }
    }

    /// Takes a section line without a name.
    ///
    /// # Errors
    ///
    /// `CanonicalTooLong`, `NoMemory`.
    pub fn take_line(&mut self, limits: Limits, line: Line) -> Result<(), Fault>
        ensures gives { TakesLine limits self.old (line_of line) result self.new }
        ensures bound { StepKeepsBound limits self.old self.new }
        ensures lines { self.new.lines ≡ self.old.lines }
        ensures kind { IfErr result (λ fault. IsOfStatement fault) }
    {
        let size = line_size(line);
        if !fits_limits(limits, self.bytes, self.framing, size) {
            return Err(Fault::CanonicalTooLong);
        }
        let Ok(()) = self.sections.begin(line) else {
            return Err(Fault::NoMemory);
        };
        self.framing += size + 1;
        Ok(())
    }

    /// Takes the line that begins a data section, by its record.
    ///
    /// # Errors
    ///
    /// `SchemaName` where its text doesn't name the schema, `SectionTwice` where a section before it has its name,
    /// `CanonicalTooLong`, `NoMemory`.
    #[tactic(auto, using(crate::proofs::ByMembership::sections_wider))]
    pub fn take_heading(&mut self, schema: &Schema, limits: Limits, part: Part) -> Result<(), Fault>
        ensures gives { StepGives schema.now limits self.old (section (data_start (heading_of (views (items_of part.params))))) result
            self.new }
        ensures bound { StepKeepsBound limits self.old self.new }
        ensures lines { self.new.lines ≡ self.old.lines }
        ensures kind { IfErr result (λ fault. IsOfStatement fault) }
    {
        let Some((name, text)) = heading(&part) else {
            return self.take_line(limits, Line::DataStart);
        };
        if !names_schema(text.chars(), schema.name()) {
            return Err(Fault::SchemaName);
        }
        if self.sections.has_name(name) {
            return Err(Fault::SectionTwice);
        }
        let Ok(line) = heading_line(self.alloc, name, text) else {
            return Err(Fault::NoMemory);
        };
        let bytes = line.len() as u64;
        if !fits_limits(limits, self.bytes, self.framing, bytes) {
            return Err(Fault::CanonicalTooLong);
        }
        let Ok(()) = self.sections.add(self.alloc, part) else {
            return Err(Fault::NoMemory);
        };
        self.framing += bytes + 1;
        Ok(())
    }

    /// Takes a record of the header section.
    ///
    /// # Errors
    ///
    /// `SchemaName` where it is a `FILE_SCHEMA` whose text doesn't name the schema, `CanonicalTooLong`, `NoMemory`.
    pub fn take_header(&mut self, schema: &Schema, limits: Limits, part: &Part) -> Result<(), Fault>
        ensures gives { StepGives schema.now limits self.old (header (part_view part.now)) result self.new }
        ensures bound { StepKeepsBound limits self.old self.new }
        ensures lines { self.new.lines ≡ self.old.lines }
        ensures kind { IfErr result (λ fault. IsOfStatement fault) }
    {
        if !has_schema_name(part, schema.name()) {
            return Err(Fault::SchemaName);
        }
        let Ok(size) = append_record(part, &mut self.header) else {
            return Err(Fault::NoMemory);
        };
        if !fits_limits(limits, self.bytes, self.framing, size) {
            return Err(Fault::CanonicalTooLong);
        }
        self.bytes += size;
        self.framing += 1;
        Ok(())
    }

    /// Takes an instance that stands in a tree behind the statements that are kept: its record is checked, its canonical line
    /// is kept, and so are its references to instances that haven't come or don't serve. The workspace keeps no long line.
    ///
    /// # Errors
    ///
    /// In this order: `DuplicateName`, `Check`, `CanonicalTooLong`. `NoMemory`.
    pub fn take_instance(
        &mut self,
        schema: &Schema,
        limits: Limits,
        name: Name,
        of: Record,
        workspace: &mut Workspace,
    ) -> Result<(), Fault>
        requires { Follows schema.now limits self.old (instance name (record_view of)) }
        ensures gives { StepGives schema.now limits self.old (instance name (record_view of)) result self.new }
        ensures bound { StepKeepsBound limits self.old self.new }
        ensures lines { self.new.lines ≡ self.old.lines }
        ensures kind { IfErr result (λ fault. IsOfStatement fault) }
        ensures unchanged { IfErr result (λ fault. fault ≢ Fault.NoMemory → self.new ≡ self.old) }
        ensures short { vec_capacity workspace.new.line ≤ 65536 }
    {
        let result = self.take_record(schema, limits, name, of, workspace);
        workspace.trim();
        result
    }

    /// Takes an instance, and leaves its canonical line in the workspace.
    fn take_record(
        &mut self,
        schema: &Schema,
        limits: Limits,
        name: Name,
        of: Record,
        workspace: &mut Workspace,
    ) -> Result<(), Fault>
        requires { Follows schema.now limits self.old (instance name (record_view of)) }
        ensures gives { StepGives schema.now limits self.old (instance name (record_view of)) result self.new }
        ensures bound { StepKeepsBound limits self.old self.new }
        ensures lines { self.new.lines ≡ self.old.lines }
        ensures kind { IfErr result (λ fault. IsOfStatement fault) }
        ensures unchanged { IfErr result (λ fault. fault ≢ Fault.NoMemory → self.new ≡ self.old) }
    {
        if self.has_name(name) {
            return Err(Fault::DuplicateName);
        }
        let found = match find_instance(schema, name, of, workspace) {
            Ok(found) => found,
            Err(fault) => return Err(fault),
        };
        let instance = FoundInstance {
            name,
            entities: found.entities.items(),
            line: &workspace.line,
            needs: &found.needs,
        };
        self.keep_found(schema, limits, &instance)
    }

    /// Takes an instance that stands in a tree behind the statements that are kept, by what is found of it.
    ///
    /// # Errors
    ///
    /// In this order: `DuplicateName`, `CanonicalTooLong`. `NoMemory`.
    #[inline]
    pub fn take_found(
        &mut self,
        schema: &Schema,
        limits: Limits,
        found: &FoundInstance<'_>,
    ) -> Result<(), Fault>
        requires { FollowsFound schema.now limits self.old found.now.name (ids_view found.now.entities.now) (needs_view found.now.needs.now)
            found.now.line.now }
        ensures gives { FoundGives schema.now limits self.old found.now.name (ids_view found.now.entities.now)
            (needs_view found.now.needs.now) found.now.line.now result self.new }
        ensures bound { StepKeepsBound limits self.old self.new }
        ensures lines { self.new.lines ≡ self.old.lines }
        ensures kind { IfErr result (λ fault. IsOfStatement fault) }
        ensures unchanged { IfErr result (λ fault. fault ≢ Fault.NoMemory → self.new ≡ self.old) }
    {
        if self.has_name(found.name) {
            return Err(Fault::DuplicateName);
        }
        self.keep_found(schema, limits, found)
    }

    /// Whether a stored instance has this name. It takes no memory.
    pub fn has_name(&self, name: Name) -> bool
        ensures { IsTrue result ↔ Contains (map (λ (x : StoredEntry). x.name) self.now.stored) name }
    {
        self.stored.has_name(name)
    }

    /// Keeps an instance whose name none has before it, by what is found of it.
    ///
    /// # Errors
    ///
    /// `CanonicalTooLong`, `NoMemory`.
    fn keep_found(
        &mut self,
        schema: &Schema,
        limits: Limits,
        found: &FoundInstance<'_>,
    ) -> Result<(), Fault>
        requires another { Contains (map (λ (x : StoredEntry). x.name) self.old.stored) found.now.name → ⊥ }
        requires found { FollowsFound schema.now limits self.old found.now.name (ids_view found.now.entities.now)
            (needs_view found.now.needs.now) found.now.line.now }
        ensures gives { FoundGives schema.now limits self.old found.now.name (ids_view found.now.entities.now)
            (needs_view found.now.needs.now) found.now.line.now result self.new }
        ensures bound { StepKeepsBound limits self.old self.new }
        ensures lines { self.new.lines ≡ self.old.lines }
        ensures kind { IfErr result (λ fault. IsOfStatement fault) }
        ensures unchanged { IfErr result (λ fault. fault ≢ Fault.NoMemory → self.new ≡ self.old) }
    {
        let size = found.line.len() as u64;
        if !fits_limits(limits, self.bytes, self.framing, size) {
            return Err(Fault::CanonicalTooLong);
        }
        let section = self.sections.last();
        let Ok(()) = self.waiting.add(found) else {
            return Err(Fault::NoMemory);
        };
        let Ok(()) = self.stored.push(self.alloc, section, found) else {
            return Err(Fault::NoMemory);
        };
        self.servers.note_size(found.entities.len());
        self.bytes += size;
        self.framing += 1;
        self.references += found.needs.len() as u64;
        let Ok(()) = self
            .waiting
            .look_again(schema, &self.stored, &mut self.servers, self.references)
        else {
            return Err(Fault::NoMemory);
        };
        Ok(())
    }

    /// The bytes of the canonical lines of header records and instances, without line feeds.
    pub fn size(&self) -> u64
        ensures { result ≡ self.now.bytes }
    {
        self.bytes
    }

    /// How many instances there are.
    pub fn count(&self) -> u64
        ensures { result ≡ length self.now.stored }
    {
        self.stored.instances.len() as u64
    }

    /// The bytes of all canonical lines, with their line feeds.
    pub fn len(&self) -> u64
        ensures { result ≡ self.now.bytes + self.now.framing }
    {
        self.bytes + self.framing
    }

    /// How many references the instances have.
    pub fn references(&self) -> u64
        ensures { result ≡ self.now.references }
    {
        self.references
    }

    /// Has it remembered which entities of large sets serve the references that wait, so that none is looked for twice.
    ///
    /// # Errors
    ///
    /// `NoMemory`, which changes nothing; not where no reference waits.
    pub fn prepare_unserved(&mut self, schema: &Schema) -> Result<(), NoMemory>
        ensures unchanged { self.new ≡ self.old }
        ensures none { self.old.waiting ≡ [] → OnErr result ⊥ }
    {
        learn_waiting(
            schema,
            &self.stored,
            &mut self.servers,
            self.waiting.items(),
        )
    }

    /// The first reference in the file that no instance serves, by the name of the instance that has it: `Dangling` where
    /// it names no instance, `WrongTarget` where that isn't of the type. It takes no memory.
    pub fn first_unserved(&self, schema: &Schema) -> Option<(Name, Fault)>
        ensures { AnswersUnserved schema.now self.now.stored self.now.waiting result }
    {
        first_unserved(schema, &self.stored, &self.servers, self.waiting.items())
    }

    /// The references that wait, in the order of the file. It takes no memory.
    pub fn waiting(&self) -> &[Reference]
        ensures { references_of result.now ≡ self.now.waiting }
    {
        self.waiting.items()
    }

    /// Why no instance serves each of the references that wait, in the order of the file: `Dangling` where none has its name,
    /// `WrongTarget` where the one that has it isn't of the type; none where one serves.
    ///
    /// # Errors
    ///
    /// `NoMemory`.
    pub fn waiting_refusals(&self, schema: &Schema) -> Result<Vec<Option<Fault>>, NoMemory>
        ensures { IfOk result (λ refusals. AllZip (AnswersNeedOf schema.now self.now.stored) self.now.waiting refusals.items) }
    {
        refusals_of(self.alloc, schema, &self.stored, self.waiting.items())
    }

    /// Whether the file is the same as the one that was read before it, where there is such a one.
    ///
    /// # Errors
    ///
    /// `NoMemory`.
    pub fn is_same(&self) -> Result<bool, NoMemory>
        requires { IsDistinct nat_eq (map (λ (x : StoredEntry). x.name) self.now.stored) }
        ensures { (earlier : MeantEarlier) → self.now.lines ≡ beside earlier
            → IfOk result (λ same. IsTrue same ↔ IsSameAs earlier self.now) }
    {
        match &self.stored.instances {
            KeptInstances::Beside(later) => {
                later.is_same(
                    self.alloc,
                    &self.header,
                    &self.sections,
                    &self.stored.memberships,
                )
            }
            _ => Ok(false),
        }
    }

    /// The accepted file of what is kept, where lines are, and where all references are served. The statements are those of a whole file, and the
    /// number is that of the one that is open behind them.
    ///
    /// # Errors
    ///
    /// `NoMemory`.
    pub fn into_accepted(self, statement: u64) -> Result<Accepted, NoMemory>
        requires { IsKeptOfFile self }
        ensures kept { IfOk result (λ file. (s : MeantSchema) (limits : MeantLimits) (given : List Statement) → Keeps s limits given self
            → IsFileOfKept self file) }
        ensures statement { IfOk result (λ file. file.statement ≡ statement) }
    {
        let Kept {
            alloc,
            header,
            sections,
            stored,
            waiting,
            servers,
            references: _,
            bytes,
            framing,
        } = self;
        // The references that waited have no use any more, and their room is given back before more is asked for.
        drop(waiting);
        drop(servers);
        let Stored {
            memberships,
            instances,
        } = stored;
        let instances = instances.into_lines();
        let parts = named_sections_of(alloc, sections.items())?;
        accepted_file(
            alloc,
            header,
            parts,
            &memberships,
            instances,
            bytes + framing,
            statement,
        )
    }
}

ghost use Rattle.std.specs.Prelude.{◌++◌, ℕ, List, IfOk, false};
ghost use Rattle.p21_spec_exchange.specs.CanonicalText.{line, statement_text};
ghost use Rattle.p21_spec_exchange.specs.Header.{IsFileSchema};
ghost use Rattle.p21_spec_schema.specs.SchemaName.{NamesSchema};

/// Whether the text of a `FILE_SCHEMA` names the schema; true of any other record.
fn has_schema_name(part: &Part, name: &[u8]) -> bool
    ensures yes { IsTrue result → (chars : List ℕ) → IsFileSchema (part_view part.now) chars → NamesSchema chars name.now }
    ensures no { result ≡ false → (chars : List ℕ) × IsFileSchema (part_view part.now) chars × ¬ NamesSchema chars name.now }
{
    match schema_text(part) {
        Some(text) => names_schema(text.chars(), name),
        None => true,
    }
}

/// Appends the canonical line of a header record, and says how many bytes it has, its line feed apart.
fn append_record(part: &Part, out: &mut Vec<u8>) -> Result<u64, NoMemory>
    ensures size { IfOk result (λ size. size ≡ length (statement_text (header (part_view part.now)))) }
    ensures line { OnOk result (out.new.items ≡ out.old.items ++ line (header (part_view part.now))) }
{
    let before = out.len();
    write_header(part, out)?;
    let size = (out.len() - before) as u64;
    out.push(b'\n')?;
    Ok(size)
}

ghost use Rattle.p21_spec_exchange.specs.DataSection.{named, heading_of};

/// The canonical line that begins a data section with a name, its line feed apart.
pub(crate) fn heading_line(alloc: Global, name: &Text, text: &Text) -> Result<Vec<u8>, NoMemory>
    ensures { IfOk result (λ line. line.items ≡ statement_text (section (data_start (named name.now text.now)))) }
{
    let mut line = Vec::from_slice(alloc, b"DATA(")?;
    name.write_canonical(&mut line)?;
    line.extend_from_slice(b",(")?;
    text.write_canonical(&mut line)?;
    line.extend_from_slice(b"));")?;
    Ok(line)
}
