//! Checks of several files under one schema, which is read once.
ghost use Rattle.std.specs.Prelude.{◌≡◌, ◌⊎◌, [], ◌∷◌, IfErr, IfOk, OnOk, max};
ghost use Rattle.p21_spec_basics.specs.Limits.{usual};
ghost use Rattle.p21_commands.specs.Checks.{EndsChecking, EndsCheckingApart, EndsListingOf, EndsWithout, IsOfCheck};
ghost use Rattle.p21_commands.specs.Failures.{FailedBy, failures_of};
ghost use Rattle.p21_commands.specs.Fault.{Reports};
ghost use Rattle.p21_commands.specs.Load.{DeclaresRead, RefusesRead as RefusesSchema};
ghost use Rattle.p21_commands.specs.Status.{done, failed};
ghost use Rattle.p21_commands.specs.Streams.{stream_of};
ghost use Rattle.p21_commands.specs.Tells.{TellsFound, TellsSurvey};
ghost use Rattle.p21_commands.specs.Transfer as text;
ghost use Rattle.p21_stream.specs.ReaderInput.{ConsumesAtMost, IsCountedInput, RefusesRead, read_failures};
ghost use Rattle.p21_stream.specs.Survey.{EndsByRead, ListsAtMost, SurveysInput, asked_for};
ghost use Rattle.p21_stream_io.specs.Watch.{one_call_more};

use crate::check::{Told, check_file, check_file_located};
use crate::check_all::list_refusals;
use crate::check_numbered::{check_file_numbered, tell_file_numbered};
use crate::fault::{CommandFault, report};
use crate::load::{Unloaded, load_located, load_schema};
use crate::located::{write_found, write_survey};
use crate::second_reading::{Met, SecondReading};
use crate::status::{DONE, FAILED};
use crate::telling::{Telling, subject_text};
use p21_schema::Schema;
use p21_stream::{Counted, Located, LocatedSurvey, Watched, count_located, survey_located};
use p21_values::{Limits, NoMemory};
use std::alloc::Global;
use std::io::{Read, Write};
use std::marker::Model;

/// Files are checked under a schema, one after the other, and the highest of their statuses is kept.
#[derive(Drop)]
pub struct Checks {
    schema: Schema,
    highest: u8,
}

impl Model for Checks {
    ghost use Rattle.p21_commands.specs.Checks.{Checked, IsOfCheck, checked_code};

    ghost Value = { Checked };

    ghost coded = { checked_code };

    ghost view = { λ checks. record { declared = checks.schema; highest = checks.highest } };

    ghost invariant = { λ checks. IsOfCheck checks.highest };
}

impl Checks {
    /// Reads the schema. No file is checked yet.
    ///
    /// # Errors
    ///
    /// The exit status, where a line in `faults` says why there is no schema.
    pub fn new<S: Read, F: Write>(
        alloc: Global,
        schema: &mut Watched<S>,
        faults: &mut Watched<F>,
    ) -> Result<Checks, u8>
        ensures consumed { text.ConsumesAtMost (S.remaining schema.old.inner) (S.remaining schema.new.inner) }
        ensures declares { IfOk result (λ checks. DeclaresRead (S.remaining schema.old.inner) checks.declared) }
        ensures none { IfOk result (λ checks. checks.highest ≡ done) }
        ensures read { OnOk result (schema.new.failures ≡ schema.old.failures) }
        ensures silent { OnOk result (faults.new ≡ faults.old) }
        ensures err { IfErr result (EndsWithout (stream_of S.remaining schema.old schema.new) (stream_of F.contents faults.old faults.new)) }
    {
        match load_schema(alloc, schema) {
            Ok(schema) => Ok(Checks {
                schema,
                highest: DONE,
            }),
            Err(fault) => Err(report(&fault, faults)),
        }
    }

    /// Reads the schema. No file is checked yet, and nothing is written.
    ///
    /// # Errors
    ///
    /// Why there is no schema, and where its text is refused.
    pub fn load<S: Read>(alloc: Global, schema: &mut Watched<S>) -> Result<Checks, Unloaded>
        ensures consumed { text.ConsumesAtMost (S.remaining schema.old.inner) (S.remaining schema.new.inner) }
        ensures declares { IfOk result (λ checks. DeclaresRead (S.remaining schema.old.inner) checks.declared) }
        ensures none { IfOk result (λ checks. checks.highest ≡ done) }
        ensures read { OnOk result (schema.new.failures ≡ schema.old.failures) }
        ensures err { IfErr result (λ unloaded. RefusesSchema (S.remaining schema.old.inner) unloaded.fault) }
        ensures failed { IfErr result (λ unloaded. FailedBy (failures_of schema.old schema.new ∷ []) [] unloaded.fault) }
    {
        match load_located(alloc, schema) {
            Ok(schema) => Ok(Checks {
                schema,
                highest: DONE,
            }),
            Err(unloaded) => Err(unloaded),
        }
    }

    /// Reads a file, and writes what `check_command` writes of it. Answers the status of this file.
    pub fn check<R: Read, W: Write, F: Write>(
        &mut self,
        alloc: Global,
        file: &mut Watched<R>,
        output: &mut Watched<W>,
        faults: &mut Watched<F>,
    ) -> u8
        ensures consumed { ConsumesAtMost usual (R.remaining file.old.inner) (R.remaining file.new.inner) }
        ensures ends { EndsChecking self.old.declared (stream_of R.remaining file.old file.new)
            (stream_of W.contents output.old output.new) (stream_of F.contents faults.old faults.new) result }
        ensures schema { self.new.declared ≡ self.old.declared }
        ensures highest { self.new.highest ≡ max self.old.highest result }
    {
        let status = check_file(alloc, &self.schema, file, output, faults);
        self.highest = self.highest.max(status);
        status
    }

    /// Reads a file, and writes what `check_numbered_command` writes of it. Answers the status of this file.
    pub fn check_numbered<R: Read, W: Write, F: Write>(
        &mut self,
        alloc: Global,
        file: &mut Watched<R>,
        output: &mut Watched<W>,
        faults: &mut Watched<F>,
    ) -> u8
        ensures consumed { ConsumesAtMost usual (R.remaining file.old.inner) (R.remaining file.new.inner) }
        ensures ends { EndsCheckingApart self.old.declared (stream_of R.remaining file.old file.new)
            (stream_of W.contents output.old output.new) (stream_of F.contents faults.old faults.new) result }
        ensures schema { self.new.declared ≡ self.old.declared }
        ensures highest { self.new.highest ≡ max self.old.highest result }
    {
        let status = check_file_numbered(alloc, &self.schema, file, output, faults);
        self.highest = self.highest.max(status);
        status
    }

    /// Reads a file, and writes what `check_all_command` writes of it. Answers the status of this file.
    pub fn check_all<R: Read, W: Write, F: Write>(
        &mut self,
        alloc: Global,
        file: &mut Watched<R>,
        most: u64,
        output: &mut Watched<W>,
        faults: &mut Watched<F>,
    ) -> u8
        ensures consumed { ConsumesAtMost usual (R.remaining file.old.inner) (R.remaining file.new.inner) }
        ensures ends { EndsListingOf most self.old.declared (stream_of R.remaining file.old file.new)
            (stream_of W.contents output.old output.new) (stream_of F.contents faults.old faults.new) result }
        ensures schema { self.new.declared ≡ self.old.declared }
        ensures highest { self.new.highest ≡ max self.old.highest result }
    {
        let status = list_refusals(alloc, &self.schema, file, most, output, faults);
        self.highest = self.highest.max(status);
        status
    }

    /// Reads a file, and writes what `check_located` writes of it. Answers the status of this file, and where it is refused.
    pub fn check_located<R: Read, W: Write, F: Write>(
        &mut self,
        alloc: Global,
        file: &mut Watched<R>,
        output: &mut Watched<W>,
        faults: &mut Watched<F>,
    ) -> Told
        ensures status { IsOfCheck result.status }
        ensures consumed { ConsumesAtMost usual (R.remaining file.old.inner) (R.remaining file.new.inner) }
        ensures ends { EndsChecking self.old.declared (stream_of R.remaining file.old file.new)
            (stream_of W.contents output.old output.new) (stream_of F.contents faults.old faults.new) result.status }
        ensures schema { self.new.declared ≡ self.old.declared }
        ensures highest { self.new.highest ≡ max self.old.highest result.status }
    {
        let told = check_file_located(alloc, &self.schema, file, output, faults);
        self.highest = self.highest.max(told.status);
        told
    }

    /// Reads a file up to its first refusal. Nothing is written.
    ///
    /// # Errors
    ///
    /// Those of `count_located`.
    pub fn find<R: Read>(&self, alloc: Global, file: &mut Watched<R>) -> Result<Counted, Located> {
        count_located(alloc, &self.schema, Limits::usual(), file)
    }

    /// Surveys a file, up to so many refusals. Nothing is written.
    ///
    /// # Errors
    ///
    /// `NoMemory`.
    pub fn survey<R: Read>(
        &self,
        alloc: Global,
        file: &mut Watched<R>,
        most: u64,
    ) -> Result<LocatedSurvey, NoMemory>
        ensures surveys { IfOk result (λ located. SurveysInput self.now.declared usual (R.remaining file.old.inner)
            (R.remaining file.new.inner) located.found) }
        ensures counted { IfOk result (λ located. ListsAtMost (asked_for most) located.found) }
        ensures consumed { ConsumesAtMost usual (R.remaining file.old.inner) (R.remaining file.new.inner) }
        ensures ends_by_read { IfOk result (λ located. EndsByRead located.found → file.new.failures ≡ one_call_more file.old.failures) }
        ensures failed { IfOk result (λ located. (file.new.failures ≡ file.old.failures)
            ⊎ ((file.new.failures ≡ one_call_more file.old.failures) × EndsByRead located.found)) }
    {
        survey_located(alloc, &self.schema, Limits::usual(), most, file)
    }

    /// Has a second reading take bytes of a file of this schema.
    pub fn take_again(&self, again: &mut SecondReading, bytes: &[u8]) {
        again.take(&self.schema, bytes);
    }

    /// Of what a refusal is, by what a second reading met of it: `ENTITY.ATTRIBUTE`, or of no attribute `ENTITY`. None where it is
    /// of neither, or memory is refused.
    pub fn subject(
        &self,
        alloc: Global,
        located: &Located,
        met: Option<Met<'_>>,
    ) -> Option<String> {
        subject_text(alloc, &self.schema, located, met)
    }

    /// Writes what `check` writes of a file that is accepted, or why and where it is refused. Answers the status of this file.
    pub fn tell_found<W: Write, F: Write>(
        &mut self,
        alloc: Global,
        found: Result<Counted, Located>,
        telling: &Telling<'_>,
        output: &mut Watched<W>,
        faults: &mut Watched<F>,
    ) -> u8
        ensures status { IsOfCheck result }
        ensures tells { TellsFound found (stream_of W.contents output.old output.new) (stream_of F.contents faults.old faults.new) result }
        ensures schema { self.new.declared ≡ self.old.declared }
        ensures highest { self.new.highest ≡ max self.old.highest result }
    {
        let status = write_found(alloc, &self.schema, found, telling, output, faults);
        self.highest = self.highest.max(status);
        status
    }

    /// Writes what `check_all` writes of a file that is accepted, or why it is refused, with where each refusal stands. Answers the status
    /// of this file.
    pub fn tell_survey<W: Write, F: Write>(
        &mut self,
        alloc: Global,
        found: &LocatedSurvey,
        telling: &Telling<'_>,
        output: &mut Watched<W>,
        faults: &mut Watched<F>,
    ) -> u8
        ensures status { IsOfCheck result }
        ensures tells { TellsSurvey telling.now.form found.now.found (stream_of W.contents output.old output.new)
            (stream_of F.contents faults.old faults.new) result }
        ensures schema { self.new.declared ≡ self.old.declared }
        ensures highest { self.new.highest ≡ max self.old.highest result }
    {
        let status = write_survey(alloc, &self.schema, found, telling, output, faults);
        self.highest = self.highest.max(status);
        status
    }

    /// Reads a file, and writes what `check_numbered` writes of it, but for why there is no numbered file, which has the form in which
    /// refusals are told, and how many these are behind it where `is_counted`. Answers the status of this file.
    pub fn tell_numbered<R: Read, W: Write, F: Write>(
        &mut self,
        alloc: Global,
        file: &mut Watched<R>,
        telling: &Telling<'_>,
        is_counted: bool,
        output: &mut Watched<W>,
        faults: &mut Watched<F>,
    ) -> u8
        ensures status { IsOfCheck result }
        ensures schema { self.new.declared ≡ self.old.declared }
        ensures highest { self.new.highest ≡ max self.old.highest result }
    {
        let status = tell_file_numbered(
            alloc,
            &self.schema,
            file,
            telling,
            is_counted,
            output,
            faults,
        );
        self.highest = self.highest.max(status);
        status
    }

    /// Writes that memory ran out for a file. Answers the status of this file.
    pub fn tell_no_memory<F: Write>(&mut self, faults: &mut Watched<F>) -> u8
        ensures status { result ≡ failed }
        ensures reports { Reports CommandFault.NoMemory result (stream_of F.contents faults.old faults.new) }
        ensures schema { self.new.declared ≡ self.old.declared }
        ensures highest { self.new.highest ≡ failed }
    {
        self.fail();
        report(&CommandFault::NoMemory, faults)
    }

    /// A file can't be opened.
    pub fn fail(&mut self)
        ensures { self.new ≡ record self.old { highest = failed } }
    {
        self.highest = FAILED;
    }

    /// The highest status.
    pub fn status(&self) -> u8
        ensures status { result ≡ self.now.highest }
        ensures known { IsOfCheck result }
    {
        self.highest
    }
}
