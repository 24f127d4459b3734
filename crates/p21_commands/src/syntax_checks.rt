//! Several files, each read by itself.
ghost use Rattle.std.specs.Prelude.{◌≡◌, ◌⊎◌, ◌+◌, IfOk, max};
ghost use Rattle.p21_spec_basics.specs.Limits.{usual};
ghost use Rattle.p21_commands.specs.Checks.{IsOfCheck};
ghost use Rattle.p21_commands.specs.Fault.{Reports};
ghost use Rattle.p21_commands.specs.Status.{done, failed};
ghost use Rattle.p21_commands.specs.Streams.{stream_of};
ghost use Rattle.p21_commands.specs.Syntax.{EndsReading, IsIllFormedLine, IsTold};
ghost use Rattle.p21_commands.specs.SyntaxAll.{EndsListingAlone};
ghost use Rattle.p21_commands.specs.Tells.{TellsAlone};
ghost use Rattle.p21_stream.specs.Alone.{EndsByRead, ListsAtMost, SurveysAlone};
ghost use Rattle.p21_stream.specs.ReaderInput.{ConsumesAtMost};
ghost use Rattle.p21_stream.specs.Survey.{asked_for};
ghost use Rattle.p21_stream_io.specs.Watch.{one_call_more};
ghost use Rattle.p21_stream_syntax.specs.Reading.{TakesAtMost};

use crate::fault::{CommandFault, report};
use crate::located_alone::write_survey_alone;
use crate::status::{DONE, FAILED};
use crate::syntax::{Details, ToldAlone, syntax_located_command};
use crate::syntax_all::syntax_all_command;
use crate::telling::Telling;
use p21_stream::{LocatedAlone, Watched, survey_alone_located};
use p21_values::{Limits, NoMemory};
use std::alloc::Global;
use std::io::{Read, Write};
use std::marker::Model;

/// Files are read by themselves, one after the other, and the highest of their statuses is kept.
#[derive(Drop)]
pub struct SyntaxChecks {
    highest: u8,
}

impl Model for SyntaxChecks {
    ghost use Rattle.std.specs.Prelude.{ℕ};
    ghost use Rattle.p21_commands.specs.Checks.{IsOfCheck};

    ghost Value = { ℕ };

    ghost view = { λ checks. checks.highest };

    ghost invariant = { λ checks. IsOfCheck checks.highest };
}

impl SyntaxChecks {
    /// No file is read yet.
    pub fn new() -> SyntaxChecks
        ensures { result ≡ done }
    {
        SyntaxChecks { highest: DONE }
    }

    /// Reads a file, and writes what `syntax_command` writes of it. Answers the status of this file, and where it is refused.
    pub fn check<R: Read, W: Write, F: Write>(
        &mut self,
        alloc: Global,
        file: &mut Watched<R>,
        details: Details,
        output: &mut Watched<W>,
        faults: &mut Watched<F>,
    ) -> ToldAlone
        ensures consumed { TakesAtMost (usual.file_source + 1) (R.remaining file.old.inner) (R.remaining file.new.inner) }
        ensures ends { EndsReading (IsTold details) IsIllFormedLine (record {
          input = stream_of R.remaining file.old file.new;
          output = stream_of W.contents output.old output.new;
          faults = stream_of F.contents faults.old faults.new;
        }) result.status }
        ensures highest { self.new ≡ max self.old result.status }
    {
        let told = syntax_located_command(alloc, file, details, output, faults);
        self.highest = self.highest.max(told.status);
        told
    }

    /// Reads a file, and writes what `syntax_all_command` writes of it. Answers the status of this file.
    pub fn check_all<R: Read, W: Write, F: Write>(
        &mut self,
        alloc: Global,
        file: &mut Watched<R>,
        details: Details,
        most: u64,
        output: &mut Watched<W>,
        faults: &mut Watched<F>,
    ) -> u8
        ensures consumed { ConsumesAtMost usual (R.remaining file.old.inner) (R.remaining file.new.inner) }
        ensures ends { EndsListingAlone details most (record {
          input = stream_of R.remaining file.old file.new;
          output = stream_of W.contents output.old output.new;
          faults = stream_of F.contents faults.old faults.new;
        }) result }
        ensures highest { self.new ≡ max self.old result }
    {
        let status = syntax_all_command(alloc, file, details, most, output, faults);
        self.highest = self.highest.max(status);
        status
    }

    /// Surveys a file by itself, up to so many refusals. Nothing is written.
    ///
    /// # Errors
    ///
    /// `NoMemory`.
    pub fn survey<R: Read>(
        &self,
        alloc: Global,
        file: &mut Watched<R>,
        most: u64,
    ) -> Result<LocatedAlone, NoMemory>
        ensures surveys { IfOk result (λ located. SurveysAlone usual (R.remaining file.old.inner) (R.remaining file.new.inner)
            located.found) }
        ensures counted { IfOk result (λ located. ListsAtMost (asked_for most) located.found) }
        ensures consumed { ConsumesAtMost usual (R.remaining file.old.inner) (R.remaining file.new.inner) }
        ensures ends_by_read { IfOk result (λ located. EndsByRead located.found → file.new.failures ≡ one_call_more file.old.failures) }
        ensures failed { IfOk result (λ located. (file.new.failures ≡ file.old.failures)
            ⊎ ((file.new.failures ≡ one_call_more file.old.failures) × EndsByRead located.found)) }
    {
        survey_alone_located(alloc, Limits::usual(), most, file)
    }

    /// Writes what `check_all` writes of a file that is well formed; or why it isn't, with where each refusal stands, and behind that how
    /// many these are where `is_counted`. Answers the status of this file.
    pub fn tell_survey<W: Write, F: Write>(
        &mut self,
        alloc: Global,
        found: &LocatedAlone,
        details: Details,
        telling: &Telling<'_>,
        is_counted: bool,
        output: &mut Watched<W>,
        faults: &mut Watched<F>,
    ) -> u8
        ensures status { IsOfCheck result }
        ensures tells { TellsAlone details telling.now.form is_counted found.now.found (stream_of W.contents output.old output.new)
            (stream_of F.contents faults.old faults.new) result }
        ensures highest { self.new ≡ max self.old result }
    {
        let status = write_survey_alone(alloc, found, details, telling, is_counted, output, faults);
        self.highest = self.highest.max(status);
        status
    }

    /// Writes that memory ran out for a file. Answers the status of this file.
    pub fn tell_no_memory<F: Write>(&mut self, faults: &mut Watched<F>) -> u8
        ensures status { result ≡ failed }
        ensures reports { Reports CommandFault.NoMemory result (stream_of F.contents faults.old faults.new) }
        ensures highest { self.new ≡ failed }
    {
        self.fail();
        report(&CommandFault::NoMemory, faults)
    }

    /// A file can't be opened.
    pub fn fail(&mut self)
        ensures { self.new ≡ failed }
    {
        self.highest = FAILED;
    }

    /// The highest status.
    pub fn status(&self) -> u8
        ensures status { result ≡ self.now }
        ensures known { IsOfCheck result }
    {
        self.highest
    }
}
